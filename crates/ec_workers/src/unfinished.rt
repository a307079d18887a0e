//! The certificate of a search that ended without a proof.

ghost use Rattle.std.specs.Prelude.{◌≡◌, length};
ghost use Rattle.ec_units.specs.Load.{loads_of};
ghost use Rattle.ec_loads.specs.Held.{no_places};
ghost use Rattle.ec_loads.specs.Line.{line_by};
ghost use Rattle.ec_loads.specs.Search.{IsPartialTree};
ghost use Rattle.ec_symmetry.specs.Orders.{IsOrder};
ghost use Rattle.ec_cert.specs.IsBestPlan.{value_of, IsBestPlan};
ghost use Rattle.ec_cert.specs.Shapes.{cert_view, shape_of};
ghost use Rattle.ec_checker.specs.Certified.{lines_of as lines_spec};
ghost use Rattle.ec_checker.specs.Levels.{IsGreatestLevel};
ghost use Rattle.ec_checker.specs.declared.fault.Verdict.TheVariants.{AtLeast};
ghost use Rattle.ec_outcome.specs.Searched.{searched_by};
ghost use Rattle.ec_workers.specs.Outcomes.{partial_for, partial_version as version_spec, Shows};

use ec_cert::{Best, Cert, Order, Tree, UnitLines};
use ec_checker::law_faults_refute;
use ec_units::Units;

/// The version of the certificate of a search that ended without a proof.
fn partial_version(strong: bool) -> u8
    ensures { result ≡ version_spec strong }
{
    if strong { 4 } else { 3 }
}

/// The certificate of the best plan, if any, and of the tree so far, made by the strong rules or in turned time, whose
/// greatest level (wire bytes) this is, with what a certificate says of the units: of version 4 or 3. The checker answers
/// for it that each legal plan has a tick that costs at least the level,
/// and a search can go on with it. Takes no memory.
pub fn partial(
    units: &Units,
    lines: UnitLines,
    order: Order,
    best: Option<Best>,
    tree: Tree,
    strong: bool,
    level: u64,
) -> Cert
    requires lines { lines ≡ lines_spec units.now.units }
    requires order { IsOrder (length units.now.units) order }
    requires best { IsBestPlan (loads_of units.now.units) units.now.slots best }
    requires tree { IsPartialTree (line_by (searched_by strong) (loads_of units.now.units) units.now.slots) (value_of best) (shape_of tree) (no_places (loads_of units.now.units)) order }
    requires level { IsGreatestLevel (line_by (searched_by strong) (loads_of units.now.units) units.now.slots) (value_of best) (shape_of tree) order level }
    ensures cert { cert_view result ≡ partial_for units.now.units units.now.slots strong order best level (shape_of tree) }
    ensures shows { Shows units.now.units units.now.slots (cert_view result) (AtLeast level) }
{
    law_faults_refute();
    Cert {
        version: partial_version(strong),
        slots: units.slots,
        units: lines,
        order,
        best,
        level: Some(level),
        tree,
    }
}
