//! The checker.

ghost use Rattle.std.specs.Prelude.{◌≡◌, ◌≢◌, Option, IfOk, IfErr, Err};
ghost use Rattle.ec_units.specs.Load.{loads_of};
ghost use Rattle.ec_cert.specs.declared.cert.Best.{Best};
ghost use Rattle.ec_cert.specs.IsBestPlan.{value_of as value_of_best};
ghost use Rattle.ec_cert.specs.Shapes.{cert_view};
ghost use Rattle.ec_cert.specs.Versions.{rules_of};
ghost use Rattle.ec_loads.specs.Held.{no_places};
ghost use Rattle.ec_symmetry.specs.Ruled.{line_rules};
ghost use Rattle.ec_checker.specs.declared.fault.CheckFault.TheVariants.{OutOfMemory};
ghost use Rattle.ec_checker.specs.Certified.{IsAnswer, IsClaim, IsLevelIn, IsLevelFault, verdict_of};

use crate::best::value_of;
use crate::fault::{CheckFault, Verdict};
use crate::order::is_order;
use crate::same::is_for;
use crate::walk::walk;
use ec_bounds::Rest;
use ec_cert::Cert;
use ec_loads::Loads;
use ec_symmetry::Rules;
use ec_tree::{law_levels_bound, law_trees_bound};
use ec_units::Units;
use std::alloc::Global;

/// By which rules the trees of certificates of this version are made.
pub fn rules_for(version: u8) -> Rules
    ensures { line_rules result ≡ rules_of version }
{
    if 3 < version {
        return Rules::Strong;
    }
    if 1 < version {
        return Rules::Turned;
    }
    Rules::Plain
}

/// Whether the level, if there is one, isn't above the value.
fn level_within(level: Option<u64>, value: Option<u64>) -> Result<(), CheckFault>
    ensures ok { IfOk result (λ _. IsLevelIn level value) }
    ensures fault { IfErr result (IsLevelFault level value) }
{
    match (level, value) {
        (Some(level), Some(value)) if value < level => Err(CheckFault::Level(level, value)),
        _ => Ok(()),
    }
}

/// What a certificate with this level, and a best plan of this value, shows where nothing in it is at fault.
fn verdict_at(level: Option<u64>, value: Option<u64>) -> Verdict
    ensures { (best : Option Best) → value ≡ value_of_best best → result ≡ verdict_of best level }
{
    match level {
        Some(level) => Verdict::AtLeast(level),
        None => match value {
            Some(value) => Verdict::Least(value),
            None => Verdict::NoPlan,
        },
    }
}

/// Whether a certificate, whoever made it, shows that its plan is the best of all legal plans of these units, or
/// that none is legal; or where it has a level, that every legal plan has a tick that costs at least this. A yes says so
/// of every legal plan; a no is the first fault: of the units, the order, the plan, its stated cost, the level, and then
/// of the tree, node by node.
///
/// Where there is a level, whatever the version, the tree may have open leaves, at each of which the level has to hold
/// by a tick of its places or by the average; a level above the value is a fault, and the value itself is never shown
/// then, not even where no leaf is open. Without a level an open leaf doesn't hold.
///
/// The tree is judged by the rules of the certificate's own version: in version 1 the children of a prefix are made by
/// slots alone, in versions 2 and 3 time is turned, which leaves the first unit of the order phase 0 alone, and from
/// version 4 on they are made by the strong rules. A leaf by weights, which no text of version 1 has, is judged alike in
/// all of them; merges, counts and groups hold by the strong rules alone.
///
/// The loads are those of the units, with no place, and are so again afterwards. Takes no memory, and visits each
/// node once.
pub fn check_in(loads: &mut Loads, units: &Units, cert: &Cert) -> Result<Verdict, CheckFault>
    requires { loads.old ≡ record { loads = loads_of units.now.units; slots = units.now.slots; places = no_places (loads_of units.now.units) } }
    ensures same { loads.new ≡ loads.old }
    ensures sound { IfOk result (IsClaim (loads_of units.now.units) units.now.slots cert.now.best) }
    ensures exact { IsAnswer units.now.units units.now.slots (cert_view cert.now) result }

    // Memory is never what is wanting.
    ensures memory { result ≢ Err OutOfMemory }
{
    law_trees_bound();
    law_levels_bound();
    if !is_for(units, cert) {
        return Err(CheckFault::OtherUnits);
    }
    let order = cert.order.as_slice();
    if !is_order(order, units.units.as_slice().len()) {
        return Err(CheckFault::Order);
    }
    let value = value_of(units, &cert.best)?;
    level_within(cert.level, value)?;
    let mut rest = Rest::all(units);
    let rules = rules_for(cert.version);
    walk(
        loads, &mut rest, rules, value, cert.level, order, &cert.tree, 0,
    )?;
    Ok(verdict_at(cert.level, value))
}

/// What `check_in` answers, over loads that are made for it. It takes memory once, for the places of the units; `OutOfMemory` where that
/// ran out.
pub fn check(alloc: Global, units: &Units, cert: &Cert) -> Result<Verdict, CheckFault>
    ensures sound { IfOk result (IsClaim (loads_of units.now.units) units.now.slots cert.now.best) }
    ensures exact { IsAnswer units.now.units units.now.slots (cert_view cert.now) result }
{
    let mut loads = Loads::new(alloc, units)?;
    check_in(&mut loads, units, cert)
}
