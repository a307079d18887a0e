//! The certificate of a search.

ghost use Rattle.std.specs.Prelude.{◌≡◌, ℕ, None, IfOk};
ghost use Rattle.ec_cert.specs.Shapes.{cert_view};
ghost use Rattle.ec_checker.specs.Certified.{line_of as line_spec, lines_of as lines_spec};
ghost use Rattle.ec_cert.specs.Shapes.{shape_of};
ghost use Rattle.ec_workers.specs.Outcomes.{proof_version as version_spec};

use ec_cert::{Best, Cert, Order, Tree, UnitLine, UnitLines};
use ec_units::{Name, Unit, Units, bytes_of};
use std::alloc::{AllocError, Global};

/// What a certificate says of a unit.
fn line_of(alloc: Global, unit: &Unit) -> Result<UnitLine, AllocError>
    ensures { IfOk result (λ line. line ≡ line_spec unit.now) }
{
    Ok(UnitLine {
        name: Name::new(String::from_str(alloc, unit.name.as_str())?),
        bytes: bytes_of(unit),
        period: unit.period,
    })
}

/// What a certificate says of the units, in file order. `AllocError` where memory ran out.
pub fn lines_of(alloc: Global, units: &Units) -> Result<UnitLines, AllocError>
    ensures { IfOk result (λ lines. lines ≡ lines_spec units.now.units) }
{
    let all = units.units.as_slice();
    let mut lines = Vec::new(alloc);
    for unit in all {
        lines.push(line_of(alloc, unit)?)?;
    }
    Ok(UnitLines::new(lines))
}

/// The version of the certificate of a search that ended with a proof.
fn proof_version(strong: bool) -> u8
    ensures { result ≡ version_spec strong }
{
    if strong { 4 } else { 2 }
}

/// The certificate of a tree without open leaves, made by the strong rules or in turned time; takes no memory.
pub(crate) fn certificate(
    strong: bool,
    slots: u8,
    units: UnitLines,
    order: Order,
    best: Option<Best>,
    tree: Tree,
) -> Cert
    ensures { cert_view result ≡ record { version = version_spec strong; slots = slots; units = units; order = order; best = best; level = None; tree = shape_of tree } }
{
    Cert {
        version: proof_version(strong),
        slots,
        units,
        order,
        best,
        level: None,
        tree,
    }
}
