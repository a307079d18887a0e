//! Whether a certificate is for these units.

ghost use Rattle.std.specs.Prelude.{◌≡◌, ◌↔◌, IsTrue};
ghost use Rattle.ec_cert.specs.Shapes.{cert_view};
ghost use Rattle.ec_checker.specs.Certified.{IsFor, line_of, lines_of};

use ec_cert::{Cert, UnitLine};
use ec_units::{Unit, Units, bytes_of};

/// Whether the line says what the unit is.
fn is_line_of(line: &UnitLine, unit: &Unit) -> bool
    ensures { IsTrue result ↔ (line.now ≡ line_of unit.now) }
{
    line.name.as_str() == unit.name.as_str()
        && line.bytes == bytes_of(unit)
        && line.period == unit.period
}

/// Whether the lines say what the units are, one by one.
fn are_lines_of(lines: &[UnitLine], units: &[Unit]) -> bool
    ensures { IsTrue result ↔ (lines.now ≡ lines_of units.now) }
{
    if lines.len() != units.len() {
        return false;
    }
    for i in 0..lines.len() {
        if !is_line_of(&lines[i], &units[i]) {
            return false;
        }
    }
    true
}

/// Whether the slots, and the names, bytes and periods of the units, are the certificate's.
pub(crate) fn is_for(units: &Units, cert: &Cert) -> bool
    ensures { IsTrue result ↔ IsFor units.now.units units.now.slots (cert_view cert.now) }
{
    cert.slots == units.slots && are_lines_of(cert.units.as_slice(), units.units.as_slice())
}
