//! A certificate's text, which is read and checked.

ghost use Rattle.std.specs.Prelude.{◌≡◌, IfOk, IfErr};
ghost use Rattle.ec_units.specs.Load.{loads_of};
ghost use Rattle.ec_loads.specs.Held.{no_places};
ghost use Rattle.ec_cert.specs.Shapes.{cert_view};
ghost use Rattle.ec_cert.specs.WellFormed.{IsWellFormed};
ghost use Rattle.ec_cert_merge.specs.Certs.{IsProven};
ghost use Rattle.ec_checker.specs.Certified.{verdict_of};
ghost use Rattle.ec_cli_answers.specs.RightTexts.{IsNo, IsRightText, IsWrongText};

use ec_cert::Cert;
use ec_cert_text::read_cert;
use ec_checker::{Verdict, check_in};
use ec_cli_refusals::Refusal;
use ec_loads::Loads;
use ec_units::Units;
use std::alloc::Global;

/// A certificate to which the checker says yes, and what it says.
#[derive(Debug, Drop)]
pub struct Right {
    /// The certificate.
    pub cert: Cert,
    /// What the checker said of it.
    pub verdict: Verdict,
}

/// A certificate for the units where the checker says yes. The loads are those of the units, with no place, and are so again
/// afterwards.
fn checked(loads: &mut Loads, units: &Units, cert: Cert) -> Result<Right, Refusal>
    requires empty { loads.old ≡ record { loads = loads_of units.now.units; slots = units.now.slots; places = no_places (loads_of units.now.units) } }
    requires formed { IsWellFormed (cert_view cert) }
    ensures same { loads.new ≡ loads.old }
    ensures ok { IfOk result (λ right. (cert_view right.cert ≡ cert_view cert) × IsProven units.now.units units.now.slots (cert_view right.cert)) }
    ensures verdict { IfOk result (λ right. right.verdict ≡ verdict_of right.cert.best right.cert.level) }
    ensures err { IfErr result (IsNo units.now (cert_view cert)) }
{
    match check_in(loads, units, &cert) {
        Ok(verdict) => Ok(Right { cert, verdict }),
        Err(fault) => Err(Refusal::Check(fault)),
    }
}

/// The certificate that a text says for the units, where the checker says yes. The loads are those of the units, with no
/// place, and are so again afterwards. The text is dropped once it is read.
///
/// # Errors
///
/// As of a check: the first fault of the text, or of the certificate, or that memory ran out over it.
pub fn right_cert(
    alloc: Global,
    loads: &mut Loads,
    units: &Units,
    text: Vec<u8>,
) -> Result<Right, Refusal>
    requires empty { loads.old ≡ record { loads = loads_of units.now.units; slots = units.now.slots; places = no_places (loads_of units.now.units) } }
    ensures same { loads.new ≡ loads.old }
    ensures ok { IfOk result (λ right. IsRightText units.now text.items (cert_view right.cert)) }
    ensures verdict { IfOk result (λ right. right.verdict ≡ verdict_of right.cert.best right.cert.level) }
    ensures err { IfErr result (IsWrongText units.now text.items) }
{
    let read = read_cert(alloc, text.as_slice());
    drop(text);
    let cert = read?;
    checked(loads, units, cert)
}
