//! What comes of certificates that are merged.

ghost use Rattle.std.specs.Prelude.{◌≡◌, ℕ, List, IfOk, IfErr, Ok as OkOf};
ghost use Rattle.ec_units.specs.Load.{loads_of};
ghost use Rattle.ec_loads.specs.Held.{no_places};
ghost use Rattle.ec_cert.specs.Shapes.{cert_view, shape_of};
ghost use Rattle.ec_cert.specs.Versions.{rules_of};
ghost use Rattle.ec_cert_merge.specs.Certs.{IsLesserBest, IsLevelOfBoth, IsMisfit, IsProven, version_by};
ghost use Rattle.ec_cert_merge.specs.Merged.{IsMerged};
ghost use Rattle.ec_cli_refusals.specs.Refusals.{out_of_memory};
ghost use Rattle.ec_cli_inputs.specs.Input.{AnswersUnits};
ghost use Rattle.ec_cli_text.specs.Output.{shown};
ghost use Rattle.ec_cli_answers.specs.Merged.{IsMergeOf, IsWrittenOf};
ghost use Rattle.ec_cli_answers.specs.Told.{HandsOutcome, HasText, file_bytes};

use crate::outcome::tell_outcome;
use crate::told::Told;
use ec_cert::Cert;
use ec_cert_merge::{Misfit, merge, misfit, outcome_of};
use ec_cli_refusals::Refusal;
use ec_loads::Loads;
use ec_units::Units;
use ec_workers::lines_of;
use std::alloc::Global;

/// What two certificates for the units show together, where the checker says yes to both. Takes no memory.
///
/// # Errors
///
/// Why the second doesn't fit with the first.
pub fn joined(units: &Units, first: Cert, second: Cert) -> Result<Cert, Misfit>
    requires first { IsProven units.now.units units.now.slots (cert_view first) }
    requires second { IsProven units.now.units units.now.slots (cert_view second) }
    ensures right { IfOk result (λ both. IsProven units.now.units units.now.slots (cert_view both)) }
    ensures tree { IfOk result (λ both. IsMerged (shape_of first.tree) (shape_of second.tree) (shape_of both.tree)) }
    ensures best { IfOk result (λ both. IsLesserBest first.best second.best both.best) }
    ensures order { IfOk result (λ both. both.order ≡ first.order) }
    ensures rules { IfOk result (λ both. rules_of both.version ≡ rules_of first.version) }
    ensures version { IfOk result (λ both. both.version ≡ version_by (rules_of first.version) both.level) }
    ensures level { IfOk result (λ both. IsLevelOfBoth first.level second.level (shape_of both.tree) both.level) }
    ensures err { IfErr result (IsMisfit (cert_view first) (cert_view second)) }
{
    match misfit(&first, &second) {
        Some(why) => Err(why),
        None => Ok(merge(units, first, second)),
    }
}

/// What is told of a certificate for the units to which the checker says yes, as of a search that ended with it, and the
/// certificate itself. The loads are those of the units, with no place. All that is told is made here, so that memory is
/// wanted no more once a byte is written.
///
/// # Errors
///
/// That memory ran out over it.
pub fn tell_merged(
    alloc: Global,
    units: &Units,
    loads: &mut Loads,
    cert: Cert,
) -> Result<Told, Refusal>
    requires empty { loads.old ≡ record { loads = loads_of units.now.units; slots = units.now.slots; places = no_places (loads_of units.now.units) } }
    requires right { IsProven units.now.units units.now.slots (cert_view cert) }
    ensures told { (bytes : List ℕ) → AnswersUnits (OkOf units.now) bytes → IfOk result (λ t. IsWrittenOf bytes (cert_view cert) (shown t.answer) (file_bytes t.file)) }
    ensures hands { (bytes : List ℕ) → AnswersUnits (OkOf units.now) bytes → IfOk result (HandsOutcome (IsMergeOf bytes (cert_view cert))) }
    ensures text { IfOk result (λ t. HasText t.file) }
    ensures err { IfErr result (λ r. r ≡ out_of_memory) }
{
    let lines = lines_of(alloc, units)?;
    let outcome = outcome_of(alloc, units, cert)?;
    tell_outcome(alloc, units, loads, lines, outcome)
}
