//! Reading the inputs of a job, each whole and up to a limit.

ghost use Rattle.std.specs.Prelude.{◌≡◌, ◌≢◌, ℕ, ◌+◌, ◌-◌, ◌<◌, ◌^◌, ◌≤◌, min, true, false, length, IfOk, IfErr, IfSome, IsErrOf, IsSome, IsTrue, ◌↔◌, ◌⊎◌, Ok as OkOf, List};
ghost use Rattle.ec_wire.specs.Stream.{stream, has_failed, taken};
ghost use Rattle.ec_cli_inputs.specs.Input.{ReadsAll, ReadsTooMany, ConsumesAtMost, AreUnits, AnswersUnits, IsInputFault, HasRoom, ReadsInputs};
ghost use Rattle.ec_cli_inputs.specs.Use.{used, here, nobody};
ghost use Rattle.ec_units.specs.Load.{loads_of};
ghost use Rattle.ec_loads.specs.Held.{no_places};
ghost use Rattle.ec_cli_refusals.specs.Refusals.{IsReadFault, out_of_memory};
ghost use Rattle.ec_cert_text.specs.declared.fault.CertFault.TheVariants.{TooLarge};
ghost use Rattle.ec_cli_refusals.specs.declared.refusal.Refusal.TheVariants.{Cert, Read as ReadRefusal};

use ec_cert_text::{CertFault, MOST_BYTES};
use ec_checker::CheckFault;
use ec_cli_refusals::Refusal;
use ec_loads::Loads;
use ec_unit_text::{MOST_BYTES as MOST_UNIT_BYTES, read_units};
use ec_units::Units;
use ec_wire::{Io, IoFault};
use std::alloc::Global;
use std::io::{Empty, Read};

const CHUNK: usize = 4096;

/// The text of a certificate, and the room to check it: the loads of the units, with no place.
#[derive(Drop)]
pub struct Given {
    pub loads: Loads,
    pub text: Vec<u8>,
}

/// What a job has read: its units, and a certificate where it reads one.
#[derive(Drop)]
pub struct Inputs {
    pub units: Units,
    pub given: Option<Given>,
}

/// Reads all there is, if it has at most `limit` bytes. Of more, `limit + 1` bytes are read, and no more.
pub fn read_all<R: Read>(alloc: Global, input: &mut Io<R>, limit: usize) -> Result<Vec<u8>, Refusal>
    requires { limit < 2 ^ 32 }
    ensures ok { IfOk result (λ v. ReadsAll (R.remaining (stream input.old)) limit v.items) }
    ensures kinds { IfErr result IsReadFault }
    ensures large { IsErrOf result Refusal.TooLarge → ReadsTooMany (R.remaining (stream input.old)) limit }
    ensures read { IsErrOf result Refusal.Read → has_failed input.new ≡ true }
    ensures failed { result ≢ Err Refusal.Read → has_failed input.new ≡ has_failed input.old }
    ensures consumed { ConsumesAtMost (R.remaining (stream input.old)) (R.remaining (stream input.new)) (limit + 1) }
    ensures taken { taken input.new ≤ taken input.old + (limit + 1) }
{
    let mut bytes = Vec::new(alloc);
    let mut chunk = [0u8; CHUNK];
    'fill: while bytes.len() <= limit {
        let want = CHUNK.min(limit + 1 - bytes.len());
        match input.read(&mut chunk[..want]) {
            Ok(0) => return Ok(bytes),
            Ok(count) => bytes.extend_from_slice(&chunk[..count])?,
            Err(IoFault) => return Err(Refusal::Read),
        }
    }
    Err(Refusal::TooLarge)
}

/// The units that the reader has. At most 1,048,577 bytes are read.
fn units_of<R: Read>(alloc: Global, input: &mut Io<R>) -> Result<Units, Refusal>
    requires { has_failed input.old ≡ false }
    ensures told { has_failed input.new ≡ false → IfSome (R.remaining (stream input.old)) (AnswersUnits result) }
    ensures valid { IfOk result (λ _. IfSome (R.remaining (stream input.old)) AreUnits) }
    ensures read { has_failed input.new ≡ true → result ≡ Err Refusal.Read }
    ensures consumed { ConsumesAtMost (R.remaining (stream input.old)) (R.remaining (stream input.new)) 1048577 }
    ensures taken { taken input.new ≤ taken input.old + 1048577 }
{
    let bytes = read_all(alloc, input, MOST_UNIT_BYTES)?;
    Ok(read_units(alloc, &bytes)?)
}

/// Reads the text of a certificate, at most 67,108,864 bytes. Of one that is too long 67,108,865 are read, and no more.
///
/// # Errors
///
/// That it is too long, that memory ran out over its bytes, or that a read failed.
pub fn cert_text<C: Read>(alloc: Global, input: &mut Io<C>) -> Result<Vec<u8>, Refusal>
    requires { has_failed input.old ≡ false }
    ensures ok { IfOk result (λ v. IfSome (C.remaining (stream input.old)) (λ all. v.items ≡ all)) }
    ensures err { has_failed input.new ≡ false → IfErr result (λ r.
        (r ≡ out_of_memory) ⊎ ((r ≡ Cert TooLarge) × ReadsTooMany (C.remaining (stream input.old)) 67108864)) }
    ensures read { has_failed input.new ≡ true → result ≡ Err Refusal.Read }
    ensures consumed { ConsumesAtMost (C.remaining (stream input.old)) (C.remaining (stream input.new)) 67108865 }
    ensures taken { taken input.new ≤ taken input.old + 67108865 }
{
    match read_all(alloc, input, MOST_BYTES) {
        Err(Refusal::TooLarge) => Err(Refusal::Cert(CertFault::TooLarge)),
        read => read,
    }
}

/// The units that the first reader has, their loads with no place, and the text of the certificate that the second one
/// has. The certificate isn't read before the units are right and the room to check it is there.
fn parts<R: Read, C: Read>(
    alloc: Global,
    units: &mut Io<R>,
    cert: &mut Io<C>,
) -> Result<(Units, Loads, Vec<u8>), Refusal>
    requires units { has_failed units.old ≡ false }
    requires cert { has_failed cert.old ≡ false }
    ensures empty { IfOk result (λ found. found.1 ≡ record { loads = loads_of found.0.units; slots = found.0.slots; places = no_places (loads_of found.0.units) }) }
    ensures said { has_failed units.new ≡ false → IfOk result (λ found. IfSome (R.remaining (stream units.old)) (AnswersUnits (OkOf found.0))) }
    ensures text { IfOk result (λ found. IfSome (C.remaining (stream cert.old)) (λ all. found.2.items ≡ all)) }
    ensures err { has_failed units.new ≡ false → has_failed cert.new ≡ false → IfErr result (λ r. IfSome (R.remaining (stream units.old)) (λ bytes.
        IfSome (C.remaining (stream cert.old)) (λ text. IsInputFault bytes text r))) }
    ensures some { has_failed units.new ≡ false → IfErr result (λ r. IfSome (R.remaining (stream units.old)) (λ bytes. (r ≡ ReadRefusal) ⊎ ((text : List ℕ) × IsInputFault bytes text r))) }
    ensures read { has_failed units.new ≡ true → result ≡ Err Refusal.Read }
    ensures cert_read { has_failed cert.new ≡ true → result ≡ Err Refusal.Read }
    ensures kept { has_failed units.new ≡ true → cert.new ≡ cert.old }
    ensures first { IfSome (R.remaining (stream units.old)) (λ bytes. ¬ (AreUnits bytes) → cert.new ≡ cert.old) }
    ensures consumed { ConsumesAtMost (R.remaining (stream units.old)) (R.remaining (stream units.new)) 1048577 }
    ensures taken { taken units.new ≤ taken units.old + 1048577 }
    ensures cert_consumed { ConsumesAtMost (C.remaining (stream cert.old)) (C.remaining (stream cert.new)) 67108865 }
    ensures cert_taken { taken cert.new ≤ taken cert.old + 67108865 }
{
    let line = units_of(alloc, units)?;
    let Ok(loads) = Loads::new(alloc, &line) else {
        return Err(Refusal::Check(CheckFault::OutOfMemory));
    };
    let text = cert_text(alloc, cert)?;
    Ok((line, loads, text))
}

/// Reads the units of a job that reads no certificate: at most 1,048,577 bytes.
pub fn read_alone<R: Read>(alloc: Global, units: &mut Io<R>) -> Result<Inputs, Refusal>
    requires { has_failed units.old ≡ false }
    ensures read { ReadsInputs {C = Empty} (used R.remaining units.old units.new) nobody result }
    ensures none { IfOk result (λ i. i.given ≡ None) }
{
    let units = units_of(alloc, units)?;
    Ok(Inputs { units, given: None })
}

/// Reads the units of a job, and then the certificate: at most 1,048,577 bytes of the one and 67,108,865 of the other. The
/// certificate isn't read before the units are right and the room to check it is there.
pub fn read_both<R: Read, C: Read>(
    alloc: Global,
    units: &mut Io<R>,
    cert: &mut Io<C>,
) -> Result<Inputs, Refusal>
    requires units { has_failed units.old ≡ false }
    requires cert { has_failed cert.old ≡ false }
    ensures read { ReadsInputs (used R.remaining units.old units.new) (here (used C.remaining cert.old cert.new)) result }
    ensures given { IfOk result (λ i. IsSome i.given) }
    ensures room { IfOk result HasRoom }
{
    let (units, loads, text) = parts(alloc, units, cert)?;
    let given = Some(Given { loads, text });
    Ok(Inputs { units, given })
}
