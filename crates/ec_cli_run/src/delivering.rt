//! The last step of a run: what is told goes to its writers.

ghost use Rattle.std.specs.Prelude.{◌≡◌, true, false, IfOk, IfErr};
ghost use Rattle.ec_wire.specs.Stream.{has_failed};
ghost use Rattle.ec_cli_inputs.specs.Use.{used};
ghost use Rattle.ec_cli_answers.specs.Planned.{Gets, GetsFront};
ghost use Rattle.ec_cli_answers.specs.Told.{HasText, IsWritable, file_bytes, told as told_of};
ghost use Rattle.ec_cli_run.specs.Runs.{IsDelivered, Tells};

use crate::job::{Status, refuse, write_status};
use ec_cert_text::write_cert;
use ec_cli_answers::{File, Told};
use ec_cli_refusals::Refusal;
use ec_wire::{Io, WriteFault};
use std::io::Write;

/// Writes a file whole, if there is one.
pub(crate) fn write_file<O: Write>(file: &File, out: &mut Io<O>) -> Result<(), WriteFault>
    requires fresh { has_failed out.old ≡ false }
    requires text { HasText file.now }
    ensures ok { IfOk result (λ _. (has_failed out.new ≡ false) × Gets O.contents out.old out.new (file_bytes file.now)) }
    ensures err { IfErr result (λ _. has_failed out.new ≡ true) }
    ensures front { GetsFront O.contents out.old out.new (file_bytes file.now) }
{
    match file {
        File::Nothing => Ok(()),
        File::Cert(cert) => write_cert(cert, out),
        File::Capture(bytes) => out.write_whole(bytes.as_slice()),
    }
}

/// Writes what is told without its file: its text or the refusal, whole, with its status.
pub(crate) fn deliver_text<W: Write>(told: Result<Told, Refusal>, text: &mut Io<W>) -> Status
    requires { has_failed text.old ≡ false }
    ensures { Tells (λ w. w ≡ told_of told) (used W.contents text.old text.new) result.code }
{
    match &told {
        Ok(told) => write_status(text, told.answer.text.as_bytes(), told.answer.code),
        Err(refusal) => refuse(*refusal, text),
    }
}

/// Writes the file of what is told, if it has one, and then its text or the refusal with its status; where the file can't be
/// written, the refusal that says so.
pub(crate) fn deliver_to<W: Write, O: Write>(
    told: Result<Told, Refusal>,
    out: &mut Io<O>,
    text: &mut Io<W>,
) -> Status
    requires out { has_failed out.old ≡ false }
    requires text { has_failed text.old ≡ false }
    requires writable { IsWritable told }
    ensures { Tells (IsDelivered told (used O.contents out.old out.new)) (used W.contents text.old text.new) result.code }
{
    match told {
        Ok(told) => match write_file(&told.file, out) {
            Ok(()) => write_status(text, told.answer.text.as_bytes(), told.answer.code),
            Err(WriteFault) => refuse(Refusal::Write, text),
        },
        Err(refusal) => refuse(refusal, text),
    }
}
