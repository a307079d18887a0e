//! The exit status of a run, and what refuses a job or words.

ghost use Rattle.std.specs.Prelude.{◌≡◌, true, false};
ghost use Rattle.std.specs.Io.KnownBytes.{Appends};
ghost use Rattle.ec_wire.specs.Stream.{stream, has_failed, WritesFront};
ghost use Rattle.ec_cli_inputs.specs.Use.{used};
ghost use Rattle.ec_cli_run.specs.Runs.{Tells, usage};
ghost use Rattle.ec_cli_text.specs.Output.{refused};

use ec_cli_refusals::{Refusal, refusal_line};
use ec_wire::{Io, WriteFault};
use std::io::Write;

/// The exit status of a run: 0 optimal, least or done, 1 no plan, 2 unproved or at least, 3 refused input, 4 reading, writing, memory, a
/// ring or a thread failed, 5 words that are no command line.
#[derive(Clone, Copy, Debug, PartialEq, Eq)]
pub struct Status {
    pub code: u8,
}

/// Writes bytes whole; where that fails, the status is 4.
pub(crate) fn write_status<W: Write>(text: &mut Io<W>, bytes: &[u8], code: u8) -> Status
    requires { has_failed text.old ≡ false }
    ensures all { has_failed text.new ≡ false → (result.code ≡ code) × Appends (W.contents (stream text.old)) (W.contents (stream text.new)) bytes.now }
    ensures front { WritesFront (W.contents (stream text.old)) (W.contents (stream text.new)) bytes.now }
    ensures failed { has_failed text.new ≡ true → result.code ≡ 4 }
{
    match text.write_whole(bytes) {
        Ok(()) => Status { code },
        Err(WriteFault) => Status { code: 4 },
    }
}

/// Writes the line that refuses whole, with its status; takes no memory.
pub fn refuse<W: Write>(refusal: Refusal, text: &mut Io<W>) -> Status
    requires { has_failed text.old ≡ false }
    ensures { Tells (λ w. w ≡ refused refusal) (used W.contents text.old text.new) result.code }
{
    let line = refusal_line(refusal);
    write_status(text, line.as_slice(), refusal.code())
}

/// Says why words are no command line, by this text, with status 5.
pub fn refuse_words<W: Write>(out: &mut Io<W>, text: &str) -> Status
    requires { has_failed out.old ≡ false }
    ensures { Tells (λ w. w ≡ usage text.now) (used W.contents out.old out.new) result.code }
{
    write_status(out, text.as_bytes(), 5)
}
