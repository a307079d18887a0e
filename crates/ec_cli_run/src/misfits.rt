//! The line that refuses a certificate which doesn't fit with the first.

ghost use Rattle.std.specs.Prelude.{◌≡◌, ◌≤◌, ◌++◌, false, length};
ghost use Rattle.ec_wire.specs.Stream.{has_failed};
ghost use Rattle.ec_cli_inputs.specs.Use.{used};
ghost use Rattle.ec_cli_run.specs.Merging.{misfit_output, misfit_text};
ghost use Rattle.ec_cli_run.specs.Runs.{Tells};

use crate::job::{Status, write_status};
use ec_cert_merge::Misfit;
use ec_text_line::{LineText, push_bytes, push_number};
use ec_wire::Io;
use std::io::Write;

/// Adds why a certificate doesn't fit: code and name.
fn push_misfit(line: &mut LineText, misfit: Misfit)
    requires { length line.old.items ≤ 8 }
    ensures items { line.new.items ≡ line.old.items ++ misfit_text misfit }
    ensures len { length line.new.items ≤ 16 }
{
    match misfit {
        Misfit::Order => push_bytes(line, b"M1 Order"),
        Misfit::Rules => push_bytes(line, b"M2 Rules"),
    }
}

/// The line that refuses the certificate of this number, from 1; takes no memory.
fn misfit_line(misfit: Misfit, number: usize) -> LineText
    ensures { result.items ≡ (misfit_output misfit number).text }
{
    let mut line = LineText::new();
    push_bytes(&mut line, b"refused ");
    push_misfit(&mut line, misfit);
    push_bytes(&mut line, b" ");
    push_number(&mut line, number);
    line.push(b'\n');
    line
}

/// Writes the line that refuses the certificate of this number, from 1, with status 3.
pub(crate) fn refuse_misfit<W: Write>(misfit: Misfit, number: usize, text: &mut Io<W>) -> Status
    requires { has_failed text.old ≡ false }
    ensures { Tells (λ w. w ≡ misfit_output misfit number) (used W.contents text.old text.new) result.code }
{
    let line = misfit_line(misfit, number);
    write_status(text, line.as_slice(), 3)
}
