//! What came of a command line or of a merge, how it is written, and how it is reported.

ghost use Rattle.std.specs.Prelude.{◌≡◌, false};
ghost use Rattle.ec_wire.specs.Stream.{has_failed};
ghost use Rattle.ec_cli_inputs.specs.Use.{used};
ghost use Rattle.ec_cli_text.specs.Output.{Written, refused};
ghost use Rattle.ec_cli_run.specs.Runs.{Tells, reported};

use crate::job::{Status, refuse, write_status};
use ec_cli_answers::Told;
use ec_cli_files::FileFault;
use ec_cli_refusals::Refusal;
use ec_wire::Io;
use std::io::Write;

/// What came of a command line, or of a merge.
#[derive(Debug, Drop)]
pub struct Report<E> {
    /// What was told, or why nothing was.
    pub told: Result<Told, E>,
    /// Why the certificate or the capture file that it tells isn't at its path, if it isn't. The text is then the refusal of
    /// a failed write.
    pub fault: Option<FileFault>,
    /// The exit status of what was written.
    pub status: Status,
}

/// Why nothing is told.
pub(crate) trait Reason: Copy {
    ghost line: { Self → Written };

    /// Writes the line that says so whole, with its status; takes no memory.
    fn refuse<W: Write>(self, text: &mut Io<W>) -> Status
        requires { has_failed text.old ≡ false }
        ensures { Tells (λ w. w ≡ line self) (used W.contents text.old text.new) result.code };
}

impl Reason for Refusal {
    ghost line = { refused };

    fn refuse<W: Write>(self, text: &mut Io<W>) -> Status {
        refuse(self, text)
    }
}

/// Writes what is told, or why nothing is, or that its file couldn't be written.
fn write_report<E: Reason, W: Write>(
    told: &Result<Told, E>,
    fault: &Option<FileFault>,
    text: &mut Io<W>,
) -> Status
    requires { has_failed text.old ≡ false }
    ensures { Tells (λ w. w ≡ reported E.line told.now fault.now) (used W.contents text.old text.new) result.code }
{
    match told {
        Ok(told) => match fault {
            Some(_) => refuse(Refusal::Write, text),
            None => write_status(text, told.answer.text.as_bytes(), told.answer.code),
        },
        Err(why) => why.refuse(text),
    }
}

/// Writes what came of a line or of a merge, and reports it.
pub(crate) fn deliver_report<E: Reason, W: Write>(
    told: Result<Told, E>,
    fault: Option<FileFault>,
    text: &mut Io<W>,
) -> Report<E>
    requires { has_failed text.old ≡ false }
    ensures told { result.told ≡ told }
    ensures fault { result.fault ≡ fault }
    ensures text { Tells (λ w. w ≡ reported E.line result.told result.fault) (used W.contents text.old text.new) result.status.code }
{
    let status = write_report(&told, &fault, text);
    Report {
        told,
        fault,
        status,
    }
}
