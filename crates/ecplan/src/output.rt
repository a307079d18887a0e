//! Standard output, and what is told where it takes no text.

use crate::progress::BLANKS;
use ec_cli_endings::tell_untold;
use ec_cli_explain::shown_text;
use ec_cli_paths::Host;
use ec_cli_refusals::Refusal;
use ec_cli_run::{refuse, refuse_words};
use ec_unit_text::UnitFault;
use ec_wire::Io;
use std::alloc::{AllocError, Global};
use std::io;
use std::io::{ErrorKind, Write as _};

/// Standard output, before whose first bytes what stands in the line of a terminal is taken away. It remembers why a write to
/// it failed.
#[derive(Drop)]
pub(crate) struct Output<'a, H> {
    rt: &'a H,
    /// Whether something may stand in the line of the terminal.
    covers: bool,
    fault: Option<io::Error>,
}

impl<'a, H> Output<'a, H> {
    /// Standard output, to which nothing was written yet.
    pub(crate) fn new(rt: &'a H, covers: bool) -> Output<'a, H> {
        Output {
            rt,
            covers,
            fault: None,
        }
    }

    /// Why the text isn't there whole. None where it is, and where its reader went away, who is told nothing of it.
    pub(crate) fn fault(&self) -> Option<io::Error> {
        match self.fault {
            Some(error) if error.kind() == ErrorKind::BrokenPipe => None,
            fault => fault,
        }
    }
}

impl<'a, H: Eprint + Print> io::Write for Output<'a, H> {
    fn write(&mut self, bytes: &[u8]) -> io::Result<usize> {
        if self.covers {
            self.covers = false;
            let _ = self.rt.eprint(BLANKS);
        }
        let written = io::writer(self.rt).write(bytes);
        match &written {
            Ok(0) if !bytes.is_empty() => self.fault = Some(io::Error::from(ErrorKind::WriteZero)),
            Ok(_) => {}
            Err(error) => self.fault = Some(*error),
        }
        written
    }

    fn flush(&mut self) -> io::Result<()> {
        Ok(())
    }
}

/// A text, with a sign in place of each of its control characters, if it has some.
fn plain_words(alloc: Global, text: &str) -> Result<String, AllocError> {
    let has_control = text
        .chars()
        .any(|letter| letter.is_control() && letter != '\n');
    if has_control {
        return shown_text(alloc, text);
    }
    String::from_str(alloc, text)
}

/// Refuses for want of memory; tells why, where it can't. The status.
pub(crate) fn refuse_memory<H: Host + Print>(rt: &H) -> u8 {
    refuse_line(rt, Refusal::Unit(UnitFault::OutOfMemory))
}

/// Writes the line that refuses; tells why, where it can't. The status.
pub(crate) fn refuse_line<H: Host + Print>(rt: &H, refusal: Refusal) -> u8 {
    let mut output = Output::new(rt, false);
    let status = refuse(refusal, &mut Io::new(&mut output));
    tell_untold(rt, output.fault());
    status.code
}

/// Says by this text why words are no command line; tells why, where it can't. What a terminal would take as a command isn't
/// told as it stands. The status.
pub(crate) fn refuse_text<H: Host + Print>(rt: &H, text: &str) -> u8 {
    let Ok(text) = plain_words(rt.alloc(), text) else {
        return refuse_memory(rt);
    };
    let mut output = Output::new(rt, false);
    let status = refuse_words(&mut Io::new(&mut output), text.as_str());
    tell_untold(rt, output.fault());
    status.code
}
