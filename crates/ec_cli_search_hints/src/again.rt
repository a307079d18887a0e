//! How a search goes on as the last one did.

use ec_cli_command::{MOST_NODES, USUAL_NODES};
use ec_cli_spots::{PIECE, Word};
use std::fmt;

/// What a search that goes on is asked for, beside its certificate and its units. It is told as the options of a command.
#[derive(Clone, Copy)]
pub struct Again<'a> {
    /// How many workers search.
    pub workers: usize,
    /// How many nodes it may visit.
    pub nodes: u32,
    /// After how many minutes it ends; none where time doesn't end it.
    pub minutes: Option<u32>,
    /// Where the units with the places of its plan are written, if anywhere.
    pub places: Option<&'a str>,
}

impl<'a> Again<'a> {
    /// One worker, and the usual nodes.
    pub fn usual() -> Again<'a> {
        Again {
            workers: 1,
            nodes: USUAL_NODES,
            minutes: None,
            places: None,
        }
    }

    /// The same for as many nodes as before, and at least the usual ones, but for no more than there is room for.
    pub(crate) fn within(self, room: u64) -> Again<'a> {
        let room = u32::try_from(room).unwrap_or(u32::MAX);
        Again {
            nodes: self.nodes.max(USUAL_NODES).min(room),
            ..self
        }
    }
}

impl fmt::Display for Again<'_> {
    fn fmt<W: fmt::Write>(&self, f: &mut fmt::Formatter<W>) -> fmt::Result {
        if self.workers > 1 {
            write!(f, " --workers {}", self.workers)?;
        }
        if self.nodes != self.minutes.map_or(USUAL_NODES, |_| MOST_NODES) {
            write!(f, " --nodes {}", self.nodes)?;
        }
        if let Some(minutes) = self.minutes {
            write!(f, " --minutes {minutes}")?;
        }
        match self.places {
            Some(places) => write!(f, " --places {}", Word(places)),
            None => Ok(()),
        }
    }
}

/// A command on a certificate, as a piece that a shell takes as it stands, and whether its units are to come on standard input.
#[derive(Clone, Copy)]
pub(crate) struct Command<'a> {
    pub cert: &'a str,
    pub units: Option<&'a str>,
    /// How the search goes on with the certificate, and writes its own to the same path; none where the certificate is merged with
    /// others, whose paths are to be added.
    pub again: Option<Again<'a>>,
}

impl fmt::Display for Command<'_> {
    fn fmt<W: fmt::Write>(&self, f: &mut fmt::Formatter<W>) -> fmt::Result {
        let cert = Word(self.cert);
        match self.again {
            Some(again) => write!(f, "{PIECE}ecplan resume --cert {cert} --out {cert}{again}")?,
            None => write!(f, "{PIECE}ecplan merge --cert {cert}")?,
        }
        match self.units {
            Some(units) => write!(f, " {}{PIECE}", Word(units)),
            None => write!(f, "{PIECE} with its units on standard input"),
        }
    }
}
