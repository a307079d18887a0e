//! What to do after a search: whether its plan fits, what would help one without a proof, and whether its certificate can be read
//! again.

use crate::again::{Again, Command};
use crate::cycle::{Cycle, USE};
use crate::help::{add_other_rules, help};
use ec_cert_text::MOST_BYTES;
use ec_cli_spots::{PathPiece, is_told_whole};
use ec_outcome::{Cut, Ending};
use ec_text_builder::Draft;
use std::alloc::{AllocError, Global};

/// The most bytes of a certificate that are read.
const MOST_READ: u64 = MOST_BYTES as u64;

/// A certificate that was written.
#[derive(Clone, Copy)]
pub struct Written<'a> {
    /// Where it was written.
    pub path: &'a str,
    /// The path of its units; none where they came on standard input, or from a pipe at a path.
    pub units: Option<&'a str>,
    /// How many bytes it has.
    pub bytes: u64,
    /// How many of them each of its nodes takes.
    pub each: u64,
    /// What its search was asked for, as one that goes on with it is asked again.
    pub again: Again<'a>,
}

/// What became of the certificate of a search or of a merge.
#[derive(Clone, Copy)]
pub enum Filed<'a> {
    /// None was asked for.
    Unasked,
    /// It isn't at its path, which was told, or went to what is no file.
    Missing,
    /// It has so many bytes that no command reads it, and lies beside its path, which was told.
    TooLarge,
    /// It was written.
    There(Written<'a>),
}

impl Written<'_> {
    /// How many nodes a search by such rules may go on with, so that its certificate can be read in most cases: where a node takes more
    /// bytes of this one than is usual, as many as they leave room for.
    fn room(self, strong: bool) -> u64 {
        room_for(self.bytes, self.each, strong)
    }

    /// Whether it has no room for as many nodes as before, or as are usual, so that a certificate of so many may be one that can't be read.
    fn is_short(self, strong: bool) -> bool {
        self.room(strong) < u64::from(self.again.within(u64::MAX).nodes)
    }
}

impl Filed<'_> {
    /// Whether it is there, or beside its path, with so many bytes that no command reads it.
    fn is_too_large(self) -> bool {
        match self {
            Filed::TooLarge => true,
            Filed::There(cert) => cert.bytes > MOST_READ,
            Filed::Unasked | Filed::Missing => false,
        }
    }
}

/// What was found, or given.
#[derive(Clone, Copy)]
pub enum Found {
    /// A plan that is proved to be the best, whose busiest tick costs so many wire bytes.
    Least(u64),
    /// That no plan is legal.
    NoPlan,
    /// A plan that was given, whose busiest tick costs so many wire bytes.
    Given(u64),
    /// No proof.
    Unproved(Ending),
}

/// What was asked for, where what would help hangs on that.
#[derive(Clone, Copy, PartialEq, Eq)]
pub enum Asked {
    /// All of a tree, with fewer nodes and minutes than may be asked for.
    Whole,
    /// All of a tree, with as many nodes or minutes as may be asked for.
    Most,
    /// A part of a tree's open leaves.
    Part,
    /// What certificates show together.
    Merged,
}

/// How many nodes a search may go on with from a certificate of so many bytes, so that its own can be read in most cases: a node takes
/// at most 13 bytes of it by the strong rules, and else 10, but for few searches. In thousands (own profile).
pub fn room_beside(bytes: u64, strong: bool) -> u64 {
    room_for(bytes, 0, strong)
}

/// The same where a node takes so many bytes, if that is more than it takes in most certificates.
fn room_for(bytes: u64, each: u64, strong: bool) -> u64 {
    let usual = if strong { 13 } else { 10 };
    MOST_READ.saturating_sub(bytes) / each.max(usual).max(1) / 1000 * 1000
}

/// A search, or a merge, that ended without a proof.
#[derive(Clone, Copy)]
struct Search<'a> {
    ending: Ending,
    filed: Filed<'a>,
    asked: Asked,
}

impl Search<'_> {
    /// Adds what the level says of each plan.
    fn add_level(self, out: &mut Draft) {
        let level = self.ending.level;
        match self.ending.best {
            None => out.add(format_args!(
                "If there is a plan, its busiest tick costs at least {level} bytes.\n"
            )),
            Some(best) if best == level => out.add(format_args!(
                "No plan's busiest tick costs less than {level} bytes, so none is better.\nIt is not told as optimal, since its search is not closed.\n"
            )),
            Some(_) => out.add(format_args!(
                "No plan's busiest tick costs less than {level} bytes.\n"
            )),
        }
    }

    /// Adds how many nodes one may go on with from a certificate that has too little room for as many as before.
    fn add_room(self, out: &mut Draft, written: Written<'_>) {
        let (bytes, room) = (written.bytes, written.room(self.ending.strong));
        out.add(format_args!(
            "The certificate has {bytes} bytes, and at most {MOST_READ} are read: "
        ));
        if room == 0 {
            out.add("what goes on with it may have more, and is then refused.\n");
        } else if self.asked == Asked::Merged {
            out.add(format_args!("go on with {room} nodes or less, in all parts together.\n"));
        } else {
            out.add(format_args!("go on with --nodes {room} or less.\n"));
        }
    }

    /// Adds how one goes on from a certificate that was written and leaves room.
    fn add_onward(self, out: &mut Draft, written: Written<'_>) {
        let (cert, units) = (written.path, written.units);
        let again = written.again.within(written.room(self.ending.strong));
        let paths = [Some(cert), units, again.places];
        if !paths.iter().all(|path| path.is_none_or(is_told_whole)) {
            return out.add(
                "The command resume or merge goes on with its certificate, whose path, or that of the units or of their places, has characters that aren't told as they are.\n",
            );
        }
        // Where the workers' notes don't agree, one worker goes on.
        let workers = match self.ending.cut {
            Cut::Journal => 1,
            _ => again.workers,
        };
        let again = Some(Again { workers, ..again }).filter(|_| self.asked != Asked::Part);
        let command = Command { cert, units, again };
        out.add(format_args!("The command {command} "));
        out.add(match (self.asked, self.ending.cut) {
            (Asked::Whole | Asked::Most, Cut::Memory) =>
                "goes on with this search, and counts new nodes alone.\nIt reads the certificate too, and so needs more memory than this run had.\n",
            (Asked::Whole | Asked::Most, _) =>
                "goes on with this search, and counts new nodes alone.\n",
            (Asked::Part, _) =>
                "merges it: add a --cert for each of the others, and an --out for what they show together.\n",
            (Asked::Merged, _) =>
                "goes on with these leaves; on many machines each has --part I/N and an --out of its own.\n",
        });
    }

    /// Adds how one could go on if a certificate were asked for.
    fn add_unasked(self, out: &mut Draft) {
        out.add(match self.asked {
            Asked::Whole | Asked::Most =>
                "With --out PATH the certificate of this search is written, and the command resume --cert PATH goes on with it.\n",
            Asked::Part =>
                "With --out PATH its certificate is written, and the command merge merges it with the others.\n",
            Asked::Merged =>
                "With --out PATH the merged certificate is written, and the command resume --cert PATH goes on with it.\n",
        });
    }

    /// Adds what is proved of each plan, what would help, if that doesn't make a certificate larger that is too large, and how one
    /// goes on.
    fn add_unproved(self, out: &mut Draft) {
        let Search {
            ending,
            filed,
            asked,
        } = self;
        let is_too_large = filed.is_too_large();
        let is_short = asked != Asked::Part
            && matches!(filed, Filed::There(cert) if cert.is_short(ending.strong));
        self.add_level(out);
        let is_full = is_short
            && matches!(filed, Filed::There(cert) if cert.room(ending.strong) == 0);
        let leaves_room = !(is_too_large || is_full || (is_short && ending.cut == Cut::Budget));
        if leaves_room || asked == Asked::Merged || ending.cut == Cut::Journal {
            out.add(help(ending, asked));
        }
        add_other_rules(out, ending, asked, !matches!(filed, Filed::Unasked));
        match filed {
            Filed::There(cert) if !is_too_large => {
                if !is_full {
                    self.add_onward(out, cert);
                }
                if is_short {
                    self.add_room(out, cert);
                }
            }
            Filed::Unasked => self.add_unasked(out),
            Filed::There(_) | Filed::Missing | Filed::TooLarge => {}
        }
    }

    /// Adds what its end is good for, what is known of each plan of a line, with the level that its units alone give where that is greater,
    /// what would help, and how one goes on; less where the line isn't known.
    fn add_ending(mut self, out: &mut Draft, cycle: Option<Cycle<'_>>) {
        let Some(cycle) = cycle else {
            if self.ending.best.is_some() {
                out.add(USE);
            }
            return self.add_unproved(out);
        };
        if cycle.is_overfull() {
            cycle.add_none(out);
            return out.add("It is not told as no plan, since its search is not closed.\n");
        }
        if let Some(best) = self.ending.best {
            cycle.add_use(out, best);
        }
        let least = self.ending.level.max(cycle.least());
        if cycle.is_beyond(least) {
            return cycle.add_beyond(out, least);
        }
        if self.ending.best.is_some_and(|best| cycle.is_beyond(best)) {
            cycle.add_unknown(out, least);
        }
        let level = cycle.least();
        if level > self.ending.level {
            cycle.add_least(out);
            if self.ending.best == Some(level) && level == cycle.mean.cost {
                return out.add(format_args!(
                    "No plan's busiest tick costs less than {level} bytes, so none is better.\nIt is not told as optimal, since its certificate does not show that. No longer search is needed.\n"
                ));
            }
            self.ending.level = level;
        }
        self.add_unproved(out);
    }
}

/// Adds that a certificate can't be read again, where that wasn't told, and what gives one that can.
fn add_too_large(out: &mut Draft, filed: Filed<'_>, asked: Asked) {
    if let Filed::There(Written { path, bytes, .. }) = filed {
        out.add(format_args!(
            "The certificate in {} has {bytes} bytes. At most {MOST_READ} are read: each command refuses it.\n",
            PathPiece(path)
        ));
    }
    out.add(if asked == Asked::Merged {
        "Merge fewer parts, or parts of fewer nodes: that gives a smaller certificate.\n"
    } else {
        "A smaller --nodes gives a smaller certificate.\n"
    });
}

/// What to do after a search, or after certificates were merged, in a few sentences, each a line. Less where the units aren't known. Only
/// want of memory is an error (own profile).
pub fn counsel(
    alloc: Global,
    found: Found,
    cycle: Option<Cycle<'_>>,
    filed: Filed<'_>,
    asked: Asked,
) -> Result<String, AllocError> {
    let mut out = Draft::new(alloc);
    match (found, cycle) {
        (Found::Unproved(ending), _) => Search {
            ending,
            filed,
            asked,
        }
        .add_ending(&mut out, cycle),
        (Found::NoPlan, Some(cycle)) => cycle.add_none(&mut out),
        (Found::Least(busiest), Some(cycle)) if cycle.is_beyond(busiest) => {
            cycle.add_beyond(&mut out, busiest);
        }
        (Found::Given(busiest), Some(cycle)) if cycle.is_beyond(busiest) => {
            cycle.add_use(&mut out, busiest);
        }
        (Found::Least(_) | Found::NoPlan | Found::Given(_), _) => {}
    }
    if filed.is_too_large() {
        add_too_large(&mut out, filed, asked);
    }
    out.finish()
}
