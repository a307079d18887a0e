//! The progress of a search, told on standard error while it runs.

use ec_cli_command::{Effort, Line};
use ec_workers::Gate;
use std::rt::Clock;
use std::sync::atomic::{AtomicU64, Ordering};
use std::time::Instant;

/// The milliseconds that stand for none.
const UNASKED: u64 = u64::MAX;

/// What covers a line on a terminal: the longest one has 54 characters.
pub(crate) const BLANKS: &str = "\r                                                      \r";

/// The milliseconds that a search may take, if time ends it.
fn most_millis(effort: Option<Effort>) -> Option<u64> {
    Some(u64::from(effort?.minutes?).saturating_mul(60_000))
}

/// How the progress is told.
#[derive(Clone, Copy, PartialEq, Eq)]
pub(crate) enum Telling {
    /// Not at all.
    Nothing,
    /// In one line of a terminal, which is written over five times a second.
    Over,
    /// In a line of its own each second.
    Lines,
}

impl Telling {
    /// How the progress of a line is told: of a search alone, on a terminal, or where it is asked for.
    pub(crate) fn of(line: &Line, is_terminal: bool, is_asked: bool) -> Telling {
        match line.effort() {
            Some(_) if is_terminal => Telling::Over,
            Some(_) if is_asked => Telling::Lines,
            _ => Telling::Nothing,
        }
    }

    /// How many milliseconds there are between two lines.
    fn step(self) -> u64 {
        match self {
            Telling::Lines => 1000,
            _ => 200,
        }
    }
}

/// What has been told of a search so far, and what it counts.
#[derive(Drop)]
pub(crate) struct Progress<'a, H> {
    rt: &'a H,
    telling: Telling,
    /// The nodes that the search may visit.
    budget: u32,
    /// The milliseconds that it may take; none where time doesn't end it.
    most: Option<u64>,
    began: Option<Instant>,
    /// The milliseconds at which the search asked for the time first: what it reads may take long to come.
    asked_at: AtomicU64,
    /// How many nodes all workers have visited.
    nodes: AtomicU64,
    /// The milliseconds at which the last line was told.
    told_at: AtomicU64,
}

impl<'a, H: AllocGlobal + Eprint + Clock> Progress<'a, H> {
    /// The progress of a line, of which nothing was told yet.
    pub(crate) fn new(rt: &'a H, line: &Line, telling: Telling) -> Progress<'a, H> {
        let effort = line.effort();
        Progress {
            rt,
            telling,
            budget: effort.map_or(0, |effort| effort.nodes),
            most: most_millis(effort),
            began: Instant::now(rt).ok(),
            asked_at: AtomicU64::new(UNASKED),
            nodes: AtomicU64::new(0),
            told_at: AtomicU64::new(0),
        }
    }

    /// The milliseconds since the search asked for them first.
    fn millis(&self) -> Option<u64> {
        let passed = self.began?.elapsed(self.rt).ok()?;
        let passed = u64::try_from(passed.as_millis()).ok()?;
        let first = self
            .asked_at
            .compare_exchange(UNASKED, passed, Ordering::SeqCst, Ordering::SeqCst);
        Some(match first {
            Ok(_) => 0,
            Err(asked_at) => passed.saturating_sub(asked_at),
        })
    }

    /// Tells a line, with the best value that a worker knows.
    fn tell(&self, value: Option<u64>, millis: u64) {
        let (nodes, seconds) = (self.nodes.load(Ordering::SeqCst), millis / 1000);
        let (budget, alloc) = (self.budget, self.rt.alloc());
        let (front, end) = match self.telling {
            Telling::Over => (BLANKS, ""),
            _ => ("", "\n"),
        };
        let line = match value {
            Some(best) => format!(in alloc;
                "{front}{nodes} of {budget} nodes, best value {best}, {seconds} s{end}"
            ),
            None => format!(in alloc;
                "{front}{nodes} of {budget} nodes, no plan yet, {seconds} s{end}"
            ),
        };
        if let Ok(line) = line {
            let _ = self.rt.eprint(line.as_str());
        }
    }

    /// Tells how far the search is, if that is due and no other worker tells it now.
    fn look(&self, value: Option<u64>) {
        let Some(millis) = self.millis() else {
            return;
        };
        let told_at = self.told_at.load(Ordering::SeqCst);
        if millis.saturating_sub(told_at) < self.telling.step() {
            return;
        }
        let swapped = self
            .told_at
            .compare_exchange(told_at, millis, Ordering::SeqCst, Ordering::SeqCst);
        if swapped.is_ok() {
            self.tell(value, millis);
        }
    }
}

impl<'a, H: AllocGlobal + Eprint + Clock> Gate for Progress<'a, H> {
    fn before(&self, _worker: usize, _piece: u64, _value: Option<u64>) {}

    /// A piece has few thousand nodes, so a line comes in time.
    fn after(&self, _worker: usize, nodes: u64, value: Option<u64>) {
        if self.telling != Telling::Nothing {
            self.nodes.fetch_add(nodes, Ordering::SeqCst);
            self.look(value);
        }
    }

    /// Also where the clock can't be read: a search that time is to end would go on for ever.
    fn is_over(&self) -> bool {
        let Some(most) = self.most else {
            return false;
        };
        match self.millis() {
            Some(millis) => millis >= most,
            None => true,
        }
    }
}
