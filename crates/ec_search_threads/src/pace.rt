//! How a worker goes on between its pieces.

ghost use Rattle.std.specs.Prelude.{◌≤◌};

use crossbeam_utils::Backoff;
use crossbeam_utils::sync::{EventCount, Key};
use std::sync::Wait;

/// The most nodes of a worker's first grant.
const FIRST_GRANT: u32 = 64;

/// The most nodes of one grant.
pub(crate) const MOST_GRANT: u32 = 4096;

/// The most nodes that a worker asks for at a time, and how often in a row nothing could be handed out to it yet.
#[derive(Drop)]
pub(crate) struct Pace {
    pub(crate) most: u32,
    pub(crate) vain: Backoff,
    pub ghost some: { 1 ≤ most },
}

impl Pace {
    /// That of a worker which has done nothing.
    pub(crate) fn new() -> Pace {
        Pace {
            most: FIRST_GRANT,
            vain: Backoff::new(),
        }
    }

    /// Says to the others, once the worker has asked in vain for a while, that it is about to sleep. What is given is let go
    /// before anything is explored.
    pub(crate) fn announced<'b>(&self, bell: &'b EventCount) -> Option<Key<'b>> {
        if self.vain.is_completed() {
            Some(bell.prepare_wait())
        } else {
            None
        }
    }

    /// Waits a moment, longer each time; where it was announced, until a worker reports a piece or gives it back after that.
    pub(crate) fn wait<R: Wait>(&self, rt: &R, announced: Option<Key<'_>>) {
        match announced {
            Some(key) => key.wait(rt),
            None => self.vain.snooze(),
        }
    }

    /// A piece was handed out.
    pub(crate) fn go_on(&self) {
        self.vain.reset();
    }

    /// The worker has spent so many nodes more; it asks for a quarter of them more from then on. So a small number of nodes is
    /// handed out bit by bit, to all workers.
    pub(crate) fn grow(&mut self, spent: u64) {
        let grown = u64::from(self.most).saturating_add(spent / 4);
        self.most = grown.min(u64::from(MOST_GRANT)) as u32;
    }
}
