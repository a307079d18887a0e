//! A log, step by step.

use ec_book::Step;
use std::alloc::{AllocError, Global};

/// What is known of a piece: free, or taken by a worker with a grant, or ended.
#[derive(Clone, Copy, PartialEq, Eq)]
enum Now {
    Free,
    Taken(usize, u32),
    Ended,
}

/// Pieces, value and nodes after the steps so far.
#[derive(Drop)]
struct Replay {
    pieces: Vec<Now>,
    value: Option<u64>,
    spent: u64,
}

/// The piece of this number, if there is one.
fn at(pieces: &[Now], piece: u64) -> Now {
    let at = piece as usize;
    if at < pieces.len() {
        pieces[at]
    } else {
        Now::Ended
    }
}

/// Whether a value is below another; each is below none.
fn is_below(value: u64, other: Option<u64>) -> bool {
    match other {
        Some(other) => value < other,
        None => true,
    }
}

impl Replay {
    /// Makes the piece of this number so.
    fn put(&mut self, piece: u64, now: Now) {
        let at = piece as usize;
        if at < self.pieces.len() {
            self.pieces[at] = now;
        }
    }

    /// Ends a piece and adds free ones; false where that may not be.
    fn report(
        &mut self,
        worker: usize,
        piece: u64,
        spent: u64,
        first: u64,
        count: u64,
    ) -> Result<bool, AllocError> {
        let Now::Taken(owner, grant) = at(self.pieces.as_slice(), piece) else {
            return Ok(false);
        };
        if owner != worker || spent > u64::from(grant) || first != self.pieces.len() as u64 {
            return Ok(false);
        }
        self.put(piece, Now::Ended);
        for _ in 0..count {
            self.pieces.push(Now::Free)?;
        }
        self.spent = self.spent.saturating_add(spent);
        Ok(true)
    }

    /// Makes a step; false where it may not be.
    fn step(&mut self, step: Step) -> Result<bool, AllocError> {
        match step {
            Step::Took {
                worker,
                piece,
                grant,
            } => {
                let free = at(self.pieces.as_slice(), piece) == Now::Free;
                self.put(piece, Now::Taken(worker, grant));
                Ok(free)
            }
            Step::Reported {
                worker,
                piece,
                spent,
                first,
                count,
            } => self.report(worker, piece, spent, first, count),
            Step::Better { value, .. } => {
                let below = is_below(value, self.value);
                self.value = Some(value);
                Ok(below)
            }
            Step::Back { worker, piece } => match at(self.pieces.as_slice(), piece) {
                Now::Taken(owner, _) => {
                    self.put(piece, Now::Free);
                    Ok(owner == worker)
                }
                _ => Ok(false),
            },
        }
    }
}

/// The nodes that a log spends, where each of its steps may be made in turn.
pub(crate) fn replayed(alloc: Global, log: &[Step]) -> Result<Option<u64>, AllocError> {
    let mut pieces = Vec::new(alloc);
    pieces.push(Now::Free)?;
    let mut state = Replay {
        pieces,
        value: None,
        spent: 0,
    };
    for step in log {
        if !state.step(*step)? {
            return Ok(None);
        }
    }
    Ok(Some(state.spent))
}

/// How many different workers made a step.
pub(crate) fn workers(log: &[Step]) -> usize {
    let mut seen = [false; 16];
    let mut count = 0usize;
    for step in log {
        let worker = match step {
            Step::Took { worker, .. } => *worker,
            Step::Reported { worker, .. } => *worker,
            Step::Better { worker, .. } => *worker,
            Step::Back { worker, .. } => *worker,
        };
        if worker < 16 && !seen[worker] {
            seen[worker] = true;
            count = count.saturating_add(1);
        }
    }
    count
}
