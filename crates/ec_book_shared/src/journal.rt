//! Whether the receipts of the seats are the entries of the log.

ghost use Rattle.std.specs.Prelude.{◌≡◌, ◌↔◌, ◌==◌, IsTrue, map, All};
ghost use Rattle.std.specs.List.{list_any};
ghost use Rattle.ec_book_shared.specs.Receipts.{worker_of as worker_spec, AreOwn, are_known as known_spec};
ghost use Rattle.ec_book_shared.specs.Closing.{IsJournal};

use crate::search::Search;
use crate::seat::Seat;
use ec_book::Step;

/// Whose step it is.
fn worker_of(step: &Step) -> usize
    ensures { result ≡ worker_spec step.now }
{
    match step {
        Step::Took { worker, .. } => *worker,
        Step::Reported { worker, .. } => *worker,
        Step::Better { worker, .. } => *worker,
        Step::Back { worker, .. } => *worker,
    }
}

/// Whether two steps are one.
fn is_same(this: &Step, that: &Step) -> bool
    ensures { IsTrue result ↔ (this.now ≡ that.now) }
{
    this == that
}

/// Whether these are the worker's entries of the log, in order, each once. Takes no memory.
fn are_own(worker: usize, receipts: &[Step], log: &[Step]) -> bool
    ensures { IsTrue result ↔ AreOwn worker receipts.now log.now }
{
    let mut left = receipts;
    for step in log {
        if worker_of(step) == worker {
            let Some((receipt, later)) = left.split_first() else {
                return false;
            };
            if !is_same(receipt, step) {
                return false;
            }
            left = later;
        }
    }
    left.is_empty()
}

/// Whether each seat's receipts are its entries of the log.
fn all_own<S: Search>(seats: &[Seat<'_, '_, S>], log: &[Step]) -> bool
    ensures { IsTrue result ↔ All (λ s. AreOwn s.worker s.receipts log.now) seats.now }
{
    for seat in seats {
        if !are_own(seat.worker(), seat.receipts(), log) {
            return false;
        }
    }
    true
}

/// Whether one of the seats is this worker's.
fn has_seat<S: Search>(seats: &[Seat<'_, '_, S>], worker: usize) -> bool
    ensures { result ≡ list_any (λ w. w == worker) (map (λ s. s.worker) seats.now) }
{
    for seat in seats {
        if seat.worker() == worker {
            return true;
        }
    }
    false
}

/// Whether each entry is the step of the worker of one of these seats.
fn are_known<S: Search>(seats: &[Seat<'_, '_, S>], log: &[Step]) -> bool
    ensures { result ≡ known_spec (map (λ s. s.worker) seats.now) log.now }
{
    for step in log {
        if !has_seat(seats, worker_of(step)) {
            return false;
        }
    }
    true
}

/// Whether each seat's receipts are its entries of the log, in order, each once, and each entry is a seat's. Takes no
/// memory.
pub(crate) fn is_journal<S: Search>(seats: &[Seat<'_, '_, S>], log: &[Step]) -> bool
    ensures { IsTrue result ↔ IsJournal seats.now log.now }
{
    all_own(seats, log) && are_known(seats, log)
}
