//! The end of a shared book, when its seats are back.

ghost use Rattle.std.specs.Prelude.{◌≡◌, ◌↔◌, IsTrue, IfOk, IfErr, map, sum, vec_len, All};
ghost use Rattle.ec_book_shared.specs.Seats.{IsOf};
ghost use Rattle.ec_book_shared.specs.Closing.{IsJournal, IsClosed, IsCloseFault};

use crate::compare::are_of;
use crate::fault::CloseFault;
use crate::journal::is_journal;
use crate::locked::Locked;
use crate::search::Search;
use crate::seat::Seat;
use crate::shared::Shared;
use ec_book::{Book, Finished};
use ec_units::Load;
use std::sync::ledger::Share;

/// Whether all seats are for these bytes and periods, this slot count and this order.
fn are_all_of<S: Search>(seats: &[Seat<'_, '_, S>], loads: &[Load], slots: u8, order: &[u8]) -> bool
    ensures { IsTrue result ↔ All (λ s. IsOf loads.now slots order.now s) seats.now }
{
    for seat in seats {
        if !are_of(loads, slots, order, seat.units(), seat.order()) {
            return false;
        }
    }
    true
}

/// The shares of all seats in one.
fn merged<S: Search>(seats: Vec<Seat<'_, '_, S>>, none: Share<S>) -> Share<S>
    requires { (none.parts ≡ 0) × (none.amount ≡ 0) }
    ensures parts { result.parts ≡ vec_len seats.entry }
    ensures amount { result.amount ≡ sum (map (λ s. s.nodes) seats.entry.items) }
{
    let mut all = none;
    for seat in seats {
        let Seat { share, .. } = seat;
        all.merge(share);
    }
    all
}

/// The book, whose nodes are what all shares add up to.
fn counted<S: Search>(locked: Locked<S>, seats: Vec<Seat<'_, '_, S>>) -> Book
    requires { vec_len seats ≡ S.parts }
    ensures same { result ≡ locked.book }
    ensures spent { result.spent ≡ sum (map (λ s. s.nodes) seats.entry.items) }
{
    let Locked {
        book,
        mut total,
        spare,
    } = locked;
    let mut all = merged(seats, spare);
    total.audit(&mut all);
    book
}

/// Ends the book of these seats: the receipts are compared with the log, and the book is finished.
fn ended<S: Search>(locked: Locked<S>, seats: Vec<Seat<'_, '_, S>>) -> Result<Finished, CloseFault>
    requires count { vec_len seats ≡ S.parts }
    requires ours { All (λ s. IsOf S.loads S.slots S.order s) seats.items }
    ensures ok { IfOk result (λ f. IsClosed S.loads S.slots S.order S.rules S.given S.given_value S.nodes S.part seats.entry.items f × IsJournal seats.entry.items f.log) }
    ensures err { IfErr result (IsCloseFault S.loads S.slots S.order S.rules S.given S.given_value S.nodes S.part seats.entry.items) }
{
    let is_right = is_journal(seats.as_slice(), locked.book.log());
    let Ok(finished) = counted(locked, seats).finish() else {
        unreachable!()
    };
    if is_right {
        Ok(finished)
    } else {
        Err(CloseFault::Journal(finished))
    }
}

impl<S: Search> Shared<S> {
    /// Ends the book, when all of its seats are back: other units are answered before the journal. It takes time in
    /// proportion to the whole, and no memory.
    pub fn close(self, seats: Vec<Seat<'_, '_, S>>) -> Result<Finished, CloseFault>
        requires { vec_len seats ≡ S.parts }
        ensures ok { IfOk result (λ f. IsClosed S.loads S.slots S.order S.rules S.given S.given_value S.nodes S.part seats.entry.items f × IsJournal seats.entry.items f.log) }
        ensures err { IfErr result (IsCloseFault S.loads S.slots S.order S.rules S.given S.given_value S.nodes S.part seats.entry.items) }
    {
        let Shared {
            lock,
            loads,
            order,
            ..
        } = self;
        let slots = loads.slots();
        if !are_all_of(seats.as_slice(), loads.loads(), slots, order.as_slice()) {
            return Err(CloseFault::OtherUnits);
        }
        ended(lock.into_inner(), seats)
    }
}
