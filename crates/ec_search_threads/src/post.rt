//! A seat of the search that a shared book is for.

ghost use Rattle.std.specs.Prelude.{◌≡◌, ◌≢◌, ◌≤◌, IfOk, IfErr, IfSome, length};
ghost use Rattle.ec_units.specs.Load.{loads_of};
ghost use Rattle.ec_symmetry.specs.Orders.{IsOrder};
ghost use Rattle.ec_book_shared.specs.Seats.{IsOf};
ghost use Rattle.ec_search_queues.specs.Lowest.{IsAtMost, IsLowered};
ghost use Rattle.ec_search_threads.specs.Turns.{IsStart};
ghost use Rattle.ec_search_threads.specs.declared.ended.Ended.TheVariants.{Done};

use crate::ended::Ended;
use crate::pieces::{opened, published};
use crossbeam_utils::sync::EventCount;
use ec_book::{BookFault, Taken};
use ec_book_shared::{Search, Seat, Shared};
use ec_cert::MOST_BUSIEST;
use ec_loads::Plan;
use ec_search_queues::{Bound, Reader, Tickets};
use ec_units::Units;
use std::sync::Wait;

/// A seat that is for the search of its shared book, with what the worker knows beside the book: numbers of pieces, the least
/// value that was published, and what wakes workers that sleep since nothing could be handed out to them.
#[derive(Drop)]
pub(crate) struct Post<'u, 'o, 'b, S: Search> {
    pub(crate) seat: Seat<'u, 'o, S>,
    pub(crate) bound: &'b Bound,
    pub(crate) bell: &'b EventCount,
    pub(crate) reader: Reader,
    pub(crate) tickets: Tickets,
    pub ghost ours: { IsOf S.loads S.slots S.order seat },
    pub ghost reads: { reader.bound ≡ bound.now },
}

impl<'u, 'o, 'b, S: Search> Post<'u, 'o, 'b, S> {
    /// The worker's number.
    pub(crate) fn worker(&self) -> usize
        ensures { result ≡ self.now.seat.worker }
    {
        self.seat.worker()
    }

    /// The units of the search.
    pub(crate) fn units(&self) -> &'u Units
        ensures loads { loads_of result.now.units ≡ S.loads }
        ensures slots { result.now.slots ≡ S.slots }
    {
        self.seat.units()
    }

    /// The order of the search.
    pub(crate) fn order(&self) -> &'o [u8]
        ensures value { result.now ≡ S.order }
        ensures each { IsOrder (length S.loads) result.now }
    {
        self.seat.order()
    }

    /// Asks for the lowest free piece, for at most `most` nodes.
    pub(crate) fn take<R: Wait>(
        &mut self,
        rt: &R,
        shared: &Shared<S>,
        most: u32,
    ) -> Result<Taken, Ended>
        requires { 1 ≤ most }
        ensures start { IfOk result (IsStart S.loads S.slots S.order S.rules) }
        ensures ended { IfErr result (λ e. e ≢ Done) }
    {
        match shared.take(rt, &mut self.seat, most) {
            Ok(taken) => Ok(taken),
            Err(BookFault::OutOfMemory) => Err(Ended::Memory),
            Err(_) => Err(Ended::Refused),
        }
    }

    /// Asks for the piece of the worker's next ticket, for at most `most` nodes; none where that piece can't be handed
    /// out, and the ticket is dropped. Where there is no ticket it asks for the lowest free piece.
    pub(crate) fn ask<R: Wait>(
        &mut self,
        rt: &R,
        shared: &Shared<S>,
        most: u32,
    ) -> Result<Option<Taken>, Ended>
        requires { 1 ≤ most }
        ensures start { IfOk result (λ o. IfSome o (IsStart S.loads S.slots S.order S.rules)) }
        ensures ended { IfErr result (λ e. e ≢ Done) }
    {
        match self.tickets.next_ticket() {
            Some(piece) => self.take_piece(rt, shared, piece, most),
            None => match self.take(rt, shared, most) {
                Ok(taken) => Ok(Some(taken)),
                Err(ended) => Err(ended),
            },
        }
    }

    /// Asks for a piece by its number, for at most `most` nodes; none where it isn't free. Where no node is left to hand out
    /// with it, it asks for the lowest free piece, so that no other ticket is tried in vain.
    fn take_piece<R: Wait>(
        &mut self,
        rt: &R,
        shared: &Shared<S>,
        piece: u64,
        most: u32,
    ) -> Result<Option<Taken>, Ended>
        requires { 1 ≤ most }
        ensures start { IfOk result (λ o. IfSome o (IsStart S.loads S.slots S.order S.rules)) }
        ensures ended { IfErr result (λ e. e ≢ Done) }
    {
        match shared.take_piece(rt, &mut self.seat, piece, most) {
            Ok(Taken::Piece(took)) => Ok(Some(Taken::Piece(took))),
            Ok(Taken::Later) | Ok(Taken::Done) => match self.take(rt, shared, most) {
                Ok(taken) => Ok(Some(taken)),
                Err(ended) => Err(ended),
            },
            Err(BookFault::NotFree) => Ok(None),
            Err(BookFault::OutOfMemory) => Err(Ended::Memory),
            Err(_) => Err(Ended::Refused),
        }
    }

    /// Makes a ticket of a piece; it is dropped where memory for it is refused.
    pub(crate) fn push(&mut self, piece: u64) {
        let _ = self.tickets.push(piece);
    }

    /// Makes tickets of the pieces that the worker's last step made, if it is a report.
    pub(crate) fn push_opened(&mut self) {
        let (first, end) = opened(self.seat.receipts());
        for piece in first..end {
            self.push(piece);
        }
    }

    /// The least value that was published, in wire bytes; it is at most what this worker read or published before.
    pub(crate) fn read(&mut self) -> Option<u64>
        ensures same { self.new.seat ≡ self.old.seat }
        ensures falls { IsAtMost result self.old.reader.known }
        ensures known { self.new.reader.known ≡ result }
    {
        self.bound.read(&mut self.reader)
    }

    /// Publishes a value, in wire bytes, if a legal plan can have it.
    pub(crate) fn lower(&mut self, value: u64)
        ensures same { self.new.seat ≡ self.old.seat }
        ensures lowered { value ≤ 12304 → IsLowered self.old.reader value self.new.reader }
        ensures falls { IsAtMost self.new.reader.known self.old.reader.known }
    {
        if value <= MOST_BUSIEST {
            self.bound.lower(&mut self.reader, value);
        }
    }

    /// Publishes the value of the worker's last step, if it is a better plan.
    pub(crate) fn publish(&mut self)
        ensures same { self.new.seat ≡ self.old.seat }
        ensures falls { IsAtMost self.new.reader.known self.old.reader.known }
    {
        if let Some(value) = published(self.seat.receipts()) {
            self.lower(value);
        }
    }

    /// Offers a plan, and publishes what its busiest tick costs where it is better; why the worker ends, if it does.
    pub(crate) fn offer<R: Wait>(
        &mut self,
        rt: &R,
        shared: &Shared<S>,
        plan: Plan,
    ) -> Option<Ended> {
        match shared.better(rt, &mut self.seat, plan) {
            Ok(()) => {
                self.publish();
                None
            }
            Err((BookFault::NotBetter(_), _)) => None,
            Err((BookFault::OutOfMemory, _)) => Some(Ended::Memory),
            Err(_) => Some(Ended::Refused),
        }
    }
}
