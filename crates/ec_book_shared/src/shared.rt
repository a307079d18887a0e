//! A book under a lock.

ghost use Rattle.std.specs.Coded.{Coded-set};
ghost use Rattle.std.specs.Prelude.{◌≡◌, ◌⊎◌, ◌↔◌, ℕ, ◌+◌, ◌<◌, ◌≤◌, IsTrue, IfOk, IfErr, OnOk, IsSome, true, [], length, drop, vec_len};
ghost use Rattle.ec_units.specs.Load.{loads_of};
ghost use Rattle.ec_loads.specs.Line.{line_by};
ghost use Rattle.ec_loads.specs.Search.{IsPartialTree, node_count as node_count_of};
ghost use Rattle.ec_cert.specs.IsBestPlan.{value_of};
ghost use Rattle.ec_cert.specs.Shapes.{shape_of};
ghost use Rattle.ec_symmetry.specs.Orders.{IsOrder, prefix_of};
ghost use Rattle.ec_symmetry.specs.Ruled.{line_rules};
ghost use Rattle.ec_book.specs.Books.{IsBookOf, BeganWith};
ghost use Rattle.ec_book.specs.RulesCode.{rules_code};
ghost use Rattle.ec_book.specs.declared.fault.BookFault.TheVariants.{OutOfMemory};
ghost use Rattle.ec_book.specs.declared.step.Step.TheVariants.{Better, Back};
ghost use Rattle.ec_book.specs.Steps.{IsBelow};
ghost use Rattle.ec_book.specs.Open.{AreOpened};
ghost use Rattle.ec_book.specs.Views.{BookView};
ghost use Rattle.ec_book.specs.Faults.{IsHandedOut, IsPieceHandedOut, IsPieceFault, IsPlanOf, IsOfferFault, IsTakenBy, IsWelcome, IsReportFault};
ghost use Rattle.ec_book_shared.specs.Receipts.{holds};
ghost use Rattle.ec_book_shared.specs.Seats.{AreOf, IsOf, HasSeatBook, IsSeatFault, IsSeatPlanFault, IsBackFault, IsReported, noted, after_taken, first_seats};

use crate::compare::are_of;
use crate::locked::Locked;
use crate::receipts::Receipts;
use crate::search::Search;
use crate::seat::Seat;
use ec_book::{Book, BookFault, Counted, Step, Taken, law_empty_logs_spend_nothing};
use ec_cert::{Best, Subtree};
use ec_loads::{Loads, Plan};
use ec_symmetry::Rules;
use ec_units::{Place, Units};
use std::alloc::{AllocError, Global};
use std::sync::ledger::Blank;
use std::sync::{Mutex, Wait};

/// A book that several workers call, each from its seat. What a call does to the book it does under the lock, as one
/// call of the book. What it can judge, and the memory that its receipt needs, it sees to before.
#[derive(Drop)]
pub struct Shared<S: Search> {
    pub(crate) lock: Mutex<Locked<S>>,
    pub(crate) loads: Loads,
    pub(crate) order: Vec<u8>,
    pub(crate) rules: Rules,
    pub ghost loads_is: { loads.loads ≡ S.loads },
    pub ghost slots_is: { loads.slots ≡ S.slots },
    pub ghost order_is: { order.items ≡ S.order },
    pub ghost rules_is: { line_rules rules ≡ S.rules } by { Coded-set rules_code (line_rules rules) S.rules },
}

impl<S: Search> Shared<S> {
    /// A lock round a book on which nothing has happened, and that many seats (1 to 16), worker 0's first. Where memory
    /// runs out the book is handed back.
    pub fn new<'u, 'o>(
        alloc: Global,
        blank: Blank,
        book: Book,
        units: &'u Units,
        order: &'o [u8],
        seats: usize,
    ) -> Result<(Shared<S>, Vec<Seat<'u, 'o, S>>), (Book, AllocError)>
        requires name { blank.name ≡ S.name }
        requires parts { (blank.parts ≡ S.parts) × (blank.parts ≡ seats) }
        requires few { (1 ≤ seats) × (seats ≤ 16) }
        requires order { IsOrder (length units.now.units) order.now }
        requires search { AreOf S.loads S.slots S.order units.now.units units.now.slots order.now }
        requires book { IsBookOf units.now.units units.now.slots order.now S.rules book }
        requires began { BeganWith S.given S.given_value S.nodes S.part book }
        requires unused { book.log ≡ [] }
        ensures count { IfOk result (λ r. vec_len r.1 ≡ seats) }
        ensures seats { IfOk result (λ r. r.1.items ≡ first_seats units.now.units units.now.slots order.now seats) }
        ensures err { IfErr result (λ e. e.0 ≡ book) }
    {
        let loads = match Loads::new(alloc, units) {
            Ok(loads) => loads,
            Err(error) => return Err((book, error)),
        };
        let copy = match Vec::from_slice(alloc, order) {
            Ok(copy) => copy,
            Err(error) => return Err((book, error)),
        };
        let mut all = match Vec::with_capacity(alloc, seats) {
            Ok(all) => all,
            Err(error) => return Err((book, error)),
        };
        law_empty_logs_spend_nothing();
        let _ = book.log();
        let rules = book.rules();
        let (total, mut spare) = blank.open::<S>();
        for worker in 0..seats {
            let share = spare.split_off(1, 0);
            all.push_reserved(Seat {
                units,
                order,
                worker,
                receipts: Receipts::new(alloc),
                share,
            });
        }
        let lock = Mutex::new(Locked { book, total, spare });
        Ok((
            Shared {
                lock,
                loads,
                order: copy,
                rules,
            },
            all,
        ))
    }

    /// The rules by which the search makes its tree.
    pub fn rules(&self) -> Rules
        ensures { line_rules result ≡ S.rules }
    {
        self.rules
    }

    /// Whether the seat is for the units and the order of the book.
    fn is_for(&self, seat: &Seat<'_, '_, S>) -> bool
        ensures { IsTrue result ↔ IsOf S.loads S.slots S.order seat.now }
    {
        are_of(
            self.loads.loads(),
            self.loads.slots(),
            self.order.as_slice(),
            seat.units,
            seat.order,
        )
    }

    /// Hands out the lowest free piece of the book's part, for at most `most` nodes.
    pub fn take<R: Wait>(
        &self,
        rt: &R,
        seat: &mut Seat<'_, '_, S>,
        most: u32,
    ) -> Result<Taken, BookFault>
        requires { 1 ≤ most }
        ensures ours { OnOk result (IsOf S.loads S.slots S.order seat.old) }
        ensures took { IfOk result (λ t. HasSeatBook seat.old S.rules S.given S.given_value S.nodes S.part (λ b. (n : BookView) × IsHandedOut b seat.old.worker most t n)) }
        ensures made { IfOk result (λ t. seat.new ≡ after_taken seat.old t) }
        ensures err { IfErr result (λ e. IsSeatFault (IsOf S.loads S.slots S.order seat.old) (λ f. f ≡ OutOfMemory) e × (seat.new ≡ seat.old)) }
    {
        if !self.is_for(seat) {
            return Err(BookFault::Stranger);
        }
        if !seat.receipts.make_room() {
            return Err(BookFault::OutOfMemory);
        }
        let answer = self.lock.lock(rt).take(seat.worker, most);
        match answer {
            Ok(taken) => {
                seat.receipts.note_taken(seat.worker, &taken);
                Ok(taken)
            }
            Err(fault) => Err(fault),
        }
    }

    /// Hands out a piece by its number, where it is free and of the book's part, for at most `most` nodes.
    pub fn take_piece<R: Wait>(
        &self,
        rt: &R,
        seat: &mut Seat<'_, '_, S>,
        piece: u64,
        most: u32,
    ) -> Result<Taken, BookFault>
        requires { 1 ≤ most }
        ensures ours { OnOk result (IsOf S.loads S.slots S.order seat.old) }
        ensures took { IfOk result (λ t. HasSeatBook seat.old S.rules S.given S.given_value S.nodes S.part (λ b. (n : BookView) × IsPieceHandedOut b seat.old.worker piece most t n)) }
        ensures made { IfOk result (λ t. seat.new ≡ after_taken seat.old t) }
        ensures err { IfErr result (λ e. IsSeatFault (IsOf S.loads S.slots S.order seat.old) (λ f. HasSeatBook seat.old S.rules S.given S.given_value S.nodes S.part (λ b. IsPieceFault b piece f)) e × (seat.new ≡ seat.old)) }
    {
        if !self.is_for(seat) {
            return Err(BookFault::Stranger);
        }
        let room = seat.receipts.make_room();
        let answer = self
            .lock
            .lock(rt)
            .take_piece(seat.worker, piece, most, room);
        match answer {
            Ok(taken) => {
                seat.receipts.note_taken(seat.worker, &taken);
                Ok(taken)
            }
            Err(fault) => Err(fault),
        }
    }

    /// Offers a plan, which becomes the best one where it is legal and its busiest tick costs less than the value.
    pub fn better<R: Wait>(
        &self,
        rt: &R,
        seat: &mut Seat<'_, '_, S>,
        plan: Plan,
    ) -> Result<(), (BookFault, Plan)>
        ensures ours { OnOk result (IsOf S.loads S.slots S.order seat.old) }
        ensures made { OnOk result ((v : ℕ) × IsPlanOf (loads_of seat.old.units) seat.old.slots plan.places v
            × HasSeatBook seat.old S.rules S.given S.given_value S.nodes S.part (λ b. IsBelow v (value_of b.best)) × (seat.new ≡ noted seat.old (Better seat.old.worker v))) }
        ensures err { IfErr result (λ e. IsSeatFault (IsOf S.loads S.slots S.order seat.old) (IsSeatPlanFault seat.old S.rules S.given S.given_value S.nodes S.part plan.places) e.0 × (e.1 ≡ plan) × (seat.new ≡ seat.old)) }
    {
        if !self.is_for(seat) {
            return Err((BookFault::Stranger, plan));
        }
        let busiest = match self.loads.plan_cost(plan.places.as_slice()) {
            Ok(busiest) => busiest,
            Err(illegal) => return Err((BookFault::Illegal(illegal), plan)),
        };
        match self.improve(rt, seat, Best { busiest, plan }) {
            Ok(()) => Ok(()),
            Err((fault, Best { plan, .. })) => Err((fault, plan)),
        }
    }

    /// Offers a plan that is known to be legal, with what its busiest tick costs. It becomes the best one where that is
    /// less than the value.
    pub fn improve<R: Wait>(
        &self,
        rt: &R,
        seat: &mut Seat<'_, '_, S>,
        best: Best,
    ) -> Result<(), (BookFault, Best)>
        requires plan { IsPlanOf (loads_of seat.old.units) seat.old.slots best.plan.places best.busiest }
        ensures ours { OnOk result (IsOf S.loads S.slots S.order seat.old) }
        ensures below { OnOk result (HasSeatBook seat.old S.rules S.given S.given_value S.nodes S.part (λ b. IsBelow best.busiest (value_of b.best))) }
        ensures made { OnOk result (seat.new ≡ noted seat.old (Better seat.old.worker best.busiest)) }
        ensures err { IfErr result (λ e. IsSeatFault (IsOf S.loads S.slots S.order seat.old) (λ f. HasSeatBook seat.old S.rules S.given S.given_value S.nodes S.part (λ b. IsOfferFault (value_of b.best) best.busiest f)) e.0 × (e.1 ≡ best) × (seat.new ≡ seat.old)) }
    {
        if !self.is_for(seat) {
            return Err((BookFault::Stranger, best));
        }
        let value = best.busiest;
        let worker = seat.worker;
        let room = seat.receipts.make_room();
        let answer = self.lock.lock(rt).improve(worker, best, room);
        match answer {
            Ok(()) => {
                seat.receipts.note(Step::Better { worker, value });
                Ok(())
            }
            Err(refusal) => Err(refusal),
        }
    }

    /// Gives a piece back that the seat's worker has taken. Takes no memory.
    pub fn back<R: Wait>(
        &self,
        rt: &R,
        seat: &mut Seat<'_, '_, S>,
        piece: u64,
    ) -> Result<(), BookFault>
        ensures ours { OnOk result (IsOf S.loads S.slots S.order seat.old) }
        ensures held { OnOk result (HasSeatBook seat.old S.rules S.given S.given_value S.nodes S.part (λ b. (g : ℕ) × IsTakenBy b.pieces seat.old.worker piece g)) }
        ensures made { OnOk result (seat.new ≡ noted seat.old (Back seat.old.worker piece)) }
        ensures err { IfErr result (λ e. IsSeatFault (IsOf S.loads S.slots S.order seat.old) (λ f. HasSeatBook seat.old S.rules S.given S.given_value S.nodes S.part (λ b. IsBackFault (holds seat.old.receipts piece) b seat.old.worker piece f)) e × (seat.new ≡ seat.old)) }
    {
        if !self.is_for(seat) {
            return Err(BookFault::Stranger);
        }
        let worker = seat.worker;
        let holds = seat.receipts.holds(piece);
        let answer = self.lock.lock(rt).back(worker, piece, holds);
        match answer {
            Ok(()) => {
                seat.receipts.note(Step::Back { worker, piece });
                Ok(())
            }
            Err(fault) => Err(fault),
        }
    }

    /// Counts a subtree, with the lock free; without `room` its nodes alone, so that its report is only judged.
    fn counted(&self, prefix: &[Place], sub: Subtree, room: bool) -> Counted
        requires { IsOrder (length S.loads) S.order }
        ensures sub { result.sub ≡ sub }
        ensures opened { AreOpened (line_by S.rules S.loads S.slots) S.order (shape_of sub.tree) prefix.now result.opened }
        ensures room { IsSome result.opened → room ≡ true }
    {
        if !room {
            return Counted::unopened(sub);
        }
        let alloc = *self.order.allocator();
        Counted::of(
            alloc,
            &self.loads,
            self.order.as_slice(),
            self.rules,
            prefix,
            sub,
        )
    }

    /// Reports the subtree of a piece that the seat's worker has taken, with the prefix that it got. Its nodes count in
    /// the seat's share.
    pub fn report<R: Wait>(
        &self,
        rt: &R,
        seat: &mut Seat<'_, '_, S>,
        piece: u64,
        prefix: &[Place],
        sub: Subtree,
    ) -> Result<(), (BookFault, Subtree)>
        requires tree { IsPartialTree (line_by S.rules (loads_of seat.old.units) seat.old.slots) sub.threshold (shape_of sub.tree) (prefix_of (loads_of seat.old.units) seat.old.order prefix.now) (drop (length prefix.now) seat.old.order) }
        requires some { 0 < node_count_of (shape_of sub.tree) }
        ensures ours { OnOk result (IsOf S.loads S.slots S.order seat.old) }
        ensures welcome { OnOk result (HasSeatBook seat.old S.rules S.given S.given_value S.nodes S.part (λ b. (g : ℕ) × IsWelcome b.pieces b.prefixes (value_of b.best) seat.old.worker piece prefix.now sub.threshold (node_count_of (shape_of sub.tree)) g)) }
        ensures made { OnOk result (IsReported seat.old S.rules piece prefix.now (shape_of sub.tree) seat.new) }
        ensures err { IfErr result (λ e. IsSeatFault (IsOf S.loads S.slots S.order seat.old) (λ f. HasSeatBook seat.old S.rules S.given S.given_value S.nodes S.part (λ b. IsReportFault b.pieces b.prefixes (value_of b.best) seat.old.worker piece prefix.now sub.threshold (node_count_of (shape_of sub.tree)) f)) e.0 × (e.1 ≡ sub) × (seat.new ≡ seat.old)) }
    {
        if !self.is_for(seat) {
            return Err((BookFault::Stranger, sub));
        }
        let worker = seat.worker;
        let room = seat.receipts.room_to_end(piece);
        let counted = self.counted(prefix, sub, room);
        let share = &mut seat.share;
        let answer = self
            .lock
            .lock(rt)
            .report(worker, share, piece, prefix, counted);
        match answer {
            Ok(step) => {
                seat.receipts.note(step);
                Ok(())
            }
            Err((fault, counted)) => Err((fault, counted.into_sub())),
        }
    }
}
