//! What lies under the lock.

ghost use Rattle.std.specs.Prelude.{◌≡◌, ℕ, ◌+◌, ◌<◌, ◌≤◌, ◌++◌, ◌∷◌, [], List, IfOk, IfErr, OnOk, OnErr, IsSome, Some, length, drop, true};
ghost use Rattle.std.specs.Coded.{Coded-set};
ghost use Rattle.std.proofs.Props.{props};
ghost use Rattle.ec_loads.specs.Line.{line_by};
ghost use Rattle.ec_loads.specs.Search.{IsPartialTree, node_count as node_count_of};
ghost use Rattle.ec_cert.specs.IsBestPlan.{value_of};
ghost use Rattle.ec_cert.specs.Shapes.{shape_of};
ghost use Rattle.ec_symmetry.specs.Orders.{prefix_of};
ghost use Rattle.ec_book.specs.declared.fault.BookFault.TheVariants.{OutOfMemory};
ghost use Rattle.ec_book.specs.declared.step.Step.{Step as StepSpec};
ghost use Rattle.ec_book.specs.declared.step.Step.TheVariants.{Reported};
ghost use Rattle.ec_book.specs.ShapeCode.{shape_code};
ghost use Rattle.ec_book.specs.RulesCode.{rules_code};
ghost use Rattle.ec_book.specs.Steps.{IsBelow};
ghost use Rattle.ec_book.specs.Open.{open_places, AreOpened};
ghost use Rattle.ec_book.specs.Views.{BookView, after_report, after_better, after_back};
ghost use Rattle.ec_book.specs.Faults.{IsHandedOut, IsPieceHandedOut, IsPieceFault, IsPlanOf, IsOfferFault, IsTakenBy, IsWelcome, IsReportFault};
ghost use Rattle.ec_book_shared.specs.Seats.{HasBook, IsBackFault};

use crate::search::Search;
use ec_book::{Book, BookFault, Counted, Step, Taken};
use ec_cert::Best;
use ec_units::Place;
use std::sync::ledger;
use std::sync::ledger::Share;

/// The book, the nodes that all seats have reported, and what was left of the shares when each seat had its part.
#[derive(Drop)]
pub(crate) struct Locked<S: Search> {
    pub(crate) book: Book,
    pub(crate) total: ledger::Book<S>,
    pub(crate) spare: Share<S>,
    pub ghost counted: { total.total ≡ book.spent },
    pub ghost loads_is: { book.loads ≡ S.loads },
    pub ghost slots_is: { book.slots ≡ S.slots },
    pub ghost order_is: { book.order ≡ S.order },
    pub ghost rules_is: { book.rules ≡ S.rules } by { Coded-set rules_code book.rules S.rules },
    pub ghost given_is: { book.given ≡ S.given } by { Coded-set shape_code book.given S.given },
    pub ghost value_is: { book.given_value ≡ S.given_value } by { Prim.hlevel props },
    pub ghost nodes_is: { book.nodes ≡ S.nodes },
    pub ghost part_is: { book.part ≡ S.part } by { Prim.hlevel props },
    pub ghost no_part: { spare.parts ≡ 0 },
    pub ghost no_amount: { spare.amount ≡ 0 },
}

/// The last of the steps.
fn last_step(log: &[Step]) -> Step
    requires { 0 < length log.now }
    ensures { (before : List StepSpec) (e : StepSpec) → log.now ≡ before ++ e ∷ [] → result ≡ e }
{
    log[log.len() - 1]
}

/// Why a legal plan of this cost is refused where memory is: it isn't better, else for that.
fn offer_fault(value: Option<u64>, busiest: u64) -> BookFault
    ensures { IsOfferFault value busiest result }
{
    match value {
        Some(value) if value <= busiest => BookFault::NotBetter(value),
        _ => BookFault::OutOfMemory,
    }
}

/// That the book is one for the search.
fn know<S: Search>(locked: &Locked<S>)
    ensures { HasBook S.loads S.slots S.order S.rules S.given S.given_value S.nodes S.part (λ b. b ≡ locked.now.book) }
{
    let _ = locked.book.log();
    let _ = locked.book.value();
}

impl<S: Search> Locked<S> {
    /// Hands out the lowest free piece.
    pub(crate) fn take(&mut self, worker: usize, most: u32) -> Result<Taken, BookFault>
        requires { 1 ≤ most }
        ensures book { IfOk result (λ t. IsHandedOut self.old.book worker most t self.new.book) }
        ensures left { OnErr result (self.new.book ≡ self.old.book) }
        ensures some { IfOk result (λ t. HasBook S.loads S.slots S.order S.rules S.given S.given_value S.nodes S.part (λ b. (n : BookView) × IsHandedOut b worker most t n)) }
        ensures err { IfErr result (λ e. e ≡ OutOfMemory) }
    {
        know(self);
        match self.book.take(worker, most) {
            Ok(taken) => Ok(taken),
            Err(fault) => Err(fault),
        }
    }

    /// Hands out a piece by its number; without `room` only says why it isn't handed out.
    pub(crate) fn take_piece(
        &mut self,
        worker: usize,
        piece: u64,
        most: u32,
        room: bool,
    ) -> Result<Taken, BookFault>
        requires { 1 ≤ most }
        ensures book { IfOk result (λ t. IsPieceHandedOut self.old.book worker piece most t self.new.book) }
        ensures left { OnErr result (self.new.book ≡ self.old.book) }
        ensures room { OnOk result (room ≡ true) }
        ensures some { IfOk result (λ t. HasBook S.loads S.slots S.order S.rules S.given S.given_value S.nodes S.part (λ b. (n : BookView) × IsPieceHandedOut b worker piece most t n)) }
        ensures err { IfErr result (λ e. HasBook S.loads S.slots S.order S.rules S.given S.given_value S.nodes S.part (λ b. IsPieceFault b piece e)) }
    {
        know(self);
        if !room {
            if self.book.is_free(piece) {
                return Err(BookFault::OutOfMemory);
            }
            return Err(BookFault::NotFree);
        }
        match self.book.take_piece(worker, piece, most) {
            Ok(taken) => Ok(taken),
            Err(fault) => Err(fault),
        }
    }

    /// Offers a legal plan; without `room` only says why it isn't taken.
    pub(crate) fn improve(
        &mut self,
        worker: usize,
        best: Best,
        room: bool,
    ) -> Result<(), (BookFault, Best)>
        requires plan { IsPlanOf S.loads S.slots best.plan.places best.busiest }
        ensures book { OnOk result (self.new.book ≡ after_better self.old.book worker best) }
        ensures left { OnErr result (self.new.book ≡ self.old.book) }
        ensures room { OnOk result (room ≡ true) }
        ensures below { OnOk result (HasBook S.loads S.slots S.order S.rules S.given S.given_value S.nodes S.part (λ b. IsBelow best.busiest (value_of b.best))) }
        ensures err { IfErr result (λ e. (e.1 ≡ best) × HasBook S.loads S.slots S.order S.rules S.given S.given_value S.nodes S.part (λ b. IsOfferFault (value_of b.best) best.busiest e.0)) }
    {
        know(self);
        if !room {
            return Err((offer_fault(self.book.value(), best.busiest), best));
        }
        match self.book.improve(worker, best) {
            Ok(()) => Ok(()),
            Err(refusal) => Err(refusal),
        }
    }

    /// Gives a piece back; where the worker doesn't hold it by its own steps, only says why it isn't taken back.
    pub(crate) fn back(&mut self, worker: usize, piece: u64, holds: bool) -> Result<(), BookFault>
        ensures book { OnOk result (self.new.book ≡ after_back self.old.book worker piece) }
        ensures left { OnErr result (self.new.book ≡ self.old.book) }
        ensures holds { OnOk result (holds ≡ true) }
        ensures held { OnOk result (HasBook S.loads S.slots S.order S.rules S.given S.given_value S.nodes S.part (λ b. (g : ℕ) × IsTakenBy b.pieces worker piece g)) }
        ensures err { IfErr result (λ e. HasBook S.loads S.slots S.order S.rules S.given S.given_value S.nodes S.part (λ b. IsBackFault holds b worker piece e)) }
    {
        know(self);
        if !holds {
            return match self.book.grant(worker, piece) {
                Ok(_) => Err(BookFault::NotYours),
                Err(fault) => Err(fault),
            };
        }
        match self.book.back(worker, piece) {
            Ok(()) => Ok(()),
            Err(fault) => Err(fault),
        }
    }

    /// Reports a subtree that was counted before, and gives the step that this is; its nodes go into the share.
    pub(crate) fn report(
        &mut self,
        worker: usize,
        share: &mut Share<S>,
        piece: u64,
        prefix: &[Place],
        counted: Counted,
    ) -> Result<Step, (BookFault, Counted)>
        requires part { 0 < share.old.parts }
        requires tree { IsPartialTree (line_by S.rules S.loads S.slots) counted.sub.threshold (shape_of counted.sub.tree) (prefix_of S.loads S.order prefix.now) (drop (length prefix.now) S.order) }
        requires some { 0 < node_count_of (shape_of counted.sub.tree) }
        requires opened { AreOpened (line_by S.rules S.loads S.slots) S.order (shape_of counted.sub.tree) prefix.now counted.opened }
        ensures book { OnOk result (self.new.book ≡ after_report self.old.book worker piece (node_count_of (shape_of counted.sub.tree)) (open_places (line_by S.rules S.loads S.slots) S.order (shape_of counted.sub.tree) prefix.now)) }
        ensures left { OnErr result (self.new.book ≡ self.old.book) }
        ensures known { OnOk result (IsSome counted.opened) }
        ensures step { IfOk result (λ e. (first : ℕ) × (e ≡ Reported worker piece (node_count_of (shape_of counted.sub.tree)) first (length (open_places (line_by S.rules S.loads S.slots) S.order (shape_of counted.sub.tree) prefix.now)))) }
        ensures welcome { OnOk result (HasBook S.loads S.slots S.order S.rules S.given S.given_value S.nodes S.part (λ b. (g : ℕ) × IsWelcome b.pieces b.prefixes (value_of b.best) worker piece prefix.now counted.sub.threshold (node_count_of (shape_of counted.sub.tree)) g)) }
        ensures amount { OnOk result (share.new.amount ≡ share.old.amount + node_count_of (shape_of counted.sub.tree)) }
        ensures kept { OnErr result (share.new.amount ≡ share.old.amount) }
        ensures parts { share.new.parts ≡ share.old.parts }
        ensures some { HasBook S.loads S.slots S.order S.rules S.given S.given_value S.nodes S.part (λ b. b ≡ self.old.book) }
        ensures err { IfErr result (λ e. (e.1.sub ≡ counted.sub) × IsReportFault self.old.book.pieces self.old.book.prefixes (value_of self.old.book.best) worker piece prefix.now counted.sub.threshold (node_count_of (shape_of counted.sub.tree)) e.0) }
    {
        know(self);
        let before = self.book.spent();
        match self.book.report_counted(worker, piece, prefix, counted) {
            Ok(()) => {
                let nodes = self.book.spent() - before;
                self.total.add(share, nodes);
                Ok(last_step(self.book.log()))
            }
            Err(refusal) => Err(refusal),
        }
    }
}
