//! The book.

ghost use Rattle.std.specs.Prelude.{◌≡◌, ◌≢◌, ℕ, ◌==◌, true, IsTrue, MatchBool, ◌+◌, ◌<◌, ◌≤◌, ◌^◌, ◌++◌, ◌∷◌, [], IfOk, IfSome, IfErr, OnOk, OnErr, OnSome, IsSome, IfNone, ◌↔◌, MatchOption, None, Some, length, slice_get, replicate, drop, vec_capacity, vec_len};
ghost use Rattle.ec_units.specs.Load.{loads_of};
ghost use Rattle.ec_loads.specs.Held.{no_places};
ghost use Rattle.ec_loads.specs.Line.{line_by};
ghost use Rattle.ec_loads.specs.Shape.{open_leaf};
ghost use Rattle.ec_loads.specs.Search.{IsPartialTree, open_count, node_count as node_count_of};
ghost use Rattle.ec_cert.specs.Parts.{IsPart, whole as whole_spec};
ghost use Rattle.ec_cert.specs.Shapes.{shape_of};
ghost use Rattle.ec_symmetry.specs.Orders.{IsOrder, prefix_of};
ghost use Rattle.ec_symmetry.specs.Ruled.{line_rules};
ghost use Rattle.ec_book.specs.declared.piece.Piece.TheVariants.{Free};
ghost use Rattle.ec_book.specs.Steps.{live_one, live_count, taken_count, IsHistory};
ghost use Rattle.ec_book.specs.Open.{open_places, AreOpened, IsAddedTo};
ghost use Rattle.ec_cert.specs.IsBestPlan.{value_of, IsBestPlan};
ghost use Rattle.ec_loads.specs.Legal.{IsIllegalBy};
ghost use Rattle.ec_book.specs.Views.{book_view, ours as ours_of, state_of, opening, after_back, after_better, after_report};
ghost use Rattle.ec_book.specs.Kept.{NoneFreeBelow};
ghost use Rattle.ec_book.specs.Faults.{left_of, IsForTaking, IsLowestFree, HasNothing, IsGiven, IsHandedOut, IsPieceHandedOut, IsPieceFault, IsHoldFault, IsBetterFault, IsOfferFault, IsPlanOf, IsReportFault, IsTakenBy, IsWelcome};
ghost use Rattle.ec_book.specs.Steps.{IsBelow};
ghost use Rattle.ec_book.specs.Parts.{is_of_part as is_of_part_spec, NoneIsLeft};
ghost use Rattle.ec_book.specs.Finishing.{IsFinishedOf};
ghost use Rattle.ec_book.specs.declared.fault.BookFault.TheVariants.{OutOfMemory};
ghost use Rattle.ec_book.specs.declared.taken.Taken.TheVariants.{Later, Done};

use crate::counted::Counted;
use crate::fault::BookFault;
use crate::finish::{assembled, open_leaves};
use crate::judge::{grant_of, judged, not_below};
use crate::open::opened_by;
use crate::ours::is_of_part;
use crate::piece::Piece;
use crate::prefixes::Prefixes;
use crate::report::Report;
use crate::step::{Step, Steps};
use crate::taken::{Taken, Took};
use ec_cert::{Best, Cert, Part, Subtree, Tree};
use ec_loads::{Illegal, Loads, Places, Plan};
use ec_symmetry::Rules;
use ec_units::{Load, Place, Units};
use std::alloc::{AllocError, Global};
use std::marker::Model;

/// The book of a search (own profile): its pieces by their numbers, the subtrees that were reported, the best plan
/// so far, and a log of all that happened. At first the pieces are the open leaves of the tree that the search was
/// given, in preorder from 0; a search that begins afresh was given an open leaf, so its piece 0 is the empty prefix.
/// The open leaves of a reported subtree become pieces with the next numbers, in preorder. It hands out only pieces of
/// its part: those open leaves of the given tree that the part has, and what comes of them.
///
/// It keeps the allocator that it was made with. With each piece it makes room for the open leaf that this piece is where it
/// doesn't end, so that the end of a search takes no memory.
#[derive(Drop)]
pub struct Book {
    loads: Loads,
    order: Vec<u8>,
    rules: Rules,
    nodes: u64,
    pieces: Vec<Piece>,
    prefixes: Prefixes,
    leaves: Vec<Tree>,
    reports: Vec<Report>,
    best: Option<Best>,
    spent: u64,
    held: u64,
    taken: usize,
    low: usize,
    log: Vec<Step>,
    given: Tree,
    given_value: Option<u64>,
    part: Part,
    first: u64,
}

impl Model for Book {
    ghost use Rattle.std.specs.Prelude.{vec_capacity};
    ghost use Rattle.std.specs.Coded.{codes};
    ghost use Rattle.ec_cert.specs.Shapes.{shape_of};
    ghost use Rattle.ec_symmetry.specs.Ruled.{line_rules};
    ghost use Rattle.ec_book.specs.ShapeCode.{shape_code};
    ghost use Rattle.ec_book.specs.RulesCode.{rules_code};
    ghost use Rattle.ec_book.specs.Views.{BookView, book_view};
    ghost use Rattle.ec_book.specs.Kept.{IsKept};

    ghost Value = { BookView };

    ghost coded = { Prim.hlevel (codes, shape_code, rules_code) };

    ghost view = { λ b. book_view b.loads.loads b.loads.slots b.order.items (line_rules b.rules) b.nodes b.pieces.items b.prefixes b.best b.spent b.log.items (shape_of b.given) b.given_value b.part };

    ghost invariant = { λ b. IsKept b.loads b.order.items (line_rules b.rules) b.nodes b.pieces.items b.prefixes b.reports.items b.best b.spent b.held b.taken b.low b.log.items (shape_of b.given) b.given_value (vec_capacity b.log) b.leaves.items (vec_capacity b.leaves) b.part b.first };
}

/// A finished search: the best plan, if one is known, the tree that its reports make of the tree that it was given,
/// where free and taken pieces are open leaves, how many these are, whether each open leaf of its part is closed there, the
/// nodes that the reports have split and closed, and what happened.
#[derive(Drop)]
pub struct Finished {
    pub best: Option<Best>,
    pub tree: Tree,
    pub left: usize,
    pub done: bool,
    pub spent: u64,
    pub log: Steps,
}

/// Whether a piece with this number is free and of the part, where the first so many pieces are those of the given tree.
fn is_for_taking(piece: Piece, part: Part, first: u64, number: u64) -> bool
    requires { IsPart part }
    ensures { IsTrue result ↔ ((piece ≡ Free) × (is_of_part_spec part first number ≡ true)) }
{
    piece == Piece::Free && is_of_part(part, first, number)
}

/// The lowest free piece of the part, where none below `low` is free and the first so many pieces are those of the given
/// tree.
fn lowest_free(pieces: &[Piece], part: Part, first: u64, low: usize) -> Option<usize>
    requires part { IsPart part }
    requires low { NoneFreeBelow (is_of_part_spec part first) pieces.now low }
    ensures { MatchOption result (NoneFreeBelow (is_of_part_spec part first) pieces.now (length pieces.now)) (IsLowestFree (is_of_part_spec part first) pieces.now) }
{
    for i in low..pieces.len() {
        if is_for_taking(pieces[i], part, first, i as u64) {
            return Some(i);
        }
    }
    None
}

/// 1 for a piece that is free or taken, else 0.
fn one_if_live(piece: Piece) -> usize
    ensures value { result ≡ live_one (Some piece) }
    ensures bound { result ≤ 1 }
{
    match piece {
        Piece::Free | Piece::Taken { .. } => 1,
        Piece::Ended => 0,
    }
}

/// How many pieces are free or taken.
fn count_live(pieces: &[Piece]) -> usize
    ensures { result ≡ live_count pieces.now }
{
    let mut count = 0usize;
    for i in 0..pieces.len() {
        count += one_if_live(pieces[i]);
    }
    count
}

/// Whether no piece of the part is free or taken, where the first so many pieces are those of the given tree.
fn none_is_left(pieces: &[Piece], part: Part, first: u64) -> bool
    requires { IsPart part }
    ensures { IsTrue result ↔ NoneIsLeft (is_of_part_spec part first) pieces.now }
{
    for i in 0..pieces.len() {
        if one_if_live(pieces[i]) == 1 && is_of_part(part, first, i as u64) {
            return false;
        }
    }
    true
}

/// The value of the best plan, if there is one.
fn value_in(best: &Option<Best>) -> Option<u64>
    ensures { result ≡ value_of best.now }
{
    match best {
        None => None,
        Some(best) => Some(best.busiest),
    }
}

/// Takes in the prefixes of new pieces, and makes room for these, for their leaves and for one more report; gives how many they
/// are. `AllocError` where the prefixes aren't known or memory is refused: pieces, reports and prefixes are as before then.
fn add_opened(
    pieces: &mut Vec<Piece>,
    reports: &mut Vec<Report>,
    prefixes: &mut Prefixes,
    leaves: &mut Vec<Tree>,
    opened: &Option<Prefixes>,
) -> Result<usize, AllocError>
    ensures same { (pieces.new.items ≡ pieces.old.items) × (reports.new.items ≡ reports.old.items) }
    ensures leaves { leaves.new.items ≡ leaves.old.items }
    ensures stays { vec_capacity leaves.old ≤ vec_capacity leaves.new }
    ensures leaf { IfOk result (λ n. vec_len pieces.new + n ≤ vec_capacity leaves.new) }
    ensures known { IfOk result (λ n. IsAddedTo opened.now n prefixes.old prefixes.new) }
    ensures room { IfOk result (λ n. (vec_len pieces.new + n ≤ vec_capacity pieces.new) × (vec_len reports.new + 1 ≤ vec_capacity reports.new)) }
    ensures kept { OnErr result (prefixes.new ≡ prefixes.old) }
{
    let Some(opened) = opened else {
        return Err(AllocError);
    };
    let count = opened.len();
    pieces.reserve(count)?;
    reports.reserve(1)?;
    leaves.reserve(pieces.capacity())?;
    prefixes.append(opened)?;
    Ok(count)
}

/// New pieces, for which there is room.
fn add_free(pieces: &mut Vec<Piece>, count: usize)
    requires { vec_len pieces.old + count ≤ vec_capacity pieces.old }
    ensures { pieces.new.items ≡ pieces.old.items ++ replicate count Free }
{
    for i in 0..count {
        let _ = i;
        pieces.push_reserved(Piece::Free);
    }
}

impl Book {
    /// A book for these units, this order of them and these rules, where at most so many nodes may be split or closed.
    /// Piece 0, the empty prefix, is free, and the part is the whole.
    pub fn new(
        alloc: Global,
        units: &Units,
        order: &[u8],
        rules: Rules,
        nodes: u64,
    ) -> Result<Book, AllocError>
        requires { IsOrder (length units.now.units) order.now }
        ensures { IfOk result (λ b. b ≡ book_view (loads_of units.now.units) units.now.slots order.now (line_rules rules) nodes (Free ∷ []) ([] ∷ []) None 0 [] open_leaf None whole_spec) }
    {
        let order = Vec::from_slice(alloc, order)?;
        let mut pieces = Vec::new(alloc);
        pieces.push(Piece::Free)?;
        let prefixes = Prefixes::root(alloc)?;
        let leaves = Vec::with_capacity(alloc, 1)?;
        let loads = Loads::new(alloc, units)?;
        Ok(Book {
            loads,
            order,
            rules,
            nodes,
            pieces,
            prefixes,
            leaves,
            reports: Vec::new(alloc),
            best: None,
            spent: 0,
            held: 0,
            taken: 0,
            low: 0,
            log: Vec::new(alloc),
            given: Tree::OpenLeaf,
            given_value: None,
            part: Part::whole(),
            first: 1,
        })
    }

    /// A book that goes on, by these rules, with the tree of a certificate for these units, where at most so many nodes more
    /// may be split or closed: its pieces are the open leaves of that tree, in preorder from 0, of which it hands out those of
    /// the part, and its best plan is the certificate's. Nothing of the certificate is copied.
    pub fn resume(
        alloc: Global,
        units: &Units,
        cert: Cert,
        rules: Rules,
        part: Part,
        nodes: u64,
    ) -> Result<Book, AllocError>
        requires part { IsPart part }
        requires order { IsOrder (length units.now.units) cert.order }
        requires best { IsBestPlan (loads_of units.now.units) units.now.slots cert.best }
        requires tree { IsPartialTree (line_by (line_rules rules) (loads_of units.now.units) units.now.slots) (value_of cert.best) (shape_of cert.tree) (no_places (loads_of units.now.units)) cert.order }
        ensures { IfOk result (λ b. b ≡ book_view (loads_of units.now.units) units.now.slots cert.order (line_rules rules) nodes (replicate (open_count (shape_of cert.tree)) Free)
            (open_places (line_by (line_rules rules) (loads_of units.now.units) units.now.slots) cert.order (shape_of cert.tree) []) cert.best 0 [] (shape_of cert.tree) (value_of cert.best) part) }
    {
        let Cert {
            order,
            best,
            tree: given,
            ..
        } = cert;
        let order = order.into_vec();
        let loads = Loads::new(alloc, units)?;
        let opened = opened_by(alloc, &loads, order.as_slice(), rules, &[], &given)?;
        let prefixes = opened.prefixes;
        let count = prefixes.len();
        let mut pieces = Vec::with_capacity(alloc, count)?;
        let leaves = Vec::with_capacity(alloc, count)?;
        add_free(&mut pieces, count);
        let given_value = value_in(&best);
        Ok(Book {
            loads,
            order,
            rules,
            nodes,
            pieces,
            prefixes,
            leaves,
            reports: Vec::new(alloc),
            best,
            spent: 0,
            held: 0,
            taken: 0,
            low: 0,
            log: Vec::new(alloc),
            given,
            given_value,
            part,
            first: count as u64,
        })
    }

    /// The nodes that are neither spent nor granted.
    fn left(&self) -> u64
        ensures { result ≡ left_of self.now }
    {
        self.nodes - self.spent - self.held
    }

    /// What is answered where nothing can be handed out.
    fn none_left(&self) -> Taken
        ensures { MatchBool (taken_count self.now.pieces == 0) (result ≡ Done) (result ≡ Later) }
    {
        if self.taken == 0 {
            Taken::Done
        } else {
            Taken::Later
        }
    }

    /// The lowest free piece of the part. Those below it aren't looked at again before one of them is given back.
    fn lowest(&mut self) -> Option<usize>
        ensures same { self.new ≡ self.old }
        ensures found { MatchOption result (NoneFreeBelow (ours_of self.old) self.old.pieces (length self.old.pieces)) (IsLowestFree (ours_of self.old) self.old.pieces) }
    {
        let found = lowest_free(self.pieces.as_slice(), self.part, self.first, self.low);
        self.low = found.unwrap_or(self.pieces.len());
        found
    }

    /// Hands out a free piece of the part, where a node is left.
    fn hand_out(&mut self, at: usize, worker: usize, most: u32) -> Result<Took, BookFault>
        requires free { IsForTaking self.old at }
        requires left { 0 < left_of self.old }
        requires some { 1 ≤ most }
        ensures ok { IfOk result (λ t. (t.piece ≡ at) × IsGiven self.old worker most t self.new) }
        ensures err { IfErr result (λ e. (e ≡ OutOfMemory) × (self.new ≡ self.old)) }
    {
        let grant = self.left().min(u64::from(most)) as u32;
        let alloc = *self.log.allocator();
        let Ok(prefix) = self.prefixes.places(alloc, at) else {
            return Err(BookFault::OutOfMemory);
        };
        let Some(more) = self.taken.checked_add(2) else {
            return Err(BookFault::OutOfMemory);
        };
        let Ok(()) = self.log.reserve(more) else {
            return Err(BookFault::OutOfMemory);
        };
        let piece = at as u64;
        self.log.push_reserved(Step::Took {
            worker,
            piece,
            grant,
        });
        self.pieces[at] = Piece::Taken { worker, grant };
        self.held += u64::from(grant);
        self.taken += 1;
        Ok(Took {
            piece,
            prefix: Places::new(prefix),
            value: value_in(&self.best),
            grant,
        })
    }

    /// Hands out the lowest free piece of the part, for at most `most` nodes.
    pub fn take(&mut self, worker: usize, most: u32) -> Result<Taken, BookFault>
        requires { 1 ≤ most }
        ensures ok { IfOk result (λ t. IsHandedOut self.old worker most t self.new) }
        ensures err { IfErr result (λ e. (e ≡ OutOfMemory) × (¬ (HasNothing self.old)) × (self.new ≡ self.old)) }
    {
        let Some(at) = self.lowest() else {
            return Ok(self.none_left());
        };
        if self.left() == 0 {
            return Ok(self.none_left());
        }
        match self.hand_out(at, worker, most) {
            Ok(took) => Ok(Taken::Piece(took)),
            Err(fault) => Err(fault),
        }
    }

    /// Whether there is such a piece, it is free, and it is of the part.
    pub fn is_free(&self, piece: u64) -> bool
        ensures { IsTrue result ↔ IsForTaking self.now piece }
    {
        let at = piece as usize;
        at < self.pieces.len() && is_for_taking(self.pieces[at], self.part, self.first, piece)
    }

    /// Hands out a piece by its number, where it is free and of the part, for at most `most` nodes.
    pub fn take_piece(&mut self, worker: usize, piece: u64, most: u32) -> Result<Taken, BookFault>
        requires { 1 ≤ most }
        ensures ok { IfOk result (λ t. IsPieceHandedOut self.old worker piece most t self.new) }
        ensures err { IfErr result (λ e. IsPieceFault self.old piece e × (e ≡ OutOfMemory → 0 < left_of self.old) × (self.new ≡ self.old)) }
    {
        if !self.is_free(piece) {
            return Err(BookFault::NotFree);
        }
        if self.left() == 0 {
            return Ok(self.none_left());
        }
        match self.hand_out(piece as usize, worker, most) {
            Ok(took) => Ok(Taken::Piece(took)),
            Err(fault) => Err(fault),
        }
    }

    /// Gives a piece back that this worker has taken; it is free again, and its grant can be granted again. Takes no
    /// memory.
    pub fn back(&mut self, worker: usize, piece: u64) -> Result<(), BookFault>
        ensures ok { OnOk result (self.new ≡ after_back self.old worker piece) }
        ensures held { OnOk result ((g : ℕ) × IsTakenBy self.old.pieces worker piece g) }
        ensures err { IfErr result (λ e. IsHoldFault self.old.pieces worker piece e × (self.new ≡ self.old)) }
    {
        let grant = match grant_of(self.pieces.as_slice(), worker, piece) {
            Ok(grant) => grant,
            Err(fault) => return Err(fault),
        };
        self.log.push_reserved(Step::Back { worker, piece });
        let at = piece as usize;
        self.pieces[at] = Piece::Free;
        self.held -= u64::from(grant);
        self.taken -= 1;
        self.low = self.low.min(at);
        Ok(())
    }

    /// Offers a plan, which becomes the best one where it is legal and its busiest tick costs less than the value.
    pub fn better(&mut self, worker: usize, plan: Plan) -> Result<(), (BookFault, Plan)>
        ensures ok { OnOk result ((v : ℕ) × IsPlanOf self.old.loads self.old.slots plan.places v × IsBelow v (value_of self.old.best)
            × (self.new ≡ after_better self.old worker (record { busiest = v; plan = plan }))) }
        ensures err { IfErr result (λ e. IsBetterFault self.old plan.places e.0 × (e.1 ≡ plan) × (self.new ≡ self.old)) }
    {
        let busiest = match self.cost_of(&plan) {
            Ok(busiest) => busiest,
            Err(illegal) => return Err((BookFault::Illegal(illegal), plan)),
        };
        match self.improve(worker, Best { busiest, plan }) {
            Ok(()) => Ok(()),
            Err((fault, Best { plan, .. })) => Err((fault, plan)),
        }
    }

    /// What the busiest tick of a plan costs, where it is legal. Takes no memory.
    fn cost_of(&self, plan: &Plan) -> Result<u64, Illegal>
        ensures ok { IfOk result (λ v. IsPlanOf self.now.loads self.now.slots plan.now.places v) }
        ensures err { IfErr result (IsIllegalBy self.now.loads self.now.slots plan.now.places) }
    {
        self.loads.plan_cost(plan.places.as_slice())
    }

    /// Offers a plan that is known to be legal, with what its busiest tick costs. It becomes the best one where that is
    /// less than the value.
    pub fn improve(&mut self, worker: usize, best: Best) -> Result<(), (BookFault, Best)>
        requires plan { IsPlanOf self.old.loads self.old.slots best.plan.places best.busiest }
        ensures ok { OnOk result (IsBelow best.busiest (value_of self.old.best) × (self.new ≡ after_better self.old worker best)) }
        ensures err { IfErr result (λ e. IsOfferFault (value_of self.old.best) best.busiest e.0 × (e.1 ≡ best) × (self.new ≡ self.old)) }
    {
        let value = best.busiest;
        if let Some(old) = not_below(value, value_in(&self.best)) {
            return Err((BookFault::NotBetter(old), best));
        }
        let Some(more) = self.taken.checked_add(1) else {
            return Err((BookFault::OutOfMemory, best));
        };
        let Ok(()) = self.log.reserve(more) else {
            return Err((BookFault::OutOfMemory, best));
        };
        self.log.push_reserved(Step::Better { worker, value });
        self.best = Some(best);
        Ok(())
    }

    /// Reports the subtree of a piece that this worker has taken, with the prefix that it got. Its open leaves become
    /// pieces. Its time is in proportion to the subtree.
    pub fn report(
        &mut self,
        worker: usize,
        piece: u64,
        prefix: &[Place],
        sub: Subtree,
    ) -> Result<(), (BookFault, Subtree)>
        requires tree { IsPartialTree (line_by self.old.rules self.old.loads self.old.slots) sub.threshold (shape_of sub.tree) (prefix_of self.old.loads self.old.order prefix.now) (drop (length prefix.now) self.old.order) }
        requires some { 0 < node_count_of (shape_of sub.tree) }
        ensures welcome { OnOk result ((g : ℕ) × IsWelcome self.old.pieces self.old.prefixes (value_of self.old.best) worker piece prefix.now sub.threshold (node_count_of (shape_of sub.tree)) g) }
        ensures ok { OnOk result (self.new ≡ after_report self.old worker piece (node_count_of (shape_of sub.tree)) (open_places (line_by self.old.rules self.old.loads self.old.slots) self.old.order (shape_of sub.tree) prefix.now)) }
        ensures err { IfErr result (λ e. IsReportFault self.old.pieces self.old.prefixes (value_of self.old.best) worker piece prefix.now sub.threshold (node_count_of (shape_of sub.tree)) e.0
            × (e.1 ≡ sub) × (self.new ≡ self.old)) }
    {
        let alloc = *self.log.allocator();
        let rules = self.rules;
        let counted = Counted::of(
            alloc,
            &self.loads,
            self.order.as_slice(),
            rules,
            prefix,
            sub,
        );
        match self.report_counted(worker, piece, prefix, counted) {
            Ok(()) => Ok(()),
            Err((fault, counted)) => Err((fault, counted.into_sub())),
        }
    }

    /// Reports a subtree that was counted before. It copies the nodes of the new prefixes, one for each split above an open leaf and
    /// for each open leaf, and adds the pieces; where a list is full, it grows. Nothing else in it takes time in proportion to the
    /// subtree. Where the open leaves aren't known it is refused for want of memory, unless for another reason.
    pub fn report_counted(
        &mut self,
        worker: usize,
        piece: u64,
        prefix: &[Place],
        counted: Counted,
    ) -> Result<(), (BookFault, Counted)>
        requires tree { IsPartialTree (line_by self.old.rules self.old.loads self.old.slots) counted.sub.threshold (shape_of counted.sub.tree) (prefix_of self.old.loads self.old.order prefix.now) (drop (length prefix.now) self.old.order) }
        requires some { 0 < node_count_of (shape_of counted.sub.tree) }
        requires opened { AreOpened (line_by self.old.rules self.old.loads self.old.slots) self.old.order (shape_of counted.sub.tree) prefix.now counted.opened }
        ensures known { OnOk result (IsSome counted.opened) }
        ensures welcome { OnOk result ((g : ℕ) × IsWelcome self.old.pieces self.old.prefixes (value_of self.old.best) worker piece prefix.now counted.sub.threshold (node_count_of (shape_of counted.sub.tree)) g) }
        ensures ok { OnOk result (self.new ≡ after_report self.old worker piece (node_count_of (shape_of counted.sub.tree)) (open_places (line_by self.old.rules self.old.loads self.old.slots) self.old.order (shape_of counted.sub.tree) prefix.now)) }
        ensures err { IfErr result (λ e. IsReportFault self.old.pieces self.old.prefixes (value_of self.old.best) worker piece prefix.now counted.sub.threshold (node_count_of (shape_of counted.sub.tree)) e.0
            × (e.1.sub ≡ counted.sub) × (self.new ≡ self.old)) }
    {
        let value = value_in(&self.best);
        let pieces = self.pieces.as_slice();
        let prefixes = &self.prefixes;
        let grant = match judged(pieces, prefixes, value, worker, piece, prefix, &counted) {
            Ok(grant) => grant,
            Err(fault) => return Err((fault, counted)),
        };
        let first = self.pieces.len();
        let count = match add_opened(
            &mut self.pieces,
            &mut self.reports,
            &mut self.prefixes,
            &mut self.leaves,
            &counted.opened,
        ) {
            Ok(count) => count,
            Err(_) => return Err((BookFault::OutOfMemory, counted)),
        };
        let Counted { sub, nodes, .. } = counted;
        self.log.push_reserved(Step::Reported {
            worker,
            piece,
            spent: nodes,
            first: first as u64,
            count: count as u64,
        });
        let at = piece as usize;
        self.pieces[at] = Piece::Ended;
        add_free(&mut self.pieces, count);
        self.reports.push_reserved(Report {
            piece: at,
            first,
            tree: sub.tree,
        });
        self.held -= u64::from(grant);
        self.taken -= 1;
        self.spent += nodes;
        Ok(())
    }

    /// What the worker may spend on a piece that it has taken.
    pub fn grant(&self, worker: usize, piece: u64) -> Result<u32, BookFault>
        ensures ok { IfOk result (IsTakenBy self.now.pieces worker piece) }
        ensures err { IfErr result (IsHoldFault self.now.pieces worker piece) }
    {
        grant_of(self.pieces.as_slice(), worker, piece)
    }

    /// What the busiest tick of the best plan costs, in wire bytes; none, as long as no plan is known.
    pub fn value(&self) -> Option<u64>
        ensures value { result ≡ value_of self.now.best }
        ensures plan { IsBestPlan self.now.loads self.now.slots self.now.best }
    {
        value_in(&self.best)
    }

    /// Bytes and periods of the units, in file order.
    pub fn loads(&self) -> &[Load]
        ensures { result.now ≡ self.now.loads }
    {
        self.loads.loads()
    }

    /// The slot count.
    pub fn slots(&self) -> u8
        ensures { result ≡ self.now.slots }
    {
        self.loads.slots()
    }

    /// The units by their indices, in the order in which the search gives them places.
    pub fn order(&self) -> &[u8]
        ensures { result.now ≡ self.now.order }
    {
        self.order.as_slice()
    }

    /// The rules by which its trees are made.
    pub fn rules(&self) -> Rules
        ensures { line_rules result ≡ self.now.rules }
    {
        self.rules
    }

    /// The part of the given tree's open leaves that it goes on with.
    pub fn part(&self) -> Part
        ensures value { result ≡ self.now.part }
        ensures part { IsPart result }
    {
        self.part
    }

    /// The log: every step so far.
    pub fn log(&self) -> &[Step]
        ensures value { result.now ≡ self.now.log }
        ensures history { IsHistory self.now.nodes (opening self.now) result.now (state_of self.now) }
    {
        self.log.as_slice()
    }

    /// How many nodes the reports have split and closed.
    pub fn spent(&self) -> u64
        ensures value { result ≡ self.now.spent }
        ensures bound { result ≤ self.now.nodes }
    {
        self.spent
    }

    /// How many pieces are free or taken.
    pub fn open_pieces(&self) -> usize
        ensures { result ≡ live_count self.now.pieces }
    {
        count_live(self.pieces.as_slice())
    }

    /// What came of the search; it takes time in proportion to the whole, and no memory. So the book is never handed back.
    pub fn finish(self) -> Result<Finished, (Book, AllocError)>
        ensures ok { IfOk result (IsFinishedOf self) }
        ensures always { OnErr result ⊥ }
    {
        let left = self.open_pieces();
        let done = none_is_left(self.pieces.as_slice(), self.part, self.first);
        let built = open_leaves(self.leaves, self.pieces.len());
        let tree = assembled(self.given, self.reports, built);
        Ok(Finished {
            best: self.best,
            tree,
            left,
            done,
            spent: self.spent,
            log: Steps::new(self.log),
        })
    }
}
