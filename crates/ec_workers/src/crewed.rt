//! A search by several workers, and what comes of it.

ghost use Rattle.std.specs.Prelude.{◌≡◌, ◌≢◌, ℕ, ◌<◌, ◌≤◌, [], Option, None, IfOk, IfErr, IsTrue, length};
ghost use Rattle.ec_units.specs.Load.{loads_of};
ghost use Rattle.ec_loads.specs.Shape.{Shape, open_leaf};
ghost use Rattle.ec_symmetry.specs.Orders.{IsOrder};
ghost use Rattle.ec_cert.specs.IsBestPlan.{value_of};
ghost use Rattle.ec_cert.specs.Parts.{IsPart};
ghost use Rattle.ec_cert.specs.Shapes.{cert_view, shape_of};
ghost use Rattle.ec_book.specs.Books.{IsBookOf};
ghost use Rattle.ec_search_threads.specs.IsCrewed.{IsCrewed};
ghost use Rattle.ec_search_threads.specs.declared.ended.Ended.TheVariants.{Refused, Memory as EndedMemory, Time as EndedTime};
ghost use Rattle.ec_workers.specs.Answers.{asked_beyond, asked_for, GoesBeyond, HasCut, HasOrder, HasRules, HasSearchOrder, IsOutcome, IsSolveFault, is_strong as strong_spec, KeepsToPart};
ghost use Rattle.ec_outcome.specs.Searched.{searched_by};
ghost use Rattle.ec_workers.specs.Outcomes.{IsPartialCert};
ghost use Rattle.ec_workers.specs.IsRoomFor.{IsRoomFor};
ghost use Rattle.ec_outcome.specs.declared.search.Cut.TheVariants.{Budget, Journal, Memory, Parts, Time};

use crate::begin::{is_strong, order_by, rules_by};
use crate::planning::proved;
use crate::room::Room;
use ec_book::{Book, Finished};
use ec_cert::{Cert, Order, Part};
use ec_outcome::{Cut, Outcome, SolveFault};
use ec_search_threads::{CrewFault, Crewed, Ended, Gate, search_by_crew};
use ec_units::Units;
use std::alloc::Global;
use std::sync::Wait;
use std::thread::Threads;

/// Why several workers, to none of whom the book refused anything but memory, left a leaf open: all nodes are spent,
/// else their part of several is done, else memory was refused, else the time was over, else what they wrote down doesn't
/// agree.
fn cut_of_crew(spent: u64, nodes: u32, part: Part, done: bool, ended: Ended) -> Cut
    ensures budget { result ≡ Budget → spent ≡ nodes }
    ensures memory { result ≡ Memory → (spent ≢ nodes) × (ended ≡ EndedMemory) }
    ensures time { result ≡ Time → (spent ≢ nodes) × (ended ≡ EndedTime) }
    ensures parts { result ≡ Parts → (1 < part.count) × (spent ≢ nodes) × IsTrue done }
    ensures journal { result ≡ Journal → (spent ≢ nodes) × (ended ≢ EndedMemory) × (ended ≢ EndedTime) }
{
    if spent == u64::from(nodes) {
        Cut::Budget
    } else if done && part.count > 1 {
        Cut::Parts
    } else if ended == Ended::Memory {
        Cut::Memory
    } else if ended == Ended::Time {
        Cut::Time
    } else {
        Cut::Journal
    }
}

/// What comes of the work of several workers. Takes no memory.
fn outcome_of(
    units: &Units,
    room: Room,
    order: Order,
    crewed: Crewed,
    part: Part,
    nodes: u32,
    strong: bool,
) -> Outcome
    requires room { IsRoomFor units.now.units room.lines room.places }
    requires order { IsOrder (length units.now.units) order }
    requires crewed { (given : Shape) × (value : Option ℕ) × IsCrewed units.now.units units.now.slots order (searched_by strong) given value nodes part crewed.finished }
    ensures outcome { (workers : ℕ) (given : Shape) (value : Option ℕ) → 1 < workers → IsCrewed units.now.units units.now.slots order (searched_by strong) given value nodes part crewed.finished → IsOutcome units.now.units units.now.slots (asked_beyond strong workers nodes given part.count) result }
    ensures beyond { (given : Shape) (value : Option ℕ) → IsCrewed units.now.units units.now.slots order (searched_by strong) given value nodes part crewed.finished → GoesBeyond given value nodes result }
    ensures others { (given : Shape) (value : Option ℕ) → IsCrewed units.now.units units.now.slots order (searched_by strong) given value nodes part crewed.finished → KeepsToPart part given result }
    ensures journal { crewed.ended ≡ Refused → HasCut Journal result }
    ensures rules { HasRules strong result }
    ensures order { HasOrder order result }
{
    let Crewed { finished, ended } = crewed;
    let Finished {
        best,
        tree,
        left,
        done,
        spent,
        ..
    } = finished;
    if ended == Ended::Refused {
        return Outcome::Unproved {
            best,
            order,
            tree,
            strong,
            cut: Cut::Journal,
        };
    }
    if left == 0 {
        return proved(units, room, order, best, tree, strong);
    }
    Outcome::Unproved {
        best,
        order,
        tree,
        strong,
        cut: cut_of_crew(spent, nodes, part, done, ended),
    }
}

/// Searches on a book on which nothing has happened, with 2 to 16 workers, worker 0 of which offers a first plan where
/// `first` says so.
fn search_on<R: Threads + Wait + Sync, G: Gate + Sync>(
    rt: &R,
    alloc: Global,
    units: &Units,
    order: Vec<u8>,
    book: Book,
    workers: usize,
    nodes: u32,
    strong: bool,
    first: bool,
    gate: &G,
) -> Result<Outcome, SolveFault>
    requires workers { (2 ≤ workers) × (workers ≤ 16) }
    requires order { IsOrder (length units.now.units) order.items }
    requires book { IsBookOf units.now.units units.now.slots order.items (searched_by strong) book }
    requires unused { book.log ≡ [] }
    requires nodes { book.nodes ≡ nodes }
    ensures outcome { IfOk result (IsOutcome units.now.units units.now.slots (asked_beyond strong workers nodes book.given book.part.count)) }
    ensures beyond { IfOk result (GoesBeyond book.given book.given_value nodes) }
    ensures others { IfOk result (KeepsToPart book.part book.given) }
    ensures fault { IfErr result (IsSolveFault workers) }
    ensures order { IfOk result (HasOrder order.items) }
    ensures rules { IfOk result (HasRules strong) }
{
    let room = Room::new(alloc, units)?;
    let part = book.part();
    let crewed = search_by_crew(
        rt,
        alloc,
        book,
        units,
        order.as_slice(),
        workers,
        first,
        gate,
    );
    let order = Order::new(order);
    match crewed {
        Ok(crewed) => Ok(outcome_of(units, room, order, crewed, part, nodes, strong)),
        Err(CrewFault::OutOfMemory) => Err(SolveFault::OutOfMemory),
        Err(CrewFault::Spawn) => Err(SolveFault::Spawn),
    }
}

/// Searches with 2 to 16 workers, each in a thread of its own, on a book under one lock.
pub(crate) fn solve_by_crew<R: Threads + Wait + Sync, G: Gate + Sync>(
    rt: &R,
    alloc: Global,
    units: &Units,
    workers: usize,
    nodes: u32,
    strong: bool,
    gate: &G,
) -> Result<Outcome, SolveFault>
    requires workers { (2 ≤ workers) × (workers ≤ 16) }
    requires nodes { (1 ≤ nodes) × (nodes ≤ 10000000) }
    ensures outcome { IfOk result (IsOutcome units.now.units units.now.slots (asked_for strong workers nodes)) }
    ensures beyond { IfOk result (GoesBeyond open_leaf None nodes) }
    ensures order { IfOk result (HasSearchOrder strong (loads_of units.now.units)) }
    ensures rules { IfOk result (HasRules strong) }
    ensures fault { IfErr result (IsSolveFault workers) }
{
    let order = order_by(alloc, units, strong)?;
    let rules = rules_by(strong);
    let book = Book::new(alloc, units, order.as_slice(), rules, u64::from(nodes))?;
    search_on(
        rt, alloc, units, order, book, workers, nodes, strong, true, gate,
    )
}

/// Goes on with a part of a certificate's tree, with 2 to 16 workers, as `solve_by_crew` searches.
pub(crate) fn resume_by_crew<R: Threads + Wait + Sync, G: Gate + Sync>(
    rt: &R,
    alloc: Global,
    units: &Units,
    cert: Cert,
    part: Part,
    workers: usize,
    nodes: u32,
    gate: &G,
) -> Result<Outcome, SolveFault>
    requires workers { (2 ≤ workers) × (workers ≤ 16) }
    requires nodes { (1 ≤ nodes) × (nodes ≤ 10000000) }
    requires part { IsPart part }
    requires cert { IsPartialCert units.now.units units.now.slots (cert_view cert) }
    ensures outcome { IfOk result (IsOutcome units.now.units units.now.slots (asked_beyond (strong_spec (cert_view cert)) workers nodes (shape_of cert.tree) part.count)) }
    ensures beyond { IfOk result (GoesBeyond (shape_of cert.tree) (value_of cert.best) nodes) }
    ensures others { IfOk result (KeepsToPart part (shape_of cert.tree)) }
    ensures fault { IfErr result (IsSolveFault workers) }
    ensures order { IfOk result (HasOrder cert.order) }
    ensures rules { IfOk result (HasRules (strong_spec (cert_view cert))) }
{
    let order = Vec::from_slice(alloc, cert.order.as_slice())?;
    let strong = is_strong(&cert);
    let book = Book::resume(alloc, units, cert, rules_by(strong), part, u64::from(nodes))?;
    search_on(
        rt, alloc, units, order, book, workers, nodes, strong, false, gate,
    )
}
