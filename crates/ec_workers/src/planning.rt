//! The planner.

ghost use Rattle.std.specs.Prelude.{◌≡◌, ◌≢◌, ◌<◌, ◌≤◌, None, IfOk, IfErr, IsTrue, length};
ghost use Rattle.ec_units.specs.Load.{loads_of};
ghost use Rattle.ec_loads.specs.Search.{open_count};
ghost use Rattle.ec_loads.specs.Shape.{open_leaf};
ghost use Rattle.ec_symmetry.specs.Orders.{IsOrder};
ghost use Rattle.ec_cert.specs.IsBestPlan.{value_of};
ghost use Rattle.ec_cert.specs.Parts.{IsPart};
ghost use Rattle.ec_cert.specs.Shapes.{cert_view, shape_of};
ghost use Rattle.ec_book.specs.Books.{IsBookOf, IsSameSearch};
ghost use Rattle.ec_search_threads.specs.declared.ended.Ended.TheVariants.{Time as EndedTime};
ghost use Rattle.ec_workers.specs.Answers.{Asked, asked_beyond, asked_for, GoesBeyond, HasCut, HasOrder, HasRules, HasSearchOrder, IsOutcome, is_strong as strong_spec, KeepsToPart, tree_in, value_in};
ghost use Rattle.ec_outcome.specs.Searched.{searched_by};
ghost use Rattle.ec_workers.specs.Outcomes.{IsFound, IsPartialCert};
ghost use Rattle.ec_workers.specs.IsRoomFor.{IsRoomFor};
ghost use Rattle.ec_outcome.specs.declared.search.Cut.{Cut};
ghost use Rattle.ec_outcome.specs.declared.search.Cut.TheVariants.{Budget, Journal, Memory, Parts, Time};
ghost use Rattle.ec_outcome.specs.declared.search.SolveFault.TheVariants.{OutOfMemory};

use crate::begin::{is_strong, order_by, rules_by};
use crate::certify::certificate;
use crate::room::{Room, copied};
use ec_book::{Book, BookFault, Finished};
use ec_cert::{Best, Cert, Order, Part, Tree};
use ec_checker::law_faults_refute;
use ec_outcome::{Cut, Outcome, SolveFault};
use ec_search_threads::{Ended, Gate, opening_plan, work_alone};
use ec_tree::law_trees_bound;
use ec_units::Units;
use std::alloc::Global;
use std::sync::Wait;

/// The number of the only worker.
const ALONE: usize = 0;

/// Offers the first plan, if there is one; false where memory was refused.
fn offered_first(alloc: Global, units: &Units, book: &mut Book) -> bool
    ensures { IsSameSearch book.old book.new }
{
    let plan = match opening_plan(alloc, units, book.rules()) {
        Ok(Some(plan)) => plan,
        Ok(None) => return true,
        Err(_) => return false,
    };
    match book.better(ALONE, plan) {
        Ok(()) => true,
        Err((fault, _)) => fault != BookFault::OutOfMemory,
    }
}

/// Offers the first plan, and then works on the pieces of the book; also says why that ended.
fn searched<R: Wait, G: Gate>(
    rt: &R,
    alloc: Global,
    units: &Units,
    order: &[u8],
    book: Book,
    gate: &G,
) -> (Book, Ended)
    requires order { IsOrder (length units.now.units) order.now }
    requires book { IsBookOf units.now.units units.now.slots order.now book.rules book }
    ensures same { IsSameSearch book result.0 }
{
    let mut book = book;
    if !offered_first(alloc, units, &mut book) {
        return (book, Ended::Memory);
    }
    work_alone(rt, alloc, units, order, book, gate)
}

/// Why a search that left a leaf open ended: all nodes are spent, else its part of several is done, else the time was over,
/// else memory was refused.
fn cut_of(spent: u64, nodes: u32, part: Part, done: bool, why: Ended) -> Cut
    ensures budget { result ≡ Budget → spent ≡ nodes }
    ensures memory { result ≡ Memory → (spent ≢ nodes) × (why ≢ EndedTime) }
    ensures time { result ≡ Time → (spent ≢ nodes) × (why ≡ EndedTime) }
    ensures parts { result ≡ Parts → (1 < part.count) × (spent ≢ nodes) × IsTrue done }
    ensures agrees { result ≢ Journal }
{
    if spent == u64::from(nodes) {
        Cut::Budget
    } else if done && part.count > 1 {
        Cut::Parts
    } else if why == Ended::Time {
        Cut::Time
    } else {
        Cut::Memory
    }
}

/// What comes of a finished search in which no leaf is open. Takes no memory.
pub(crate) fn proved(
    units: &Units,
    room: Room,
    order: Order,
    best: Option<Best>,
    tree: Tree,
    strong: bool,
) -> Outcome
    requires room { IsRoomFor units.now.units room.lines room.places }
    requires found { IsFound units.now.units units.now.slots strong order best (shape_of tree) }
    ensures outcome { (asked : Asked) → IsOutcome units.now.units units.now.slots asked result }
    ensures tree { tree_in result ≡ shape_of tree }
    ensures value { value_in result ≡ value_of best }
    ensures rules { HasRules strong result }
    ensures order { HasOrder order result }
    ensures uncut { (why : Cut) → ¬ (HasCut why result) }
{
    law_faults_refute();
    law_trees_bound();
    let Room { lines, places } = room;
    let Some(best) = best else {
        let cert = certificate(strong, units.slots, lines, order, None, tree);
        return Outcome::NoPlan { cert };
    };
    let plan = copied(places, &best.plan);
    let busiest = best.busiest;
    let cert = certificate(strong, units.slots, lines, order, Some(best), tree);
    Outcome::Optimal {
        plan,
        busiest,
        cert,
    }
}

/// What comes of the book of a search with one worker, who ended for this reason. Takes no memory.
fn ended(
    units: &Units,
    room: Room,
    order: Order,
    book: Book,
    nodes: u32,
    strong: bool,
    why: Ended,
) -> Outcome
    requires room { IsRoomFor units.now.units room.lines room.places }
    requires order { IsOrder (length units.now.units) order }
    requires book { IsBookOf units.now.units units.now.slots order (searched_by strong) book }
    requires nodes { book.nodes ≡ nodes }
    ensures outcome { IsOutcome units.now.units units.now.slots (asked_beyond strong 1 nodes book.given book.part.count) result }
    ensures beyond { GoesBeyond book.given book.given_value nodes result }
    ensures others { KeepsToPart book.part book.given result }
    ensures rules { HasRules strong result }
    ensures order { HasOrder order result }
{
    let part = book.part();
    let Ok(finished) = book.finish() else {
        unreachable!()
    };
    let Finished {
        best,
        tree,
        left,
        done,
        spent,
        ..
    } = finished;
    if left == 0 {
        return proved(units, room, order, best, tree, strong);
    }
    Outcome::Unproved {
        best,
        order,
        tree,
        strong,
        cut: cut_of(spent, nodes, part, done, why),
    }
}

/// Searches with one worker, which runs in the calling thread, on a book without a lock.
pub(crate) fn solve_alone<R: Wait, G: Gate>(
    rt: &R,
    alloc: Global,
    units: &Units,
    nodes: u32,
    strong: bool,
    gate: &G,
) -> Result<Outcome, SolveFault>
    requires nodes { (1 ≤ nodes) × (nodes ≤ 10000000) }
    ensures outcome { IfOk result (IsOutcome units.now.units units.now.slots (asked_for strong 1 nodes)) }
    ensures beyond { IfOk result (GoesBeyond open_leaf None nodes) }
    ensures order { IfOk result (HasSearchOrder strong (loads_of units.now.units)) }
    ensures rules { IfOk result (HasRules strong) }
    ensures fault { IfErr result (λ e. e ≡ OutOfMemory) }
{
    let room = Room::new(alloc, units)?;
    let order = order_by(alloc, units, strong)?;
    let rules = rules_by(strong);
    let book = Book::new(alloc, units, order.as_slice(), rules, u64::from(nodes))?;
    let (book, why) = searched(rt, alloc, units, order.as_slice(), book, gate);
    let order = Order::new(order);
    Ok(ended(units, room, order, book, nodes, strong, why))
}

/// Goes on with a part of a certificate's tree, with one worker, as `solve_alone` searches.
pub(crate) fn resume_alone<R: Wait, G: Gate>(
    rt: &R,
    alloc: Global,
    units: &Units,
    cert: Cert,
    part: Part,
    nodes: u32,
    gate: &G,
) -> Result<Outcome, SolveFault>
    requires nodes { (1 ≤ nodes) × (nodes ≤ 10000000) }
    requires part { IsPart part }
    requires cert { IsPartialCert units.now.units units.now.slots (cert_view cert) }
    ensures outcome { IfOk result (IsOutcome units.now.units units.now.slots (asked_beyond (strong_spec (cert_view cert)) 1 nodes (shape_of cert.tree) part.count)) }
    ensures beyond { IfOk result (GoesBeyond (shape_of cert.tree) (value_of cert.best) nodes) }
    ensures others { IfOk result (KeepsToPart part (shape_of cert.tree)) }
    ensures order { IfOk result (HasOrder cert.order) }
    ensures rules { IfOk result (HasRules (strong_spec (cert_view cert))) }
    ensures fault { IfErr result (λ e. e ≡ OutOfMemory) }
{
    let room = Room::new(alloc, units)?;
    let order = Vec::from_slice(alloc, cert.order.as_slice())?;
    let strong = is_strong(&cert);
    let book = Book::resume(alloc, units, cert, rules_by(strong), part, u64::from(nodes))?;
    let (book, why) = work_alone(rt, alloc, units, order.as_slice(), book, gate);
    let order = Order::new(order);
    Ok(ended(units, room, order, book, nodes, strong, why))
}
