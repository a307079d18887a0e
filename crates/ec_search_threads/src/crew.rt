//! A search by several workers.

ghost use Rattle.std.specs.Prelude.{◌≡◌, ◌≢◌, ◌≤◌, IfOk, [], length, vec_len, vec_capacity, All};
ghost use Rattle.ec_symmetry.specs.Orders.{IsOrder};
ghost use Rattle.ec_cert.specs.Parts.{IsPart};
ghost use Rattle.ec_book.specs.Books.{IsBookOf, BeganWith};
ghost use Rattle.ec_book_shared.specs.Seats.{AreOf, IsOf};
ghost use Rattle.ec_book_shared.specs.Closing.{IsJournal};
ghost use Rattle.ec_search_queues.specs.Lowest.{IsNewReader};
ghost use Rattle.ec_search_threads.specs.IsCrewed.{IsClosedFor, IsCrewed};
ghost use Rattle.ec_search_threads.specs.declared.ended.Ended.TheVariants.{Refused};

use crate::ended::Ended;
use crate::gate::Gate;
use crate::pieces::left_free;
use crate::post::Post;
use crate::seeding::{Opening, seed};
use crate::threads::{deal, into_slots, joined, out_of_slots, work_all};
use crossbeam_utils::sync::EventCount;
use ec_book::{Book, Finished};
use ec_book_shared::{CloseFault, Search, Seat, Shared};
use ec_search_queues::{Bound, Reader, Tickets};
use ec_units::Units;
use std::alloc::{AllocError, Global};
use std::marker::Brand;
use std::sync::ledger::Blank;
use std::sync::{Mutex, Wait};
use std::thread::{JoinHandle, Threads};

/// What several workers made of a book, and why they ended.
#[derive(Drop)]
pub struct Crewed {
    pub finished: Finished,
    /// The book refused one of them what it told, or the notes of the workers aren't those of the book; else memory was
    /// refused to one of them; else the time was over; else all were done.
    pub ended: Ended,
}

/// Why nothing came of the work of several workers.
#[derive(Clone, Copy, Debug, PartialEq, Eq)]
pub enum CrewFault {
    /// Memory was refused before the workers had their seats.
    OutOfMemory,
    /// No worker could be started.
    Spawn,
}

/// Closes the book, when all seats are back. Takes no memory.
fn closed<S: Search>(shared: Shared<S>, seats: Vec<Seat<'_, '_, S>>, ended: Ended) -> Crewed
    requires count { vec_len seats ≡ S.parts }
    requires ours { All (λ s. IsOf S.loads S.slots S.order s) seats.items }
    ensures closed { IsClosedFor S.loads S.slots S.order S.rules S.given S.given_value S.nodes S.part result.finished }
    ensures journal { result.ended ≢ Refused → (result.ended ≡ ended) × IsJournal seats.entry.items result.finished.log }
{
    match shared.close(seats) {
        Ok(finished) => Crewed { finished, ended },
        Err(CloseFault::Journal(finished)) => Crewed {
            finished,
            ended: Ended::Refused,
        },
        Err(CloseFault::OutOfMemory) => unreachable!(),
        Err(CloseFault::OtherUnits) => unreachable!(),
    }
}

/// Lets worker 0 seed, from what it begins with, and then each worker work in a thread of its own, where a piece is free;
/// why they ended, if one of them could be started.
fn run_all<S: Search + Send + Sync, R: Threads + Wait + Sync, G: Gate + Sync>(
    rt: &R,
    alloc: Global,
    shared: &Shared<S>,
    slots: &[Mutex<Post<'_, '_, '_, S>>],
    opening: Opening,
    gate: &G,
    handles: Vec<JoinHandle<Ended>>,
) -> Option<Ended>
    requires some { 1 ≤ length slots.now }
    requires part { IsPart opening.part }
    requires empty { vec_len handles ≡ 0 }
    requires room { length slots.now ≤ vec_capacity handles }
{
    let part = opening.part;
    let pieces = opening.pieces as u64;
    let seeded = seed(
        rt,
        alloc,
        shared,
        &mut *slots[0].lock(rt),
        opening,
        slots.len(),
    );
    let (first, end) = left_free(slots[0].lock(rt).seat.receipts(), part, pieces);
    if first >= end {
        return Some(seeded.unwrap_or(Ended::Done));
    }
    deal(rt, slots, part, pieces, first, end);
    let others = match seeded {
        Some(_) => &slots[1..],
        None => slots,
    };
    let handles = work_all(rt, alloc, shared, others, gate, handles);
    if handles.is_empty() && !others.is_empty() {
        return None;
    }
    Some(joined(rt, handles, seeded.unwrap_or(Ended::Done)))
}

/// What workers share beside the book, a bound with a reader for each and tickets for each, and room for what comes of each.
#[derive(Drop)]
struct Means<A: Drop, B: Drop, C: Drop> {
    bound: Bound,
    readers: Vec<Reader>,
    tickets: Vec<Tickets>,
    slots: Vec<A>,
    back: Vec<B>,
    handles: Vec<C>,
}

/// The means of that many workers (1 to 16).
fn gathered<A: Drop, B: Drop, C: Drop>(
    alloc: Global,
    workers: usize,
) -> Result<Means<A, B, C>, AllocError>
    requires { (1 ≤ workers) × (workers ≤ 16) }
    ensures readers { IfOk result (λ m. (vec_len m.readers ≡ workers) × All (IsNewReader m.bound) m.readers.items) }
    ensures tickets { IfOk result (λ m. vec_len m.tickets ≡ workers) }
    ensures slots { IfOk result (λ m. (vec_len m.slots ≡ 0) × (workers ≤ vec_capacity m.slots)) }
    ensures back { IfOk result (λ m. (vec_len m.back ≡ 0) × (workers ≤ vec_capacity m.back)) }
    ensures handles { IfOk result (λ m. (vec_len m.handles ≡ 0) × (workers ≤ vec_capacity m.handles)) }
{
    let (bound, readers) = Bound::new(alloc, workers)?;
    Ok(Means {
        bound,
        readers,
        tickets: Tickets::new(alloc, workers)?,
        slots: Vec::with_capacity(alloc, workers)?,
        back: Vec::with_capacity(alloc, workers)?,
        handles: Vec::with_capacity(alloc, workers)?,
    })
}

/// The search of a ledger, by as many workers as it has parts.
fn search_on<S: Search + Send + Sync, R: Threads + Wait + Sync, G: Gate + Sync>(
    rt: &R,
    alloc: Global,
    blank: Blank,
    book: Book,
    units: &Units,
    order: &[u8],
    workers: usize,
    first: bool,
    gate: &G,
) -> Result<Crewed, CrewFault>
    requires name { blank.name ≡ S.name }
    requires parts { (blank.parts ≡ S.parts) × (blank.parts ≡ workers) }
    requires few { (1 ≤ workers) × (workers ≤ 16) }
    requires order { IsOrder (length units.now.units) order.now }
    requires search { AreOf S.loads S.slots S.order units.now.units units.now.slots order.now }
    requires book { IsBookOf units.now.units units.now.slots order.now S.rules book }
    requires began { BeganWith S.given S.given_value S.nodes S.part book }
    requires unused { book.log ≡ [] }
    ensures { IfOk result (λ c. IsClosedFor S.loads S.slots S.order S.rules S.given S.given_value S.nodes S.part c.finished) }
{
    let opening = Opening {
        value: book.value(),
        pieces: book.open_pieces(),
        part: book.part(),
        first,
    };
    let Ok(
        Means {
            bound,
            readers,
            tickets,
            slots,
            back,
            handles,
        },
    ) = gathered(alloc, workers)
    else {
        return Err(CrewFault::OutOfMemory);
    };
    let Ok((shared, seats)) = Shared::<S>::new(alloc, blank, book, units, order, workers) else {
        return Err(CrewFault::OutOfMemory);
    };
    let bell = EventCount::new();
    let slots = into_slots(seats, &bound, &bell, readers, tickets, slots);
    let Some(ended) = run_all(rt, alloc, &shared, slots.as_slice(), opening, gate, handles) else {
        return Err(CrewFault::Spawn);
    };
    Ok(closed(shared, out_of_slots(slots, back), ended))
}

/// Searches on a book on which nothing has happened, with 1 to 16 workers, each in a thread of its own. They begin at the value of the
/// book, if it has one. Worker 0 first offers the plan that a search by the book's rules opens with, where `first` says so, and splits and
/// closes single nodes until as many pieces of the book's part are free as there are workers; the free pieces of that part are then dealt
/// to the workers in turn. `gate` is told before each later node, and asked whether the time is over before each later piece. What the
/// workers did comes back in the finished book, in whatever order they did it; a book that goes on with a tree was given that tree.
pub fn search_by_crew<R: Threads + Wait + Sync, G: Gate + Sync>(
    rt: &R,
    alloc: Global,
    book: Book,
    units: &Units,
    order: &[u8],
    workers: usize,
    first: bool,
    gate: &G,
) -> Result<Crewed, CrewFault>
    requires few { (1 ≤ workers) × (workers ≤ 16) }
    requires order { IsOrder (length units.now.units) order.now }
    requires book { IsBookOf units.now.units units.now.slots order.now book.rules book }
    requires unused { book.log ≡ [] }
    ensures { IfOk result (λ c. IsCrewed units.now.units units.now.slots order.now book.rules book.given book.given_value book.nodes book.part c.finished) }
{
    let blank = Blank::new(workers as u64);
    search_on::<Brand, R, G>(rt, alloc, blank, book, units, order, workers, first, gate)
}
