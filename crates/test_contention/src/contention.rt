//! Many threads on one book.

ghost use Rattle.std.specs.Prelude.{◌≡◌, ◌≤◌, ◌<◌, IfOk, length, vec_len, []};
ghost use Rattle.ec_symmetry.specs.Orders.{IsOrder};
ghost use Rattle.ec_book.specs.Books.{IsBookOf, BeganWith};
ghost use Rattle.ec_book_shared.specs.Seats.{AreOf};

use crate::turns::work;
use ec_book::{Book, Finished};
use ec_book_shared::{Search, Seat, Shared};
use ec_units::Units;
use std::alloc::{AllocError, Global};
use std::marker::Brand;
use std::sync::ledger::Blank;
use std::sync::{Mutex, Wait};
use std::thread;
use std::thread::{JoinHandle, Threads};

/// Puts each seat in a slot of its own.
fn into_slots<'u, 'o, S: Search>(
    alloc: Global,
    seats: Vec<Seat<'u, 'o, S>>,
) -> Result<Vec<Mutex<Seat<'u, 'o, S>>>, AllocError>
    ensures { IfOk result (λ slots. vec_len slots ≡ vec_len seats.entry) }
{
    let mut slots = Vec::with_capacity(alloc, seats.len())?;
    for seat in seats {
        slots.push(Mutex::new(seat))?;
    }
    Ok(slots)
}

/// Takes each seat out of its slot.
fn out_of_slots<'u, 'o, S: Search>(
    alloc: Global,
    slots: Vec<Mutex<Seat<'u, 'o, S>>>,
) -> Result<Vec<Seat<'u, 'o, S>>, AllocError>
    ensures { IfOk result (λ seats. vec_len seats ≡ vec_len slots.entry) }
{
    let mut seats = Vec::with_capacity(alloc, slots.len())?;
    for slot in slots {
        seats.push(slot.into_inner())?;
    }
    Ok(seats)
}

/// Each seat makes its turns in a thread of its own; one that can't be started is left out. How many were started.
fn work_all<S: Search + Send + Sync, R: Threads + Wait + Sync>(
    rt: &R,
    alloc: Global,
    shared: &Shared<S>,
    slots: &[Mutex<Seat<'_, '_, S>>],
    turns: u32,
) -> Result<usize, AllocError> {
    let handles: Vec<JoinHandle<()>> = Vec::with_capacity(alloc, slots.len())?;
    let handles = thread::scope(thread::scope_env(), rt, |scope| {
        let mut handles = handles;
        for slot in slots {
            if let Ok(handle) = scope.spawn(move || work(
                rt,
                alloc,
                shared,
                &mut *slot.lock(rt),
                turns,
            )) {
                let _ = handles.push(handle);
            }
        }
        handles
    });
    let started = handles.len();
    for handle in handles {
        handle.join(rt);
    }
    Ok(started)
}

/// What that many threads made of a book, and how many of them there were; none where memory was refused or the book
/// was not closed.
fn crowd_on<S: Search + Send + Sync, R: Threads + Wait + Sync>(
    rt: &R,
    alloc: Global,
    blank: Blank,
    book: Book,
    units: &Units,
    order: &[u8],
    turns: u32,
) -> Option<(Finished, usize)>
    requires name { blank.name ≡ S.name }
    requires parts { (blank.parts ≡ S.parts) × (blank.parts ≡ 16) }
    requires order { IsOrder (length units.now.units) order.now }
    requires search { AreOf S.loads S.slots S.order units.now.units units.now.slots order.now }
    requires book { IsBookOf units.now.units units.now.slots order.now S.rules book }
    requires began { BeganWith S.given S.given_value S.nodes S.part book }
    requires unused { book.log ≡ [] }
{
    let Ok((shared, seats)) = Shared::<S>::new(alloc, blank, book, units, order, 16) else {
        return None;
    };
    let Ok(slots) = into_slots(alloc, seats) else {
        return None;
    };
    // The first seat leaves pieces for all before the threads start.
    work(rt, alloc, &shared, &mut *slots[0].lock(rt), 40);
    let Ok(started) = work_all(rt, alloc, &shared, slots.as_slice(), turns) else {
        return None;
    };
    let Ok(seats) = out_of_slots(alloc, slots) else {
        return None;
    };
    match shared.close(seats) {
        Ok(finished) => Some((finished, started)),
        Err(_) => None,
    }
}

/// What sixteen threads made of a book in so many turns each.
pub(crate) fn crowd<R: Threads + Wait + Sync>(
    rt: &R,
    alloc: Global,
    book: Book,
    units: &Units,
    order: &[u8],
    turns: u32,
) -> Option<(Finished, usize)>
    requires order { IsOrder (length units.now.units) order.now }
    requires book { IsBookOf units.now.units units.now.slots order.now book.rules book }
    requires unused { book.log ≡ [] }
{
    crowd_on::<Brand, R>(rt, alloc, Blank::new(16), book, units, order, turns)
}
