//! The threads of the workers.

ghost use Rattle.std.specs.Prelude.{◌≡◌, ◌⊎◌, ◌+◌, ◌≤◌, ◌↔◌, All, vec_len, vec_capacity, length};
ghost use Rattle.ec_cert.specs.Parts.{IsPart};
ghost use Rattle.ec_book_shared.specs.Seats.{IsOf};
ghost use Rattle.ec_search_queues.specs.Lowest.{IsNewReader};
ghost use Rattle.ec_search_threads.specs.declared.ended.Ended.TheVariants.{Done, Refused};

use crate::ended::Ended;
use crate::gate::Gate;
use crate::post::Post;
use crate::work::work;
use crossbeam_utils::sync::EventCount;
use ec_book::is_of_part;
use ec_book_shared::{Search, Seat, Shared};
use ec_cert::Part;
use ec_search_queues::{Bound, Reader, Tickets};
use std::alloc::Global;
use std::sync::{Mutex, Wait};
use std::thread;
use std::thread::{JoinHandle, Threads};

/// Puts each seat in a slot of its own, for which there is room, with a reader of the bound, tickets and the
/// bell that wakes workers.
pub(crate) fn into_slots<'u, 'o, 'b, S: Search>(
    seats: Vec<Seat<'u, 'o, S>>,
    bound: &'b Bound,
    bell: &'b EventCount,
    readers: Vec<Reader>,
    tickets: Vec<Tickets>,
    slots: Vec<Mutex<Post<'u, 'o, 'b, S>>>,
) -> Vec<Mutex<Post<'u, 'o, 'b, S>>>
    requires ours { All (λ s. IsOf S.loads S.slots S.order s) seats.items }
    requires readers { (vec_len readers ≡ vec_len seats) × All (IsNewReader bound.now) readers.items }
    requires tickets { vec_len tickets ≡ vec_len seats }
    requires empty { vec_len slots ≡ 0 }
    requires room { vec_len seats ≤ vec_capacity slots }
    ensures { vec_len result ≡ vec_len seats.entry }
{
    let mut slots = slots;
    let mut all_readers = readers.into_iter();
    let mut all_tickets = tickets.into_iter();
    for seat in seats {
        let Some(reader) = all_readers.next() else {
            unreachable!()
        };
        let Some(tickets) = all_tickets.next() else {
            unreachable!()
        };
        slots.push_reserved(Mutex::new(Post {
            seat,
            bound,
            bell,
            reader,
            tickets,
        }));
    }
    slots
}

/// Takes the seats out of their slots again; there is room for them.
pub(crate) fn out_of_slots<'u, 'o, S: Search>(
    slots: Vec<Mutex<Post<'u, 'o, '_, S>>>,
    seats: Vec<Seat<'u, 'o, S>>,
) -> Vec<Seat<'u, 'o, S>>
    requires empty { vec_len seats ≡ 0 }
    requires room { vec_len slots ≤ vec_capacity seats }
    ensures count { vec_len result ≡ vec_len slots.entry }
    ensures ours { All (λ s. IsOf S.loads S.slots S.order s) result.items }
{
    let mut seats = seats;
    for slot in slots {
        let Post { seat, .. } = slot.into_inner();
        seats.push_reserved(seat);
    }
    seats
}

/// Makes tickets of these pieces, from the first one up to, not including, `end`, in turn for the worker of each slot; of the
/// first `pieces` of the book only those of the part.
pub(crate) fn deal<S: Search, R: Wait>(
    rt: &R,
    slots: &[Mutex<Post<'_, '_, '_, S>>],
    part: Part,
    pieces: u64,
    first: u64,
    end: u64,
)
    requires some { 1 ≤ length slots.now }
    requires part { IsPart part }
{
    let mut next = 0;
    for piece in first..end {
        if is_of_part(part, pieces, piece) {
            slots[next].lock(rt).push(piece);
            next = if next + 1 < slots.len() { next + 1 } else { 0 };
        }
    }
}

/// Lets each worker work in a thread of its own, of which the handles are given once all have ended; there is room for
/// them. A worker whose thread can't be started is left out.
pub(crate) fn work_all<S: Search + Send + Sync, R: Threads + Wait + Sync, G: Gate + Sync>(
    rt: &R,
    alloc: Global,
    shared: &Shared<S>,
    slots: &[Mutex<Post<'_, '_, '_, S>>],
    gate: &G,
    handles: Vec<JoinHandle<Ended>>,
) -> Vec<JoinHandle<Ended>>
    requires empty { vec_len handles ≡ 0 }
    requires room { length slots.now ≤ vec_capacity handles }
{
    thread::scope(
        thread::scope_env(),
        rt,
        |scope|
            requires { (vec_len handles ≡ 0) × (length slots.now ≤ vec_capacity handles) }
        {
            let mut handles = handles;
            for slot in slots {
                let started = scope.spawn(move || work(
                    rt,
                    alloc,
                    shared,
                    &mut *slot.lock(rt),
                    gate,
                ));
                if let Ok(handle) = started {
                    handles.push_reserved(handle);
                }
            }
            handles
        },
    )
}

/// Why two workers ended: the book refused one of them, else memory was refused, else the time was over, else both were
/// done.
fn worse(a: Ended, b: Ended) -> Ended
    ensures refused { (result ≡ Refused) ↔ ((a ≡ Refused) ⊎ (b ≡ Refused)) }
    ensures done { (result ≡ Done) ↔ ((a ≡ Done) × (b ≡ Done)) }
{
    match (a, b) {
        (Ended::Refused, _) | (_, Ended::Refused) => Ended::Refused,
        (Ended::Memory, _) | (_, Ended::Memory) => Ended::Memory,
        (Ended::Time, _) | (_, Ended::Time) => Ended::Time,
        (Ended::Done, Ended::Done) => Ended::Done,
    }
}

/// Why all workers ended, the first of whom ended so.
pub(crate) fn joined<R: Threads>(rt: &R, handles: Vec<JoinHandle<Ended>>, first: Ended) -> Ended {
    let mut all = first;
    for handle in handles {
        all = worse(all, handle.join(rt));
    }
    all
}
