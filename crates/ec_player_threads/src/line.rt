//! The threads of a line of slaves: they are started, and joined.

ghost use Rattle.std.specs.Prelude.{◌≡◌, ◌⊎◌, [], ◌++◌, ℕ, List, map, IfOk, OnOk, IfErr, IfSome};
ghost use Rattle.rtrb.specs.Ring.{sent as sent_by, received, all_sent, SameConsumer};
ghost use Rattle.ec_slave.specs.Journey.{line_outs, line_finals};
ghost use Rattle.ec_player.specs.Lines.{IsMemory};
ghost use Rattle.ec_player.specs.Boxes.{Boxed, bytes_in};
ghost use Rattle.ec_player_threads.specs.Frames.{IsFront};
ghost use Rattle.ec_player_threads.specs.Threads.{Linked};
ghost use Rattle.ec_player_threads.specs.Plays.{IsLack};

use crate::carrying::{Back, Carried, carry};
use crate::seats::{Seat, is_over};
use ec_player::{BoxedFrame, PlayFault};
use ec_slave::Pass;
use rtrb::{Consumer, Finished, Producer, RingBuffer};
use std::alloc::Global;
use std::snapshot::Snapshot;
use std::sync::Wait;
use std::thread::{PromisedHandle, Scope, Threads};

/// Frames that a ring has room for: all that are under way, so that sending never waits for what comes back.
pub(crate) const RING: usize = 512;

/// The thread of a slave, with what it promises.
pub(crate) type Handle<X> = PromisedHandle<Back<X>, Carried<X>>;

/// Starts the thread of a slave, if it can be started.
fn start<'s, E, X: Pass + Send + Drop + 's, R: Wait + Sync>(
    rt: &'s R,
    scope: &Scope<'s, E>,
    slave: X,
    taken: Consumer<BoxedFrame>,
    put: Producer<BoxedFrame>,
    seat: Seat<'s>,
) -> Option<Handle<X>>
    requires { (received taken ≡ []) × (sent_by put ≡ []) }
    ensures { IfSome result (λ h. (h.promise.slave.value ≡ slave) × (h.promise.taken.value ≡ taken) × (h.promise.put.value ≡ put)) }
{
    let promise = Carried {
        slave: Snapshot::of(&slave),
        taken: Snapshot::of(&taken),
        put: Snapshot::of(&put),
    };
    scope
        .spawn_with(promise, move || carry(rt, slave, taken, put, seat))
        .ok()
}

/// Starts a thread for each slave, with a ring to the next one, and gives the end of the last ring. `first` is the end of the ring to
/// the first slave. Where a ring or a thread can't be had, `handles` holds the threads that were started.
pub(crate) fn start_all<'s, E, X: Pass + Send + Drop + 's, R: Wait + Sync>(
    rt: &'s R,
    scope: &Scope<'s, E>,
    alloc: Global,
    slaves: Vec<X>,
    first: Consumer<BoxedFrame>,
    seat: Seat<'s>,
    handles: &mut Vec<Handle<X>>,
) -> Result<Consumer<BoxedFrame>, PlayFault>
    requires { (received first ≡ []) × (handles.old.items ≡ []) }
    ensures linked { IfOk result (λ last. Linked first.end (map (λ h. h.promise) handles.new.items) last.end) }
    ensures slaves { OnOk result (map (λ h. h.promise.slave.value) handles.new.items ≡ slaves.items) }
    ensures received { IfOk result (λ last. received last ≡ []) }
    ensures fault { IfErr result IsLack }
{
    let mut taken = first;
    let mut seat = seat;
    for slave in slaves {
        let Ok((put, next)) = RingBuffer::new(alloc, RING) else {
            return Err(PlayFault::Ring);
        };
        let Some(handle) = start(rt, scope, slave, taken, put, seat) else {
            return Err(PlayFault::Spawn);
        };
        taken = next;
        seat = seat.behind();
        let Ok(()) = handles.push(handle) else {
            return Err(PlayFault::OutOfMemory);
        };
    }
    Ok(taken)
}

/// Ends the threads of a line through which nothing was sent.
pub(crate) fn give_up<X: Pass + Send + Drop, R: Threads>(
    rt: &R,
    first: Producer<BoxedFrame>,
    seat: Seat<'_>,
    handles: Vec<Handle<X>>,
) {
    let _ended = first.finish();
    seat.wake();
    for handle in handles {
        let _back = handle.join(rt);
    }
}

/// Takes what is still under way, until nothing more can come.
fn drain<R: Wait>(rt: &R, last: &mut Consumer<BoxedFrame>, own: Seat<'_>)
    ensures ring { SameConsumer last.old last.new }
    ensures more { (frames : List Boxed) × (received last.new ≡ received last.old ++ frames) }
{
    for _ in rt.forever() {
        if last.pop().is_err() && is_over(rt, last, own) {
            return;
        }
    }
    unreachable!()
}

/// Joins the threads, one after the other, and shows that nothing is left in their rings; gives the slaves.
fn join_all<X: Pass + Send + Drop, R: Threads>(
    rt: &R,
    alloc: Global,
    handles: Vec<Handle<X>>,
    first: Finished<BoxedFrame>,
    last: Consumer<BoxedFrame>,
) -> Result<Vec<X>, PlayFault>
    requires { Linked first.end (map (λ h. h.promise) handles.items) last.end }
    ensures frames { OnOk result (bytes_in (received last) ≡ line_outs X.out X.next (map (λ h. h.promise.slave.value) handles.items) (bytes_in (all_sent first))) }
    ensures slaves { IfOk result (λ v. v.items ≡ line_finals X.out X.next (map (λ h. h.promise.slave.value) handles.items) (bytes_in (all_sent first))) }
    ensures fault { IfErr result IsLack }
{
    let mut last = last;
    let mut finished = first;
    let Ok(mut slaves) = Vec::with_capacity(alloc, handles.len()) else {
        return Err(PlayFault::OutOfMemory);
    };
    for handle in handles {
        let Back {
            slave,
            mut taken,
            put,
        } = handle.join(rt);
        if taken.slots_after(&mut finished) != 0 {
            return Err(PlayFault::Ring);
        }
        let Some(next) = put else {
            return Err(PlayFault::Ring);
        };
        finished = next;
        let Ok(()) = slaves.push(slave) else {
            return Err(PlayFault::OutOfMemory);
        };
    }
    if last.slots_after(&mut finished) != 0 {
        return Err(PlayFault::Ring);
    }
    Ok(slaves)
}

/// Ends a line: no more is sent, what is under way is taken, and all threads are joined.
pub(crate) fn close<X: Pass + Send + Drop, R: Threads + Wait>(
    rt: &R,
    alloc: Global,
    first: Producer<BoxedFrame>,
    last: Consumer<BoxedFrame>,
    seat: Seat<'_>,
    own: Seat<'_>,
    handles: Vec<Handle<X>>,
) -> Result<Vec<X>, PlayFault>
    requires { Linked first.end (map (λ h. h.promise) handles.items) last.end }
    ensures frames { OnOk result (IsFront (bytes_in (received last)) (line_outs X.out X.next (map (λ h. h.promise.slave.value) handles.items) (bytes_in (sent_by first)))) }
    ensures slaves { IfOk result (λ v. v.items ≡ line_finals X.out X.next (map (λ h. h.promise.slave.value) handles.items) (bytes_in (sent_by first))) }
    ensures fault { IfErr result IsLack }
{
    let mut last = last;
    let ended = first.finish();
    seat.wake();
    drain(rt, &mut last, own);
    match ended {
        Some(finished) => join_all(rt, alloc, handles, finished, last),
        None => Err(PlayFault::Ring),
    }
}
