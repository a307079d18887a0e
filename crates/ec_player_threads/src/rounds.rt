//! Frames are sent as there is room for them, and taken and judged as they come back.

ghost use Rattle.std.specs.Prelude.{◌≡◌, ◌⊎◌, ℕ, ◌+◌, ◌<◌, ◌≤◌, ◌^◌, List, ◌++◌, length, map, take, get_or, IfOk, OnOk, IfErr, None, vec_capacity};
ghost use Rattle.rtrb.specs.Ring.{sent as sent_by, received, SameProducer, SameConsumer};
ghost use Rattle.ec_player.specs.Faults.{first_fault};
ghost use Rattle.ec_player.specs.Lines.{bytes_of, IsMemory};
ghost use Rattle.ec_player.specs.Trips.{sent_in};
ghost use Rattle.ec_player.specs.Boxes.{Boxed, bytes_in};
ghost use Rattle.ec_player_threads.specs.Rounds.{IsRound, IsStopped};

use crate::seats::{Seat, is_over};
use ec_player::{
    BoxedFrame, PlayFault, TickRow, Trip, boxed, bring, judge_trip, keep_backs, row_of,
};
use rtrb::{Consumer, Producer};
use std::alloc::{AllocError, Global};
use std::sync::Wait;
use std::thread;

/// Sends the next of these frames, if one is left and there is room for it; so many were sent before, and so many are afterwards.
fn send_next(
    alloc: Global,
    first: &mut Producer<BoxedFrame>,
    spare: &mut Vec<BoxedFrame>,
    trips: &[Trip],
    count: usize,
) -> Result<usize, AllocError>
    requires { count ≤ length trips.now }
    ensures ring { SameProducer first.old first.new }
    ensures few { IfOk result (λ n. n ≤ length trips.now) }
    ensures sent { IfOk result (λ n. (base : List (List ℕ)) → bytes_in (sent_by first.old) ≡ base ++ take count (bytes_of (map sent_in trips.now)) →
        bytes_in (sent_by first.new) ≡ base ++ take n (bytes_of (map sent_in trips.now))) }
{
    if count == trips.len() {
        return Ok(count);
    }
    if first.is_full() {
        return Ok(count);
    }
    let frame = boxed(alloc, spare, &trips[count].frame)?;
    first.push_reserved(frame);
    Ok(count + 1)
}

/// Lets the thread at a place and others run where nothing was sent.
fn make_room(seat: Seat<'_>, moved: bool) {
    if !moved {
        seat.wake();
        thread::yield_now();
    }
}

/// Sends all of these frames, as there is room for them. The thread at the place behind the ring is woken where there is none, and
/// else by the caller.
pub(crate) fn send_all<R: Wait>(
    rt: &R,
    alloc: Global,
    first: &mut Producer<BoxedFrame>,
    spare: &mut Vec<BoxedFrame>,
    seat: Seat<'_>,
    trips: &[Trip],
) -> Result<(), AllocError>
    ensures ring { SameProducer first.old first.new }
    ensures sent { OnOk result (bytes_in (sent_by first.new) ≡ bytes_in (sent_by first.old) ++ bytes_of (map sent_in trips.now)) }
{
    let mut count = 0;
    for _ in rt.forever() {
        let before = count;
        count = send_next(alloc, first, spare, trips, count)?;
        if count == trips.len() {
            return Ok(());
        }
        make_room(seat, count != before);
    }
    unreachable!()
}

/// Takes the next frame that comes back, if one is due and there, and judges it; `from` is the number of the first that is due.
fn take_next(
    last: &mut Consumer<BoxedFrame>,
    due: &[Trip],
    from: u32,
    backs: &mut Vec<BoxedFrame>,
) -> Option<PlayFault>
    requires few { length backs.old.items ≤ length due.now }
    requires room { length due.now ≤ vec_capacity backs.old }
    requires right { first_fault from (map sent_in due.now) (bytes_in backs.old.items) ≡ None }
    requires number { from + length due.now < 2 ^ 32 }
    ensures ring { SameConsumer last.old last.new }
    ensures few { length backs.new.items ≤ length due.now }
    ensures room { vec_capacity backs.new ≡ vec_capacity backs.old }
    ensures came { (base : List Boxed) → received last.old ≡ base ++ backs.old.items → received last.new ≡ base ++ backs.new.items }
    ensures fault { result ≡ first_fault from (map sent_in due.now) (bytes_in backs.new.items) }
{
    let came = backs.len();
    if came == due.len() {
        return None;
    }
    let Ok(back) = last.pop() else {
        return None;
    };
    let fault = judge_trip(&due[came], from + came as u32, &back);
    backs.push_reserved(back);
    fault
}

/// Waits at a place for a frame where none came.
fn rest<R: Wait>(rt: &R, last: &mut Consumer<BoxedFrame>, own: Seat<'_>, moved: bool)
    ensures ring { SameConsumer last.old last.new }
    ensures received { received last.new ≡ received last.old }
{
    if !moved {
        let _over = is_over(rt, last, own);
    }
}

/// Takes the frames that are due as they come back, each of which is judged as it comes; `from` is the number of the first. Gives
/// those that came back. After the first faulty one no more is taken.
pub(crate) fn take_all<R: Wait>(
    rt: &R,
    alloc: Global,
    last: &mut Consumer<BoxedFrame>,
    own: Seat<'_>,
    due: &[Trip],
    from: u32,
) -> Result<Vec<BoxedFrame>, PlayFault>
    requires number { from + length due.now < 2 ^ 32 }
    ensures ring { SameConsumer last.old last.new }
    ensures came { IfOk result (λ v. received last.new ≡ received last.old ++ v.items) }
    ensures many { IfOk result (λ v. length v.items ≡ length due.now) }
    ensures right { IfOk result (λ v. first_fault from (map sent_in due.now) (bytes_in v.items) ≡ None) }
    ensures fault { IfErr result (λ f. IsMemory f ⊎ IsStopped from (map sent_in due.now) (bytes_in (received last.old)) (bytes_in (received last.new)) f) }
{
    let Ok(mut backs) = Vec::with_capacity(alloc, due.len()) else {
        return Err(PlayFault::OutOfMemory);
    };
    for _ in rt.forever() {
        let before = backs.len();
        if let Some(fault) = take_next(last, due, from, &mut backs) {
            return Err(fault);
        }
        if backs.len() == due.len() {
            return Ok(backs);
        }
        rest(rt, last, own, backs.len() != before);
    }
    unreachable!()
}

/// Takes the frames of a tick as they come back, and tells of them; notes in `came` the inputs that come, and keeps the boxes to
/// spare.
pub(crate) fn play_tick<R: Wait>(
    rt: &R,
    alloc: Global,
    last: &mut Consumer<BoxedFrame>,
    spare: &mut Vec<BoxedFrame>,
    own: Seat<'_>,
    due: &[Trip],
    from: u32,
    came: &mut [u8],
) -> Result<TickRow, PlayFault>
    requires few { length due.now ≤ 8 }
    requires number { from + length due.now < 2 ^ 32 }
    ensures ring { SameConsumer last.old last.new }
    ensures len { length came.new ≡ length came.old }
    ensures round { IfOk result (IsRound from (map sent_in due.now) (bytes_in (received last.old)) (bytes_in (received last.new)) came.old came.new) }
    ensures fault { IfErr result (λ f. IsMemory f ⊎ IsStopped from (map sent_in due.now) (bytes_in (received last.old)) (bytes_in (received last.new)) f) }
{
    let backs = match take_all(rt, alloc, last, own, due, from) {
        Ok(backs) => backs,
        Err(fault) => return Err(fault),
    };
    bring(came, backs.as_slice());
    let row = match row_of(alloc, due, backs.as_slice()) {
        Ok(row) => row,
        Err(_) => return Err(PlayFault::OutOfMemory),
    };
    let _kept = keep_backs(spare, backs);
    Ok(row)
}
