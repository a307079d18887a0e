//! Where the threads of a line sleep while nothing comes, and are woken by what does.

ghost use Rattle.std.specs.Prelude.{◌≡◌};
ghost use Rattle.rtrb.specs.Ring.{received, SameConsumer};

use crossbeam_utils::CachePadded;
use ec_player::BoxedFrame;
use rtrb::Consumer;
use std::alloc::{AllocError, Global};
use std::sync::Wait;
use std::sync::atomic::{AtomicU64, Ordering};
use std::thread::Parker;
use std::{hint, thread};

/// A line has at most so many threads, with the calling one.
const MOST_THREADS: usize = 17;

/// A thread looks so often for a frame before it sleeps.
const LOOKS: u32 = 50;

/// What a place says while its thread is awake, and while it sleeps or is about to.
const AWAKE: u64 = 0;

const ASLEEP: u64 = 1;

/// A place to sleep. Only a thread that says that it sleeps is woken, and only once.
#[derive(Drop)]
pub(crate) struct Spot {
    state: AtomicU64,
    parker: Parker,
}

/// A place for each thread of a line, in order, and behind them for the calling one, each in a cache line of its own.
pub(crate) fn places_of(alloc: Global) -> Result<Vec<CachePadded<Spot>>, AllocError> {
    let mut places = Vec::new(alloc);
    for _ in 0..MOST_THREADS {
        places.push(CachePadded::new(Spot {
            state: AtomicU64::new(AWAKE),
            parker: Parker::new(),
        }))?;
    }
    Ok(places)
}

/// The place of one thread.
#[derive(Clone, Copy)]
pub(crate) struct Seat<'a> {
    places: &'a [CachePadded<Spot>],
    at: usize,
}

impl<'a> Seat<'a> {
    /// That of the thread with this number.
    pub(crate) fn of(places: &'a [CachePadded<Spot>], at: usize) -> Seat<'a> {
        Seat { places, at }
    }

    /// That of the thread behind it.
    pub(crate) fn behind(self) -> Seat<'a> {
        Seat {
            places: self.places,
            at: self.at.saturating_add(1),
        }
    }

    /// Wakes the thread where it says that it sleeps. What it is to see was done before. Both exchange what the place says, so
    /// that either the thread sees that, or this sees that it sleeps; a load alone may come before a store that was done earlier.
    pub(crate) fn wake(self) {
        if let Some(place) = self.places.get(self.at) {
            if place.state.swap(AWAKE, Ordering::SeqCst) == ASLEEP {
                place.parker.unpark();
            }
        }
    }

    /// Says whether the thread sleeps. After it has said so it looks once more before it does.
    fn say(self, state: u64) {
        if let Some(place) = self.places.get(self.at) {
            let _was = place.state.swap(state, Ordering::SeqCst);
        }
    }

    /// Sleeps until the thread is woken, if it wasn't woken since it said that it sleeps.
    fn sleep<R: Wait>(self, rt: &R) {
        match self.places.get(self.at) {
            Some(place) => place.parker.park(rt),
            None => thread::yield_now(),
        }
    }
}

/// Looks for a frame for a moment.
fn comes_soon(taken: &mut Consumer<BoxedFrame>) -> bool
    ensures ring { SameConsumer taken.old taken.new }
    ensures received { received taken.new ≡ received taken.old }
{
    for _ in 0..LOOKS {
        if !taken.is_empty() {
            return true;
        }
        hint::spin_loop();
    }
    false
}

/// Waits for a frame, and may give up waiting early. Says whether none is there and none can come any more.
pub(crate) fn is_over<R: Wait>(rt: &R, taken: &mut Consumer<BoxedFrame>, seat: Seat<'_>) -> bool
    ensures ring { SameConsumer taken.old taken.new }
    ensures received { received taken.new ≡ received taken.old }
{
    if comes_soon(taken) {
        return false;
    }
    seat.say(ASLEEP);
    let gone = taken.is_abandoned();
    let is_empty = taken.is_empty();
    if is_empty && !gone {
        seat.sleep(rt);
    }
    seat.say(AWAKE);
    is_empty && gone
}
