//! Frames that are sent ahead of the tick that is due.

ghost use Rattle.std.specs.Prelude.{◌≡◌, ℕ, ◌+◌, ◌*◌, ◌<◌, ◌≤◌, ◌^◌, true, false, List, [], ◌∷◌, ◌++◌, length, map, OnOk};
ghost use Rattle.rtrb.specs.Ring.{sent as sent_by, SameProducer};
ghost use Rattle.ec_frame_builder.specs.Frames.{HasLayout};
ghost use Rattle.ec_player.specs.Sent.{tick_sents};
ghost use Rattle.ec_player.specs.Lines.{bytes_of};
ghost use Rattle.ec_player.specs.Boxes.{bytes_in};
ghost use Rattle.ec_player_threads.specs.IsAhead.{sents_in, IsAhead};

use crate::rounds::send_all;
use crate::seats::Seat;
use ec_fmmu::Mapping;
use ec_player::{BoxedFrame, Trip, tick_trips};
use ec_units::Units;
use rtrb::Producer;
use std::alloc::{AllocError, Global};
use std::collections::VecDeque;
use std::sync::Wait;

/// So many frames are under way at most.
pub(crate) const WINDOW: u32 = 512;

/// Frames are sent once no more than so many are under way, so that threads find many at a time.
const LOW: u32 = WINDOW / 2;

/// A tick has at most so many frames, one in each slot.
const MOST_IN_TICK: u32 = 8;

/// The frames that were sent and aren't judged yet, by tick; the first tick whose frames aren't sent; and how many frames were
/// sent in all, with those of the start.
#[derive(Drop)]
pub(crate) struct Ahead {
    pub(crate) trips: VecDeque<Vec<Trip>>,
    pub(crate) tick: u32,
    pub(crate) frames: u32,
}

impl Ahead {
    /// Only the start frames were sent.
    pub(crate) fn new(alloc: Global, start: u32) -> Ahead
        ensures { (result.trips.items ≡ []) × ((result.tick ≡ 0) × (result.frames ≡ start)) }
    {
        Ahead {
            trips: VecDeque::new(alloc),
            tick: 0,
            frames: start,
        }
    }

    /// Whether the frames of one more tick may be too many, of which so many came back.
    fn is_full(&self, number: u32) -> bool
        ensures { result ≡ true → 0 < length self.now.trips.items }
    {
        !self.trips.is_empty() && WINDOW - MOST_IN_TICK < self.frames.saturating_sub(number)
    }

    /// Whether so few frames are under way that more are to be sent, of which so many came back.
    fn is_low(&self, number: u32) -> bool
        ensures { result ≡ false → 0 < length self.now.trips.items }
    {
        self.trips.is_empty() || self.frames.saturating_sub(number) <= LOW
    }

    /// Sends the frames of one more tick.
    fn send_tick<R: Wait>(
        &mut self,
        rt: &R,
        alloc: Global,
        first: &mut Producer<BoxedFrame>,
        spare: &mut Vec<BoxedFrame>,
        seat: Seat<'_>,
        units: &Units,
        mapping: &Mapping,
        image: &[u8],
    ) -> Result<(), AllocError>
        requires layout { HasLayout units.now mapping.now }
        requires image { length image.now ≡ mapping.now.total }
        requires few { (self.old.tick < 65536) × (self.old.frames ≤ 769 + 8 * self.old.tick) }
        ensures ring { SameProducer first.old first.new }
        ensures ahead { OnOk result ((n t : ℕ) → self.old.tick < n → IsAhead units.now mapping.now image.now n t self.old (bytes_in (sent_by first.old)) →
            IsAhead units.now mapping.now image.now n t self.new (bytes_in (sent_by first.new))) }
        ensures tick { OnOk result (self.new.tick ≡ self.old.tick + 1) }
        ensures frames { OnOk result (self.new.frames ≤ self.old.frames + 8) }
    {
        let trips = tick_trips(alloc, spare, units, mapping, image, self.tick)?;
        send_all(rt, alloc, first, spare, seat, trips.as_slice())?;
        self.frames += trips.len() as u32;
        self.tick += 1;
        let Ok(()) = self.trips.push_back(trips) else {
            return Err(AllocError);
        };
        Ok(())
    }

    /// Sends frames of ticks below `ticks`, as long as at most 512 are under way, and those of one tick in any case. So many frames
    /// came back.
    fn fill<R: Wait>(
        &mut self,
        rt: &R,
        alloc: Global,
        first: &mut Producer<BoxedFrame>,
        spare: &mut Vec<BoxedFrame>,
        seat: Seat<'_>,
        units: &Units,
        mapping: &Mapping,
        image: &[u8],
        ticks: u32,
        number: u32,
    ) -> Result<(), AllocError>
        requires layout { HasLayout units.now mapping.now }
        requires image { length image.now ≡ mapping.now.total }
        requires few { (ticks ≤ 65536) × (self.old.frames ≤ 769 + 8 * self.old.tick) }
        ensures ring { SameProducer first.old first.new }
        ensures ahead { OnOk result ((t : ℕ) → t < ticks → IsAhead units.now mapping.now image.now ticks t self.old (bytes_in (sent_by first.old)) →
            IsAhead units.now mapping.now image.now ticks t self.new (bytes_in (sent_by first.new)) × (t < self.new.tick)) }
    {
        while self.tick < ticks && !self.is_full(number) {
            self.send_tick(rt, alloc, first, spare, seat, units, mapping, image)?;
        }
        Ok(())
    }

    /// Sends frames of ticks below `ticks` where few are under way, and then wakes the thread behind the ring. Those of one tick are
    /// sent in any case. So many frames came back.
    pub(crate) fn send<R: Wait>(
        &mut self,
        rt: &R,
        alloc: Global,
        first: &mut Producer<BoxedFrame>,
        spare: &mut Vec<BoxedFrame>,
        seat: Seat<'_>,
        units: &Units,
        mapping: &Mapping,
        image: &[u8],
        ticks: u32,
        number: u32,
    ) -> Result<(), AllocError>
        requires layout { HasLayout units.now mapping.now }
        requires image { length image.now ≡ mapping.now.total }
        requires few { (ticks ≤ 65536) × (self.old.frames ≤ 769 + 8 * self.old.tick) }
        ensures ring { SameProducer first.old first.new }
        ensures ahead { OnOk result ((t : ℕ) → t < ticks → IsAhead units.now mapping.now image.now ticks t self.old (bytes_in (sent_by first.old)) →
            IsAhead units.now mapping.now image.now ticks t self.new (bytes_in (sent_by first.new)) × (t < self.new.tick)) }
    {
        if !self.is_low(number) {
            return Ok(());
        }
        self.fill(
            rt, alloc, first, spare, seat, units, mapping, image, ticks, number,
        )?;
        seat.wake();
        Ok(())
    }
}
