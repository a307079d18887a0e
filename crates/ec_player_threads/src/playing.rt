//! A play with a thread for each slave.

ghost use Rattle.std.specs.Prelude.{◌≡◌, ℕ, ◌≤◌, length, map, IfOk, List};
ghost use Rattle.std.specs.List.{range_with_len};
ghost use Rattle.ec_units.specs.declared.slave.Place.{Place};
ghost use Rattle.ec_units.specs.Load.{loads_of};
ghost use Rattle.ec_units.specs.Together.{stations_of};
ghost use Rattle.ec_loads.specs.Cost.{plan_items, tick_cost};
ghost use Rattle.ec_frame_builder.specs.Frames.{HasLayout, IsLayoutFor};
ghost use Rattle.ec_player.specs.Plays.{IsAnswer};
ghost use Rattle.ec_player_threads.specs.Plays.{IsLack};

use crate::line::{RING, close, give_up, start_all};
use crate::seats::{Seat, Spot, places_of};
use crate::ticks::{Outcome, play_line};
use crossbeam_utils::CachePadded;
use ec_fmmu::Mapping;
use ec_player::{PlayFault, Played, Rows};
use ec_slave::Pass;
use ec_units::Units;
use rtrb::RingBuffer;
use std::alloc::Global;
use std::sync::Wait;
use std::thread;
use std::thread::{Scope, Threads};

/// Starts the threads, plays, and joins them.
fn play_in<'s, E, X: Pass + Send + Drop + 's, R: Threads + Wait + Sync>(
    rt: &'s R,
    scope: &Scope<'s, E>,
    alloc: Global,
    places: &'s [CachePadded<Spot>],
    units: &Units,
    mapping: &Mapping,
    image: &[u8],
    ticks: u32,
    slaves: Vec<X>,
) -> Result<Played<X>, PlayFault>
    requires layout { HasLayout units.now mapping.now }
    requires image { length image.now ≡ mapping.now.total }
    requires few { ticks ≤ 65536 }
    ensures answer { IsAnswer X.out X.next IsLack units.now mapping.now image.now ticks slaves.items result }
{
    let seat = Seat::of(places, 0);
    let own = Seat::of(places, slaves.len());
    let Ok(mut handles) = Vec::with_capacity(alloc, slaves.len()) else {
        return Err(PlayFault::OutOfMemory);
    };
    let Ok((first, taken)) = RingBuffer::new(alloc, RING) else {
        return Err(PlayFault::Ring);
    };
    let mut first = first;
    let mut spare = Vec::new(alloc);
    let mut last = match start_all(rt, scope, alloc, slaves, taken, seat, &mut handles) {
        Ok(last) => last,
        Err(fault) => {
            give_up(rt, first, seat, handles);
            return Err(fault);
        }
    };
    let outcome = play_line::<X, R>(
        rt, alloc, &mut first, &mut last, &mut spare, seat, own, units, mapping, image, ticks,
    );
    let slaves = match close(rt, alloc, first, last, seat, own, handles) {
        Ok(slaves) => slaves,
        Err(fault) => return Err(fault),
    };
    match outcome {
        Ok(outcome) => {
            let Outcome { start, rows, image } = outcome;
            Ok(Played {
                start,
                ticks: Rows::new(rows),
                image,
                slaves,
            })
        }
        Err(fault) => Err(fault),
    }
}

/// Plays a plan as `play_plain` does, with a thread for each slave (own profile, after ETG.1000.4, clause 5.4): rings lead from the
/// calling thread through the slaves, in file order, and back. Ticks are sent ahead, so that up to 512 frames are under way, and each
/// frame is judged as it comes back. After the first faulty frame no more is sent. All threads are joined. There are at most 16
/// slaves; ticks and image are as for `play_plain`.
///
/// # Errors
///
/// `Spawn` where a thread couldn't be started and `Ring` where a ring couldn't be made or finished, before the faults of frames, which
/// are those of `play_plain`. `OutOfMemory` where memory ran out. After a fault the slaves are given up.
pub fn play_threads<X: Pass + Send + Drop, R: Threads + Wait + Sync>(
    rt: &R,
    alloc: Global,
    units: &Units,
    mapping: &Mapping,
    image: &[u8],
    ticks: u32,
    slaves: Vec<X>,
) -> Result<Played<X>, PlayFault>
    requires layout { HasLayout units.now mapping.now }
    requires image { length image.now ≡ mapping.now.total }
    requires few { (ticks ≤ 65536) × (length slaves.items ≤ 16) }
    requires each { length slaves.items ≡ length (stations_of units.now.units) }
    ensures answer { IsAnswer X.out X.next IsLack units.now mapping.now image.now ticks slaves.items result }
    ensures cost { IfOk result (λ p. (places : List Place) → IsLayoutFor units.now places mapping.now →
        map (λ r. r.bytes) p.ticks ≡ map (tick_cost (plan_items (loads_of units.now.units) places) units.now.slots) (range_with_len 0 ticks)) }
{
    let Ok(places) = places_of(alloc) else {
        return Err(PlayFault::OutOfMemory);
    };
    let places = places.as_slice();
    thread::scope(
        thread::scope_env(),
        rt,
        |scope| -> Result<Played<X>, PlayFault>
            requires layout { HasLayout units.now mapping.now }
            requires image { length image.now ≡ mapping.now.total }
            requires few { ticks ≤ 65536 }
            ensures answer { IsAnswer X.out X.next IsLack units.entry.now mapping.entry.now image.entry.now ticks slaves.items result }
        {
            play_in(
                rt, scope, alloc, places, units, mapping, image, ticks, slaves,
            )
        },
    )
}
