//! A play of a plan.

ghost use Rattle.std.specs.Prelude.{◌≡◌, ◌⊎◌, ℕ, ◌+◌, ◌*◌, ◌<◌, ◌≤◌, ◌^◌, ◌++◌, [], length, map, sum_by, get_or, unwrap_or, replicate, IfOk, OnOk, IfErr, None, Some, List};
ghost use Rattle.std.specs.List.{flat_map, range_with_len};
ghost use Rattle.ec_units.specs.declared.slave.Place.{Place};
ghost use Rattle.ec_units.specs.Load.{loads_of};
ghost use Rattle.ec_units.specs.Together.{stations_of};
ghost use Rattle.ec_loads.specs.Cost.{plan_items, tick_cost};
ghost use Rattle.ec_frame_builder.specs.Frames.{HasLayout, IsLayoutFor};
ghost use Rattle.ec_frame_builder.specs.Start.{starts_of};
ghost use Rattle.ec_player.specs.Sent.{start_sents, tick_sents, ticks_sents, all_sents};
ghost use Rattle.ec_player.specs.Boxes.{bytes_in};
ghost use Rattle.ec_player.specs.Faults.{entries_of, first_fault};
ghost use Rattle.ec_player.specs.Images.{last_byte, all_entries, image_after};
ghost use Rattle.ec_player.specs.Lines.{came_back, slaves_after, AreRight, IsMemory};
ghost use Rattle.ec_player.specs.Trips.{sent_in};
ghost use Rattle.ec_player.specs.Rows.{counters_of, row_of as row_in, rows_of};
ghost use Rattle.ec_player.specs.Plays.{IsAnswer};

use crate::boxes::{BoxedFrame, keep_backs, keep_trips};
use crate::images::{bring, image_of};
use crate::journeys::travel;
use crate::judging::read;
use crate::rows::{Counters, Rows, TickRow};
use crate::trips::{Trip, start_trips, tick_trips};
use ec_fmmu::Mapping;
use ec_frames::{Frame, Parsed, datagrams};
use ec_outcome::PlayFault;
use ec_slave::Pass;
use ec_units::Units;
use std::alloc::{AllocError, Global};

/// A play that went to its end: the number of start frames, what is told of each tick, the image, in which an input is what came
/// with the last frame that has it, 0 if none came, and the slaves as the last frame left them.
#[derive(Drop)]
pub struct Played<X> {
    pub start: u32,
    pub ticks: Rows,
    pub image: Vec<u8>,
    pub slaves: Vec<X>,
}

/// Adds the working counters of datagrams.
fn push_all(counters: &mut Vec<u16>, parsed: &Parsed<'_>) -> Result<(), AllocError>
    ensures { OnOk result (counters.new.items ≡ counters.old.items ++ map (λ d. d.counter) parsed.now) }
{
    let mut views = datagrams(parsed);
    'datagrams: while let Some(view) = views.next() {
        counters.push(view.counter)?;
    }
    Ok(())
}

/// Adds the working counters of a frame.
fn push_counters(counters: &mut Vec<u16>, frame: &Frame) -> Result<(), AllocError>
    ensures { OnOk result (counters.new.items ≡ counters.old.items ++ map (λ d. d.counter) (entries_of frame.now.items)) }
{
    if let Ok(parsed) = read(frame.as_slice()) {
        push_all(counters, &parsed)?;
    }
    Ok(())
}

/// The working counters of frames.
fn counters_of_frames(alloc: Global, frames: &[BoxedFrame]) -> Result<Counters, AllocError>
    ensures { IfOk result (λ counters. counters ≡ counters_of (bytes_in frames.now)) }
{
    let mut counters = Vec::new(alloc);
    for frame in frames {
        push_counters(&mut counters, frame)?;
    }
    Ok(Counters::new(counters))
}

/// The bytes that frames take on the wire: 24 more each (IEEE 802.3).
fn wire_bytes(trips: &[Trip]) -> u64
    requires { length trips.now ≤ 8 }
    ensures { result ≡ sum_by (λ s. length s.bytes + 24) (map sent_in trips.now) }
{
    let mut bytes = 0;
    for trip in trips {
        bytes += trip.frame.len() as u64 + 24;
    }
    bytes
}

/// What is told of a tick, of which these frames were sent and came back.
///
/// # Errors
///
/// `AllocError` where memory ran out.
pub fn row_of(alloc: Global, trips: &[Trip], backs: &[BoxedFrame]) -> Result<TickRow, AllocError>
    requires { length trips.now ≤ 8 }
    ensures { IfOk result (λ row. row ≡ row_in (map sent_in trips.now) (bytes_in backs.now)) }
{
    let counters = counters_of_frames(alloc, backs)?;
    Ok(TickRow {
        frames: trips.len() as u32,
        bytes: wire_bytes(trips),
        counters,
    })
}

/// Plays a tick: sends its frames, of which the first has this number, and notes the inputs that come back. It takes boxes from those
/// to spare and puts them back.
fn play_tick<X: Pass>(
    alloc: Global,
    spare: &mut Vec<BoxedFrame>,
    units: &Units,
    mapping: &Mapping,
    image: &[u8],
    tick: u32,
    slaves: &mut [X],
    came: &mut [u8],
    number: u32,
) -> Result<TickRow, PlayFault>
    requires layout { HasLayout units.now mapping.now }
    requires image { length image.now ≡ mapping.now.total }
    requires numbers { number + 8 < 2 ^ 32 }
    ensures right { OnOk result (AreRight X.out X.next slaves.old number (tick_sents units.now mapping.now image.now tick)) }
    ensures row { IfOk result (λ row. row ≡ row_in (tick_sents units.now mapping.now image.now tick)
        (came_back X.out X.next slaves.old (tick_sents units.now mapping.now image.now tick))) }
    ensures few { IfOk result (λ row. row.frames ≤ 8) }
    ensures slaves { OnOk result (slaves.new ≡ slaves_after X.out X.next slaves.old (tick_sents units.now mapping.now image.now tick)) }
    ensures len { length came.new ≡ length came.old }
    ensures came { OnOk result ((k : ℕ) → k < length came.old → get_or came.new k 0
        ≡ unwrap_or (last_byte (65536 + k) (all_entries (came_back X.out X.next slaves.old (tick_sents units.now mapping.now image.now tick)))) (get_or came.old k 0)) }
    ensures fault { IfErr result (λ f. IsMemory f
        ⊎ (first_fault number (tick_sents units.now mapping.now image.now tick) (came_back X.out X.next slaves.old (tick_sents units.now mapping.now image.now tick)) ≡ Some f)) }
{
    let Ok(trips) = tick_trips(alloc, spare, units, mapping, image, tick) else {
        return Err(PlayFault::OutOfMemory);
    };
    let backs = match travel(alloc, spare, slaves, trips.as_slice(), number) {
        Ok(backs) => backs,
        Err(fault) => return Err(fault),
    };
    bring(came, backs.as_slice());
    let row = match row_of(alloc, trips.as_slice(), backs.as_slice()) {
        Ok(row) => row,
        Err(_) => return Err(PlayFault::OutOfMemory),
    };
    let _kept = keep_trips(spare, trips);
    let _kept = keep_backs(spare, backs);
    Ok(row)
}

/// What is known of ticks that were played: what is told of each, and for each byte of the image what came last.
#[derive(Drop)]
struct Ticks {
    rows: Vec<TickRow>,
    came: Vec<u8>,
}

/// Plays the ticks below `ticks`, of whose frames the first has the number `from`.
fn play_ticks<X: Pass>(
    alloc: Global,
    units: &Units,
    mapping: &Mapping,
    image: &[u8],
    ticks: u32,
    slaves: &mut [X],
    from: u32,
) -> Result<Ticks, PlayFault>
    requires layout { HasLayout units.now mapping.now }
    requires image { length image.now ≡ mapping.now.total }
    requires few { ticks ≤ 65536 }
    requires from { from ≤ 769 }
    ensures right { OnOk result (AreRight X.out X.next slaves.old from (ticks_sents units.now mapping.now image.now ticks)) }
    ensures rows { IfOk result (λ t. t.rows.items ≡ rows_of X.out X.next units.now mapping.now image.now slaves.old [] ticks) }
    ensures slaves { OnOk result (slaves.new ≡ slaves_after X.out X.next slaves.old (ticks_sents units.now mapping.now image.now ticks)) }
    ensures len { IfOk result (λ t. length t.came.items ≡ length image.now) }
    ensures came { IfOk result (λ t. (k : ℕ) → k < length image.now → get_or t.came.items k 0
        ≡ unwrap_or (last_byte (65536 + k) (all_entries (came_back X.out X.next slaves.old (ticks_sents units.now mapping.now image.now ticks)))) 0) }
    ensures fault { IfErr result (λ f. IsMemory f
        ⊎ (first_fault from (ticks_sents units.now mapping.now image.now ticks) (came_back X.out X.next slaves.old (ticks_sents units.now mapping.now image.now ticks)) ≡ Some f)) }
{
    let Ok(mut came) = Vec::from_elem(alloc, 0u8, image.len()) else {
        return Err(PlayFault::OutOfMemory);
    };
    let mut rows = Vec::new(alloc);
    let mut spare = Vec::new(alloc);
    let mut number = from;
    for tick in 0..ticks {
        let row = match play_tick(
            alloc,
            &mut spare,
            units,
            mapping,
            image,
            tick,
            slaves,
            came.as_mut_slice(),
            number,
        ) {
            Ok(row) => row,
            Err(fault) => return Err(fault),
        };
        number += row.frames;
        let Ok(()) = rows.push(row) else {
            return Err(PlayFault::OutOfMemory);
        };
    }
    Ok(Ticks { rows, came })
}

/// A play but for its slaves.
#[derive(Drop)]
struct Outcome {
    start: u32,
    rows: Vec<TickRow>,
    image: Vec<u8>,
}

/// Plays the start frames and the ticks below `ticks`.
fn play_line<X: Pass>(
    alloc: Global,
    units: &Units,
    mapping: &Mapping,
    image: &[u8],
    ticks: u32,
    slaves: &mut [X],
) -> Result<Outcome, PlayFault>
    requires layout { HasLayout units.now mapping.now }
    requires image { length image.now ≡ mapping.now.total }
    requires few { ticks ≤ 65536 }
    ensures right { OnOk result (AreRight X.out X.next slaves.old 0 (all_sents units.now mapping.now image.now ticks)) }
    ensures starts { IfOk result (λ p. p.start ≡ length (starts_of units.now mapping.now)) }
    ensures rows { IfOk result (λ p. p.rows.items ≡ rows_of X.out X.next units.now mapping.now image.now slaves.old (start_sents units.now mapping.now) ticks) }
    ensures inputs { IfOk result (λ p. p.image.items ≡ image_after mapping.now.fmmus image.now
        (came_back X.out X.next (slaves_after X.out X.next slaves.old (start_sents units.now mapping.now)) (ticks_sents units.now mapping.now image.now ticks))) }
    ensures line { OnOk result (slaves.new ≡ slaves_after X.out X.next slaves.old (all_sents units.now mapping.now image.now ticks)) }
    ensures fault { IfErr result (λ f. IsMemory f
        ⊎ (first_fault 0 (all_sents units.now mapping.now image.now ticks) (came_back X.out X.next slaves.old (all_sents units.now mapping.now image.now ticks)) ≡ Some f)) }
{
    let Ok(trips) = start_trips(alloc, units, mapping) else {
        return Err(PlayFault::OutOfMemory);
    };
    match travel(alloc, &mut Vec::new(alloc), slaves, trips.as_slice(), 0) {
        Ok(_) => {}
        Err(fault) => return Err(fault),
    }
    let start = trips.len() as u32;
    let played = match play_ticks(alloc, units, mapping, image, ticks, slaves, start) {
        Ok(played) => played,
        Err(fault) => return Err(fault),
    };
    let Ticks { rows, came } = played;
    match image_of(alloc, mapping.fmmus.as_slice(), image, came.as_slice()) {
        Ok(image) => Ok(Outcome { start, rows, image }),
        Err(_) => Err(PlayFault::OutOfMemory),
    }
}

/// Plays a plan, one frame after the other (own profile, after ETG.1000.4, clause 5.4): the start frames and then the frames of the
/// ticks below `ticks` go through the slaves, of which there is one for each slave of the units, in file order. Outputs are those of
/// the image, whose first byte is at the logical address 0x00010000; it has the `total` bytes of the mapping. `ticks` is at most 65,536.
///
/// # Errors
///
/// Where a frame that comes back is faulty, the fault of the first one: `Frame` before `Reply` before `StartCounter` or `Counter`,
/// of its first wrong datagram. `OutOfMemory` where memory ran out. After a fault the slaves are given up.
pub fn play_plain<X: Pass + Drop>(
    alloc: Global,
    units: &Units,
    mapping: &Mapping,
    image: &[u8],
    ticks: u32,
    slaves: Vec<X>,
) -> Result<Played<X>, PlayFault>
    requires layout { HasLayout units.now mapping.now }
    requires image { length image.now ≡ mapping.now.total }
    requires few { ticks ≤ 65536 }
    requires each { length slaves.items ≡ length (stations_of units.now.units) }
    ensures answer { IsAnswer X.out X.next IsMemory units.now mapping.now image.now ticks slaves.items result }
    ensures cost { IfOk result (λ p. (places : List Place) → IsLayoutFor units.now places mapping.now →
        map (λ r. r.bytes) p.ticks ≡ map (tick_cost (plan_items (loads_of units.now.units) places) units.now.slots) (range_with_len 0 ticks)) }
{
    let mut slaves = slaves;
    match play_line(alloc, units, mapping, image, ticks, slaves.as_mut_slice()) {
        Ok(outcome) => {
            let Outcome { start, rows, image } = outcome;
            Ok(Played {
                start,
                ticks: Rows::new(rows),
                image,
                slaves,
            })
        }
        Err(fault) => Err(fault),
    }
}
