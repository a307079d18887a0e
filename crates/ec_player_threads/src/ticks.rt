//! The ticks of a play, and the start frames before them.

ghost use Rattle.std.specs.Prelude.{◌≡◌, ◌⊎◌, ℕ, ◌+◌, ◌<◌, ◌≤◌, List, [], ◌++◌, length, map, replicate, IfOk, OnOk, IfErr};
ghost use Rattle.rtrb.specs.Ring.{sent as sent_by, received, SameProducer, SameConsumer};
ghost use Rattle.ec_frame_builder.specs.Frames.{HasLayout};
ghost use Rattle.ec_slave.specs.Journey.{journey};
ghost use Rattle.ec_player.specs.Sent.{start_sents, all_sents};
ghost use Rattle.ec_player.specs.Lines.{bytes_of, came_back, AreRight, IsMemory};
ghost use Rattle.ec_player.specs.Boxes.{bytes_in};
ghost use Rattle.ec_player_threads.specs.Frames.{IsFront};
ghost use Rattle.ec_player_threads.specs.Rounds.{ArePlayed, IsLinePlayed, IsFirstFault};

use crate::ahead::Ahead;
use crate::rounds::{play_tick, send_all, take_all};
use crate::seats::Seat;
use ec_fmmu::Mapping;
use ec_player::{BoxedFrame, PlayFault, Rows, TickRow, image_of, keep_trips, start_trips};
use ec_slave::Pass;
use ec_units::Units;
use rtrb::{Consumer, Producer};
use std::alloc::{AllocError, Global};
use std::sync::Wait;

/// As many zeros.
fn zeros(alloc: Global, count: usize) -> Result<Vec<u8>, AllocError>
    ensures { IfOk result (λ v. v.items ≡ replicate count 0) }
{
    Vec::from_elem(alloc, 0u8, count)
}

/// What is known of ticks that were played: what is told of each, and for each byte of the image what came last.
#[derive(Drop)]
struct Ticks {
    rows: Vec<TickRow>,
    came: Vec<u8>,
}

/// Plays the ticks below `ticks`. The start frames came back, of which there are `start`.
fn play_ticks<X: Pass, R: Wait>(
    rt: &R,
    alloc: Global,
    first: &mut Producer<BoxedFrame>,
    last: &mut Consumer<BoxedFrame>,
    spare: &mut Vec<BoxedFrame>,
    seat: Seat<'_>,
    own: Seat<'_>,
    units: &Units,
    mapping: &Mapping,
    image: &[u8],
    ticks: u32,
    start: u32,
) -> Result<Ticks, PlayFault>
    requires layout { HasLayout units.now mapping.now }
    requires image { length image.now ≡ mapping.now.total }
    requires few { ticks ≤ 65536 }
    requires start { (start ≤ 769) × (start ≡ length (start_sents units.now mapping.now)) }
    requires went { bytes_in (sent_by first.old) ≡ bytes_of (start_sents units.now mapping.now) }
    requires came { length (received last.old) ≡ start }
    requires begun { (slaves : List X) → bytes_in (received last.old) ≡ came_back X.out X.next slaves (start_sents units.now mapping.now) → AreRight X.out X.next slaves 0 (start_sents units.now mapping.now) }
    ensures rings { SameProducer first.old first.new × SameConsumer last.old last.new }
    ensures went { OnOk result (bytes_in (sent_by first.new) ≡ bytes_of (all_sents units.now mapping.now image.now ticks)) }
    ensures many { OnOk result (length (received last.new) ≡ length (all_sents units.now mapping.now image.now ticks)) }
    ensures len { IfOk result (λ t. length t.came.items ≡ length image.now) }
    ensures played { IfOk result (λ t. (slaves : List X) → bytes_in (received last.new) ≡ came_back X.out X.next slaves (all_sents units.now mapping.now image.now ticks) →
        ArePlayed X.out X.next units.now mapping.now image.now slaves ticks t.rows.items t.came.items) }
    ensures fault { IfErr result (λ f. IsMemory f ⊎ ((slaves : List X) → IsFront (bytes_in (received last.new)) (journey X.out X.next slaves (bytes_in (sent_by first.new))) →
        IsFirstFault X.out X.next units.now mapping.now image.now ticks slaves f)) }
{
    let Ok(mut came) = zeros(alloc, image.len()) else {
        return Err(PlayFault::OutOfMemory);
    };
    let mut rows = Vec::new(alloc);
    let mut ahead = Ahead::new(alloc, start);
    let mut number = start;
    for tick in 0..ticks {
        let Ok(()) = ahead.send(
            rt, alloc, first, spare, seat, units, mapping, image, ticks, number,
        ) else {
            return Err(PlayFault::OutOfMemory);
        };
        let Some(due) = ahead.trips.pop_front() else {
            unreachable!()
        };
        let row = match play_tick(
            rt,
            alloc,
            last,
            spare,
            own,
            due.as_slice(),
            number,
            came.as_mut_slice(),
        ) {
            Ok(row) => row,
            Err(fault) => return Err(fault),
        };
        number += row.frames;
        let _kept = keep_trips(spare, due);
        let Ok(()) = rows.push(row) else {
            return Err(PlayFault::OutOfMemory);
        };
    }
    Ok(Ticks { rows, came })
}

/// A play but for its slaves.
#[derive(Drop)]
pub(crate) struct Outcome {
    pub(crate) start: u32,
    pub(crate) rows: Vec<TickRow>,
    pub(crate) image: Vec<u8>,
}

/// Plays the start frames and the ticks below `ticks` over new rings.
pub(crate) fn play_line<X: Pass, R: Wait>(
    rt: &R,
    alloc: Global,
    first: &mut Producer<BoxedFrame>,
    last: &mut Consumer<BoxedFrame>,
    spare: &mut Vec<BoxedFrame>,
    seat: Seat<'_>,
    own: Seat<'_>,
    units: &Units,
    mapping: &Mapping,
    image: &[u8],
    ticks: u32,
) -> Result<Outcome, PlayFault>
    requires layout { HasLayout units.now mapping.now }
    requires image { length image.now ≡ mapping.now.total }
    requires few { ticks ≤ 65536 }
    requires new { (sent_by first.old ≡ []) × (received last.old ≡ []) }
    ensures rings { SameProducer first.old first.new × SameConsumer last.old last.new }
    ensures went { OnOk result (bytes_in (sent_by first.new) ≡ bytes_of (all_sents units.now mapping.now image.now ticks)) }
    ensures many { OnOk result (length (received last.new) ≡ length (all_sents units.now mapping.now image.now ticks)) }
    ensures played { IfOk result (λ p. (slaves : List X) → bytes_in (received last.new) ≡ came_back X.out X.next slaves (all_sents units.now mapping.now image.now ticks) →
        IsLinePlayed X.out X.next units.now mapping.now image.now ticks slaves p.start p.rows.items p.image.items) }
    ensures fault { IfErr result (λ f. IsMemory f ⊎ ((slaves : List X) → IsFront (bytes_in (received last.new)) (journey X.out X.next slaves (bytes_in (sent_by first.new))) →
        IsFirstFault X.out X.next units.now mapping.now image.now ticks slaves f)) }
{
    let Ok(starts) = start_trips(alloc, units, mapping) else {
        return Err(PlayFault::OutOfMemory);
    };
    let Ok(()) = send_all(rt, alloc, first, spare, seat, starts.as_slice()) else {
        return Err(PlayFault::OutOfMemory);
    };
    seat.wake();
    match take_all(rt, alloc, last, own, starts.as_slice(), 0) {
        Ok(_) => {}
        Err(fault) => return Err(fault),
    }
    let start = starts.len() as u32;
    let played = play_ticks::<X, R>(
        rt, alloc, first, last, spare, seat, own, units, mapping, image, ticks, start,
    );
    let Ticks { rows, came } = match played {
        Ok(played) => played,
        Err(fault) => return Err(fault),
    };
    match image_of(alloc, mapping.fmmus.as_slice(), image, came.as_slice()) {
        Ok(image) => Ok(Outcome { start, rows, image }),
        Err(_) => Err(PlayFault::OutOfMemory),
    }
}
