//! The frames of a play as a capture file.

ghost use Rattle.std.specs.Prelude.{◌≡◌, ◌+◌, ◌*◌, ◌≤◌, ◌++◌, length, map, sum_by, IfOk, OnOk};
ghost use Rattle.ec_player.specs.Boxes.{bytes_in};
ghost use Rattle.ec_player.specs.Trips.{sent_in};
ghost use Rattle.ec_play_trial.specs.Rounds.{round_in};
ghost use Rattle.ec_play_trial.specs.Trials.{tick_in};
ghost use Rattle.ec_play_trial.specs.Captures.{passing, pairs, first_tick, ticks_records, trial_capture as capture_in};

use crate::tick::Tick;
use crate::trial::Trial;
use ec_frame_text::{capture_head, push_record};
use ec_player::{BoxedFrame, Trip};
use ec_units::Units;
use ec_wire::ns_of;
use std::alloc::{AllocError, Global};

/// The bytes that a frame takes on the wire beside its own (IEEE 802.3): preamble, frame check sequence and gap.
const UNWRITTEN: u64 = 24;

/// The time in ns that a frame of so many bytes takes on the wire.
fn passing_ns(bytes: usize) -> u64
    requires { bytes ≤ 1514 }
    ensures { result ≡ 80 * (bytes + 24) }
{
    ns_of(bytes as u64 + UNWRITTEN)
}

/// Adds frames that are sent one after the other, the first one so many ns after the start: each as it is sent, and, once it has
/// passed, as it comes back. Gives when the last one has.
fn push_round(
    file: &mut Vec<u8>,
    start: u64,
    trips: &[Trip],
    backs: &[BoxedFrame],
) -> Result<u64, AllocError>
    requires each { length backs.now ≡ length trips.now }
    requires few { length trips.now ≤ 769 }
    requires soon { start ≤ 1100000000000 }
    ensures records { OnOk result (file.new.items ≡ file.old.items ++ pairs start (map sent_in trips.now) (bytes_in backs.now)) }
    ensures after { IfOk result (λ ns. ns ≡ start + sum_by passing (map sent_in trips.now)) }
    ensures most { IfOk result (λ ns. ns ≤ start + 123040 * length trips.now) }
{
    let mut ns = start;
    for i in 0..trips.len() {
        let sent = trips[i].frame.as_slice();
        push_record(file, ns, sent)?;
        ns += passing_ns(sent.len());
        push_record(file, ns, backs[i].as_slice())?;
    }
    Ok(ns)
}

/// When tick 0 begins: with the first whole tick once the start frames came back.
fn first_tick_ns(after: u64, tick_ns: u32) -> u64
    requires tick { (1 ≤ tick_ns) × (tick_ns ≤ 1000000000) }
    requires soon { after ≤ 100000000 }
    ensures first { result ≡ first_tick after tick_ns }
    ensures soon { result ≤ 1100000000 }
{
    let tick_ns = u64::from(tick_ns);
    (after + tick_ns - 1) / tick_ns * tick_ns
}

/// Adds the frames of ticks, the first of which begins so many ns after the start.
fn push_ticks(
    file: &mut Vec<u8>,
    first: u64,
    tick_ns: u32,
    ticks: &[Tick],
) -> Result<(), AllocError>
    requires most { length ticks.now ≤ 1024 }
    requires tick { tick_ns ≤ 1000000000 }
    requires soon { first ≤ 1100000000 }
    ensures { OnOk result (file.new.items ≡ file.old.items ++ ticks_records first tick_ns (map tick_in ticks.now)) }
{
    let mut ns = first;
    for tick in ticks {
        let round = &tick.round;
        push_round(file, ns, round.trips.as_slice(), round.backs.as_slice())?;
        ns += u64::from(tick_ns);
    }
    Ok(())
}

/// The frames of a play of these units as a capture file of the kind that `capture_of` of `ec_frame_text` makes: each frame as it
/// is sent, and, stamped with what it takes on the wire (80 ns a byte) behind that, as it comes back. The start frames are sent
/// first, each once the one before it came back; tick 0 begins with the first whole tick behind them. Of a plan that doesn't fit
/// its tick, the stamps of one tick run into those of the next.
///
/// # Errors
///
/// `AllocError` where memory ran out.
#[tactic(auto, unfolding(crate::specs::Captures::trial_capture))]
pub fn trial_capture(alloc: Global, units: &Units, trial: &Trial) -> Result<Vec<u8>, AllocError>
    ensures { IfOk result (λ file. file.items ≡ capture_in units.now.tick_ns (round_in trial.now.start) (map tick_in trial.now.ticks.items)) }
{
    let mut file = capture_head(alloc)?;
    let start = &trial.start;
    let after = push_round(&mut file, 0, start.trips.as_slice(), start.backs.as_slice())?;
    let first = first_tick_ns(after, units.tick_ns);
    push_ticks(&mut file, first, units.tick_ns, trial.ticks.as_slice())?;
    Ok(file)
}
