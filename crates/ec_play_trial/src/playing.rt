//! A play that loses slaves.

ghost use Rattle.std.specs.Prelude.{◌≡◌, ◌≤◌, length, map, IfOk, OnOk};
ghost use Rattle.ec_frame_builder.specs.Frames.{HasLayout};
ghost use Rattle.ec_player.specs.Sent.{start_sents, tick_sents};
ghost use Rattle.ec_player.specs.Lines.{slaves_after};
ghost use Rattle.ec_slave.specs.Step.{frame_after, memory_after};
ghost use Rattle.ec_play_text.specs.Plays.{new_slaves as new_slaves_of};
ghost use Rattle.ec_play_trial.specs.Members.{handed_on, left};
ghost use Rattle.ec_play_trial.specs.Rounds.{round_in};
ghost use Rattle.ec_play_trial.specs.Trials.{tick_in, tick_of, ticks_of, start_round, stations_at, tried_ticks};

use crate::member::{Member, members_of};
use crate::round::Round;
use crate::rounds::send;
use crate::shorts::{shorts_of, wants_of};
use crate::tick::Tick;
use crate::trial::Trial;
use ec_fmmu::Mapping;
use ec_frame_text::{blank, stations_of};
use ec_play_text::new_slaves;
use ec_player::{row_of, start_trips, tick_trips};
use ec_slave::SlaveBox;
use ec_units::Units;
use std::alloc::{AllocError, Global};

/// Plays a tick.
fn try_tick(
    alloc: Global,
    units: &Units,
    mapping: &Mapping,
    image: &[u8],
    tick: u32,
    line: &mut [Member],
) -> Result<Tick, AllocError>
    requires layout { HasLayout units.now mapping.now }
    requires image { length image.now ≡ mapping.now.total }
    ensures tick { IfOk result (λ t. tick_in t ≡ tick_of line.old (tick_sents units.now mapping.now image.now tick)) }
    ensures line { OnOk result (line.new ≡ slaves_after handed_on left line.old (tick_sents units.now mapping.now image.now tick)) }
{
    let trips = tick_trips(alloc, &mut Vec::new(alloc), units, mapping, image, tick)?;
    let round = send(alloc, line, trips)?;
    let row = row_of(alloc, round.trips.as_slice(), round.backs.as_slice())?;
    let wants = wants_of(alloc, round.trips.as_slice())?;
    let shorts = shorts_of(alloc, wants.as_slice(), row.counters.as_slice())?;
    Ok(Tick { round, row, shorts })
}

/// Plays the ticks below `ticks`.
fn try_ticks(
    alloc: Global,
    units: &Units,
    mapping: &Mapping,
    image: &[u8],
    ticks: u32,
    line: &mut [Member],
) -> Result<Vec<Tick>, AllocError>
    requires layout { HasLayout units.now mapping.now }
    requires image { length image.now ≡ mapping.now.total }
    ensures ticks { IfOk result (λ v. map tick_in v.items ≡ ticks_of units.now mapping.now image.now line.old ticks) }
    ensures count { IfOk result (λ v. length v.items ≡ ticks) }
{
    let mut tried = Vec::new(alloc);
    for tick in 0..ticks {
        let one = try_tick(alloc, units, mapping, image, tick, line)?;
        tried.push(one)?;
    }
    Ok(tried)
}

/// Plays the start frames.
fn try_start(
    alloc: Global,
    units: &Units,
    mapping: &Mapping,
    slaves: &mut [SlaveBox],
) -> Result<Round, AllocError>
    requires { HasLayout units.now mapping.now }
    ensures round { IfOk result (λ r. round_in r ≡ start_round units.now mapping.now slaves.old) }
    ensures few { IfOk result (λ r. length r.trips.items ≤ 769) }
    ensures slaves { OnOk result (slaves.new ≡ slaves_after frame_after memory_after slaves.old (start_sents units.now mapping.now)) }
{
    let trips = start_trips(alloc, units, mapping)?;
    send(alloc, slaves, trips)
}

/// Plays a plan with this layout through new modelled slaves, and loses those with these stations once the start frames came back
/// (own profile, after ETG.1000.4, clause 5.4): the frames of each tick of a hyperperiod, with an image of zeros, are passed on by
/// these as they are. Nothing is judged. A station that no slave has changes nothing.
///
/// # Errors
///
/// `AllocError` where memory ran out.
pub fn try_plan(
    alloc: Global,
    units: &Units,
    mapping: &Mapping,
    lost: &[u16],
) -> Result<Trial, AllocError>
    requires { HasLayout units.now mapping.now }
    ensures start { IfOk result (λ t. round_in t.start ≡ start_round units.now mapping.now (new_slaves_of (stations_at units.now))) }
    ensures ticks { IfOk result (λ t. map tick_in t.ticks.items ≡ tried_ticks units.now mapping.now lost.now) }
{
    let image = blank(alloc, mapping)?;
    let stations = stations_of(alloc, units.units.as_slice())?;
    let mut slaves = new_slaves(alloc, stations.len())?;
    let start = try_start(alloc, units, mapping, slaves.as_mut_slice())?;
    let mut line = members_of(alloc, slaves, stations.as_slice(), lost)?;
    let ticks = units.hyper().ticks();
    let tried = try_ticks(
        alloc,
        units,
        mapping,
        image.as_slice(),
        ticks,
        line.as_mut_slice(),
    )?;
    Ok(Trial {
        start,
        ticks: tried,
    })
}
