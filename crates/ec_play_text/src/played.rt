//! A plan is played through new modelled slaves.

ghost use Rattle.std.specs.Prelude.{◌≡◌, ◌⊎◌, map, length, replicate, string_bytes, IfOk, IfErr};
ghost use Rattle.ec_units.specs.Load.{loads_of, periods_of};
ghost use Rattle.ec_units.specs.Views.{unit_view, units_view};
ghost use Rattle.ec_hyper.specs.Lcm.{lcm_of};
ghost use Rattle.ec_slave.specs.Step.{frame_after, memory_after};
ghost use Rattle.ec_frame_builder.specs.Frames.{HasLayout};
ghost use Rattle.ec_player.specs.Lines.{IsMemory};
ghost use Rattle.ec_player.specs.Plays.{IsAnswer};
ghost use Rattle.ec_player_threads.specs.Plays.{IsLack};
ghost use Rattle.ec_frame_text.specs.Lines.{stations_in, zeros};
ghost use Rattle.ec_outcome.specs.declared.play.PlayTextFault.TheVariants.{Play as Unplayed, Text as Untold};
ghost use Rattle.ec_play_text.specs.Plays.{new_slaves as slaves_of, played, IsNoMemory, IsNoThread};

use crate::lines::play_text;
use ec_fmmu::Mapping;
use ec_frame_text::{blank, stations_of};
use ec_outcome::{PlayFault, PlayTextFault};
use ec_play_laws::law_play_is_right;
use ec_player::{Played, play_plain};
use ec_player_threads::play_threads;
use ec_slave::SlaveBox;
use ec_units::Units;
use std::alloc::{AllocError, Global};
use std::sync::Wait;
use std::thread::Threads;

/// The most slaves that get a thread each.
const MOST_THREADS: usize = 16;

/// What a play begins with: an image, and a slave for each station.
#[derive(Drop)]
struct Line {
    image: Vec<u8>,
    slaves: Vec<SlaveBox>,
}

/// So many new slaves. An error is want of memory.
pub fn new_slaves(alloc: Global, count: usize) -> Result<Vec<SlaveBox>, AllocError>
    ensures { IfOk result (λ v. v.items ≡ replicate count (replicate 65536 0)) }
{
    let mut slaves = Vec::new(alloc);
    for _ in 0..count {
        let slave = SlaveBox::new(alloc)?;
        slaves.push(slave)?;
    }
    Ok(slaves)
}

/// An image of zeros, and a new slave for each of the units' slaves.
fn new_line(alloc: Global, units: &Units, mapping: &Mapping) -> Result<Line, PlayFault>
    ensures image { IfOk result (λ l. l.image.items ≡ zeros mapping.now) }
    ensures slaves { IfOk result (λ l. l.slaves.items ≡ slaves_of (stations_in (map unit_view units.now.units))) }
    ensures err { IfErr result IsMemory }
{
    let Ok(stations) = stations_of(alloc, units.units.as_slice()) else {
        return Err(PlayFault::OutOfMemory);
    };
    let Ok(image) = blank(alloc, mapping) else {
        return Err(PlayFault::OutOfMemory);
    };
    let Ok(slaves) = new_slaves(alloc, stations.len()) else {
        return Err(PlayFault::OutOfMemory);
    };
    Ok(Line { image, slaves })
}

/// Plays the ticks of a hyperperiod in the calling thread.
fn play_alone(
    alloc: Global,
    units: &Units,
    mapping: &Mapping,
) -> Result<Played<SlaveBox>, PlayFault>
    requires { HasLayout units.now mapping.now }
    ensures answer { IsAnswer frame_after memory_after IsMemory units.now mapping.now (zeros mapping.now) (lcm_of (periods_of (loads_of units.now.units))) (slaves_of (stations_in (map unit_view units.now.units))) result }
    ensures err { IfErr result IsMemory }
{
    let Line { image, slaves } = new_line(alloc, units, mapping)?;
    let ticks = units.hyper().ticks();
    law_play_is_right();
    play_plain(alloc, units, mapping, image.as_slice(), ticks, slaves)
}

/// Plays the ticks of a hyperperiod, with a thread for each slave where there are at most 16.
fn play_together<R: Threads + Wait + Sync>(
    rt: &R,
    alloc: Global,
    units: &Units,
    mapping: &Mapping,
) -> Result<Played<SlaveBox>, PlayFault>
    requires { HasLayout units.now mapping.now }
    ensures answer { IsAnswer frame_after memory_after IsLack units.now mapping.now (zeros mapping.now) (lcm_of (periods_of (loads_of units.now.units))) (slaves_of (stations_in (map unit_view units.now.units))) result }
    ensures err { IfErr result IsLack }
{
    let Line { image, slaves } = new_line(alloc, units, mapping)?;
    let ticks = units.hyper().ticks();
    law_play_is_right();
    if slaves.len() <= MOST_THREADS {
        return play_threads(rt, alloc, units, mapping, image.as_slice(), ticks, slaves);
    }
    play_plain(alloc, units, mapping, image.as_slice(), ticks, slaves)
}

/// The text of a plan with this layout that is played in the calling thread: its start frames and the ticks of a hyperperiod go
/// through new modelled slaves, with an image of zeros (own profile, after ETG.1000.4, clause 5.4). It is that of `play_text`.
///
/// # Errors
///
/// `PlayTextFault` where memory ran out.
pub fn played_text(alloc: Global, units: &Units, mapping: &Mapping) -> Result<String, PlayTextFault>
    requires { HasLayout units.now mapping.now }
    ensures ok { IfOk result (λ text. string_bytes text ≡ played (units_view units.now) mapping.now) }
    ensures err { IfErr result IsNoMemory }
{
    let played = play_alone(alloc, units, mapping)?;
    Ok(play_text(alloc, played.start, &played.ticks)?)
}

/// The same text of a plan that is played with a thread for each slave where there are at most 16, and else in the calling thread.
///
/// # Errors
///
/// `PlayTextFault` where memory ran out, a ring couldn't be made or finished, or a thread couldn't be started.
pub fn played_together<R: Threads + Wait + Sync>(
    rt: &R,
    alloc: Global,
    units: &Units,
    mapping: &Mapping,
) -> Result<String, PlayTextFault>
    requires { HasLayout units.now mapping.now }
    ensures ok { IfOk result (λ text. string_bytes text ≡ played (units_view units.now) mapping.now) }
    ensures err { IfErr result (λ f. IsNoMemory f ⊎ IsNoThread f) }
{
    let played = play_together(rt, alloc, units, mapping)?;
    Ok(play_text(alloc, played.start, &played.ticks)?)
}
