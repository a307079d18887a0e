//! The lines of a play that loses slaves.

ghost use Rattle.std.specs.Prelude.{◌≡◌, ◌++◌, length, map, string_bytes, IfOk, OnOk};
ghost use Rattle.std.specs.List.{flat_map};
ghost use Rattle.ec_play_trial.specs.Trials.{tick_in};
ghost use Rattle.ec_play_trial.specs.Texts.{short_line, tick_text, ticks_text, trial_text as text_of};

use crate::tick::Tick;
use crate::trial::Trial;
use ec_play_text::push_tick as push_row;
use ec_player::Wrong;
use std::alloc::{AllocError, Global};
use std::fmt::Write;

/// Adds the line of a counter that isn't wanted.
fn push_short(text: &mut String, tick: usize, short: &Wrong) -> Result<(), AllocError>
    ensures { OnOk result (string_bytes text.new ≡ string_bytes text.old ++ short_line tick short.now) }
{
    let Wrong {
        datagram,
        want,
        got,
    } = short;
    write!(text, "short {tick} {datagram} {want} {got}\n")?;
    Ok(())
}

/// Adds the lines of the counters of a tick that aren't wanted.
fn push_shorts(text: &mut String, tick: usize, shorts: &[Wrong]) -> Result<(), AllocError>
    ensures { OnOk result (string_bytes text.new ≡ string_bytes text.old ++ flat_map (short_line tick) shorts.now) }
{
    for short in shorts {
        push_short(text, tick, short)?;
    }
    Ok(())
}

/// Adds the lines of a tick.
fn push_tick(text: &mut String, number: usize, tick: &Tick) -> Result<(), AllocError>
    ensures { OnOk result (string_bytes text.new ≡ string_bytes text.old ++ tick_text number (tick_in tick.now)) }
{
    push_row(text, number, &tick.row)?;
    push_shorts(text, number, tick.shorts.as_slice())
}

/// Adds the lines of ticks, the first of which is tick 0.
fn push_ticks(text: &mut String, ticks: &[Tick]) -> Result<(), AllocError>
    ensures { OnOk result (string_bytes text.new ≡ string_bytes text.old ++ ticks_text 0 (map tick_in ticks.now)) }
{
    for number in 0..ticks.len() {
        push_tick(text, number, &ticks[number])?;
    }
    Ok(())
}

/// The text of a play that loses slaves: the lines of a play (`play_text` of `ec_play_text`) with the counters that come back,
/// and behind that of a tick a line `short T DATAGRAM WANT GOT` for each counter that isn't the one that is wanted, with its place
/// among the counters of the tick, from 0.
///
/// # Errors
///
/// `AllocError` where memory ran out.
#[tactic(auto, unfolding(crate::specs::Texts::trial_text))]
pub fn trial_text(alloc: Global, trial: &Trial) -> Result<String, AllocError>
    ensures { IfOk result (λ text. string_bytes text ≡ text_of (length trial.now.start.trips.items) (map tick_in trial.now.ticks.items)) }
{
    let mut text = String::new(alloc);
    let start = trial.start.trips.len();
    write!(text, "start {start}\n")?;
    push_ticks(&mut text, trial.ticks.as_slice())?;
    text.push_str("done\n")?;
    Ok(text)
}
