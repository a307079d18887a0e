//! The lines of a play.

ghost use Rattle.std.specs.Prelude.{◌≡◌, ◌++◌, string_bytes, IfOk, OnOk};
ghost use Rattle.ec_play_text.specs.Lines.{tick_line, tick_lines, play_text as text_of};

use crate::counters::push_counters;
use ec_player::{Rows, TickRow};
use std::alloc::{AllocError, Global};
use std::fmt::Write;

/// Adds the line of a tick, `tick T frames N bytes B counters C,C,..`. An error is want of memory.
pub fn push_tick(text: &mut String, tick: usize, row: &TickRow) -> Result<(), AllocError>
    ensures { OnOk result (string_bytes text.new ≡ string_bytes text.old ++ tick_line tick row.now) }
{
    let TickRow { frames, bytes, .. } = row;
    write!(text, "tick {tick} frames {frames} bytes {bytes} counters ")?;
    push_counters(text, row.counters.as_slice())?;
    text.push_str("\n")
}

/// Adds the lines of ticks, the first of which is tick 0.
fn push_ticks(text: &mut String, rows: &[TickRow]) -> Result<(), AllocError>
    ensures { OnOk result (string_bytes text.new ≡ string_bytes text.old ++ tick_lines 0 rows.now) }
{
    for tick in 0..rows.len() {
        push_tick(text, tick, &rows[tick])?;
    }
    Ok(())
}

/// The text of a play that went to its end: `start N` with the number of start frames; for each tick, from tick 0 on, a line
/// `tick T frames N bytes B counters C,C,..` with its frames, the bytes that they take on the wire (IEEE 802.3), and the working
/// counters with which their datagrams came back, `-` for none; and `done`.
///
/// # Errors
///
/// `AllocError` where memory ran out.
#[tactic(auto, unfolding(crate::specs::Lines::play_text))]
pub fn play_text(alloc: Global, start: u32, rows: &Rows) -> Result<String, AllocError>
    ensures { IfOk result (λ text. string_bytes text ≡ text_of start rows.now) }
{
    let mut text = String::new(alloc);
    write!(text, "start {start}\n")?;
    push_ticks(&mut text, rows.as_slice())?;
    text.push_str("done\n")?;
    Ok(text)
}
