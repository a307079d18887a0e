//! Lines that the text of the units has and the unit text at a path of places has not, and the other way round.

use ec_cli_explain::TextLine;
use ec_cli_paths::{Host, tell};
use ec_cli_places::{others_in, standing_text};
use ec_cli_spots::PathPiece;
use ec_text_builder::Draft;
use std::alloc::{AllocError, Global};

/// What other lines mean for what is made of a text.
const STALE: &str = "So frames of what stands there may be other ones.\n";

/// The most lines that are told.
const MOST_TOLD: usize = 24;

/// What so many lines are called.
fn lines_of(count: usize) -> &'static str {
    match count {
        1 => "a line",
        _ => "lines",
    }
}

/// Adds some lines of a text, each with its number.
fn add_lines(out: &mut Draft, others: &[(usize, &[u8])]) {
    for (number, line) in others.iter().take(MOST_TOLD) {
        out.add(format_args!("    line {number}: {}\n", TextLine(*line)));
    }
    let more = others.len().saturating_sub(MOST_TOLD);
    if more > 0 {
        out.add(format_args!("    and {more} more\n"));
    }
}

/// That these lines of the unit text that stood at a path are gone.
fn gone_text(alloc: Global, path: &str, others: &[(usize, &[u8])]) -> Result<String, AllocError> {
    let (path, lines) = (PathPiece(path), lines_of(others.len()));
    let mut out = Draft::new(alloc);
    out.add(format_args!("What stood at {path} had {lines} that the text of the units has not:\n"));
    add_lines(&mut out, others);
    let them = if others.len() == 1 { "it" } else { "them" };
    out.add(format_args!(
        "What of {them} is still needed has to be written into the text of the units.\n"
    ));
    out.finish()
}

/// Tells under which name that lies which stood at a path.
pub(crate) fn tell_old(rt: &impl Host, path: &str, old: &str) {
    let (path, old) = (PathPiece(path), PathPiece(old));
    tell(
        rt,
        format!(in rt.alloc(); "What stood at {path} lies at {old} now.\n"),
    );
}

/// Adds that a text has these lines and the other hasn't.
fn add_others(out: &mut Draft, lead: &str, others: &[(usize, &[u8])]) {
    let lines = lines_of(others.len());
    out.add(format_args!("{lead} has {lines} that the other has not:\n"));
    add_lines(out, others);
}

/// How the unit text that stays at a path differs from the units' text in these lines of the one or of the other, or in their order.
fn stale_text(
    alloc: Global,
    path: &str,
    missing: &[(usize, &[u8])],
    beside: &[(usize, &[u8])],
) -> Result<String, AllocError> {
    let path = PathPiece(path);
    let mut out = Draft::new(alloc);
    if !missing.is_empty() {
        add_others(&mut out, "The text of the units", missing);
    } else if !beside.is_empty() {
        add_others(&mut out, "What stands there", beside);
    } else {
        out.add(format_args!(
            "The lines of {path} stand in another order than those of the text of the units.\n"
        ));
    }
    out.add(STALE);
    out.finish()
}

/// What is told once places were written over the unit text that stands at a path, where it has lines that the units' text hasn't. Nothing
/// where that can't be read, or memory runs out over it.
pub(crate) fn gone_at(rt: &impl Host, path: &str, units: &[u8]) -> Option<String> {
    let text = standing_text(rt, rt.alloc(), path)?;
    let others = others_in(rt.alloc(), text.as_slice(), units).ok()?;
    if others.is_empty() {
        return None;
    }
    gone_text(rt.alloc(), path, others.as_slice()).ok()
}

/// How the unit text at a path differs from the units' text, as it is told.
pub(crate) fn stale_at(rt: &impl Host, path: &str, units: &[u8]) -> Option<String> {
    let alloc = rt.alloc();
    let text = standing_text(rt, alloc, path)?;
    let missing = others_in(alloc, units, text.as_slice()).ok()?;
    let beside = others_in(alloc, text.as_slice(), units).ok()?;
    stale_text(alloc, path, missing.as_slice(), beside.as_slice()).ok()
}
