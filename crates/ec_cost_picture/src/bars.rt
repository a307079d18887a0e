//! The bars: one for each tick, with its frames above one another in the order of their slots.

use crate::frame::{Parts, add_title, parts_of};
use crate::placed::{At, Placed};
use crate::scale::Scale;
use ec_loads::Loads;
use ec_text_builder::Draft;

/// Adds a part of a bar, above so many bytes and of so many bytes.
fn add_part(page: &mut Draft, scale: &Scale, class: &str, tick: u32, below: u64, bytes: u64) {
    if bytes == 0 {
        return;
    }
    let x = scale.bar(u64::from(tick));
    let y = scale.y(below.saturating_add(bytes));
    let width = scale.bar_width();
    let height = scale.y(below).saturating_sub(y);
    page.add(format_args!("<path class=\"{class}\" d=\"M{x} {y}h{width}v{height}h-{width}z\"/>"));
}

/// Adds the line that parts a frame from the one above it.
fn add_edge(page: &mut Draft, scale: &Scale, tick: u32, bytes: u64) {
    let x = scale.bar(u64::from(tick));
    let y = scale.y(bytes);
    let width = scale.bar_width();
    page.add(format_args!("<path class=\"e\" d=\"M{x} {y}h{width}\"/>"));
}

/// Adds a frame above so many bytes.
fn add_frame(
    page: &mut Draft,
    scale: &Scale,
    placed: Placed<'_>,
    at: At,
    below: u64,
    parts: Parts,
) {
    let headed = below.saturating_add(parts.overhead);
    let filled = headed.saturating_add(parts.process);
    page.add("<g>");
    add_title(page, placed, at, parts);
    add_part(page, scale, "o", at.tick, below, parts.overhead);
    add_part(page, scale, "d", at.tick, headed, parts.process);
    add_part(page, scale, "p", at.tick, filled, parts.padding);
    add_edge(page, scale, at.tick, below.saturating_add(parts.sum()));
    page.add("</g>\n");
}

/// Adds the bar of a tick.
fn add_bar(page: &mut Draft, scale: &Scale, loads: &Loads, placed: Placed<'_>, tick: u32) {
    let mut below = 0u64;
    for slot in 0..loads.slots() {
        let at = At { tick, slot };
        if let Some(parts) = parts_of(loads, placed, at) {
            add_frame(page, scale, placed, at, below, parts);
            below = below.saturating_add(parts.sum());
        }
    }
}

/// Adds the bar of each tick below the hyperperiod.
pub(crate) fn add_bars(page: &mut Draft, scale: &Scale, loads: &Loads, placed: Placed<'_>) {
    for tick in 0..loads.ticks() {
        add_bar(page, scale, loads, placed, tick);
    }
}

/// Adds a triangle, whose point is there, that marks the busiest tick.
pub(crate) fn add_mark(page: &mut Draft, x: u64, y: u64) {
    page.add(format_args!("<path d=\"M{x} {y}l-60 -100h120z\"/>\n"));
}

/// Adds the mark above the first of the busiest ticks.
pub(crate) fn add_busiest(page: &mut Draft, scale: &Scale, loads: &Loads) {
    let (most, tick) = loads.top();
    add_mark(
        page,
        scale.middle(u64::from(tick)),
        scale.y(most).saturating_sub(20),
    )
}
