//! The grid, the numbers at the axes, and the line at the length of a tick.

use crate::label::{add_micros, add_text, open_text};
use crate::scale::{ABOVE, HEIGHT, LEFT, Scale};
use ec_text_builder::Draft;
use ec_wire::BYTE_NS;

/// Adds a line across the picture at so many bytes.
fn add_across(page: &mut Draft, scale: &Scale, class: &str, bytes: u64) {
    let y = scale.y(bytes);
    let right = scale.right();
    page.add(format_args!("<path class=\"{class}\" d=\"M{LEFT} {y}H{right}\"/>\n"));
}

/// Adds the bytes on the left of a line of the grid, and the time that they take on its right.
fn add_height(page: &mut Draft, scale: &Scale, bytes: u64) {
    let y = scale.y(bytes).saturating_add(40);
    let left = LEFT - 80;
    page.add(format_args!("<text class=\"r\" x=\"{left}\" y=\"{y}\">{bytes}</text>\n"));
    open_text(page, "l", scale.right().saturating_add(80), y);
    add_micros(page, bytes.saturating_mul(BYTE_NS));
    page.add("</text>\n");
}

/// Adds the grid with its numbers.
pub(crate) fn add_grid(page: &mut Draft, scale: &Scale) {
    for line in 0..7u64 {
        let bytes = scale.step.saturating_mul(line);
        if bytes <= scale.top {
            add_across(page, scale, "g", bytes);
            add_height(page, scale, bytes);
        }
    }
}

/// Adds a tick's number below its bar.
fn add_number(page: &mut Draft, scale: &Scale, tick: u64) {
    let x = scale.middle(tick);
    let y = ABOVE + HEIGHT;
    page.add(format_args!("<path class=\"t\" d=\"M{x} {y}v50\"/>"));
    let below = y + 180;
    page.add(format_args!("<text class=\"m\" x=\"{x}\" y=\"{below}\">{tick}</text>\n"));
}

/// Adds the numbers of the ticks, of as many as there is room for.
pub(crate) fn add_numbers(page: &mut Draft, scale: &Scale) {
    let stride = scale.stride();
    for tick in 0..scale.ticks {
        if tick.checked_rem(stride) == Some(0) {
            add_number(page, scale, tick);
        }
    }
}

/// Adds what the axes show.
pub(crate) fn add_names(page: &mut Draft, scale: &Scale) {
    let right = scale.right().saturating_add(80);
    add_text(page, "l", LEFT, ABOVE + HEIGHT + 420, "tick");
    add_text(page, "r", LEFT - 80, ABOVE - 90, "bytes");
    add_text(page, "l", right, ABOVE - 90, "time");
}

/// Adds the line at the bytes that fit into a tick, where it is near.
pub(crate) fn add_room(page: &mut Draft, scale: &Scale, room: Option<u64>) {
    if let Some(bytes) = room {
        add_across(page, scale, "k", bytes);
    }
}
