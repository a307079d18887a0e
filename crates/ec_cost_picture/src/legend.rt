//! The heading, and what the colours and marks mean.

use crate::bars::add_mark;
use crate::label::{add_bytes, add_micros, add_text, open_text};
use crate::scale::{LEFT, Scale};
use ec_loads::Loads;
use ec_text_builder::Draft;
use ec_wire::BYTE_NS;

/// Where the heading and the two lines of the legend stand.
const LINES: (u64, u64, u64) = (150, 320, 490);

/// Adds the heading.
pub(crate) fn add_heading(page: &mut Draft, loads: &Loads, tick_ns: u32) {
    let ticks = loads.ticks();
    open_text(page, "b", LEFT, LINES.0);
    page.add(format_args!("What each tick costs on the wire: hyperperiod {ticks}, tick length "));
    add_micros(page, u64::from(tick_ns));
    page.add("</text>\n");
}

/// Adds a field in the colour of a class, and what it means.
fn add_field(page: &mut Draft, class: &str, x: u64, words: &str) {
    let y = LINES.1 - 110;
    page.add(format_args!("<path class=\"{class}\" d=\"M{x} {y}h140v140h-140z\"/>"));
    add_text(page, "l", x.saturating_add(200), LINES.1, words);
}

/// Adds the colours.
fn add_fields(page: &mut Draft) {
    add_field(page, "d", LEFT, "process data");
    add_field(page, "o", LEFT + 1400, "overhead");
    add_field(page, "p", LEFT + 2500, "padding");
    add_text(
        page,
        "l",
        LEFT + 3500,
        LINES.1,
        "slots from below, parted by white lines",
    );
}

/// Adds the mark of the busiest tick, with its number and its cost.
fn add_busiest(page: &mut Draft, loads: &Loads) {
    let (most, tick) = loads.top();
    add_mark(page, LEFT + 70, LINES.2);
    open_text(page, "l", LEFT + 200, LINES.2);
    page.add(format_args!("busiest: tick {tick}, "));
    add_bytes(page, most);
    page.add("</text>\n");
}

/// Adds how long a tick is, and how it is drawn where it is.
fn add_length(page: &mut Draft, tick_ns: u32, is_drawn: bool) {
    let x = LEFT + 3500;
    if is_drawn {
        let y = LINES.2 - 40;
        page.add(format_args!("<path class=\"k\" d=\"M{x} {y}h300\"/>"));
        open_text(page, "l", x + 380, LINES.2);
    } else {
        open_text(page, "l", x, LINES.2);
    }
    page.add("a tick has room for ");
    add_bytes(page, u64::from(tick_ns) / BYTE_NS);
    page.add("</text>\n");
}

/// Adds the legend.
pub(crate) fn add_legend(page: &mut Draft, loads: &Loads, tick_ns: u32, is_drawn: bool) {
    add_fields(page);
    add_busiest(page, loads);
    add_length(page, tick_ns, is_drawn);
}
