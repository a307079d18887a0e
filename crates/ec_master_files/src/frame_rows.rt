//! The page's table of the frames of each tick.

use crate::cells::{add_number, add_tall_number, time_of};
use crate::sends::{Sends, Sent, Ticking, frames_in, groups_in};
use ec_text_builder::Draft;

/// Adds the cell of the numbers of groups.
fn add_groups(page: &mut Draft, groups: &[usize]) {
    page.add("<td>");
    for (place, number) in groups.iter().enumerate() {
        if place > 0 {
            page.add(", ");
        }
        page.add(*number);
    }
    page.add("</td>");
}

/// Adds the cells of a frame.
fn add_frame(page: &mut Draft, sends: &Sends, frame: &Sent) {
    add_number(page, frame.slot);
    add_groups(page, groups_in(sends, frame));
    add_number(page, frame.bytes());
    add_number(page, frame.wire);
}

/// Adds the cells of a tick with so many rows.
fn add_tick_cells(page: &mut Draft, rows: usize, number: usize, tick: &Ticking) {
    add_tall_number(page, rows, number);
    add_tall_number(page, rows, tick.wire);
    add_tall_number(page, rows, time_of(tick.wire));
}

/// Adds the rows of a tick that has frames.
fn add_rows(page: &mut Draft, sends: &Sends, number: usize, tick: &Ticking) {
    for (place, frame) in frames_in(sends, tick).iter().enumerate() {
        page.add("<tr>");
        if place == 0 {
            add_tick_cells(page, tick.frames, number, tick);
        }
        add_frame(page, sends, frame);
        page.add("</tr>\n");
    }
}

/// Adds the rows of a tick.
fn add_tick(page: &mut Draft, sends: &Sends, number: usize, tick: &Ticking) {
    if tick.frames == 0 {
        page.add("<tr>");
        add_tick_cells(page, 1, number, tick);
        page.add("<td colspan=\"4\">no frame</td></tr>\n");
    } else {
        add_rows(page, sends, number, tick);
    }
}

/// Adds the rows of each tick below the hyperperiod.
pub(crate) fn add_ticks(page: &mut Draft, sends: &Sends) {
    for (number, tick) in sends.ticks.as_slice().iter().enumerate() {
        add_tick(page, sends, number, tick);
    }
}
