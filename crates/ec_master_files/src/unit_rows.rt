//! The page's tables of units and groups.

use crate::cells::add_number;
use crate::seats::group_at;
use ec_fmmu::{FIRST_ADDRESS, Group, expected};
use ec_text_builder::Draft;
use ec_units::{Place, Unit, bytes_of};

/// Adds the row of a unit.
fn add_unit(page: &mut Draft, groups: &[Group], unit: &Unit, place: Place) {
    let (name, slaves) = (unit.name.as_str(), unit.slaves.as_slice());
    page.add(format_args!("<tr><td class=\"name\">{name}</td>"));
    add_number(page, place.slot);
    add_number(page, unit.period);
    add_number(page, place.phase);
    add_number(page, group_at(groups, unit.period, place));
    add_number(page, slaves.len());
    add_number(page, bytes_of(unit));
    add_number(page, expected(slaves));
    page.add("</tr>\n");
}

/// Adds the rows of the units at their places.
pub(crate) fn add_units(page: &mut Draft, groups: &[Group], units: &[Unit], places: &[Place]) {
    for (unit, place) in units.iter().zip(places) {
        add_unit(page, groups, unit, *place);
    }
}

/// Adds the row of a group.
fn add_group(page: &mut Draft, number: usize, group: &Group) {
    let start = group.start;
    page.add("<tr>");
    add_number(page, number);
    add_number(page, group.slot);
    add_number(page, group.period);
    add_number(page, group.phase);
    page.add(format_args!("<td class=\"hex\">0x{start:08x}</td>"));
    add_number(page, start.saturating_sub(FIRST_ADDRESS));
    add_number(page, group.len);
    add_number(page, group.counter);
    page.add("</tr>\n");
}

/// Adds the rows of the groups.
pub(crate) fn add_groups(page: &mut Draft, groups: &[Group]) {
    for (number, group) in groups.iter().enumerate() {
        add_group(page, number, group);
    }
}
