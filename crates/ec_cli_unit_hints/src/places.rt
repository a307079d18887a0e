//! Places of units: out of range, half given, missing, or too many units in one slot.

use crate::rooms::{Room, room_elsewhere};
use ec_cli_spots::{Doc, Fields, In, Named, Pair, Quoted, add_illegal};
use ec_loads::Illegal;
use ec_text_builder::Draft;
use ec_unit_text::{Key, Spot, read_units};
use ec_units::Place;
use std::alloc::AllocError;
use toml::Value;

/// Adds that there can be more slots than the file has, if there can, and this slot can be one of them.
fn add_more_slots(out: &mut Draft, doc: Doc<'_>, slot: i64) {
    if let Some(slots @ 1..=7) = doc.top().number(Key::Slots)
        && slot < 8
    {
        out.add(format_args!(
            "slots = {slots} at the top of the file can be raised, to 8 at most.\n"
        ));
    }
}

/// Adds the place that a unit has.
fn add_place(out: &mut Draft, doc: Doc<'_>, spot: Spot) {
    let unit = doc.unit(spot.unit);
    out.add(format_args!(
        "{}{} and {}",
        In(doc, spot),
        Pair(unit, Key::Phase),
        Pair(unit, Key::Slot)
    ));
}

/// How many units have a phase or a slot out of range, where there are so many slots.
fn count_outside(units: &[Value], slots: i64) -> usize {
    let mut count = 0usize;
    for unit in units.iter().map(Fields::of) {
        let (phase, slot) = (unit.number(Key::Phase), unit.number(Key::Slot));
        let period = unit.number(Key::Period).unwrap_or(60);
        let is_inside = phase.is_none_or(|phase| (0..period).contains(&phase))
            && slot.is_none_or(|slot| (0..slots).contains(&slot));
        count = count.saturating_add(usize::from(!is_inside));
    }
    count
}

/// What finds places for units from which they were taken.
const FINDING: &str =
    "Without them plan --places PATH finds places for all units; with --keep it begins at those that are left.\n";

/// Tells a phase or a slot out of range, with both limits, and how many units have such.
pub(crate) fn tell_range(out: &mut Draft, doc: Doc<'_>, spot: Spot) {
    let unit = doc.unit(spot.unit);
    let period = unit.number(Key::Period).unwrap_or(60);
    let slots = doc.top().number(Key::Slots).unwrap_or(8);
    let (last_phase, last_slot) = (period.saturating_sub(1), slots.saturating_sub(1));
    add_place(out, doc, spot);
    out.add(format_args!(
        ", but with its period its phase is 0 to {last_phase},\nand with the slots of the file its slot is 0 to {last_slot}.\n"
    ));
    match count_outside(doc.units(), slots) {
        0 | 1 => out.add("Write one of these; or take phase and slot of this unit out.\n"),
        count => out.add(format_args!(
            "{count} units have places out of range. Take phase and slot out of each.\n"
        )),
    }
    out.add(FINDING);
    let slot = unit.number(Key::Slot).unwrap_or(0);
    if slot > last_slot {
        add_more_slots(out, doc, slot);
    }
}

/// Tells which half of a place is missing.
pub(crate) fn tell_half(out: &mut Draft, doc: Doc<'_>, spot: Spot) {
    add_place(out, doc, spot);
    out.add(", but a place is both, a phase and a slot.\nWrite both, or leave both out.\n");
}

/// Tells a unit without a place.
pub fn tell_no_place(out: &mut Draft, doc: Doc<'_>, unit: usize) {
    out.add(format_args!(
        "A unit has no place, that is no phase and no slot: {}.\nCosts and frames are those of places: write them for every unit, or let plan --places PATH write the text with those that it finds.\n",
        Named(doc, unit, None)
    ));
    if doc
        .units()
        .iter()
        .any(|unit| Fields::of(unit).has(Key::Phase))
    {
        out.add("It may move units that have places, too; with --keep it begins at these.\n");
    }
}

/// From so many columns on a list of names goes on in a new line: with one more name a line may be cut.
const MOST_COLUMNS: usize = 100;

/// Whether a unit with this place travels in a tick and a slot.
fn travels(unit: Fields<'_>, tick: i64, slot: i64) -> bool {
    let rest = tick.checked_rem(unit.number(Key::Period).unwrap_or(0));
    rest.is_some() && unit.number(Key::Phase) == rest && unit.number(Key::Slot) == Some(slot)
}

/// Adds the names of the units that travel in a tick and a slot, in as many lines as they take.
fn add_travelling(out: &mut Draft, doc: Doc<'_>, tick: i64, slot: i64) {
    out.add("In it travel");
    let (mut sign, mut columns) = (" ", 0usize);
    for unit in doc.units() {
        let unit = Fields::of(unit);
        if travels(unit, tick, slot) {
            let name = unit.text(Key::Name).unwrap_or("");
            out.add(format_args!("{sign}{}", Quoted(name)));
            columns = columns.saturating_add(name.len()).saturating_add(4);
            sign = ", ";
            if columns >= MOST_COLUMNS {
                columns = 0;
                sign = ",\n    ";
            }
        }
    }
    out.add(".\n");
}

/// Adds a place at which one of the units of a frame has room, if there is one, and else what looks for places of all units. Nothing of
/// units that aren't right.
fn add_remedy(out: &mut Draft, doc: Doc<'_>, tick: u32, slot: u8) {
    let Ok(units) = read_units(doc.alloc, doc.text.as_bytes()) else {
        return;
    };
    let found = match room_elsewhere(doc.alloc, &units, tick, slot) {
        Ok(found) => found,
        Err(AllocError) => return out.give_up(),
    };
    let Some(
        Room {
            unit,
            place: Place { phase, slot },
            is_enough,
        },
    ) = found
    else {
        return out.add(
            "None of them has room elsewhere: plan --places PATH looks for places of all units.\n",
        );
    };
    let name = Quoted(unit.name.as_str());
    let end = if is_enough {
        ""
    } else {
        "; more than one has to go"
    };
    out.add(format_args!("There is room for {name} at phase = {phase}, slot = {slot}{end}.\n"));
}

/// Tells why the places of the file are no legal plan: which slot carries too much in which tick, which units travel in it, and where one
/// of them has room. Of those that reading has judged nothing is told.
pub fn tell_illegal(out: &mut Draft, doc: Doc<'_>, illegal: Illegal) {
    let Illegal::Full { tick, slot, .. } = illegal else {
        return;
    };
    add_illegal(out, doc, illegal);
    if !doc.units().is_empty() {
        add_travelling(out, doc, i64::from(tick), i64::from(slot));
    }
    add_remedy(out, doc, tick, slot);
    add_more_slots(out, doc, i64::from(slot));
}
