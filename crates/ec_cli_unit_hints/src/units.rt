//! Units and slaves that are too many, too big, or have what another one has.

use ec_cli_spots::{
    Coded, Doc, Fields, In, Letter, Named, bytes_of, is_shown, is_strange, slave_bytes,
};
use ec_text_builder::Draft;
use ec_unit_text::{Key, Spot};
use ec_units::is_name_byte;
use toml::Value;

/// Adds why a text is no name.
fn add_name_cause(out: &mut Draft, name: &str) {
    let count = name.len();
    let is_other = |letter: &char| !letter.is_ascii() || !is_name_byte(*letter as u8);
    if count == 0 {
        out.add("This one is empty.\n");
    } else if let Some(letter) = name.chars().find(is_other) {
        out.add(format_args!("The character \"{}\" is none of these.\n", Letter(letter)));
        if is_strange(letter) && is_shown(letter) {
            out.add(format_args!(
                "It is {} in UTF-8: write one of these in its place.\n",
                Coded(letter)
            ));
        }
    } else {
        out.add(format_args!("This one has {count}.\n"));
    }
}

/// Tells what is wrong with a name.
pub(crate) fn tell_name(out: &mut Draft, doc: Doc<'_>, spot: Spot) {
    out.add(format_args!(
        "{}a name has 1 to 32 characters of a-z, A-Z, 0-9, _ and -.\n",
        In(doc, spot)
    ));
    if let Some(name) = doc.unit(spot.unit).text(Key::Name) {
        add_name_cause(out, name);
    }
}

/// Adds the second of two tables that have the same, behind the first where that is known, and what each has to have.
fn add_two(out: &mut Draft, first: Option<Named<'_>>, second: Named<'_>, rule: &str) {
    if let Some(first) = first {
        out.add(format_args!("{first} and "));
    }
    out.add(format_args!("{second}.\n{rule}"));
}

/// Tells which two units have one name.
pub(crate) fn tell_same_name(out: &mut Draft, doc: Doc<'_>, spot: Spot) {
    let name = doc.unit(spot.unit).text(Key::Name);
    let mut units = doc.units().iter().map(Fields::of);
    let first = units.position(|unit| name.is_some() && unit.text(Key::Name) == name);
    let first = first.map(|unit| Named(doc, unit, None));
    let second = Named(doc, spot.unit.unwrap_or(0), None);
    out.add("Two units have one name: ");
    add_two(out, first, second, "Give each unit a name of its own.\n");
}

/// The most process bytes of a unit.
const MOST_BYTES: i128 = 1486;

/// The most slaves of a unit.
const MOST_SLAVES: usize = 8;

/// How many units some neighbours make, as few as can be, where each of them alone makes one.
fn count_units(slaves: &[Value]) -> usize {
    let (mut count, mut held, mut bytes) = (1usize, 0usize, 0i128);
    for more in slaves.iter().map(slave_bytes) {
        if held == MOST_SLAVES || bytes.saturating_add(more) > MOST_BYTES {
            count = count.saturating_add(1);
            held = 0;
            bytes = 0;
        }
        held = held.saturating_add(1);
        bytes = bytes.saturating_add(more);
    }
    count
}

/// Adds how many units are to be made of one with these slaves.
fn add_parts(out: &mut Draft, slaves: &[Value]) {
    if slaves.iter().any(|slave| slave_bytes(slave) > MOST_BYTES) {
        return out.add("Make several units of it.\n");
    }
    match count_units(slaves) {
        0..=2 => out.add("Make two units of it.\n"),
        count => out.add(format_args!("Make {count} units of it.\n")),
    }
}

/// Tells how many slaves a unit has, too few or too many, and what to do with it.
pub(crate) fn tell_slaves(out: &mut Draft, doc: Doc<'_>, spot: Spot) {
    let slaves = doc.slaves(spot.unit);
    let (place, count) = (In(doc, spot), slaves.len());
    out.add(format_args!("{place}there are {count} slaves, but a unit has 1 to {MOST_SLAVES}.\n"));
    if count <= MOST_SLAVES {
        out.add(
            "Each slave begins with a line [[unit.slave]], below the [[unit]] that it belongs to.\n",
        );
    } else {
        add_parts(out, slaves);
    }
}

/// Tells how many bytes a unit has, too many, and what to do with it.
pub(crate) fn tell_bytes(out: &mut Draft, doc: Doc<'_>, spot: Spot) {
    let slaves = doc.slaves(spot.unit);
    let (place, bytes) = (In(doc, spot), bytes_of(slaves));
    out.add(format_args!(
        "{place}all its slaves together have {bytes} bytes, but one datagram carries at most {MOST_BYTES}.\n"
    ));
    if let Some(large) = slaves
        .iter()
        .position(|slave| slave_bytes(slave) > MOST_BYTES)
    {
        out.add(format_args!(
            "{} alone has more, and a slave cannot be split: have fewer of its bytes mapped.\n",
            Named(doc, spot.unit.unwrap_or(0), Some(large))
        ));
    } else {
        add_parts(out, slaves);
    }
}

/// The first slave of the line with a station.
fn slave_with(doc: Doc<'_>, station: i64) -> Option<Named<'_>> {
    for unit in 0..doc.units().len() {
        let mut slaves = doc.slaves(Some(unit)).iter().map(Fields::of);
        let found = slaves.position(|slave| slave.number(Key::Station) == Some(station));
        if let Some(slave) = found {
            return Some(Named(doc, unit, Some(slave)));
        }
    }
    None
}

/// Tells which two slaves have one station.
pub(crate) fn tell_same_station(out: &mut Draft, doc: Doc<'_>, spot: Spot) {
    let station = doc.table(spot).number(Key::Station);
    let first = station.and_then(|station| slave_with(doc, station));
    let second = Named(doc, spot.unit.unwrap_or(0), Some(spot.slave.unwrap_or(0)));
    out.add("Two slaves have one station address: ");
    add_two(
        out,
        first,
        second,
        "Each slave of the line has an address of its own.\n",
    );
}
