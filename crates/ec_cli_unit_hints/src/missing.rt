//! Keys that are missing: where they stand, or what stands in their place.

use crate::keys::{add_meant, add_unknown, meaning, meant_for, unknown_in};
use ec_cli_spots::{Doc, In, Kind, Named, Quoted, header_line};
use ec_text_builder::Draft;
use ec_unit_text::{Key, Spot};

/// The spot of a unit, of a slave or of the top, if its table has a key.
fn spot_with(doc: Doc<'_>, unit: Option<usize>, slave: Option<usize>, key: Key) -> Option<Spot> {
    Some(Spot { unit, slave }).filter(|spot| doc.table(*spot).has(key))
}

/// The first slave of a unit that has a key.
fn slave_with(doc: Doc<'_>, unit: Option<usize>, key: Key) -> Option<Spot> {
    (0..doc.slaves(unit).len()).find_map(|slave| spot_with(doc, unit, Some(slave), key))
}

/// The first unit that has a key, or has a slave that has it.
fn unit_with(doc: Doc<'_>, key: Key) -> Option<Spot> {
    (0..doc.units().len()).map(Some).find_map(|unit| {
        spot_with(doc, unit, None, key).or_else(|| slave_with(doc, unit, key))
    })
}

/// Another table that has the key which is missing at a spot, where a line `key = value` gives it: for the top the first unit or slave; for
/// a unit a slave of it, for a slave its unit, else the top.
fn other_with(doc: Doc<'_>, spot: Spot, key: Key) -> Option<Spot> {
    if matches!(key, Key::Unit | Key::Slave) {
        return None;
    }
    let around = match (spot.unit, spot.slave) {
        (None, _) => return unit_with(doc, key),
        (unit, None) => slave_with(doc, unit, key),
        (unit, Some(_)) => spot_with(doc, unit, None, key),
    };
    around.or_else(|| spot_with(doc, None, None, key))
}

/// Where a key is to be written that is missing at a spot, and stands in another table.
fn right_place(doc: Doc<'_>, spot: Spot, other: Spot) -> &'static str {
    let (unit, slave) = match (spot.unit, spot.slave) {
        (None, _) => (other.unit, None),
        (unit, None) => (unit, other.slave),
        (unit, slave) => (unit, slave),
    };
    // A table that stands inline, in braces, has no header.
    let has_header = header_line(doc, unit.unwrap_or(0), slave).is_some();
    match (spot.unit, spot.slave, other.unit, has_header) {
        (None, _, _, true) => "above the first [[unit]]",
        (None, _, _, false) => "above the units",
        (_, None, Some(_), true) => "above the unit's first [[unit.slave]]",
        (_, None, Some(_), false) => "outside the { } of the unit's slaves",
        (_, None, None, true) => "below the [[unit]] that it belongs to",
        (_, None, None, false) => "within the { } of the unit that it belongs to",
        (_, Some(_), _, true) => "below the [[unit.slave]] that it belongs to",
        (_, Some(_), _, false) => "within the { } of the slave that it belongs to",
    }
}

/// Adds in which other table a key stands that is missing at a spot, and where to write it.
fn add_other(out: &mut Draft, doc: Doc<'_>, spot: Spot, other: Spot) {
    match other.unit {
        Some(unit) => out.add(format_args!("It stands in {}", Named(doc, unit, other.slave))),
        None => out.add("It stands at the top of the file"),
    }
    out.add(format_args!(": write it {}.\n", right_place(doc, spot, other)));
}

/// Adds a key that isn't known where one is missing: one that was meant for it, else the first.
fn add_beside(out: &mut Draft, doc: Doc<'_>, spot: Spot, key: Key) {
    if let Some(word) = meant_for(doc, spot, key) {
        out.add(format_args!("Beside it, the key {} is not known there.\n", Quoted(word)));
        add_meant(out, word, key);
    } else if let Some(word) = unknown_in(doc.table(spot), Kind::at(spot)) {
        out.add("Beside it, ");
        add_unknown(out, doc, word, spot);
    }
}

/// Tells a key that is missing: where it stands, if it stands in another table; else which key stands in its place, if one
/// isn't known there, and what it says.
pub(crate) fn tell_missing(out: &mut Draft, doc: Doc<'_>, spot: Spot, key: Key) {
    if spot.unit.is_none() && doc.text.trim().is_empty() {
        return out.add("The file is empty.\n");
    }
    out.add(format_args!("{}the key \"{key}\" is missing.\n", In(doc, spot)));
    if let Some(other) = other_with(doc, spot, key) {
        return add_other(out, doc, spot, other);
    }
    add_beside(out, doc, spot, key);
    out.add(format_args!("{}\n", meaning(key)));
}
