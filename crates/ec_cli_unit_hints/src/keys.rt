//! Keys that are of another type, or not known.

use crate::nearest::nearest;
use ec_cli_spots::{
    AtLine, Doc, Fields, In, Kind, Quoted, SLAVE, Shown, TOP, UNIT, before_comment, header_line,
    header_of, line_named, line_within, name_of, other_base,
};
use ec_text_builder::Draft;
use ec_unit_text::{Key, Spot};
use toml::Value;

/// What a key says, and what it takes.
pub(crate) fn meaning(key: Key) -> &'static str {
    match key {
        Key::TickNs => "tick_ns is the length of a tick in ns, 80 to 1000000000.",
        Key::Slots => "slots is how many slots there are, 1 to 8.",
        Key::Unit => "Each unit is a table of its own that begins with a line [[unit]].",
        Key::Name => "name is a text in quotes, as name = \"press-4\".",
        Key::Period => "period says after how many ticks the unit is sent again, 1 to 60.",
        Key::Slave => "Each slave is a table of its own that begins with a line [[unit.slave]].",
        Key::Phase => "phase is the tick of its period in which the unit is sent, from 0.",
        Key::Slot => "slot is the slot in which the unit is sent, from 0.",
        Key::Station => "station is the slave's configured station address, 1 to 65535.",
        Key::OutBytes => "out_bytes is how many output bytes the slave has, 0 where it has none.",
        Key::InBytes => "in_bytes is how many input bytes the slave has, 0 where it has none.",
        Key::Area(false) =>
            "out_at is the address at which the slave's outputs begin, 4096 to 65535.",
        Key::Area(true) => "in_at is the address at which the slave's inputs begin, 4096 to 65535.",
    }
}

/// The first key of a table that isn't one of its kind.
pub(crate) fn unknown_in<'a>(table: Fields<'a>, kind: Kind) -> Option<&'a str> {
    let mut words = table.0?.keys().map(|word| word.as_str());
    words.find(|word| !kind.has(word))
}

/// Whether a word that isn't known in a table was meant for the slaves of a unit: at the top of the file each one that begins as
/// `slave` does.
fn are_slaves(word: &str, kind: Kind) -> bool {
    let front = word.get(..5).unwrap_or("");
    matches!(word, "slave" | "unit_slave" | "unit-slave")
        || (kind.has("unit") && front.eq_ignore_ascii_case("slave"))
}

/// Whether a line begins slaves within a word that isn't known at the top of the file, as `[[units.slave]]` does, and none begins a unit
/// by that word, where units are begun as they have to be.
fn begins_slaves(doc: Doc<'_>, word: &str) -> bool {
    for line in doc.text.lines() {
        let (front, rest) = name_of(line).split_once('.').unwrap_or(("", ""));
        if front == word && rest == "slave" {
            return doc.top().has(Key::Unit) && line_named(doc, word).is_none();
        }
    }
    false
}

/// Whether a unit has slaves, and no line begins the first of them: they stand in braces.
fn has_inline_slaves(doc: Doc<'_>, unit: Option<usize>) -> bool {
    let Some(number) = unit else {
        return false;
    };
    !doc.slaves(unit).is_empty() && header_line(doc, number, Some(0)).is_none()
}

/// What is told of a key that isn't known at a spot, and belongs to a table of another kind. Where one that begins a unit stands in a
/// slave, and the unit has it already, a further unit isn't begun.
fn place_of(doc: Doc<'_>, word: &str, spot: Spot) -> Option<&'static str> {
    if are_slaves(word, Kind::at(spot)) || (spot.unit.is_none() && begins_slaves(doc, word)) {
        return Some("A slave begins with [[unit.slave]], below the [[unit]] that it belongs to.\n");
    }
    if has_inline_slaves(doc, spot.unit) {
        match spot.slave {
            None if SLAVE.has(word) => return Some(
                "It is a key of a slave, within the { } of the slave that it belongs to.\n",
            ),
            Some(_) if UNIT.has(word) => return Some(
                "It is a key of a unit, outside the { } of its slaves.\n",
            ),
            _ => {}
        }
    }
    let kinds = [SLAVE, UNIT, TOP];
    let kind = kinds.iter().find(|kind| kind.has(word))?;
    Some(match spot {
        Spot { unit: Some(_), .. } if word == "unit" =>
            "Each unit begins with a line [[unit]], and each slave with a line [[unit.slave]].\n",
        Spot {
            slave: Some(_),
            unit,
        } if matches!(word, "name" | "period") && doc.unit(unit).named(word).is_some() =>
            "Where a further unit begins, the line [[unit]] before it is missing; else take it out: it is a key of a unit.\n",
        _ => kind.astray,
    })
}

/// The key that a unit lacks, and that was meant by a key of another table: its name by `unit` with a text, its slot by `slots`.
fn unit_key(unit: Fields<'_>, word: &str) -> Option<Key> {
    let is_text = matches!(unit.named(word), Some(Value::String(_)));
    match word {
        "unit" if is_text && !unit.has(Key::Name) => Some(Key::Name),
        "slots" if unit.has(Key::Phase) && !unit.has(Key::Slot) => Some(Key::Slot),
        _ => None,
    }
}

/// Whether a word that was meant for a key counts bits, where the key counts bytes.
fn counts_bits(word: &str, key: Key) -> bool {
    let is_bit = |letters: &[u8]| letters.eq_ignore_ascii_case(b"bit");
    matches!(key, Key::OutBytes | Key::InBytes) && word.as_bytes().windows(3).any(is_bit)
}

/// Adds which key was meant by a word; where it counts bits, how they become bytes; where another unit of time, how many ns it is.
pub(crate) fn add_meant(out: &mut Draft, word: &str, key: Key) {
    out.add(format_args!("Was {key} meant?\n"));
    let is_longer = word.ends_with("us") || word.ends_with("ms") || word.ends_with("_s");
    if matches!(key, Key::TickNs) && is_longer {
        out.add("It counts ns: 1 us is 1000, and 1 ms is 1000000.\n");
    }
    if counts_bits(word, key) {
        out.add("It counts whole bytes: up to 8 bits are 1, up to 16 are 2.\n");
    }
}

/// The line, from 1, before which the line is missing that begins a unit's slave: it has the first key of a slave, behind those of the unit,
/// which has no slave.
fn unbegun_slave(doc: Doc<'_>, word: &str, spot: Spot) -> Option<usize> {
    let is_meant = spot.slave.is_none() && SLAVE.has(word) && !doc.unit(spot.unit).has(Key::Slave);
    let header = header_line(doc, spot.unit.filter(|_| is_meant)?, None)?;
    let mut lines = doc
        .text
        .lines()
        .enumerate()
        .skip(header)
        .take_while(|(_, line)| header_of(line).is_none());
    let (index, _) = lines.find(|(_, line)| SLAVE.has(name_of(line)))?;
    let is_last = !lines.any(|(_, line)| UNIT.has(name_of(line)));
    Some(index.saturating_add(1)).filter(|_| is_last)
}

/// Adds a key that isn't known at a spot, at the top of the file with its line, and where it stands if it is one of another table; else
/// which key was meant, if that isn't there.
pub(crate) fn add_unknown(out: &mut Draft, doc: Doc<'_>, word: &str, spot: Spot) {
    let kind = Kind::at(spot);
    let at = line_named(doc, word).or_else(|| line_within(doc, word));
    let line = AtLine(at.filter(|_| spot.unit.is_none()));
    out.add(format_args!("the key {}{line} is not known there.\n", Quoted(word)));
    if spot.slave.is_none()
        && let Some(key) = unit_key(doc.unit(spot.unit), word)
    {
        return add_meant(out, word, key);
    }
    if let Some(line) = unbegun_slave(doc, word, spot) {
        return out.add(format_args!(
            "It is a key of a slave: the line [[unit.slave]] is missing before line {line}.\n"
        ));
    }
    if let Some(place) = place_of(doc, word, spot) {
        return out.add(place);
    }
    match nearest(doc.alloc, word, kind.keys) {
        Some(key) if key == Key::Unit || !doc.table(spot).has(key) => add_meant(out, word, key),
        _ => out.add(kind.told),
    }
}

/// The first key at a spot that isn't known there, and was meant for this one.
pub(crate) fn meant_for<'a>(doc: Doc<'a>, spot: Spot, key: Key) -> Option<&'a str> {
    let kind = Kind::at(spot);
    for word in doc.table(spot).0?.keys() {
        let word = word.as_str();
        if !kind.has(word) && nearest(doc.alloc, word, kind.keys) == Some(key) {
            return Some(word);
        }
    }
    None
}

/// Tells a key that isn't known.
pub(crate) fn tell_unknown(out: &mut Draft, doc: Doc<'_>, spot: Spot) {
    let kind = Kind::at(spot);
    out.add(In(doc, spot));
    match unknown_in(doc.table(spot), kind) {
        Some(word) => add_unknown(out, doc, word, spot),
        None => out.add(kind.told),
    }
}

/// The digits of base 16 of the address at a spot, where they stand there without 0x, as 3E9, which is read as a number with an exponent.
fn hex_at<'a>(doc: Doc<'a>, spot: Spot, key: Key) -> Option<&'a str> {
    let header = header_line(doc, spot.unit?, spot.slave)?;
    let mut own = doc
        .text
        .lines()
        .skip(header)
        .take_while(|line| header_of(line).is_none());
    let line = own.find(|line| name_of(line) == key.as_str())?;
    let (_, value) = line.split_once('=')?;
    other_base(before_comment(value)).filter(|_| matches!(key, Key::Station | Key::Area(_)))
}

/// Which type a key takes, where it has a value of another one.
fn type_of(key: Key, value: &Value) -> &'static str {
    match (key, value.is_table()) {
        (Key::Unit, true) => "Write [[unit]] in double brackets, once for each.\n",
        (Key::Unit, false) => "It has to be tables, each begun by a line [[unit]].\n",
        (Key::Slave, true) if Fields::of(value).has(Key::Slave) => {
            "Write [[unit.slave]], with slave once, for each.\n"
        }
        (Key::Slave, true) => "Write [[unit.slave]] in double brackets, once for each.\n",
        (Key::Slave, false) => "It has to be tables, each begun by a line [[unit.slave]].\n",
        (Key::Name, _) => "A name is a text in quotes, as name = \"press-4\".\n",
        (Key::Station, _) if matches!(value, Value::Array(_)) => {
            "Each slave begins with a line [[unit.slave]] of its own, and has one station.\n"
        }
        (Key::Period, _) if matches!(value, Value::Float(_)) => {
            "A whole number of ticks is needed, without a point or an exponent: for half a tick halve tick_ns, and double all periods.\n"
        }
        (Key::OutBytes | Key::InBytes, _) if matches!(value, Value::Float(_)) => {
            "A whole number is needed, without quotes, a point or an exponent: part of a byte counts as 1.\n"
        }
        _ => "A whole number is needed, without quotes, a point or an exponent.\n",
    }
}

/// Tells that no unit is begun, but by its slaves alone, where another key of an array was meant for `unit`, or no line begins one; says
/// whether it is so.
fn tell_unbegun(out: &mut Draft, doc: Doc<'_>, spot: Spot) -> bool {
    let Some(Value::Table(begun)) = doc.top().value(Key::Unit) else {
        return false;
    };
    let is_of_slaves = begun.keys().all(|key| key.as_str() == Key::Slave.as_str());
    let mut lines = doc.text.lines();
    let slave = lines.position(|line| header_of(line).is_some());
    match meant_for(doc, spot, Key::Unit) {
        Some(word) if is_of_slaves && matches!(doc.top().named(word), Some(Value::Array(_))) =>
            out.add(format_args!(
                "No unit is begun: at the top of the file stands {} in place of unit.\nEach unit begins with a line [[unit]].\n",
                Quoted(word)
            )),
        _ if is_of_slaves && line_named(doc, "unit").is_none() && slave.is_some() => out.add(
            format_args!(
                "No unit is begun: before the first [[unit.slave]]{} a line [[unit]] is missing.\n",
                AtLine(slave.map(|index| index.saturating_add(1)))
            ),
        ),
        _ => return false,
    }
    true
}

/// Tells a value of another type.
pub(crate) fn tell_type(out: &mut Draft, doc: Doc<'_>, spot: Spot, key: Key) {
    if key == Key::Unit && tell_unbegun(out, doc, spot) {
        return;
    }
    out.add(In(doc, spot));
    let Some(value) = doc.table(spot).value(key) else {
        return out.add("a value has the wrong type.\n");
    };
    out.add(format_args!("{key} is {}.\n", Shown(value)));
    match hex_at(doc, spot, key) {
        Some(digits) if matches!(value, Value::Float(_)) => out.add(format_args!(
            "A whole number is needed, without a point or an exponent. If it is of base 16, write 0x{digits}.\n"
        )),
        _ => out.add(type_of(key, value)),
    }
}
