//! Unit texts, in scripts on one line with a bar for each line feed.

use crate::call::Call;
use crate::samples::add_line;
use ec_text_builder::Draft;
use ec_unit_text::read_units;
use ec_units::{Unit, Units, bytes_of};
use std::alloc::Global;

/// What stands before and after the text of a call, by its name.
const FRAMES: [(&str, &str, &str); 8] = [
    ("text", "", ""),
    ("whole", "", ""),
    ("top", "tick_ns = 1000|slots = 1|", ""),
    (
        "limits",
        "",
        "|unit = [{name = \"a\", period = 1, slave = [{station = 1, out_bytes = 4, in_bytes = 0}]}]",
    ),
    ("unit", "tick_ns = 1000000|slots = 1|unit = [{", "}]|"),
    (
        "placed",
        "tick_ns = 1000000|slots = 1|unit = [{",
        "name = \"a\", period = 2, slave = [{station = 1, out_bytes = 4, in_bytes = 0}]}]|",
    ),
    (
        "slave",
        "tick_ns = 1000000|slots = 1|unit = [{name = \"a\", period = 1, slave = [{",
        "}]}]|",
    ),
    (
        "area",
        "tick_ns = 1000000|slots = 1|unit = [{name = \"a\", period = 1, slave = [{station = 1, ",
        "}]}]|",
    ),
];

/// Adds a unit: name, bytes, period, its place if it has one, and slaves, each with station, output and input bytes, and
/// where they begin.
fn add_unit(out: &mut Draft, unit: &Unit) {
    let bytes = bytes_of(unit);
    out.add(format_args!("; {} {bytes}/{}", unit.name.as_str(), unit.period));
    if let Some(place) = unit.place {
        out.add(format_args!(" at {},{}", place.phase, place.slot));
    }
    for slave in unit.slaves.as_slice() {
        out.add(format_args!(" {}:{}@{}", slave.station, slave.out_bytes, slave.out_at));
        out.add(format_args!("/{}@{}", slave.in_bytes, slave.in_at));
    }
}

/// Adds units.
fn add_units(out: &mut Draft, units: &Units) {
    let ticks = units.hyper().ticks();
    out.add(format_args!("{} ns, {} slots, {ticks} ticks", units.tick_ns, units.slots));
    for unit in units.units.as_slice() {
        add_unit(out, unit);
    }
}

/// Adds what reading a text answers: the fault, or that it is right, or, where the whole is asked for, what was read.
fn read(alloc: Global, text: &str, whole: bool, out: &mut Draft) {
    match read_units(alloc, text.as_bytes()) {
        Ok(units) => {
            if whole {
                add_units(out, &units);
            } else {
                out.add("right");
            }
            drop(units);
        }
        Err(fault) => out.add(fault),
    }
}

/// Adds a text with line feeds for its bars.
pub(crate) fn add_unbarred(text: &mut Draft, barred: &str) {
    for c in barred.chars() {
        text.add(if c == '|' { '\n' } else { c });
    }
}

/// Adds so many equal lines.
pub(crate) fn add_lines(text: &mut Draft, alloc: Global, line: &str, count: usize) {
    match line.repeat(alloc, count) {
        Ok(lines) => text.add(lines),
        Err(_) => text.give_up(),
    }
}

/// Adds the text of a call, with what its name says that stands around it, or tells that it says nothing.
fn add_framed(text: &mut Draft, call: Call<'_>) -> Result<(), &'static str> {
    for (name, front, back) in FRAMES.as_slice() {
        if call.name() == *name {
            add_unbarred(text, front);
            add_unbarred(text, call.after(1));
            add_unbarred(text, back);
            return Ok(());
        }
    }
    Err("no call")
}

/// Adds the text that a call asks to be read, or tells why it asks for none. That of `slaves` is a unit with so many slaves
/// of one station.
fn add_text(text: &mut Draft, alloc: Global, call: Call<'_>) -> Result<(), &'static str> {
    match call.name() {
        "line" => {
            if add_line(text, call.small(1), call.after(2)) {
                Ok(())
            } else {
                Err("no sizes")
            }
        }
        "slaves" => {
            text.add("tick_ns = 1000000\nslots = 1\n[[unit]]\nname = \"a\"\nperiod = 1\n");
            let slave = "[[unit.slave]]\nstation = 1\nout_bytes = 1\nin_bytes = 0\n";
            add_lines(text, alloc, slave, call.count(1).min(100_000) as usize);
            Ok(())
        }
        _ => add_framed(text, call),
    }
}

/// Adds what a call about unit texts answers: its name says what stands around its text; `whole TEXT` tells all that
/// was read, and `line SLOTS SIZES..` and `slaves COUNT` read a text that they make.
pub(crate) fn answer(alloc: Global, call: Call<'_>, out: &mut Draft) {
    let mut text = Draft::new(alloc);
    if let Err(fault) = add_text(&mut text, alloc, call) {
        return out.add(fault);
    }
    match text.finish() {
        Ok(text) => read(alloc, text.as_str(), call.name() == "whole", out),
        Err(_) => out.give_up(),
    }
}
