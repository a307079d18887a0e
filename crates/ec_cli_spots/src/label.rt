//! The names of units, slaves and values in a sentence.

use crate::headers::header_line;
use crate::inputs::{Doc, Fields};
use crate::quoted::{Quoted, Shown};
use ec_unit_text::{Key, Spot};
use std::fmt;
use toml::Value;

/// A line of the file in brackets behind a space, if it is known.
#[derive(Clone, Copy)]
pub struct AtLine(pub Option<usize>);

impl fmt::Display for AtLine {
    fn fmt<W: fmt::Write>(&self, f: &mut fmt::Formatter<W>) -> fmt::Result {
        match self.0 {
            Some(line) => write!(f, " (line {line})"),
            None => Ok(()),
        }
    }
}

/// Whether several slaves of a unit have a station.
fn is_shared(doc: Doc<'_>, unit: usize, station: i64) -> bool {
    let has_it = |slave: &&Value| Fields::of(slave).number(Key::Station) == Some(station);
    doc.slaves(Some(unit)).iter().filter(has_it).count() > 1
}

/// A unit, or a slave of it, with its line: `unit "a" (line 3)`, `slave 1001 of unit "a" (line 7)`. A slave that no line begins is
/// told with that of its unit, and with its number where its station isn't its own.
#[derive(Clone, Copy)]
pub struct Named<'a>(pub Doc<'a>, pub usize, pub Option<usize>);

impl fmt::Display for Named<'_> {
    fn fmt<W: fmt::Write>(&self, f: &mut fmt::Formatter<W>) -> fmt::Result {
        let Named(doc, unit, slave) = *self;
        let line = header_line(doc, unit, slave);
        if let Some(index) = slave {
            let number = index.saturating_add(1);
            let spot = Spot {
                unit: Some(unit),
                slave,
            };
            match doc.table(spot).number(Key::Station) {
                Some(station) if line.is_none() && is_shared(doc, unit, station) => {
                    write!(f, "slave {station}, number {number} of ")?;
                }
                Some(station) => write!(f, "slave {station} of ")?,
                None => write!(f, "slave number {number} of ")?,
            }
        }
        match doc.unit(Some(unit)).text(Key::Name) {
            Some(name) => write!(f, "unit {}", Quoted(name))?,
            None => write!(f, "unit number {}", unit.saturating_add(1))?,
        }
        write!(
            f,
            "{}",
            AtLine(line.or_else(|| header_line(doc, unit, None)))
        )
    }
}

/// In which table something is: `In unit "a" (line 3): `.
#[derive(Clone, Copy)]
pub struct In<'a>(pub Doc<'a>, pub Spot);

impl fmt::Display for In<'_> {
    fn fmt<W: fmt::Write>(&self, f: &mut fmt::Formatter<W>) -> fmt::Result {
        let In(doc, spot) = *self;
        match spot.unit {
            Some(unit) => write!(f, "In {}: ", Named(doc, unit, spot.slave)),
            None => write!(f, "At the top of the file: "),
        }
    }
}

/// A key with its value: `period = 90`, or that it isn't there.
#[derive(Clone, Copy)]
pub struct Pair<'a>(pub Fields<'a>, pub Key);

impl fmt::Display for Pair<'_> {
    fn fmt<W: fmt::Write>(&self, f: &mut fmt::Formatter<W>) -> fmt::Result {
        let Pair(table, key) = *self;
        match table.value(key) {
            Some(value) => write!(f, "{key} = {}", Shown(value)),
            None => write!(f, "no {key}"),
        }
    }
}
