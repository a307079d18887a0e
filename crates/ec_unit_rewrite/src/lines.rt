//! The lines of a unit text, with the places of a plan.

use ec_units::{Place, Unit};
use std::alloc::{AllocError, Global};
use std::fmt::Write;

/// What a line of a unit's table says, as far as its place goes.
#[derive(Clone, Copy, PartialEq, Eq)]
enum Said {
    Period,
    Phase,
    Slot,
    Other,
}

/// What a line says.
fn said_by(line: &str) -> Said {
    let Some((key, _)) = line.split_once('=') else {
        return Said::Other;
    };
    match key.trim() {
        "period" | "\"period\"" | "'period'" => Said::Period,
        "phase" | "\"phase\"" | "'phase'" => Said::Phase,
        "slot" | "\"slot\"" | "'slot'" => Said::Slot,
        _ => Said::Other,
    }
}

/// Whether a line begins a table.
fn is_header(line: &str) -> bool {
    line.trim().starts_with('[')
}

/// Whether a line begins a unit.
fn is_unit_header(line: &str) -> bool {
    let Some(rest) = line.trim().strip_prefix("[[") else {
        return false;
    };
    match rest.split_once("]]") {
        Some((name, _)) => matches!(name.trim(), "unit" | "\"unit\"" | "'unit'"),
        None => false,
    }
}

/// Where a line stands.
#[derive(Clone, Copy)]
struct Spot {
    /// How many units have begun.
    units: usize,
    /// Whether the line is of the last unit's own table.
    inside: bool,
}

impl Spot {
    /// Where the next line stands after this one.
    fn after(self, line: &str) -> Spot {
        if !is_header(line) {
            return self;
        }
        if is_unit_header(line) {
            return Spot {
                units: self.units.saturating_add(1),
                inside: true,
            };
        }
        Spot {
            units: self.units,
            inside: false,
        }
    }

    /// The number of the unit whose own table the line is of.
    fn unit(self) -> Option<usize> {
        if self.inside {
            self.units.checked_sub(1)
        } else {
            None
        }
    }
}

/// Adds a line with another number behind its `=`; all else of it stays.
fn push_number(text: &mut String, line: &str, number: u16) -> Result<(), AllocError> {
    let Some((key, value)) = line.split_once('=') else {
        return text.push_str(line);
    };
    let bare = value.trim_start_matches([' ', '\t']);
    let blanks = value.strip_suffix(bare).unwrap_or("");
    let rest = bare.trim_start_matches(|c: char| !matches!(c, ' ' | '\t' | '#' | '\r'));
    write!(text, "{key}={blanks}{number}{rest}")
}

/// Adds the line of a period, and behind it lines of a place, with the same blanks before them and the same end.
fn push_place(text: &mut String, line: &str, place: Place) -> Result<(), AllocError> {
    let Place { phase, slot } = place;
    let key = line.trim_start_matches([' ', '\t']);
    let blanks = line.strip_suffix(key).unwrap_or("");
    let end = if line.ends_with('\r') { "\r" } else { "" };
    write!(
        text,
        "{line}\n{blanks}phase = {phase}{end}\n{blanks}slot = {slot}{end}"
    )
}

/// Adds a line of the table of a unit, which has a place or doesn't, with what is to be its place.
fn push_line(
    text: &mut String,
    line: &str,
    has_place: bool,
    place: Place,
) -> Result<(), AllocError> {
    match said_by(line) {
        Said::Phase => push_number(text, line, place.phase),
        Said::Slot => push_number(text, line, u16::from(place.slot)),
        Said::Period if !has_place => push_place(text, line, place),
        _ => text.push_str(line),
    }
}

/// The lines of a text of these units, with these places in the tables that lines `[[unit]]` begin.
pub(crate) fn placed_lines(
    alloc: Global,
    lines: &str,
    units: &[Unit],
    places: &[Place],
) -> Result<String, AllocError> {
    let mut text = String::new(alloc);
    let mut spot = Spot {
        units: 0,
        inside: false,
    };
    let mut is_first = true;
    for line in lines.split('\n') {
        if !is_first {
            text.push('\n')?;
        }
        is_first = false;
        spot = spot.after(line);
        let at = spot.unit().unwrap_or(usize::MAX);
        match (units.get(at), places.get(at)) {
            (Some(unit), Some(place)) => push_line(&mut text, line, unit.place.is_some(), *place)?,
            _ => text.push_str(line)?,
        }
    }
    Ok(text)
}
