//! Where the tables of a unit text begin.

use crate::inputs::Doc;

/// The name in the double brackets of a line, if that is `unit` or `unit.slave`.
pub fn header_of(line: &str) -> Option<&str> {
    let rest = line.trim().strip_prefix("[[")?;
    let (name, _) = rest.split_once("]]")?;
    Some(name.trim()).filter(|name| matches!(*name, "unit" | "unit.slave"))
}

/// The name in a header, or the key of a line.
pub fn name_of(line: &str) -> &str {
    let line = line.trim().trim_start_matches('[');
    line.split(['=', ']']).next().unwrap_or("").trim()
}

/// The first line, from 1, that gives a key of the top its value: `key = value` above all headers, or a header with its name.
pub fn line_named(doc: Doc<'_>, name: &str) -> Option<usize> {
    let mut is_top = true;
    for (index, line) in doc.text.lines().enumerate() {
        let is_header = line.trim_start().starts_with('[');
        is_top = is_top && !is_header;
        if (is_top || is_header) && name_of(line) == name {
            return Some(index.saturating_add(1));
        }
    }
    None
}

/// The first line, from 1, that begins a table within a key of the top, as `[[units.slave]]` does within `units`.
pub fn line_within(doc: Doc<'_>, name: &str) -> Option<usize> {
    for (index, line) in doc.text.lines().enumerate() {
        let rest = name_of(line).strip_prefix(name).unwrap_or("");
        if line.trim_start().starts_with('[') && rest.trim_start().starts_with('.') {
            return Some(index.saturating_add(1));
        }
    }
    None
}

/// The line, from 1, at which the table of a unit begins, or of a slave of it, both numbered from 0. None where the units aren't
/// all begun by such lines, or the unit's slaves.
pub fn header_line(doc: Doc<'_>, unit: usize, slave: Option<usize>) -> Option<usize> {
    let sought = (
        unit.saturating_add(1),
        slave.map_or(0, |slave| slave.saturating_add(1)),
    );
    let (mut units, mut slaves) = (0usize, 0usize);
    let mut found = None;
    for (index, line) in doc.text.lines().enumerate() {
        match header_of(line) {
            Some("unit") => units = units.saturating_add(1),
            Some(_) if units == sought.0 => slaves = slaves.saturating_add(1),
            _ => continue,
        }
        if (units, slaves) == sought {
            found = Some(index.saturating_add(1));
        }
    }
    let is_whole = slave.is_none() || slaves == doc.slaves(Some(unit)).len();
    found.filter(|_| is_whole && units == doc.units().len())
}
