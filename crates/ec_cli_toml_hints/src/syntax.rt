//! A unit text that isn't TOML: where its reader stopped, and what was likely meant.

use crate::mixed::add_mixed;
use crate::others::kind_of;
use crate::slips::{Stop, add_likely};
use ec_cli_spots::{Bytes, Front, MOST_OF_LINE, line_at, position_of};
use ec_text_builder::Draft;
use toml::de::Error;

/// Adds what was likely meant where the reader stopped with a message behind so many bytes, at a line, from 0.
fn add_hint(out: &mut Draft, text: &str, line: usize, count: usize, message: &str) {
    if let Some(kind) = kind_of(text) {
        return out.add(kind);
    }
    let behind = text.get(count..).unwrap_or("");
    let stop = Stop {
        line: text.split('\n').nth(line).unwrap_or(""),
        rest: behind.split('\n').next().unwrap_or(""),
        before: text.get(..count).unwrap_or(""),
        message,
    };
    if !add_mixed(out, text, line, stop) {
        add_likely(out, stop);
    }
}

/// Adds a line as it stands, of a long one the part about a column, from 1.
fn add_excerpt(out: &mut Draft, line: &str, column: usize) {
    let skipped = if column <= MOST_OF_LINE {
        0
    } else {
        column.saturating_sub(MOST_OF_LINE / 2)
    };
    let begun = line.char_indices().nth(skipped);
    let from = begun.map_or(line.len(), |(index, _)| index);
    let dots = if skipped > 0 { "..." } else { "" };
    let rest = line.get(from..).unwrap_or("");
    out.add(format_args!("    {dots}{}\n", Front(rest, MOST_OF_LINE, true)));
}

/// The same of a line that isn't UTF-8.
fn add_bytes(out: &mut Draft, line: &[u8], column: usize) {
    if line.len() <= MOST_OF_LINE || column <= MOST_OF_LINE {
        return out.add(format_args!("    {}\n", Bytes(line, MOST_OF_LINE)));
    }
    let from = column.saturating_sub(MOST_OF_LINE / 2).min(line.len());
    out.add(format_args!("    ...{}\n", Bytes(&line[from..], MOST_OF_LINE)));
}

/// Tells that the file isn't TOML, and if it is known where its reader stopped: the line, the column and why, the line's text, and
/// what was likely meant.
pub fn tell_not_toml(out: &mut Draft, text: &[u8], error: Option<Error>) {
    let Some((error, span)) = error.and_then(|error| error.span().map(|span| (error, span))) else {
        return out.add("The file is not TOML.\n");
    };
    let (line, column) = position_of(text, span.start);
    out.add(format_args!(
        "The file is not TOML: line {line}, column {column}: {}.\n",
        Bytes(error.message().as_bytes(), 100)
    ));
    let line = line.saturating_sub(1);
    let Some(bytes) = line_at(text, line).map(|bytes| bytes.trim_ascii_end()) else {
        return;
    };
    match std::str::from_utf8(bytes) {
        Ok(shown) => add_excerpt(out, shown, column),
        Err(_) => add_bytes(out, bytes, column),
    }
    match std::str::from_utf8(text) {
        Ok(text) => add_hint(out, text, line, span.start, error.message()),
        Err(_) => out.add("The file is not UTF-8: save it as plain text in UTF-8.\n"),
    }
}
