//! A text that isn't one of units, and what it is.

use ec_cli_spots::made_text;
use ec_text_builder::Draft;

/// Whether a text has one NUL in each of its first four pairs of bytes, as one in UTF-16 has whose letters are plain.
fn is_wide(text: &str) -> bool {
    let front = text.as_bytes().get(..8).unwrap_or(&[]);
    !front.is_empty()
        && front
            .chunks_exact(2)
            .all(|pair| (pair[0] == 0) != (pair[1] == 0))
}

/// What a text is that isn't one of units, as far as that is seen.
pub(crate) fn kind_of(text: &str) -> Option<&'static str> {
    if let Some(made) = made_text(text.as_bytes()) {
        return Some(made);
    }
    let version = text.strip_prefix("ecplan ").unwrap_or("");
    let front = text.trim_start_matches('\u{feff}').trim_start();
    let kind = if version.starts_with(|letter: char| letter.is_ascii_digit()) {
        "It is a certificate, and the file of the units is wanted here. A command that reads a certificate takes it behind --cert.\n"
    } else if front.contains("<EtherCATInfo") {
        "It is a device description (ESI). Have the engineering tool export the network (ENI), of which tools/units-from-eni of the sources makes a unit text.\n"
    } else if front.starts_with("<?xml") || front.starts_with("<EtherCAT") {
        "It is XML. Of the network description (ENI) of an engineering tool tools/units-from-eni of the sources makes a unit text.\n"
    } else if front.starts_with("{\\rtf") {
        "It is a text with formats: save it as plain text.\n"
    } else if is_wide(text) {
        "The file is UTF-16: save it as plain text in UTF-8.\n"
    } else if text.contains('\r') && !text.contains('\n') {
        "Its lines end with a carriage return alone: save it with line feeds.\n"
    } else {
        return None;
    };
    Some(kind)
}

/// Tells that a text, which begins so, is too large for one of units, and what it is where that is seen.
pub fn tell_large(out: &mut Draft, text: &str) {
    out.add("The unit text is too large: at most 1048576 bytes are read.");
    match kind_of(text) {
        Some(kind) => out.add(format_args!("\n{kind}")),
        None => out.add(" Is it the right file?\n"),
    }
}
