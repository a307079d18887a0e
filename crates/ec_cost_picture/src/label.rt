//! Text in the picture.

use ec_text_builder::{Amount, Draft};
use ec_wire::BYTE_NS;

/// Adds a time of so many ns in microseconds, with as many decimals as it needs.
pub(crate) fn add_micros(page: &mut Draft, ns: u64) {
    let whole = ns / 1000;
    let rest = ns % 1000;
    let (tenths, hundredths) = (rest / 100, rest / 10);
    if rest == 0 {
        page.add(format_args!("{whole}"));
    } else if rest == tenths * 100 {
        page.add(format_args!("{whole}.{tenths}"));
    } else if rest == hundredths * 10 {
        page.add(format_args!("{whole}.{hundredths:02}"));
    } else {
        page.add(format_args!("{whole}.{rest:03}"));
    }
    page.add(" \u{b5}s");
}

/// Adds how many bytes, and how long they take on the wire.
pub(crate) fn add_bytes(page: &mut Draft, bytes: u64) {
    page.add(format_args!("{}, ", Amount(bytes, "byte")));
    add_micros(page, bytes.saturating_mul(BYTE_NS));
}

/// Adds the begin of a line of text at a place, up to its words.
pub(crate) fn open_text(page: &mut Draft, class: &str, x: u64, y: u64) {
    page.add(format_args!("<text class=\"{class}\" x=\"{x}\" y=\"{y}\">"));
}

/// Adds a line of text, in which nothing is markup, at a place.
pub(crate) fn add_text(page: &mut Draft, class: &str, x: u64, y: u64, words: &str) {
    open_text(page, class, x, y);
    page.add(words);
    page.add("</text>\n");
}
