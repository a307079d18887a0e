//! Cells of the page's tables.

use ec_text_builder::Draft;
use ec_wire::BYTE_NS;
use std::fmt::Display;

/// Adds a cell of a number.
pub(crate) fn add_number<D: Display + Drop>(page: &mut Draft, number: D) {
    page.add(format_args!("<td class=\"number\">{number}</td>"));
}

/// Adds a cell of so many rows with a number.
pub(crate) fn add_tall_number<D: Display + Drop>(page: &mut Draft, rows: usize, number: D) {
    page.add(format_args!("<td class=\"number\" rowspan=\"{rows}\">{number}</td>"));
}

/// The time that so many bytes take on the wire, in ns.
pub(crate) fn time_of(bytes: u64) -> u64 {
    bytes.saturating_mul(BYTE_NS)
}
