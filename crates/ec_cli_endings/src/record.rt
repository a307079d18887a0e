//! What is kept of the units that a job reads.

use ec_unit_text::read_units;
use ec_units::Units;
use std::alloc::Global;
use std::io;

/// What was recorded of the units: their path if they have one, the front of what was read, whether anything was, and why their reading
/// failed.
#[derive(Clone, Copy)]
pub struct Record<'a> {
    pub path: Option<&'a str>,
    pub text: &'a [u8],
    /// Whether anything was read.
    pub came: bool,
    pub fault: Option<io::Error>,
}

impl Record<'_> {
    /// The units that the text says; none where it is refused, or memory is wanting.
    pub fn units(self, alloc: Global) -> Option<Units> {
        read_units(alloc, self.text).ok()
    }
}
