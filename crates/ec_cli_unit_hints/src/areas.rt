//! Addresses of process bytes that a unit text doesn't give.

use ec_cli_spots::{Doc, Fields, Named};
use ec_text_builder::Draft;
use ec_unit_text::Key;
use std::alloc::{AllocError, Global};

/// Whether a slave has bytes by this key, and the address of their area isn't given.
fn lacks_area(slave: Fields<'_>, bytes: Key, area: Key) -> bool {
    slave.number(bytes).unwrap_or(0) > 0 && !slave.has(area)
}

/// The first slave of a unit that lacks an address.
fn first_in(doc: Doc<'_>, unit: usize) -> Option<usize> {
    let mut slaves = doc.slaves(Some(unit)).iter().map(Fields::of);
    slaves.position(|slave| lacks_area(slave, Key::OutBytes, Key::Area(false))
        || lacks_area(slave, Key::InBytes, Key::Area(true)))
}

/// The first slave of a line that lacks an address.
fn first_of(doc: Doc<'_>) -> Option<Named<'_>> {
    (0..doc.units().len()).find_map(|unit| {
        let slave = first_in(doc, unit)?;
        Some(Named(doc, unit, Some(slave)))
    })
}

/// What there is to tell of a unit text that was found right, and gives some slaves no `out_at` or `in_at`: where their bytes are taken to
/// lie. Only want of memory is an error (own profile).
pub fn unset_areas(alloc: Global, units: &[u8]) -> Result<String, AllocError> {
    let text = String::from_utf8_lossy(alloc, units)?;
    let parsed = toml::table_from_slice(alloc, units);
    let doc = Doc::of(alloc, text.as_str(), &parsed);
    let mut out = Draft::new(alloc);
    if let Some(first) = first_of(doc) {
        out.add(format_args!(
            "Some slaves have no out_at or no in_at: the first is {first}.\nOutputs are then taken to begin at 0x1000, inputs at 0x2000, where few devices have them.\nThe description of a device (ESI) has these addresses, as StartAddress of its sync managers.\n"
        ));
    }
    out.finish()
}
