//! Unit texts that are written again with places.

use ec_unit_rewrite::{PlacingFault, place_text};
use ec_units::Place;
use std::alloc::{AllocError, Global};

/// Rows of three: the places, each a phase and a slot; the text; and what it becomes, or `Form` or `NotUnits`. Rows are
/// parted by `~`, and the three by `^`.
const ROWS: &str = "3 0^tick_ns = 1000
slots = 1
[[unit]]
name = \"a\"
period = 4
[[unit.slave]]
station = 1
out_bytes = 4
in_bytes = 0
^tick_ns = 1000
slots = 1
[[unit]]
name = \"a\"
period = 4
phase = 3
slot = 0
[[unit.slave]]
station = 1
out_bytes = 4
in_bytes = 0
~1 2,0 1^# a line
slots = 3 # three
tick_ns = 1000

 [[ unit ]] # the press
  period = 2 # often
  name = \"a\"
  # no place yet
[[unit.slave]]
station = 1
out_bytes = 4
in_bytes = 0

[[unit]]
slot=0# first
\t'phase'  =\t5 # near = far
\"period\" = 60
name = \"b\"
slave = [{station = 2, out_bytes = 0, in_bytes = 1}]
# the end^# a line
slots = 3 # three
tick_ns = 1000

 [[ unit ]] # the press
  period = 2 # often
  phase = 1
  slot = 2
  name = \"a\"
  # no place yet
[[unit.slave]]
station = 1
out_bytes = 4
in_bytes = 0

[[unit]]
slot=1# first
\t'phase'  =\t0 # near = far
\"period\" = 60
name = \"b\"
slave = [{station = 2, out_bytes = 0, in_bytes = 1}]
# the end~0 0^tick_ns = 1000\r
slots = 1\r
[[unit]]\r
name = \"a\"\r
[[unit.slave]]\r
station = 1\r
out_bytes = 4\r
in_bytes = 0\r
^NotUnits~2 0^tick_ns = 1000\r
slots = 1\r
[[unit]]\r
name = \"a\"\r
period = 3\r
[[unit.slave]]\r
station = 1\r
out_bytes = 4\r
in_bytes = 0\r
^tick_ns = 1000\r
slots = 1\r
[[unit]]\r
name = \"a\"\r
period = 3\r
phase = 2\r
slot = 0\r
[[unit.slave]]\r
station = 1\r
out_bytes = 4\r
in_bytes = 0\r
~1 0^tick_ns = 1000
slots = 1
[[unit]]
name = \"a\"
slave = [{station = 1, out_bytes = 4, in_bytes = 0}]
period = 3^tick_ns = 1000
slots = 1
[[unit]]
name = \"a\"
slave = [{station = 1, out_bytes = 4, in_bytes = 0}]
period = 3
phase = 1
slot = 0~3 0^tick_ns = 1000
slots = 1
[[unit]]
name = \"a\"
slave = [{station = 1, out_bytes = 4, in_bytes = 0}]
period = 3^Form~0 1^tick_ns = 1000
slots = 1
[[unit]]
name = \"a\"
slave = [{station = 1, out_bytes = 4, in_bytes = 0}]
period = 3^Form~0 0,0 0^tick_ns = 1000
slots = 1
[[unit]]
name = \"a\"
slave = [{station = 1, out_bytes = 4, in_bytes = 0}]
period = 3^Form~^tick_ns = 1000
slots = 1
[[unit]]
name = \"a\"
slave = [{station = 1, out_bytes = 4, in_bytes = 0}]
period = 3^Form~0 0^tick_ns = 1000
slots = 1
unit = [{name = \"a\", period = 3, slave = [{station = 1, out_bytes = 4, in_bytes = 0}]}]
^Form~0 0^tick_ns = 1000
slots = 1
[[\"unit\"]]
name = \"a\"
period = 3
slave = [{station = 1, out_bytes = 4, in_bytes = 0}]
^tick_ns = 1000
slots = 1
[[\"unit\"]]
name = \"a\"
period = 3
phase = 0
slot = 0
slave = [{station = 1, out_bytes = 4, in_bytes = 0}]
~0 0^tick_ns^NotUnits~0 0^^NotUnits";

/// The places of a row.
fn places_of(alloc: Global, text: &str) -> Result<Vec<Place>, AllocError> {
    let mut places = Vec::new(alloc);
    for pair in text.split(',') {
        let (phase, slot) = pair.split_once(' ').unwrap_or(("", ""));
        if let (Ok(phase), Ok(slot)) = (phase.parse::<u16>(), slot.parse::<u8>()) {
            places.push(Place { phase, slot })?;
        }
    }
    Ok(places)
}

/// What a text becomes with these places, or why it doesn't.
fn placed(alloc: Global, text: &str, places: &[Place]) -> Result<String, AllocError> {
    match place_text(alloc, text.as_bytes(), places) {
        Ok(text) => Ok(text),
        Err(PlacingFault::OutOfMemory) => Err(AllocError),
        Err(fault) => format!(in alloc; "{fault:?}"),
    }
}

/// A part of a row.
fn part_of(row: &str, at: usize) -> &str {
    row.split('^').nth(at).unwrap_or("no part")
}

/// What the text of a row becomes.
fn becomes(alloc: Global, row: &str) -> Result<String, AllocError> {
    let places = places_of(alloc, part_of(row, 0))?;
    placed(alloc, part_of(row, 1), places.as_slice())
}

#[test]
fn texts_with_their_places(rt: HostRuntime) -> Result<(), AllocError> {
    for row in ROWS.split('~') {
        let text = becomes(rt.alloc(), row)?;
        assert_eq!(rt; text.as_str(), part_of(row, 2), "{row}");
    }
    Ok(())
}
