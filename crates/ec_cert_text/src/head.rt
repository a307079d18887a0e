//! The lines before the tree.

ghost use Rattle.std.specs.Prelude.{◌≡◌, ℕ, ◌<◌, ◌≤◌, ◌++◌, true, length, IfOk, ◌+◌};
ghost use Rattle.std.specs.Option.{option_map};
ghost use Rattle.ec_units.specs.Names.{is_name as is_name_spec};
ghost use Rattle.ec_cert_text.specs.Reading.{Gives, with_front, ok_map, slots_in as slots_in_spec, slots_at, unit_in as unit_in_spec, unit_at, first_unit_at, units_from, units_at, place_in as place_in_spec, place_at, many_from, value_in as value_in_spec, best_at, level_in as level_in_spec, level_line_at, level_or_none_in as level_or_none_in_spec, level_or_none_at, level_at, start_at};
ghost use Rattle.ec_cert_text.specs.Views.{at_view, unit_view};

use crate::fault::CertFault;
use crate::lines::{fault_on, line_of};
use crate::place::TextPlace;
use crate::words::{Wrong, cut_at, number, pair};
use ec_cert::{Best, UnitLine, UnitLines};
use ec_loads::{Places, Plan};
use ec_units::{Name, Place, is_name};
use std::alloc::{AllocError, Global};
use std::str;

/// How many lines of units may follow the first.
const MORE_UNITS: u32 = 47;

#[tactic(auto, unfolding(crate::specs::Reading::slots_in))]
fn slots_in(line: &[u8]) -> Result<u32, Wrong>
    ensures value { result ≡ slots_in_spec line.now }
    ensures range { IfOk result (λ n. n ≤ 8) }
{
    if line.starts_with(b"slots ") {
        return number(1, 8, &line[6..]);
    }
    Err(Wrong::Words)
}

/// The slot count.
#[tactic(auto, unfolding(crate::specs::Reading::slots_at))]
pub(crate) fn slots_of(place: TextPlace<'_>) -> Result<(u8, TextPlace<'_>), CertFault>
    ensures { Gives (λ x. (x.0, at_view x.1)) result (slots_at (at_view place.entry)) }
{
    let (line, rest) = line_of(place)?;
    match slots_in(line) {
        Ok(slots) => Ok((slots as u8, rest)),
        Err(wrong) => Err(fault_on(place.line, wrong)),
    }
}

/// The name, the bytes and the period that the line of a unit has.
#[tactic(auto, unfolding(crate::specs::Reading::unit_in))]
fn unit_in(line: &[u8]) -> Result<(&[u8], u32, u32), Wrong>
    ensures value { unit_in_spec line.now ≡ ok_map (λ x. unit_view x.0.now x.1 x.2) result }
    ensures name { IfOk result (λ x. is_name_spec x.0.now ≡ true) }
    ensures range { IfOk result (λ x. (x.1 ≤ 1486) × (x.2 ≤ 60)) }
{
    if !line.starts_with(b"unit ") {
        return Err(Wrong::Words);
    }
    match cut_at(b' ', &line[5..]) {
        Some((name, numbers)) if is_name(name) => {
            let (bytes, period) = pair(1, (1486, 60), numbers)?;
            Ok((name, bytes, period))
        }
        _ => Err(Wrong::Words),
    }
}

fn name_of(alloc: Global, bytes: &[u8]) -> Result<Name, AllocError>
    requires { is_name_spec bytes.now ≡ true }
    ensures { IfOk result (λ name. name ≡ bytes.now) }
{
    match str::from_utf8(bytes) {
        Ok(text) => Ok(Name::new(String::from_str(alloc, text)?)),
        Err(_) => unreachable!(),
    }
}

#[tactic(auto, unfolding(crate::specs::Reading::unit_at))]
fn unit_of(alloc: Global, place: TextPlace<'_>) -> Result<(UnitLine, TextPlace<'_>), CertFault>
    ensures { Gives (λ x. (x.0, at_view x.1)) result (unit_at (at_view place.entry)) }
{
    let (line, rest) = line_of(place)?;
    match unit_in(line) {
        Ok((name, bytes, period)) => {
            let name = name_of(alloc, name)?;
            let unit = UnitLine {
                name,
                bytes: bytes as u16,
                period: period as u16,
            };
            Ok((unit, rest))
        }
        Err(wrong) => Err(fault_on(place.line, wrong)),
    }
}

#[tactic(auto, unfolding(crate::specs::Reading::first_unit_at))]
fn first_unit_of(
    alloc: Global,
    place: TextPlace<'_>,
) -> Result<(Vec<UnitLine>, TextPlace<'_>), CertFault>
    ensures exact { Gives (λ x. (x.0.items, at_view x.1)) result (first_unit_at (at_view place.entry)) }
    ensures count { IfOk result (λ x. length x.0.items ≡ 1) }
{
    let (unit, rest) = unit_of(alloc, place)?;
    let mut units = Vec::new(alloc);
    units.push(unit)?;
    Ok((units, rest))
}

/// These units, and those of so many lines more at most.
fn more_units_of(
    alloc: Global,
    first: Vec<UnitLine>,
    more: u32,
    place: TextPlace<'_>,
) -> Result<(Vec<UnitLine>, TextPlace<'_>), CertFault>
    requires one { length first.items ≡ 1 }
    requires few { more ≤ 47 }
    ensures exact { Gives (λ x. (x.0.items, at_view x.1)) result (with_front first.items (units_from more (at_view place.entry))) }
    ensures count { IfOk result (λ x. (1 ≤ length x.0.items) × (length x.0.items ≤ 48)) }
{
    let mut units = first;
    let mut rest = place;
    'units: for _ in 0..more {
        if !rest.rest.starts_with(b"unit ") {
            return Ok((units, rest));
        }
        let (unit, after) = unit_of(alloc, rest)?;
        units.push(unit)?;
        rest = after;
    }
    Ok((units, rest))
}

/// The units, of which there are 1 to 48.
#[tactic(auto, unfolding(crate::specs::Reading::units_at))]
pub(crate) fn units_of(
    alloc: Global,
    place: TextPlace<'_>,
) -> Result<(UnitLines, TextPlace<'_>), CertFault>
    ensures exact { Gives (λ x. (x.0, at_view x.1)) result (units_at (at_view place.entry)) }
    ensures count { IfOk result (λ x. (1 ≤ length x.0) × (length x.0 ≤ 48)) }
{
    let (first, rest) = first_unit_of(alloc, place)?;
    let (units, rest) = more_units_of(alloc, first, MORE_UNITS, rest)?;
    Ok((UnitLines::new(units), rest))
}

#[tactic(auto, unfolding(crate::specs::Reading::place_in))]
fn place_in(line: &[u8]) -> Result<Place, Wrong>
    ensures { result ≡ place_in_spec line.now }
{
    if !line.starts_with(b"place ") {
        return Err(Wrong::Words);
    }
    let (phase, slot) = pair(0, (59, 7), &line[6..])?;
    Ok(Place {
        phase: phase as u16,
        slot: slot as u8,
    })
}

#[tactic(auto, unfolding(crate::specs::Reading::place_at))]
fn place_of(place: TextPlace<'_>) -> Result<(Place, TextPlace<'_>), CertFault>
    ensures { Gives (λ x. (x.0, at_view x.1)) result (place_at (at_view place.entry)) }
{
    let (line, rest) = line_of(place)?;
    match place_in(line) {
        Ok(given) => Ok((given, rest)),
        Err(wrong) => Err(fault_on(place.line, wrong)),
    }
}

fn places_of(
    alloc: Global,
    count: u8,
    place: TextPlace<'_>,
) -> Result<(Places, TextPlace<'_>), CertFault>
    ensures { Gives (λ x. (x.0, at_view x.1)) result (many_from place_at count (at_view place.entry)) }
{
    let mut places = Vec::new(alloc);
    let mut rest = place;
    'places: for _ in 0..count {
        let (given, after) = place_of(rest)?;
        places.push(given)?;
        rest = after;
    }
    Ok((Places::new(places), rest))
}

#[tactic(auto, unfolding(crate::specs::Reading::value_in))]
fn value_in(line: &[u8]) -> Result<u32, Wrong>
    ensures { result ≡ value_in_spec line.now }
{
    if line.starts_with(b"value ") {
        return number(84, 12304, &line[6..]);
    }
    Err(Wrong::Words)
}

/// No value, or a value and a place for each of so many units.
#[tactic(auto, unfolding(crate::specs::Reading::best_at))]
pub(crate) fn best_of(
    alloc: Global,
    units: u8,
    place: TextPlace<'_>,
) -> Result<(Option<Best>, TextPlace<'_>), CertFault>
    ensures { Gives (λ x. (x.0, at_view x.1)) result (best_at units (at_view place.entry)) }
{
    let (line, rest) = line_of(place)?;
    if line == b"value none".as_slice() {
        return Ok((None, rest));
    }
    match value_in(line) {
        Ok(value) => {
            let (places, rest) = places_of(alloc, units, rest)?;
            let best = Best {
                busiest: u64::from(value),
                plan: Plan { places },
            };
            Ok((Some(best), rest))
        }
        Err(wrong) => Err(fault_on(place.line, wrong)),
    }
}

#[tactic(auto, unfolding(crate::specs::Reading::level_in))]
fn level_in(line: &[u8]) -> Result<u32, Wrong>
    ensures { result ≡ level_in_spec line.now }
{
    if line.starts_with(b"level ") {
        return number(0, 12304, &line[6..]);
    }
    Err(Wrong::Words)
}

#[tactic(auto, unfolding(crate::specs::Reading::level_line_at))]
fn level_line_of(place: TextPlace<'_>) -> Result<(u64, TextPlace<'_>), CertFault>
    ensures { Gives (λ x. (x.0, at_view x.1)) result (level_line_at (at_view place.entry)) }
{
    let (line, rest) = line_of(place)?;
    match level_in(line) {
        Ok(level) => Ok((u64::from(level), rest)),
        Err(wrong) => Err(fault_on(place.line, wrong)),
    }
}

/// A level, or that there is none.
#[tactic(auto, unfolding(crate::specs::Reading::level_or_none_in))]
fn level_or_none_in(line: &[u8]) -> Result<Option<u64>, Wrong>
    ensures { result ≡ level_or_none_in_spec line.now }
{
    if line == b"level none".as_slice() {
        return Ok(None);
    }
    let level = level_in(line)?;
    Ok(Some(u64::from(level)))
}

#[tactic(auto, unfolding(crate::specs::Reading::level_or_none_at))]
fn level_or_none_of(place: TextPlace<'_>) -> Result<(Option<u64>, TextPlace<'_>), CertFault>
    ensures { Gives (λ x. (x.0, at_view x.1)) result (level_or_none_at (at_view place.entry)) }
{
    let (line, rest) = line_of(place)?;
    match level_or_none_in(line) {
        Ok(level) => Ok((level, rest)),
        Err(wrong) => Err(fault_on(place.line, wrong)),
    }
}

/// The level in wire bytes, which texts of version 3 have, and those from version 4 on may have.
#[tactic(auto, unfolding(crate::specs::Reading::level_at))]
pub(crate) fn level_of(
    version: u8,
    place: TextPlace<'_>,
) -> Result<(Option<u64>, TextPlace<'_>), CertFault>
    ensures { Gives (λ x. (x.0, at_view x.1)) result (level_at version (at_view place.entry)) }
{
    if 4 <= version {
        return level_or_none_of(place);
    }
    if 3 <= version {
        let (level, rest) = level_line_of(place)?;
        return Ok((Some(level), rest));
    }
    Ok((None, place))
}

/// The place after the line before the tree.
#[tactic(auto, unfolding(crate::specs::Reading::start_at))]
pub(crate) fn start_of(place: TextPlace<'_>) -> Result<TextPlace<'_>, CertFault>
    ensures { Gives (λ x. at_view x) result (start_at (at_view place.entry)) }
{
    let (line, rest) = line_of(place)?;
    if line == b"tree".as_slice() {
        return Ok(rest);
    }
    Err(CertFault::BadLine(place.line))
}
