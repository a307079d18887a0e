//! What is told of each fault of a unit text.

use crate::ranges::{
    SLAVE_BYTES, SLOTS, STATION, TICK, tell_area, tell_hyper, tell_period, tell_range,
};
use crate::{keys, missing, places, units};
use ec_cli_spots::Doc;
use ec_text_builder::Draft;
use ec_unit_text::{Spot, UnitFault};

/// Where the keys of no unit stand.
const TOP_TABLE: Spot = Spot {
    unit: None,
    slave: None,
};

/// Tells a fault of the unit text; where that isn't TOML, no more than that.
pub fn tell_units(out: &mut Draft, doc: Doc<'_>, fault: UnitFault) {
    match fault {
        UnitFault::OutOfMemory => out.add(
            "Memory ran out: nothing is said of the units. Run it with more memory; a search also with fewer nodes.\n",
        ),
        // `ec_cli_toml_hints` tells more of it, where that is asked first.
        UnitFault::NotToml => out.add("The file is not TOML.\n"),
        UnitFault::Missing(spot, key) => missing::tell_missing(out, doc, spot, key),
        UnitFault::WrongType(spot, key) => keys::tell_type(out, doc, spot, key),
        UnitFault::UnknownKey(spot) => keys::tell_unknown(out, doc, spot),
        UnitFault::NoUnits => out.add(
            "The file has no unit.\nEach unit is a table that begins with a line [[unit]], in double brackets.\n",
        ),
        UnitFault::TooManyUnits => out.add(format_args!(
            "The file has {} units, and a line has at most 48.\nNeighbours of one period can be one unit, with up to 8 slaves.\n",
            doc.units().len()
        )),
        UnitFault::BadName(spot) => units::tell_name(out, doc, spot),
        UnitFault::DuplicateName(spot) => units::tell_same_name(out, doc, spot),
        UnitFault::PeriodRange(spot) => tell_period(out, doc, spot),
        UnitFault::SlaveCount(spot) => units::tell_slaves(out, doc, spot),
        UnitFault::SlaveBytes(spot) => tell_range(out, doc, spot, SLAVE_BYTES),
        UnitFault::UnitTooBig(spot) => units::tell_bytes(out, doc, spot),
        UnitFault::StationRange(spot) => tell_range(out, doc, spot, STATION),
        UnitFault::DuplicateStation(spot) => units::tell_same_station(out, doc, spot),
        UnitFault::AreaRange(spot) => tell_area(out, doc, spot),
        UnitFault::HyperTooLong => tell_hyper(out, doc),
        UnitFault::SlotsRange => tell_range(out, doc, TOP_TABLE, SLOTS),
        UnitFault::TickRange => tell_range(out, doc, TOP_TABLE, TICK),
        UnitFault::PlaceRange(spot) => places::tell_range(out, doc, spot),
        UnitFault::PlaceHalf(spot) => places::tell_half(out, doc, spot),
    }
}
