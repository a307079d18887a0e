//! What is looked for in a unit text.

/// A fault that a table has for itself, in the order of the faults' numbers. The hyperperiod isn't one: it
/// stands between `AreaRange` and `SlotsRange`.
#[derive(Clone, Copy, Debug, PartialEq, Eq)]
pub enum Rule {
    Missing,
    WrongType,
    UnknownKey,
    NoUnits,
    TooManyUnits,
    BadName,
    DuplicateName,
    PeriodRange,
    SlaveCount,
    SlaveBytes,
    UnitTooBig,
    StationRange,
    DuplicateStation,
    AreaRange,
    SlotsRange,
    TickRange,
    PlaceRange,
    PlaceHalf,
}
