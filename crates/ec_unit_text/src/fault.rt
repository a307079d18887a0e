//! What is wrong with a unit text, and where.

ghost use Rattle.std.specs.Prelude.{◌≡◌, Some};
ghost use Rattle.ec_unit_text.specs.FaultText.{key_text, index_text, spot_text, is_needed};
ghost use Rattle.ec_unit_text.specs.declared.fault.UnitFault.TheVariants.{OutOfMemory};

use std::alloc::{AllocError, AllocFailed};
use std::fmt;
use thiserror::Error;

/// A key of a unit text. `Area` is `in_at` where it carries true, else `out_at`.
#[derive(Clone, Copy, Debug, PartialEq, Eq)]
pub enum Key {
    TickNs,
    Slots,
    Unit,
    Name,
    Period,
    Slave,
    Phase,
    Slot,
    Station,
    OutBytes,
    InBytes,
    Area(bool),
}

impl Key {
    /// The key as it stands in a text.
    #[tactic(auto, unfolding(crate::specs::FaultText::key_text))]
    pub fn as_str(self) -> &'static str
        ensures { result.now ≡ key_text self }
    {
        match self {
            Key::TickNs => "tick_ns",
            Key::Slots => "slots",
            Key::Unit => "unit",
            Key::Name => "name",
            Key::Period => "period",
            Key::Slave => "slave",
            Key::Phase => "phase",
            Key::Slot => "slot",
            Key::Station => "station",
            Key::OutBytes => "out_bytes",
            Key::InBytes => "in_bytes",
            Key::Area(false) => "out_at",
            Key::Area(true) => "in_at",
        }
    }

    /// Whether a table that may hold the key must hold it.
    pub fn is_needed(self) -> bool
        ensures { result ≡ is_needed self }
    {
        match self {
            Key::TickNs | Key::Slots | Key::Name | Key::Period => true,
            Key::Station | Key::OutBytes | Key::InBytes => true,
            Key::Unit | Key::Slave | Key::Phase | Key::Slot | Key::Area(_) => false,
        }
    }
}

impl fmt::Display for Key {
    ghost output = { λ k. Some (key_text k) };

    fn fmt<W: fmt::Write>(&self, f: &mut fmt::Formatter<W>) -> fmt::Result {
        let key = self.as_str();
        write!(f, "{key}")
    }
}

/// A number, or `-` for none.
#[derive(Drop)]
struct Index(Option<usize>);

impl fmt::Display for Index {
    ghost output = { λ i. Some (index_text i.0) };

    fn fmt<W: fmt::Write>(&self, f: &mut fmt::Formatter<W>) -> fmt::Result {
        match self.0 {
            Some(number) => write!(f, "{number}"),
            None => write!(f, "-"),
        }
    }
}

/// A table of a unit text: the top table, where both numbers are missing, a unit, or a slave of a unit.
/// Units are numbered from 0 in file order, and so are the slaves of each unit.
#[derive(Clone, Copy, Debug, PartialEq, Eq)]
pub struct Spot {
    pub unit: Option<usize>,
    pub slave: Option<usize>,
}

impl fmt::Display for Spot {
    ghost output = { λ s. Some (spot_text s) };

    fn fmt<W: fmt::Write>(&self, f: &mut fmt::Formatter<W>) -> fmt::Result {
        let unit = Index(self.unit);
        let slave = Index(self.slave);
        write!(f, "{unit} {slave}")
    }
}

/// What is wrong with a unit text. Their order is that of the faults' numbers, from U1 to U21.
#[derive(Clone, Copy, Debug, PartialEq, Eq, Error)]
pub enum UnitFault {
    #[error("out of memory")]
    OutOfMemory,
    #[error("not TOML")]
    NotToml,
    #[error("{1} is missing at {0}")]
    Missing(Spot, Key),
    #[error("{1} has the wrong type at {0}")]
    WrongType(Spot, Key),
    #[error("unknown key at {0}")]
    UnknownKey(Spot),
    #[error("no units")]
    NoUnits,
    #[error("more than 48 units")]
    TooManyUnits,
    #[error("not a name at {0}")]
    BadName(Spot),
    #[error("an earlier unit has the name at {0}")]
    DuplicateName(Spot),
    #[error("period not 1 to 60 at {0}")]
    PeriodRange(Spot),
    #[error("not 1 to 8 slaves at {0}")]
    SlaveCount(Spot),
    #[error("bytes negative or both 0 at {0}")]
    SlaveBytes(Spot),
    #[error("more than 1486 bytes at {0}")]
    UnitTooBig(Spot),
    #[error("station not 1 to 65535 at {0}")]
    StationRange(Spot),
    #[error("an earlier slave has the station at {0}")]
    DuplicateStation(Spot),
    #[error("areas out of range or overlapping at {0}")]
    AreaRange(Spot),
    #[error("hyperperiod above 1024 ticks")]
    HyperTooLong,
    #[error("slots not 1 to 8")]
    SlotsRange,
    #[error("tick_ns not 80 to 1000000000")]
    TickRange,
    #[error("phase or slot out of range at {0}")]
    PlaceRange(Spot),
    #[error("phase without slot, or slot without phase, at {0}")]
    PlaceHalf(Spot),
}

impl From<AllocError> for UnitFault {
    ghost from_gives = { λ _ e. e ≡ OutOfMemory };

    fn from(_e: AllocError) -> UnitFault {
        UnitFault::OutOfMemory
    }
}

impl<T: Drop> From<AllocFailed<T>> for UnitFault {
    ghost from_gives = { λ _ e. e ≡ OutOfMemory };

    fn from(_e: AllocFailed<T>) -> UnitFault {
        UnitFault::OutOfMemory
    }
}
