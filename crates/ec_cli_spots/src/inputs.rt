//! What a refused job had read, and the unit text as a table: its keys, the bytes and the periods of its units.

use ec_unit_text::{Key, Spot};
use std::alloc::Global;
use toml::de::Error;
use toml::{Table, Value};

/// What a refused job had before it. Any part may be missing or cut short: then less is told.
#[derive(Clone, Copy)]
pub struct Inputs<'a> {
    /// The bytes of the unit text, as far as they were kept.
    pub units: &'a [u8],
    /// The bytes of the certificate that was to be read.
    pub cert: Option<&'a [u8]>,
    /// The path of the certificate that was to be read.
    pub cert_path: Option<&'a str>,
    /// Why the system refused the path or the stream, in its words.
    pub reason: Option<&'a str>,
}

/// The keys and values of a table, if it is there.
#[derive(Clone, Copy)]
pub struct Fields<'a>(pub Option<&'a Table>);

impl<'a> Fields<'a> {
    /// Those of a value that is a table.
    pub fn of(value: &'a Value) -> Fields<'a> {
        Fields(value.as_table())
    }

    /// The value at a key, if both are there.
    pub fn value(self, key: Key) -> Option<&'a Value> {
        self.named(key.as_str())
    }

    /// The value at a word, which may be no key, if both are there.
    pub fn named(self, word: &str) -> Option<&'a Value> {
        self.0?.get(word)
    }

    /// Whether there is a value at a key.
    pub fn has(self, key: Key) -> bool {
        self.value(key).is_some()
    }

    /// The whole number at a key, if there is one.
    pub fn number(self, key: Key) -> Option<i64> {
        self.value(key)?.as_integer()
    }

    /// The text at a key, if there is one.
    pub fn text(self, key: Key) -> Option<&'a str> {
        self.value(key)?.as_str()
    }

    /// The values of the array at a key; none where there is no array.
    pub fn array(self, key: Key) -> &'a [Value] {
        match self.value(key) {
            Some(Value::Array(values)) => values.as_slice(),
            _ => &[],
        }
    }
}

/// The table that is this item of an array.
fn item(values: &[Value], index: Option<usize>) -> Fields<'_> {
    let value = index.and_then(|index| values.get(index));
    Fields(value.and_then(Value::as_table))
}

/// The unit text, the table that it is or why it isn't TOML, and what gives memory for more.
#[derive(Clone, Copy)]
pub struct Doc<'a> {
    pub alloc: Global,
    pub text: &'a str,
    pub top: Result<&'a Table, Error>,
}

impl<'a> Doc<'a> {
    /// A text, and the table that was read of it, if it is TOML.
    pub fn of(alloc: Global, text: &'a str, parsed: &'a Result<Table, Error>) -> Doc<'a> {
        Doc {
            alloc,
            text,
            top: parsed.as_ref().map_err(|error| *error),
        }
    }

    /// The table of the whole text.
    pub fn top(self) -> Fields<'a> {
        Fields(self.top.ok())
    }

    /// The items of the array `unit`.
    pub fn units(self) -> &'a [Value] {
        self.top().array(Key::Unit)
    }

    /// The table of a unit, numbered from 0.
    pub fn unit(self, unit: Option<usize>) -> Fields<'a> {
        item(self.units(), unit)
    }

    /// The items of the array `slave` of a unit, numbered from 0.
    pub fn slaves(self, unit: Option<usize>) -> &'a [Value] {
        self.unit(unit).array(Key::Slave)
    }

    /// The table at a spot.
    pub fn table(self, spot: Spot) -> Fields<'a> {
        match (spot.unit, spot.slave) {
            (Some(_), Some(_)) => item(self.slaves(spot.unit), spot.slave),
            (Some(_), None) => self.unit(spot.unit),
            (None, _) => self.top(),
        }
    }
}

/// The process bytes of a slave.
pub fn slave_bytes(slave: &Value) -> i128 {
    let slave = Fields::of(slave);
    let outputs = slave.number(Key::OutBytes).unwrap_or(0);
    let inputs = slave.number(Key::InBytes).unwrap_or(0);
    i128::from(outputs) + i128::from(inputs)
}

/// The process bytes of some slaves together.
pub fn bytes_of(slaves: &[Value]) -> i128 {
    slaves
        .iter()
        .map(slave_bytes)
        .fold(0i128, |sum, bytes| sum.saturating_add(bytes))
}

/// Whether some unit has a period.
pub fn has_period(units: &[Value], period: i64) -> bool {
    units.iter().any(|unit| Fields::of(unit).number(Key::Period) == Some(period))
}

/// How many times a count of ticks has to be taken to be a multiple of a period of at most 60.
fn times(ticks: u64, period: u64) -> u64 {
    let rest = ticks.checked_rem(period).unwrap_or(0);
    (1..61u64)
        .find(|count| rest.saturating_mul(*count).checked_rem(period) == Some(0))
        .unwrap_or(1)
}

/// Whether a count of ticks and a period of at most 60 have no common divisor but 1.
pub fn are_coprime(ticks: u64, period: u64) -> bool {
    times(ticks, period) == period
}

/// The least common multiple of the periods, if 64 bits hold it.
pub fn ticks_of(units: &[Value]) -> Option<u64> {
    let mut ticks = 1u64;
    for period in 1..61u64 {
        if has_period(units, period as i64) {
            ticks = ticks.checked_mul(times(ticks, period))?;
        }
    }
    Some(ticks)
}
