//! Which keys the tables of a unit text have.

use ec_unit_text::{Key, Spot};

/// A kind of table of a unit text, by its keys.
#[derive(Clone, Copy)]
pub struct Kind {
    pub keys: &'static [Key],
    /// What its keys are, as a line.
    pub told: &'static str,
    /// Where one of its keys belongs, as a line.
    pub astray: &'static str,
}

/// The table of the whole text.
pub const TOP: Kind = Kind {
    keys: &[Key::TickNs, Key::Slots, Key::Unit],
    told: "The keys at the top of the file are tick_ns, slots and unit.\n",
    astray: "It stands at the top of the file, above the first [[unit]].\n",
};

/// The table of a unit.
pub const UNIT: Kind = Kind {
    keys: &[Key::Name, Key::Period, Key::Slave, Key::Phase, Key::Slot],
    told: "The keys of a unit are name, period, slave, phase and slot.\n",
    astray: "It is a key of a unit, between its line [[unit]] and its first [[unit.slave]].\n",
};

/// The table of a slave.
pub const SLAVE: Kind = Kind {
    keys: &[
        Key::Station,
        Key::OutBytes,
        Key::InBytes,
        Key::Area(false),
        Key::Area(true),
    ],
    told: "The keys of a slave are station, out_bytes, in_bytes, out_at and in_at.\n",
    astray: "It is a key of a slave, below a line [[unit.slave]].\n",
};

impl Kind {
    /// That of the table at a spot.
    pub fn at(spot: Spot) -> Kind {
        match (spot.unit, spot.slave) {
            (Some(_), Some(_)) => SLAVE,
            (Some(_), None) => UNIT,
            (None, _) => TOP,
        }
    }

    /// Whether a word is a key of such a table.
    pub fn has(self, word: &str) -> bool {
        self.keys.iter().any(|key| word == key.as_str())
    }
}
