//! The words of a line that refuses.

use ec_unit_text::{Key, Spot};

/// Each key of a unit text.
const KEYS: [Key; 13] = [
    Key::TickNs,
    Key::Slots,
    Key::Unit,
    Key::Name,
    Key::Period,
    Key::Slave,
    Key::Phase,
    Key::Slot,
    Key::Station,
    Key::OutBytes,
    Key::InBytes,
    Key::Area(false),
    Key::Area(true),
];

/// A line that refuses, `refused CODE NAME` and its fields, each after one space. A number that isn't there is read as 0,
/// a key as `unit`.
#[derive(Clone, Copy)]
pub(crate) struct Words<'a> {
    pub line: &'a str,
}

impl<'a> Words<'a> {
    /// A word of the line, from 0; empty where it has fewer.
    pub(crate) fn word(self, at: usize) -> &'a str {
        match self.line.split_whitespace().nth(at) {
            Some(word) => word,
            None => "",
        }
    }

    /// The number that a word is.
    pub(crate) fn number(self, at: usize) -> usize {
        self.word(at).parse::<usize>().unwrap_or(0)
    }

    /// The number of 32 bits that a word is.
    pub(crate) fn long(self, at: usize) -> u32 {
        self.word(at).parse::<u32>().unwrap_or(0)
    }

    /// The number of 16 bits that a word is.
    pub(crate) fn short(self, at: usize) -> u16 {
        self.word(at).parse::<u16>().unwrap_or(0)
    }

    /// The number of 8 bits that a word is.
    pub(crate) fn byte(self, at: usize) -> u8 {
        self.word(at).parse::<u8>().unwrap_or(0)
    }

    /// The table of the unit text that a fault of it names.
    pub(crate) fn spot(self) -> Spot {
        Spot {
            unit: self.word(3).parse::<usize>().ok(),
            slave: self.word(4).parse::<usize>().ok(),
        }
    }

    /// The key that a fault of a unit text names.
    pub(crate) fn key(self) -> Key {
        let word = self.word(5);
        for key in &KEYS {
            if key.as_str() == word {
                return *key;
            }
        }
        Key::Unit
    }
}
