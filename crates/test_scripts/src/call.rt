//! The words of a call.

use ec_loads::Pair;
use ec_text_builder::Draft;
use ec_units::Place;
use std::alloc::Global;

/// A call: its text, whose first word is its name, and whether the word `strongly` stood before it.
#[derive(Clone, Copy)]
pub(crate) struct Call<'a> {
    text: &'a str,
    strong: bool,
}

/// A place: its phase and its slot, with a comma between them.
pub(crate) fn place_of(word: &str) -> Option<Place> {
    let (phase, slot) = word.split_once(',').unwrap_or((word, ""));
    let (Ok(phase), Ok(slot)) = (phase.parse::<u16>(), slot.parse::<u8>()) else {
        return None;
    };
    Some(Place { phase, slot })
}

/// A pair: its count and its room, with a comma between them.
fn pair_of(word: &str) -> Option<Pair> {
    let (count, room) = word.split_once(',').unwrap_or((word, ""));
    let (Ok(count), Ok(room)) = (count.parse::<u16>(), room.parse::<u16>()) else {
        return None;
    };
    Some(Pair { count, room })
}

impl<'a> Call<'a> {
    pub(crate) fn of(text: &'a str) -> Call<'a> {
        match text.strip_prefix("strongly ") {
            Some(text) => Call { text, strong: true },
            None => Call {
                text,
                strong: false,
            },
        }
    }

    /// Whether searches are to go by the strong rules.
    pub(crate) fn is_strong(self) -> bool {
        self.strong
    }

    /// A word, or none.
    pub(crate) fn word(self, at: usize) -> &'a str {
        self.text.split_whitespace().nth(at).unwrap_or("")
    }

    /// The name.
    pub(crate) fn name(self) -> &'a str {
        self.word(0)
    }

    /// The number that a word is, if it is one.
    pub(crate) fn number(self, at: usize) -> Option<u64> {
        self.word(at).parse::<u64>().ok()
    }

    /// The same, where 0 stands for none.
    pub(crate) fn count(self, at: usize) -> u32 {
        self.word(at).parse::<u32>().unwrap_or(0)
    }

    pub(crate) fn short(self, at: usize) -> u16 {
        self.word(at).parse::<u16>().unwrap_or(0)
    }

    pub(crate) fn small(self, at: usize) -> u8 {
        self.word(at).parse::<u8>().unwrap_or(0)
    }

    pub(crate) fn index(self, at: usize) -> usize {
        self.word(at).parse::<usize>().unwrap_or(usize::MAX)
    }

    /// The places that the words from this one on are, up to the first that is none. Want of memory is noted in the
    /// answer.
    pub(crate) fn places(self, alloc: Global, from: usize, out: &mut Draft) -> Vec<Place> {
        let mut places = Vec::new(alloc);
        for word in self.text.split_whitespace().skip(from) {
            match place_of(word) {
                Some(place) => note(places.push(place).is_ok(), out),
                None => break,
            }
        }
        places
    }

    /// The numbers that the words from this one on are, up to the first that is none. Want of memory is noted in the
    /// answer.
    pub(crate) fn weights(self, alloc: Global, from: usize, out: &mut Draft) -> Vec<u16> {
        let mut weights = Vec::new(alloc);
        for word in self.text.split_whitespace().skip(from) {
            match word.parse::<u16>() {
                Ok(weight) => note(weights.push(weight).is_ok(), out),
                Err(_) => break,
            }
        }
        weights
    }

    /// The pairs that the words from this one on are, up to the first that is none. Want of memory is noted in the
    /// answer.
    pub(crate) fn pairs(self, alloc: Global, from: usize, out: &mut Draft) -> Vec<Pair> {
        let mut pairs = Vec::new(alloc);
        for word in self.text.split_whitespace().skip(from) {
            match pair_of(word) {
                Some(pair) => note(pairs.push(pair).is_ok(), out),
                None => break,
            }
        }
        pairs
    }

    /// The text after so many words, each with one space behind it.
    pub(crate) fn after(self, words: usize) -> &'a str {
        let mut text = self.text;
        for _ in 0..words {
            text = match text.split_once(' ') {
                Some((_, rest)) => rest,
                None => "",
            };
        }
        text
    }
}

/// Notes in an answer that memory ran out, where it did.
pub(crate) fn note(is_given: bool, out: &mut Draft) {
    if !is_given {
        out.give_up();
    }
}
