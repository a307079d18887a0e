//! Which key was meant by a word that is none.

use ec_unit_text::Key;
use std::alloc::Global;
use strsim::levenshtein;

/// The longest word that is compared with the keys, in bytes.
const LONGEST: usize = 32;

/// The key that a word of the trade stands for.
fn key_for(word: &str) -> Option<Key> {
    match word {
        "cycle" | "cycle_time" | "cycles" | "interval" | "every" => Some(Key::Period),
        "offset" | "shift" => Some(Key::Phase),
        "frame" | "group" => Some(Key::Slot),
        "address" | "addr" | "id" | "node" => Some(Key::Station),
        "output" | "outputs" | "out" | "output_bytes" => Some(Key::OutBytes),
        "input" | "inputs" | "in" | "input_bytes" => Some(Key::InBytes),
        "out_addr" | "out_address" | "out_start" => Some(Key::Area(false)),
        "in_addr" | "in_address" | "in_start" => Some(Key::Area(true)),
        "tick" | "ticks" | "cycle_ns" | "period_ns" => Some(Key::TickNs),
        "label" | "title" => Some(Key::Name),
        "units" => Some(Key::Unit),
        "slaves" => Some(Key::Slave),
        // The bytes of PDOs: what a slave receives are the master's outputs.
        _ if word.starts_with("rx") => Some(Key::OutBytes),
        _ if word.starts_with("tx") => Some(Key::InBytes),
        _ => None,
    }
}

/// The key that so few edits lead to as to no other before it, where they are few for its letters: a third of them, roughly.
fn by_letters(alloc: Global, word: &str, keys: &[Key]) -> Option<Key> {
    let mut best = None;
    let mut least = usize::MAX;
    for key in keys {
        let edits = levenshtein(alloc, word, key.as_str()).ok()?;
        if edits < least && edits.saturating_mul(3) <= key.as_str().len().saturating_add(1) {
            least = edits;
            best = Some(*key);
        }
    }
    best
}

/// The key of these that a word has in front, before the unit of its value or what else, as `period_ms` has.
fn by_front(word: &str, keys: &[Key]) -> Option<Key> {
    let has_front = |key: &&Key| {
        let rest = word.strip_prefix(key.as_str()).unwrap_or("");
        rest.starts_with('_') && !matches!(key, Key::Unit | Key::Slave)
    };
    keys.iter().find(has_front).copied()
}

/// The key of these that a word was meant for, if one is near, whatever letters are capital. None also where memory runs out.
pub(crate) fn nearest(alloc: Global, word: &str, keys: &[Key]) -> Option<Key> {
    if word.len() > LONGEST {
        return None;
    }
    let small = word.to_ascii_lowercase(alloc).ok()?;
    let word = small.as_str();
    match key_for(word).or_else(|| by_front(word, keys)) {
        Some(key) if keys.contains(&key) => Some(key),
        _ => by_letters(alloc, word, keys),
    }
}
