//! Marks of the numbers that held before a unit got its place.

ghost use Rattle.std.specs.Prelude.{◌≡◌, ◌⊎◌, ◌∷◌, [], reverse, MatchOption};

/// A unit that gets its place, with numbers in bytes that no payload and no cost is above before it gets it.
#[derive(Clone, Copy, Debug)]
pub(crate) struct Mark {
    pub unit: usize,
    pub payload: u32,
    pub cost: u32,
}

/// Puts a mark on top; where there is no room for it, forgets all.
pub(crate) fn push_mark(marks: &mut Vec<Mark>, mark: Mark)
    ensures { (reverse marks.new.items ≡ mark ∷ reverse marks.old.items) ⊎ (reverse marks.new.items ≡ []) }
{
    if marks.len() < marks.capacity() {
        marks.push_reserved(mark);
    } else {
        marks.clear();
    }
}

/// Takes the last mark off, where it is this unit's; else forgets all.
pub(crate) fn pop_mark(marks: &mut Vec<Mark>, unit: usize) -> Option<Mark>
    ensures { MatchOption result (reverse marks.new.items ≡ []) (λ m. (m.unit ≡ unit) × (reverse marks.old.items ≡ m ∷ reverse marks.new.items)) }
{
    if let Some(mark) = marks.pop() {
        if mark.unit == unit {
            return Some(mark);
        }
    }
    marks.clear();
    None
}
