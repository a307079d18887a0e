//! Questions to the table of what each tick carries.

ghost use Rattle.std.specs.Prelude.{◌≡◌, ℕ, ◌+◌, ◌*◌, ◌<◌, ◌≤◌, length, MatchOption, slice_index};

use crate::cells::WIDTH;
use crate::legal::MOST_PAYLOAD;

/// The first tick that costs at least the value.
pub(crate) fn first_reaching(costs: &[u32], value: u64) -> Option<usize>
    ensures { MatchOption result ((t : ℕ) → t < length costs.now → slice_index costs.now t < value)
        (λ t. (t < length costs.now) × (value ≤ slice_index costs.now t) × ((i : ℕ) → i < t → slice_index costs.now i < value)) }
{
    for (i, cost) in costs.iter().enumerate() {
        if u64::from(*cost) >= value {
            return Some(i);
        }
    }
    None
}

/// The greatest cost of a tick, and the first tick that has it.
pub(crate) fn greatest(costs: &[u32]) -> (u32, usize)
    requires { 0 < length costs.now }
    ensures reached { (result.1 < length costs.now) × (slice_index costs.now result.1 ≡ result.0) }
    ensures most { (t : ℕ) → t < length costs.now → slice_index costs.now t ≤ result.0 }
    ensures first { (t : ℕ) → t < result.1 → slice_index costs.now t < result.0 }
{
    let mut most = costs[0];
    let mut at = 0usize;
    for tick in 1..costs.len() {
        let cost = costs[tick];
        if cost > most {
            most = cost;
            at = tick;
        }
    }
    (most, at)
}

/// The first slot of a tick with a payload above 1498 bytes.
fn full_cell(cells: &[u32], slots: u8, tick: usize) -> Option<u8>
    requires room { tick * 8 + 8 ≤ length cells.now }
    requires slots { slots ≤ 8 }
    ensures { MatchOption result ((j : ℕ) → j < slots → slice_index cells.now (tick * 8 + j) ≤ 1498)
        (λ s. (s < slots) × (1498 < slice_index cells.now (tick * 8 + s)) × ((j : ℕ) → j < s → slice_index cells.now (tick * 8 + j) ≤ 1498)) }
{
    for slot in 0..slots {
        if cells[tick * WIDTH + usize::from(slot)] > MOST_PAYLOAD {
            return Some(slot);
        }
    }
    None
}

/// The first of these ticks, and in it the first slot, with a payload above 1498 bytes.
pub(crate) fn first_full_cell(cells: &[u32], slots: u8, ticks: usize) -> Option<(usize, u8)>
    requires room { ticks * 8 ≤ length cells.now }
    requires slots { slots ≤ 8 }
    ensures { MatchOption result ((t s : ℕ) → t < ticks → s < slots → slice_index cells.now (t * 8 + s) ≤ 1498)
        (λ f. (f.0 < ticks) × (f.1 < slots) × (1498 < slice_index cells.now (f.0 * 8 + f.1))
        × ((t s : ℕ) → t < f.0 → s < slots → slice_index cells.now (t * 8 + s) ≤ 1498)
        × ((s : ℕ) → s < f.1 → slice_index cells.now (f.0 * 8 + s) ≤ 1498)) }
{
    for tick in 0..ticks {
        if let Some(slot) = full_cell(cells, slots, tick) {
            return Some((tick, slot));
        }
    }
    None
}

/// A number that none of these is above.
pub(crate) fn most(numbers: &[u32]) -> u32
    ensures { (k : ℕ) → k < length numbers.now → slice_index numbers.now k ≤ result }
{
    let mut most = 0u32;
    for number in numbers {
        most = most.max(*number);
    }
    most
}
