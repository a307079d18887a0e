//! Walks over the places of units, after each step of which what the loads answer from their table is compared with
//! sums that are made anew.

ghost use Rattle.std.specs.Prelude.{◌<◌};

use ec_loads::{Loads, plain_cost, plain_full, plain_payload, plain_raw, plain_top};

/// Numbers that follow a linear congruence, the same in each run.
#[derive(Clone, Copy)]
pub(crate) struct Dice {
    pub state: u32,
}

impl Dice {
    /// A number below this one.
    pub(crate) fn below(&mut self, bound: u32) -> u32
        requires { 0 < bound }
        ensures { result < bound }
    {
        self.state = self
            .state
            .wrapping_mul(1_664_525)
            .wrapping_add(1_013_904_223);
        (self.state >> 16) % bound
    }
}

/// Whether the payload of each slot in a tick is that of the sums.
fn slots_agree(loads: &Loads, tick: u32) -> bool {
    for slot in 0..loads.slots() {
        if loads.payload(tick, slot) != plain_payload(loads, tick, slot) {
            return false;
        }
    }
    true
}

/// Whether each answer of the loads is that of the sums, in every tick and slot, and what is asked of all ticks at
/// once: the greatest cost, the first slot that is too full, the sum, and the first tick that costs at least the value.
pub(crate) fn agrees(loads: &Loads, value: u64) -> bool {
    let mut raw_sum = 0u64;
    let mut first_reaching = None;
    for tick in 0..loads.ticks() {
        let cost = plain_cost(loads, tick);
        let raw = plain_raw(loads, tick);
        if loads.cost(tick) != cost || loads.raw(tick) != raw || !slots_agree(loads, tick) {
            return false;
        }
        raw_sum = raw_sum.saturating_add(raw);
        if first_reaching.is_none() && cost >= value {
            first_reaching = Some(tick);
        }
    }
    loads.top() == plain_top(loads)
        && loads.full() == plain_full(loads)
        && loads.raw_total() == raw_sum
        && loads.first_at_least(value) == first_reaching
}
