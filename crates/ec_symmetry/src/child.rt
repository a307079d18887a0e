//! The places that a unit can take after a prefix.

ghost use Rattle.std.specs.Prelude.{◌≡◌, ℕ, suc, ◌<◌, ◌≤◌, ◌==◌, ◌&&◌, if◌then◌else◌, not, min, filter, length, get_or};
ghost use Rattle.std.specs.Iterator.{YieldsFirst, item_count};
ghost use Rattle.ec_loads.specs.Line.{rules_if, line_of};
ghost use Rattle.ec_loads.specs.Search.{places_for, children};
ghost use Rattle.ec_loads.specs.Strong.{is_below};
ghost use Rattle.ec_symmetry.specs.Orders.{IsOrder, prefix_of};

use crate::slots::used_slots;
use ec_loads::Loads;
use ec_units::Place;
use std::iter::FusedIterator;
use std::marker::Model;

/// The places of a unit in child order, seen as the list of those that are left.
#[derive(Debug, Drop)]
pub struct Children {
    phase: u16,
    slot: u8,
    width: u8,
    phases: u16,
}

impl Model for Children {
    ghost use Rattle.std.specs.Prelude.{ℕ, ◌+◌, ◌<◌, ◌≤◌, List};
    ghost use Rattle.ec_units.specs.declared.slave.Place.{Place};
    ghost use Rattle.ec_symmetry.specs.Choices.{places_left};

    ghost Value = { List Place };

    ghost view = { λ s. places_left s.width s.phase s.slot s.phases };

    ghost invariant = { λ s. record { has_slot : 0 < s.phases → s.slot < s.width; range : s.phase + s.phases ≤ 65535 } };
}

/// The places of a unit with this period in ticks, where the units before it use so many different slots: each
/// phase, with each slot from 0 to that number, below the slot count; ordered by phase, then slot. Where time
/// is turned, phase 0 alone. Takes no memory.
pub fn choices(period: u16, slots: u8, used: u8, turned: bool) -> Children
    ensures { result ≡ places_for (if turned then 1 else period) slots used }
{
    Children {
        phase: 0,
        slot: 0,
        width: if used < slots { used + 1 } else { slots },
        phases: match (slots, turned) {
            (0, _) => 0,
            (_, true) => 1,
            (_, false) => period,
        },
    }
}

/// How many slots a unit tries where the units before it use so many different ones.
fn width_of(slots: u8, used: u8) -> u8
    ensures { result ≡ min (suc used) slots }
{
    if slots <= used { slots } else { used + 1 }
}

/// The places of a unit that tries so many phases, where the units before it use so many different slots, without those
/// that are below a first one, by phase and then slot.
pub(crate) fn choices_from(first: Place, phases: u16, slots: u8, used: u8) -> Children
    ensures { result ≡ filter (λ p. not (is_below p first)) (places_for phases slots used) }
{
    let width = width_of(slots, used);
    if width == 0 || phases <= first.phase {
        return Children {
            phase: 0,
            slot: 0,
            width,
            phases: 0,
        };
    }
    let left = phases - first.phase;
    if first.slot < width {
        return Children {
            phase: first.phase,
            slot: first.slot,
            width,
            phases: left,
        };
    }
    Children {
        phase: first.phase + 1,
        slot: 0,
        width,
        phases: left - 1,
    }
}

/// The places of a unit with this period in ticks after units in so many different slots; where time is turned and
/// no slot is in use, those of phase 0 alone.
fn places_after(period: u16, slots: u8, used: u8, turned: bool) -> Children
    ensures { result ≡ places_for (if turned && (used == 0) then 1 else period) slots used }
{
    choices(period, slots, used, turned && used == 0)
}

/// The places that the next unit of an order can take after these places of the units before it, in child order: by
/// slots alone, or where time is turned, which leaves the first unit of the order phase 0 alone. What the loads hold
/// doesn't count. Takes no memory.
pub(crate) fn children_after(
    loads: &Loads,
    order: &[u8],
    before: &[Place],
    turned: bool,
) -> Children
    requires order { IsOrder (length loads.now.loads) order.now }
    requires few { length before.now < length order.now }
    ensures { result ≡ children (line_of (rules_if turned) loads.now) (prefix_of loads.now.loads order.now before.now) (get_or order.now (length before.now) 0) }
{
    let unit = usize::from(order[before.len()]);
    places_after(
        loads.loads()[unit].period,
        loads.slots(),
        used_slots(before),
        turned,
    )
}

/// The places that a unit can take after the places so far, in child order: by slots alone, or where time is turned,
/// which leaves phase 0 alone as long as no unit has a place. Takes no memory.
pub fn children_of(loads: &Loads, unit: usize, turned: bool) -> Children
    requires { unit < length loads.now.places }
    ensures { result ≡ children (line_of (rules_if turned) loads.now) loads.now.places unit }
{
    let used = loads.used();
    places_after(loads.loads()[unit].period, loads.slots(), used, turned)
}

impl Iterator for Children {
    type Item = Place;

    ghost next_gives = { YieldsFirst (λ rest. rest) };

    ghost remaining = { item_count (λ rest. rest) };

    fn next(&mut self) -> Option<Place> {
        if self.phases == 0 {
            return None;
        }
        let place = Place {
            phase: self.phase,
            slot: self.slot,
        };
        self.slot += 1;
        if self.slot == self.width {
            self.slot = 0;
            self.phase += 1;
            self.phases -= 1;
        }
        Some(place)
    }

    fn size_hint(&self) -> (usize, Option<usize>) {
        let count = self.len();
        (count, Some(count))
    }
}

impl ExactSizeIterator for Children {
    fn len(&self) -> usize {
        if self.phases == 0 {
            return 0;
        }
        usize::from(self.width - self.slot) + usize::from(self.width) * usize::from(self.phases - 1)
    }
}

impl FusedIterator for Children {}
