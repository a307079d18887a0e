//! Loads with the bounds that are asked of them.

use crate::call::{Call, place_of};
use crate::plans::add_children;
use crate::steps::{Dice, agrees};
use ec_bounds::{
    Rest, average_bound, count_bound, full_bound, groups_bound, merge_bound, tick_bound,
    weight_bound,
};
use ec_loads::Loads;
use ec_symmetry::strong_choices;
use ec_text_builder::Draft;
use ec_units::{Place, Units};
use std::alloc::{AllocError, Global};
use std::marker::Model;

/// Loads, and the rest of their units.
#[derive(Drop)]
pub(crate) struct Bench {
    loads: Loads,
    rest: Rest,
}

impl Model for Bench {
    ghost use Rattle.std.specs.Prelude.{◌≡◌, length};
    ghost use Rattle.ec_loads.specs.Held.{Held};

    ghost Value = { Held };

    ghost view = { λ b. b.loads };

    ghost invariant = { λ b. length b.rest.unplaced ≡ length b.loads.places };
}

impl Bench {
    ghost use Rattle.std.specs.Prelude.{◌<◌, length};

    pub(crate) fn new(alloc: Global, units: &Units) -> Result<Bench, AllocError> {
        Ok(Bench {
            loads: Loads::new(alloc, units)?,
            rest: Rest::all(units),
        })
    }

    /// Gives a unit its place.
    fn put(&mut self, unit: usize, place: Place)
        requires { unit < length self.old.places }
    {
        self.loads.place(unit, place);
        self.rest.placed(unit);
    }

    /// Takes the place of a unit away.
    fn free(&mut self, unit: usize)
        requires { unit < length self.old.places }
    {
        self.loads.remove(unit);
        self.rest.unplaced(unit);
    }

    /// Gives a unit the place that a call says.
    fn place(&mut self, call: Call<'_>, out: &mut Draft) {
        let unit = call.index(1);
        match place_of(call.word(2)) {
            Some(place) if unit < self.loads.places().len() => {
                self.put(unit, place);
                out.add('-');
            }
            _ => out.add("no unit or no place"),
        }
    }

    /// Takes the place of the unit away that a call says.
    fn remove(&mut self, call: Call<'_>, out: &mut Draft) {
        let unit = call.index(1);
        if unit < self.loads.places().len() {
            self.free(unit);
            out.add('-');
        } else {
            out.add("no unit");
        }
    }

    /// Adds the places that the unit of a call can take by the strong rules.
    fn strong(&self, call: Call<'_>, out: &mut Draft) {
        let unit = call.index(1);
        if unit < self.loads.places().len() {
            add_children(out, strong_choices(&self.loads, unit));
        } else {
            out.add("no unit");
        }
    }

    /// A place that a unit may take.
    fn any_place(&self, dice: &mut Dice, unit: usize) -> Place {
        let period = match self.loads.loads().get(unit) {
            Some(load) => load.period,
            None => 1,
        };
        Place {
            phase: dice.below(u32::from(period).max(1)) as u16,
            slot: dice.below(u32::from(self.loads.slots()).max(1)) as u8,
        }
    }

    /// One step of a walk: five times in eight a unit gets a place, whether it has one or not, twice one loses its
    /// place, and once the unit that was given a place last does. Gives the unit that is that one now.
    fn step(&mut self, dice: &mut Dice, last: usize) -> usize {
        let kind = dice.below(8);
        let any = dice.below(self.loads.places().len().max(1) as u32) as usize;
        let unit = if kind == 7 { last } else { any };
        let place = self.any_place(dice, unit);
        if unit >= self.loads.places().len() {
            return last;
        }
        if kind < 5 {
            self.put(unit, place);
            unit
        } else {
            self.free(unit);
            last
        }
    }

    /// After how many of so many steps each answer of the loads is that of the sums.
    fn steps(&mut self, count: u32) -> u32 {
        let mut dice = Dice { state: 1 };
        let mut last = 0usize;
        let mut agreed = 0u32;
        for _ in 0..count {
            last = self.step(&mut dice, last);
            let tick = dice.below(self.loads.ticks());
            let value = self.loads.cost(tick) + u64::from(dice.below(2));
            if agrees(&self.loads, value) {
                agreed = agreed.saturating_add(1);
            }
        }
        agreed
    }

    /// Adds whether the weights of a call hold at its value.
    fn weigh(&self, alloc: Global, call: Call<'_>, out: &mut Draft) {
        let weights = call.weights(alloc, 2, out);
        out.add(weight_bound(&self.loads, &self.rest, weights.as_slice(), call.number(1)));
    }

    /// Adds whether the units of a call's period and bytes are more at its value than have room.
    fn count(&self, call: Call<'_>, out: &mut Draft) {
        let (period, bytes) = (call.short(2), call.short(3));
        out.add(count_bound(&self.loads, &self.rest, period, bytes, call.number(1)));
    }

    /// Adds whether the new groups of a call are too many at its value.
    fn group(&self, alloc: Global, call: Call<'_>, out: &mut Draft) {
        let pairs = call.pairs(alloc, 2, out);
        out.add(groups_bound(&self.loads, &self.rest, pairs.as_slice(), call.number(1)));
    }

    /// Adds what a call of a bound by rooms or slots answers.
    fn room(&self, alloc: Global, call: Call<'_>, out: &mut Draft) {
        match call.name() {
            "merge_bound" => out.add(merge_bound(&self.loads, call.number(1))),
            "count_bound" => self.count(call, out),
            "groups_bound" => self.group(alloc, call, out),
            _ => out.add("no call"),
        }
    }

    /// Adds what a call of a tick, a slot or a bound answers.
    fn bound(&self, alloc: Global, call: Call<'_>, out: &mut Draft) {
        match call.name() {
            "top" => out.add(format_args!("{:?}", self.loads.top())),
            "full" => out.add(format_args!("{:?}", self.loads.full())),
            "tick_bound" => out.add(format_args!("{:?}", tick_bound(&self.loads, call.number(1)))),
            "full_bound" => out.add(format_args!("{:?}", full_bound(&self.loads))),
            "average_bound" => out.add(average_bound(&self.loads, &self.rest, call.number(1))),
            "weight_bound" => self.weigh(alloc, call, out),
            _ => self.room(alloc, call, out),
        }
    }

    /// Adds what a call of the loads or of a bound answers that leaves them as they are.
    fn tell(&self, alloc: Global, call: Call<'_>, out: &mut Draft) {
        let number = match call.name() {
            "payload" => u64::from(self.loads.payload(call.count(1), call.small(2))),
            "cost" => self.loads.cost(call.count(1)),
            "raw" => self.loads.raw(call.count(1)),
            "raw_total" => self.loads.raw_total(),
            "demand" => u64::from(self.rest.demand()),
            _ => return self.bound(alloc, call, out),
        };
        out.add(number);
    }

    /// Adds what a call of the loads or of a bound answers.
    pub(crate) fn answer(&mut self, alloc: Global, call: Call<'_>, out: &mut Draft) {
        match call.name() {
            "place" => self.place(call, out),
            "remove" => self.remove(call, out),
            "strong" => self.strong(call, out),
            "steps" => out.add(self.steps(call.count(1))),
            _ => self.tell(alloc, call, out),
        }
    }
}
