//! The units that have no place yet.

ghost use Rattle.std.specs.Prelude.{◌≡◌, ℕ, ◌*◌, ◌/◌, ◌<◌, ◌≤◌, true, false, length, slice_set};
ghost use Rattle.ec_hyper.specs.Lcm.{lcm_of};
ghost use Rattle.ec_units.specs.Load.{loads_of, periods_of};
ghost use Rattle.ec_bounds.specs.Left.{demand_of};

use ec_hyper::Hyper;
use ec_units::{Load, Units, bytes_of};
use std::marker::Model;

/// The most units.
pub(crate) const MOST_UNITS: usize = 48;

/// Which units of a line have no place yet. A contract sees the loads of the units in file order, and for each
/// whether it has no place. It lies on the stack, so that no call takes memory. What each unit sends in a hyperperiod
/// is made once, and the sum of those without a place is kept, in bytes.
#[derive(Drop)]
pub struct Rest {
    table: [Load; MOST_UNITS],
    unplaced: [bool; MOST_UNITS],
    sent: [u32; MOST_UNITS],
    demand: u64,
    count: usize,
    hyper: Hyper,
}

impl Model for Rest {
    ghost use Rattle.std.specs.Prelude.{◌≡◌, ℕ, ◌≤◌, length, take};
    ghost use Rattle.ec_hyper.specs.Lcm.{lcm_of};
    ghost use Rattle.ec_units.specs.Load.{periods_of};
    ghost use Rattle.ec_loads.specs.Held.{AreLoads};
    ghost use Rattle.ec_bounds.specs.Left.{Left, AreSent, demand_of};

    ghost Value = { Left };

    ghost view = { λ r. record { loads = take r.count r.table; unplaced = take r.count r.unplaced } };

    ghost invariant = { λ r.
        record {
          few : r.count ≤ 48;
          table : length r.table ≡ 48;
          flags : length r.unplaced ≡ 48;
          units : AreLoads (take r.count r.table);
          whole : r.hyper ≡ lcm_of (periods_of (take r.count r.table));
          products : AreSent r.hyper r.count r.table r.sent;
          running : r.demand ≡ demand_of (take r.count r.table) (take r.count r.unplaced) r.hyper;
          room : length r.sent ≡ 48;
        } };
}

impl Rest {
    ghost use Rattle.ec_loads.specs.Held.{AreLoads};
    ghost use Rattle.ec_bounds.specs.Left.{Left, all_of};

    /// The units, none with a place.
    pub fn all(units: &Units) -> Rest
        ensures { result ≡ record { loads = loads_of units.now.units; unplaced = all_of (loads_of units.now.units) } }
    {
        let all = units.units.as_slice();
        let mut table = [Load {
            bytes: 0,
            period: 1,
        }; MOST_UNITS];
        let hyper = units.hyper();
        let mut sent = [0; MOST_UNITS];
        let mut demand = 0u64;
        for i in 0..all.len() {
            let load = Load {
                bytes: bytes_of(&all[i]),
                period: all[i].period,
            };
            let bytes = sent_by(load, &hyper);
            table[i] = load;
            sent[i] = bytes;
            demand += u64::from(bytes);
        }
        Rest {
            table,
            unplaced: [true; MOST_UNITS],
            sent,
            demand,
            count: all.len(),
            hyper,
        }
    }

    /// A unit, numbered in file order from 0, has a place now.
    pub fn placed(&mut self, unit: usize)
        requires { unit < length self.old.unplaced }
        ensures { self.new ≡ record self.old { unplaced = slice_set self.old.unplaced unit false } }
    {
        if self.unplaced[unit] {
            self.unplaced[unit] = false;
            self.demand -= u64::from(self.sent[unit]);
        }
    }

    /// A unit has no place any more.
    pub fn unplaced(&mut self, unit: usize)
        requires { unit < length self.old.unplaced }
        ensures { self.new ≡ record self.old { unplaced = slice_set self.old.unplaced unit true } }
    {
        let _ticks = self.hyper.ticks();
        if !self.unplaced[unit] {
            self.unplaced[unit] = true;
            self.demand += u64::from(self.sent[unit]);
        }
    }

    /// The bytes that the units without a place send in a hyperperiod: for each its bytes, as often as it travels.
    pub fn demand(&self) -> u64
        ensures value { result ≡ demand_of self.now.loads self.now.unplaced (lcm_of (periods_of self.now.loads)) }
        ensures bound { result ≤ 73039872 }
    {
        let _ticks = self.hyper.ticks();
        self.demand
    }

    /// The units in file order.
    pub(crate) fn loads(&self) -> &[Load]
        ensures value { result.now ≡ self.now.loads }
        ensures units { AreLoads self.now.loads }
        ensures few { length result.now ≤ 48 }
    {
        &self.table[..self.count]
    }

    /// For each unit in file order whether it has no place.
    pub(crate) fn flags(&self) -> &[bool]
        ensures value { result.now ≡ self.now.unplaced }
        ensures each { length result.now ≡ length self.now.loads }
    {
        &self.unplaced[..self.count]
    }
}

/// The bytes that a unit sends in a hyperperiod.
fn sent_by(load: Load, hyper: &Hyper) -> u32
    requires period { 1 ≤ load.period }
    requires bytes { load.bytes ≤ 1486 }
    ensures value { result ≡ load.bytes * (hyper.now / load.period) }
    ensures bound { result ≤ 1521664 }
{
    let _ticks = hyper.ticks();
    u32::from(load.bytes) * hyper.times(load.period)
}
