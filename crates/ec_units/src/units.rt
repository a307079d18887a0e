//! All units of a line, with the limits that they keep together.

ghost use Rattle.std.specs.Prelude.{◌≡◌, ℕ, ◌+◌, ◌<◌, ◌≤◌, length, All, false};
ghost use Rattle.ec_hyper.specs.Lcm.{lcm_of};
ghost use Rattle.ec_units.specs.Bytes.{bytes_of_slaves};
ghost use Rattle.ec_units.specs.Load.{loads_of, periods_of};
ghost use Rattle.ec_units.specs.Together.{SlotsBelow, names_of, stations_of, has_same_name, has_same_station};

use crate::unit::{Unit, UnitList};
use ec_hyper::Hyper;

/// The units of a line, the length of a tick and the number of slots (own profile).
///
/// `tick_ns` is 80 to 1,000,000,000 ns and `slots` 1 to 8. There are 1 to 48 units, no two with one name and
/// no two slaves with one station; their hyperperiod is at most 1024 ticks, and the slot of a place that is
/// given is below `slots`.
#[derive(Debug, Drop)]
pub struct Units {
    pub tick_ns: u32,
    pub slots: u8,
    pub units: UnitList,
    pub ghost tick_range: { (80 ≤ tick_ns) × (tick_ns ≤ 1000000000) },
    pub ghost slot_range: { (1 ≤ slots) × (slots ≤ 8) },
    pub ghost unit_count: { (1 ≤ length units) × (length units ≤ 48) },
    pub ghost names_apart: { has_same_name (names_of units) ≡ false },
    pub ghost stations_apart: { has_same_station (stations_of units) ≡ false },
    pub ghost short: { lcm_of (periods_of (loads_of units)) ≤ 1024 },
    pub ghost slots_below: { SlotsBelow slots units },
}

impl Units {
    /// The hyperperiod of the units; takes no memory.
    pub fn hyper(&self) -> Hyper
        ensures value { result ≡ lcm_of (periods_of (loads_of self.now.units)) }
        ensures range { (1 ≤ result) × (result ≤ 1024) }
    {
        let units = self.units.as_slice();
        let mut periods = [1u16; 48];
        for i in 0..units.len() {
            periods[i] = units[i].period;
        }
        match Hyper::of(&periods[..units.len()]) {
            Ok(hyper) => hyper,
            Err(_) => unreachable!(),
        }
    }
}

/// The process bytes of a unit: the sum of both directions over its slaves, 1 to 1486; takes no memory.
pub fn bytes_of(unit: &Unit) -> u16
    ensures { result ≡ bytes_of_slaves unit.now.slaves }
{
    let mut bytes = 0u16;
    for slave in unit.slaves.as_slice() {
        bytes += slave.out_bytes + slave.in_bytes;
    }
    bytes
}
