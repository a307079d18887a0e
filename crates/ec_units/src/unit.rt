//! Sync units; each keeps its own limits.

ghost use Rattle.std.specs.Prelude.{◌≡◌, ℕ, ◌+◌, ◌<◌, ◌≤◌, length, true};
ghost use Rattle.std.specs.Option.{ForSome};
ghost use Rattle.ec_units.specs.Names.{is_name};
ghost use Rattle.ec_units.specs.Bytes.{bytes_of_slaves};

use crate::name::Name;
use crate::slave::{Place, Slaves};
use ec_lists::Items;

/// A sync unit: slaves whose process bytes travel together, once in each period (own profile).
///
/// `name` has 1 to 32 bytes of a-z, A-Z, 0-9, `_` and `-`. `period` is 1 to 60 ticks. There are 1 to 8
/// slaves, with 1 to 1486 process bytes together. A place that is given has a phase below the period.
#[derive(Debug, Drop)]
pub struct Unit {
    pub name: Name,
    pub period: u16,
    pub slaves: Slaves,
    pub place: Option<Place>,
    pub ghost named: { is_name name ≡ true },
    pub ghost period_range: { (1 ≤ period) × (period ≤ 60) },
    pub ghost slave_count: { (1 ≤ length slaves) × (length slaves ≤ 8) },
    pub ghost size: { bytes_of_slaves slaves ≤ 1486 },
    pub ghost place_range: { ForSome place (λ p. p.phase < period) },
}

/// What the wire sees of a unit: its process bytes and its period in ticks.
#[derive(Clone, Copy, Debug, PartialEq, Eq)]
pub struct Load {
    pub bytes: u16,
    pub period: u16,
}

/// Units in file order. A contract sees them as their list.
pub type UnitList = Items<Unit>;
