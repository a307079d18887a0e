//! Slaves and places.

ghost use Rattle.std.specs.Prelude.{ℕ, ◌+◌, ◌<◌, ◌≤◌};

use ec_lists::Items;

/// A slave with its process bytes and the areas of its memory that hold them (own profile).
///
/// `station` is its configured station address, 1 to 65535. `out_bytes` and `in_bytes` are the bytes of
/// outputs and inputs, not both 0. `out_at` and `in_at` are the memory addresses where they begin, 4096 to
/// 65535; no area ends past 65536, and two areas that have bytes have none in common.
#[derive(Debug, Drop)]
pub struct Slave {
    pub station: u16,
    pub out_bytes: u16,
    pub in_bytes: u16,
    pub out_at: u16,
    pub in_at: u16,
    pub ghost station_given: { 1 ≤ station },
    pub ghost station_short: { station < 65536 },
    pub ghost carries: { 1 ≤ out_bytes + in_bytes },
    pub ghost out_area: { (4096 ≤ out_at) × (out_at + out_bytes ≤ 65536) },
    pub ghost in_area: { (4096 ≤ in_at) × (in_at + in_bytes ≤ 65536) },
    pub ghost apart: { 0 < out_bytes → 0 < in_bytes → out_at < in_at + in_bytes → in_at < out_at + out_bytes → ⊥ },
}

/// When a unit travels: its phase in ticks, below its period, and its slot, below the slot count.
#[derive(Clone, Copy, Debug, PartialEq, Eq)]
pub struct Place {
    pub phase: u16,
    pub slot: u8,
}

/// Slaves in file order. A contract sees them as their list.
pub type Slaves = Items<Slave>;
