//! A plan that is laid out.

use crate::map::map_in;
use crate::seats::{Seat, seats_of};
use crate::sends::{Sends, sends_of};
use ec_fmmu::Mapping;
use ec_loads::{Loads, Plan};
use ec_units::Units;
use sha2::{Digest, Sha256};
use std::alloc::{AllocError, Global};

/// A plan's layout, its slaves, its identity, its loads, and what is sent in each tick.
#[derive(Drop)]
pub(crate) struct Laid<'a> {
    pub mapping: Mapping,
    pub seats: Vec<Seat<'a>>,
    pub identity: u64,
    pub loads: Loads,
    pub sends: Sends,
}

/// The identity of a plan with these slaves: the first eight bytes of the SHA-256 of its map, the first one highest. The length of a
/// tick and the slot count aren't in the map. `AllocError` where memory ran out.
fn identity_of(alloc: Global, seats: &[Seat<'_>]) -> Result<u64, AllocError> {
    let map = map_in(alloc, seats)?;
    let [a, b, c, d, e, f, g, h, ..] = Sha256::digest(map.as_bytes());
    Ok(u64::from_be_bytes([a, b, c, d, e, f, g, h]))
}

/// A plan with this layout.
pub(crate) fn laid_of<'a>(
    alloc: Global,
    units: &'a Units,
    plan: &Plan,
    mapping: Mapping,
) -> Result<Laid<'a>, AllocError> {
    let seats = seats_of(alloc, units, plan.places.as_slice(), &mapping)?;
    let identity = identity_of(alloc, seats.as_slice())?;
    let loads = Loads::at(alloc, units, plan)?;
    let sends = sends_of(alloc, mapping.groups.as_slice(), &loads)?;
    Ok(Laid {
        mapping,
        seats,
        identity,
        loads,
        sends,
    })
}
