//! The layout of a plan.

ghost use Rattle.std.specs.Prelude.{◌≡◌, ℕ, ◌+◌, ◌<◌, length, map, Contains, IfOk};
ghost use Rattle.ec_units.specs.Load.{loads_of};
ghost use Rattle.ec_units.specs.Views.{unit_view};
ghost use Rattle.ec_loads.specs.Legal.{IsLegal};
ghost use Rattle.ec_fmmu.specs.Seats.{seats_of as seats_in, AreKept};
ghost use Rattle.ec_fmmu.specs.Next.{AreLight};
ghost use Rattle.ec_fmmu.specs.Mappings.{fmmu_for, records_of, IsLayout};

use crate::fmmu::{Fmmu, Fmmus};
use crate::group::Groups;
use crate::next::groups_of;
use crate::seat::{Seat, all_bytes, seat_start, seats_of};
use ec_loads::Plan;
use ec_units::Units;
use std::alloc::{AllocError, Global};

/// Where the process bytes of a plan lie in logical memory: its groups in order, the records of each slave in file order,
/// and `total`, the number of bytes in all.
#[derive(Debug, Drop)]
pub struct Mapping {
    pub groups: Groups,
    pub fmmus: Fmmus,
    pub total: u32,
}

/// The FMMU type that writes a slave's memory.
const WRITES: u8 = 2;

/// The FMMU type that reads it.
const READS: u8 = 1;

/// A record of this type; one without bytes is inactive and all 0.
fn record_of(kind: u8, logical: u32, len: u16, physical: u16) -> Fmmu
    ensures { result ≡ fmmu_for kind logical len physical }
{
    if len == 0 {
        return Fmmu {
            logical: 0,
            len: 0,
            physical: 0,
            kind: 0,
            active: false,
        };
    }
    Fmmu {
        logical,
        len,
        physical,
        kind,
        active: true,
    }
}

/// The two records of a slave.
fn pair_of(seats: &[Seat], seat: &Seat) -> [Fmmu; 2]
    requires kept { AreKept seats.now }
    requires held { Contains seats.now seat.now }
    ensures { result ≡ records_of seats.now seat.now }
{
    let start = seat_start(seats, seat);
    let after = start + u32::from(seat.out_bytes);
    let outputs = record_of(WRITES, start, seat.out_bytes, seat.out_at);
    let inputs = record_of(READS, after, seat.in_bytes, seat.in_at);
    [outputs, inputs]
}

/// The records of all slaves.
fn fmmus_of(alloc: Global, seats: &[Seat]) -> Result<Vec<[Fmmu; 2]>, AllocError>
    requires { AreKept seats.now }
    ensures { IfOk result (λ v. v.items ≡ map (records_of seats.now) seats.now) }
{
    let mut fmmus = Vec::new(alloc);
    for seat in seats {
        let pair = pair_of(seats, seat);
        fmmus.push(pair)?;
    }
    Ok(fmmus)
}

/// The layout of slaves at their places.
fn mapping_of(alloc: Global, seats: &[Seat]) -> Result<Mapping, AllocError>
    requires kept { AreKept seats.now }
    requires light { AreLight seats.now }
    ensures { IfOk result (IsLayout seats.now) }
{
    let groups = groups_of(alloc, seats)?;
    let fmmus = fmmus_of(alloc, seats)?;
    let total = all_bytes(seats);
    Ok(Mapping {
        groups: Groups::new(groups),
        fmmus: Fmmus::new(fmmus),
        total,
    })
}

/// The layout of a legal plan (own profile). Process bytes lie from 0x00010000 on in the order of slot, period, phase,
/// unit, slave, outputs before inputs, offset, with no gap: each group is one range, and a slave's two records map its own
/// bytes and no other.
///
/// # Errors
///
/// `AllocError` where memory ran out.
pub fn layout(alloc: Global, units: &Units, plan: &Plan) -> Result<Mapping, AllocError>
    requires { IsLegal (loads_of units.now.units) units.now.slots plan.now.places }
    ensures { IfOk result (IsLayout (seats_in (map unit_view units.now.units) plan.now.places)) }
{
    let seats = seats_of(alloc, units.units.as_slice(), plan.places.as_slice())?;
    mapping_of(alloc, seats.as_slice())
}
