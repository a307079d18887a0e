//! What the bytes of the units alone ask of some tick.

ghost use Rattle.std.specs.Prelude.{◌<◌, Some};
ghost use Rattle.ec_units.specs.Load.{loads_of};
ghost use Rattle.ec_loads.specs.Search.{BoundsAll, HasNoPlan};
ghost use Rattle.ec_bounds.specs.IsMeanTick.{IsMeanTick};

use crate::rest::Rest;
use ec_units::Units;

/// The most bytes of units in a frame of one group: 1500 without the EtherCAT header, the datagram header and the working
/// counter (IEEE 802.3, ETG.1000.4).
const MOST_IN_FRAME: u64 = 1486;

/// What each frame costs beside the bytes of its units, in bytes: 40, and 12 for its first group.
const BESIDE_IN_FRAME: u64 = 52;

/// A tick with as many bytes of units as the mean of all ticks: some tick of each plan has at least as many.
#[derive(Clone, Copy, Debug, PartialEq, Eq)]
pub struct MeanTick {
    /// The bytes of its units.
    pub bytes: u64,
    /// The least number of frames for so many.
    pub frames: u64,
    /// What these frames cost at least, in wire bytes.
    pub cost: u64,
}

/// The mean tick of a line. Some tick of every legal plan costs at least as much, however the units are placed; where it has
/// more frames than a tick has slots, no plan is legal. Takes no memory (own profile).
pub fn mean_tick(units: &Units) -> MeanTick
    ensures mean { IsMeanTick (loads_of units.now.units) result }
    ensures bound { BoundsAll (loads_of units.now.units) units.now.slots (Some result.cost) }
    ensures none { units.now.slots < result.frames → HasNoPlan (loads_of units.now.units) units.now.slots }
{
    let rest = Rest::all(units);
    let ticks = u64::from(units.hyper().ticks());
    let bytes = rest.demand().div_ceil(ticks);
    let frames = bytes.div_ceil(MOST_IN_FRAME);
    MeanTick {
        bytes,
        frames,
        cost: bytes + BESIDE_IN_FRAME * frames,
    }
}
