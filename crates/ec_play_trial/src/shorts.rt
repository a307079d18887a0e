//! The working counters that aren't those that are wanted.

ghost use Rattle.std.specs.Prelude.{◌≡◌, ◌++◌, map, IfOk, OnOk};
ghost use Rattle.ec_player.specs.Trips.{sent_in};
ghost use Rattle.ec_play_trial.specs.Shorts.{wants_of as wants_in, wrongs};

use ec_player::{Trip, Wrong};
use std::alloc::{AllocError, Global};

/// The counters that are wanted of the datagrams of frames, one frame after the other. An error is want of memory.
pub(crate) fn wants_of(alloc: Global, trips: &[Trip]) -> Result<Vec<u16>, AllocError>
    ensures { IfOk result (λ v. v.items ≡ wants_in (map sent_in trips.now)) }
{
    let mut wants = Vec::new(alloc);
    for trip in trips {
        wants.extend_from_slice(trip.wants.as_slice())?;
    }
    Ok(wants)
}

/// The counters with which datagrams came back and that aren't wanted, in their order. An error is want of memory.
pub(crate) fn shorts_of(
    alloc: Global,
    wants: &[u16],
    gots: &[u16],
) -> Result<Vec<Wrong>, AllocError>
    ensures { IfOk result (λ v. v.items ≡ wrongs wants.now gots.now) }
{
    let mut shorts = Vec::new(alloc);
    for datagram in 0..wants.len().min(gots.len()) {
        let (want, got) = (wants[datagram], gots[datagram]);
        if want != got {
            shorts.push(Wrong {
                datagram,
                want,
                got,
            })?;
        }
    }
    Ok(shorts)
}
