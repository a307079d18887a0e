//! Frames go through a line of slaves, and come back.

ghost use Rattle.std.specs.Prelude.{◌≡◌, length, map, IfOk, OnOk};
ghost use Rattle.ec_player.specs.Lines.{slaves_after};
ghost use Rattle.ec_player.specs.Trips.{sent_in};
ghost use Rattle.ec_play_trial.specs.Rounds.{round_in, round_of};

use crate::round::Round;
use ec_player::{Trip, boxed, pass_all};
use ec_slave::Pass;
use std::alloc::{AllocError, Global};

/// Sends frames through the slaves, one after the other. An error is want of memory.
pub(crate) fn send<X: Pass>(
    alloc: Global,
    slaves: &mut [X],
    trips: Vec<Trip>,
) -> Result<Round, AllocError>
    ensures round { IfOk result (λ r. round_in r ≡ round_of X.out X.next slaves.old (map sent_in trips.items)) }
    ensures count { IfOk result (λ r. length r.trips.items ≡ length trips.items) }
    ensures slaves { OnOk result (slaves.new ≡ slaves_after X.out X.next slaves.old (map sent_in trips.items)) }
{
    let mut backs = Vec::new(alloc);
    let mut spare = Vec::new(alloc);
    for trip in trips.as_slice() {
        let mut back = boxed(alloc, &mut spare, &trip.frame)?;
        pass_all(slaves, &mut back);
        backs.push(back)?;
    }
    Ok(Round { trips, backs })
}
