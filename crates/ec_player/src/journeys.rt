//! Frames go through the line of slaves.

ghost use Rattle.std.specs.Prelude.{◌≡◌, ◌⊎◌, ℕ, ◌+◌, ◌<◌, ◌^◌, length, map, IfOk, OnOk, IfErr, None, Some};
ghost use Rattle.ec_slave.specs.Journey.{through, passed};
ghost use Rattle.ec_player.specs.Faults.{fault_of, first_fault};
ghost use Rattle.ec_player.specs.Lines.{came_back, slaves_after, AreRight, IsMemory};
ghost use Rattle.ec_player.specs.Trips.{sent_in};
ghost use Rattle.ec_player.specs.Boxes.{bytes_in};

use crate::boxes::{BoxedFrame, boxed};
use crate::judging::judge;
use crate::trips::Trip;
use ec_frames::Frame;
use ec_outcome::PlayFault;
use ec_slave::Pass;
use std::alloc::Global;

/// Lets a frame pass all slaves, in the order of the line (own profile): it is then what comes back.
pub fn pass_all<X: Pass>(slaves: &mut [X], frame: &mut Frame)
    ensures frame { frame.new.items ≡ through X.out X.next slaves.old frame.old.items }
    ensures slaves { slaves.new ≡ passed X.out X.next slaves.old frame.old.items }
{
    for i in 0..slaves.len() {
        slaves[i].pass(frame);
    }
}

/// What is wrong with a frame that came back, if anything is; `number` is its own, from 0 on in the order in which frames are sent.
pub fn judge_trip(trip: &Trip, number: u32, back: &Frame) -> Option<PlayFault>
    ensures { result ≡ fault_of number (sent_in trip.now) back.now.items }
{
    judge(
        trip.stage,
        number,
        &trip.frame,
        trip.wants.as_slice(),
        back.as_slice(),
    )
}

/// Sends frames through the slaves, one after the other, and judges each that comes back; `from` is the number of the first. Gives
/// the frames that came back, up to the first that is faulty, in boxes of those to spare as far as there are some.
pub(crate) fn travel<X: Pass>(
    alloc: Global,
    spare: &mut Vec<BoxedFrame>,
    slaves: &mut [X],
    trips: &[Trip],
    from: u32,
) -> Result<Vec<BoxedFrame>, PlayFault>
    requires { from + length trips.now < 2 ^ 32 }
    ensures right { OnOk result (AreRight X.out X.next slaves.old from (map sent_in trips.now)) }
    ensures backs { IfOk result (λ v. bytes_in v.items ≡ came_back X.out X.next slaves.old (map sent_in trips.now)) }
    ensures slaves { OnOk result (slaves.new ≡ slaves_after X.out X.next slaves.old (map sent_in trips.now)) }
    ensures fault { IfErr result (λ f. IsMemory f
        ⊎ (first_fault from (map sent_in trips.now) (came_back X.out X.next slaves.old (map sent_in trips.now)) ≡ Some f)) }
{
    let mut backs = Vec::new(alloc);
    let mut number = from;
    for trip in trips {
        let Ok(mut back) = boxed(alloc, spare, &trip.frame) else {
            return Err(PlayFault::OutOfMemory);
        };
        pass_all(slaves, &mut back);
        if let Some(fault) = judge_trip(trip, number, &back) {
            return Err(fault);
        }
        let Ok(()) = backs.push(back) else {
            return Err(PlayFault::OutOfMemory);
        };
        number += 1;
    }
    Ok(backs)
}
