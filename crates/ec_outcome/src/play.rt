//! What comes of a play that isn't played to its end, or not told.

ghost use Rattle.std.specs.Prelude.{◌≡◌};
ghost use Rattle.ec_outcome.specs.declared.play.PlayTextFault.TheVariants.{Play as Unplayed, Text as Untold};

use ec_frames::FrameFault;
use std::alloc::AllocError;

/// Why a plan isn't played to its end. Of frames, the fault is that of the first faulty one that comes back; frames are numbered
/// from 0 in the order in which they are sent.
#[derive(Clone, Copy, Debug, PartialEq, Eq)]
pub enum PlayFault {
    /// P1: memory ran out.
    OutOfMemory,
    /// P2: a datagram of this slot's frame in this tick came back with another working counter than the one that is wanted.
    Counter {
        tick: u32,
        slot: u8,
        datagram: usize,
        want: u16,
        got: u16,
    },
    /// P3: what came back is no frame of datagrams.
    Frame(FrameFault),
    /// P4: a ring between two threads couldn't be made or finished.
    Ring,
    /// P5: a thread couldn't be started.
    Spawn,
    /// P6: the datagram of this start frame came back with another working counter than the one that is wanted.
    StartCounter {
        frame: u32,
        want: u16,
        got: u16,
    },
    /// P7: this frame came back with another length, or with a change in a byte other than data, working counters and the position
    /// of a datagram that is addressed by position or broadcast.
    Reply {
        frame: u32,
    },
}

/// Why there is no text of a play.
#[derive(Clone, Copy, Debug, PartialEq, Eq)]
pub enum PlayTextFault {
    /// The plan wasn't played to its end. Modelled slaves leave no faulty frame, so memory, a ring or a thread was wanting.
    Play(PlayFault),
    /// Memory ran out over the text.
    Text,
}

impl From<PlayFault> for PlayTextFault {
    ghost from_gives = { λ f r. r ≡ Unplayed f };

    fn from(fault: PlayFault) -> PlayTextFault {
        PlayTextFault::Play(fault)
    }
}

impl From<AllocError> for PlayTextFault {
    ghost from_gives = { λ _ r. r ≡ Untold };

    fn from(_error: AllocError) -> PlayTextFault {
        PlayTextFault::Text
    }
}
