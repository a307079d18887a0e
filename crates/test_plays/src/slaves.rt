//! Slaves that misbehave.

ghost use Rattle.std.specs.Prelude.{◌≡◌, ℕ, ◌-◌, ◌==◌, if◌then◌else◌, List, [], take};
ghost use Rattle.ec_slave.specs.Step.{memory_after, frame_after};

use ec_frames::Frame;
use ec_slave::{Pass, SlaveBox};

/// Lets each frame pass as it is.
#[derive(Drop)]
pub(crate) struct Wire {
    pub(crate) number: u8,
}

impl Pass for Wire {
    ghost out = { λ s frame. frame };

    ghost next = { λ s frame. s };

    fn pass(&mut self, _frame: &mut Frame) {}
}

/// A modelled slave for so many frames, and then one that lets each frame pass as it is.
#[derive(Drop)]
pub(crate) struct Tiring {
    pub(crate) slave: SlaveBox,
    pub(crate) left: u32,
}

impl Pass for Tiring {
    ghost out = { λ s frame. if s.left == 0 then frame else frame_after s.slave frame };

    ghost next = { λ s frame. if s.left == 0 then s else record { slave = memory_after s.slave frame; left = s.left - 1 } };

    fn pass(&mut self, frame: &mut Frame) {
        if self.left != 0 {
            self.slave.step(frame);
            self.left -= 1;
        }
    }
}

/// Empties each frame.
#[derive(Drop)]
pub(crate) struct Eater {
    pub(crate) number: u8,
}

impl Pass for Eater {
    ghost out = { λ s frame. [] };

    ghost next = { λ s frame. s };

    fn pass(&mut self, frame: &mut Frame) {
        frame.clear();
    }
}

/// Keeps the first 59 bytes of each frame.
#[derive(Drop)]
pub(crate) struct Cutter {
    pub(crate) number: u8,
}

impl Pass for Cutter {
    ghost out = { λ s frame. take 59 frame };

    ghost next = { λ s frame. s };

    fn pass(&mut self, frame: &mut Frame) {
        frame.truncate(59);
    }
}
