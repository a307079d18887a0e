//! Slaves that let a frame pass as they should, and then harm it.

ghost use Rattle.std.specs.Prelude.{◌≡◌, ℕ, ◌+◌, ◌%◌, ◌^◌, List};
ghost use Rattle.ec_slave.specs.Step.{memory_after, frame_after};
ghost use Rattle.test_plays.specs.Harms.{with_byte, harmed};
ghost use Rattle.test_plays.specs.declared.harm.Harm.TheVariants as harm;

use crate::harm::Harm;
use ec_frames::Frame;
use ec_slave::{Pass, SlaveBox};

/// Puts a byte, where the frame has that place.
fn put_byte(frame: &mut Frame, at: usize, byte: u8)
    ensures { frame.new.items ≡ with_byte frame.old.items at byte }
{
    if at < frame.len() {
        frame.as_mut_slice()[at] = byte;
    }
}

/// Adds 1 to a byte, where the frame has that place.
fn count_up(frame: &mut Frame, at: usize)
    ensures { frame.new.items ≡ harmed (harm.Count at) 0 frame.old.items }
{
    if at < frame.len() {
        let byte = frame.as_slice()[at].wrapping_add(1);
        frame.as_mut_slice()[at] = byte;
    }
}

/// Harms the frame with this number.
fn tamper(what: Harm, number: u32, frame: &mut Frame)
    ensures { frame.new.items ≡ harmed what number frame.old.items }
{
    match what {
        Harm::Cut(len) => frame.truncate(len),
        Harm::Put { at, byte, from } => {
            if number >= from {
                put_byte(frame, at, byte);
            }
        }
        Harm::Count(at) => count_up(frame, at),
        Harm::Longer => {
            if frame.len() < 1514 {
                frame.push(0);
            }
        }
    }
}

/// A modelled slave that harms each frame.
#[derive(Drop)]
pub(crate) struct Hostile {
    pub(crate) slave: SlaveBox,
    pub(crate) what: Harm,
    pub(crate) passed: u32,
}

impl Pass for Hostile {
    ghost out = { λ s frame. harmed s.what s.passed (frame_after s.slave frame) };

    ghost next = { λ s frame. record { slave = memory_after s.slave frame; what = s.what; passed = (s.passed + 1) % 2 ^ 32 } };

    fn pass(&mut self, frame: &mut Frame) {
        self.slave.step(frame);
        tamper(self.what, self.passed, frame);
        self.passed = self.passed.wrapping_add(1);
    }
}
