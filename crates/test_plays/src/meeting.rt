//! Slaves that wait for each other.

ghost use Rattle.std.specs.Prelude.{◌≡◌, List};
ghost use Rattle.ec_slave.specs.Step.{memory_after, frame_after};

use ec_frames::Frame;
use ec_slave::{Pass, SlaveBox};
use std::sync::atomic::{AtomicU64, Ordering};

/// A modelled slave that counts the passes that it began. In its pass `wait_at` (from 0 on) it waits until the other one has begun
/// `wanted` passes, for at most 100,000,000 looks; running out of them sets a flag.
#[derive(Drop)]
pub(crate) struct Meeter<'a> {
    pub(crate) slave: SlaveBox,
    pub(crate) mine: &'a AtomicU64,
    pub(crate) theirs: &'a AtomicU64,
    pub(crate) missed: &'a AtomicU64,
    pub(crate) wait_at: u64,
    pub(crate) wanted: u64,
}

impl<'a> Meeter<'a> {
    /// Waits for the other one, where this is the pass for it.
    fn meet(&self) {
        let begun = self.mine.fetch_add(1, Ordering::SeqCst);
        if begun == self.wait_at {
            for _ in 0..100_000_000u64 {
                if self.theirs.load(Ordering::SeqCst) >= self.wanted {
                    return;
                }
            }
            self.missed.store(1, Ordering::SeqCst);
        }
    }
}

impl<'a> Pass for Meeter<'a> {
    ghost out = { λ s frame. frame_after s.slave frame };

    ghost next = { λ s frame. record { slave = memory_after s.slave frame; mine = s.mine; theirs = s.theirs; missed = s.missed; wait_at = s.wait_at; wanted = s.wanted } };

    fn pass(&mut self, frame: &mut Frame) {
        self.meet();
        self.slave.step(frame);
    }
}
