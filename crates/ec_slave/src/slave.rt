//! The modelled slave.

ghost use Rattle.std.specs.Prelude.{◌≡◌, ℕ, ◌+◌, ◌≤◌, ◌<◌, List, length, replicate, get_or, IfOk, slice_set};
ghost use Rattle.ec_frames.specs.Reading.{Entry, ReadsAs, HasFault};
ghost use Rattle.ec_frames.specs.declared.reading.FrameFault.{FrameFault};
ghost use Rattle.ec_slave.specs.Step.{slave_step, memory_after, frame_after, datagrams_step};

use crate::datagram::step_datagrams;
use crate::idle::leaves;
use ec_frames::{Frame, parse};
use std::alloc::{AllocError, Global};
use std::marker::Model;

/// The bytes of a slave's memory.
const SIZE: usize = 65536;

/// What a frame passes: it says as a function of its state and the frame what the frame is afterwards, and what its state is.
pub trait Pass {
    ghost out: { Self → List ℕ → List ℕ };

    ghost next: { Self → List ℕ → Self };

    /// Lets a frame pass; none is refused.
    fn pass(&mut self, frame: &mut Frame)
        ensures frame { frame.new.items ≡ out self.old frame.old.items }
        ensures state { self.new ≡ next self.old frame.old.items };
}

/// A modelled slave (own profile, after ETG.1000.4): 65,536 bytes of memory, which a contract sees as their list. The number of
/// its station is at 0x0010, its FMMUs 0 and 1 are at 0x0600 and 0x0610; all of the memory can be written.
#[derive(Drop)]
pub struct SlaveBox {
    memory: Vec<u8>,
    /// Room for a frame as it arrives.
    arriving: Frame,
}

impl Model for SlaveBox {
    ghost Value = { List ℕ };

    ghost view = { λ s. s.memory.items };

    ghost invariant = { λ s. length s.memory.items ≡ 65536 };
}

/// As many zeros.
fn zeros(alloc: Global, count: usize) -> Result<Vec<u8>, AllocError>
    ensures { IfOk result (λ v. v.items ≡ replicate count 0) }
{
    Vec::from_elem(alloc, 0u8, count)
}

/// Puts these bytes in place of those of a frame.
pub fn refill(frame: &mut Frame, bytes: &[u8])
    requires { length bytes.now ≤ 1514 }
    ensures { frame.new.items ≡ bytes.now }
{
    frame.truncate(bytes.len());
    let (over, behind) = bytes.split_at(frame.len());
    frame.as_mut_slice().copy_from_slice(over);
    let done = frame.try_extend_from_slice(behind);
    prove!(done.is_ok());
}

impl SlaveBox {
    /// A slave whose memory is all 0.
    ///
    /// # Errors
    ///
    /// `AllocError` where memory ran out.
    pub fn new(alloc: Global) -> Result<SlaveBox, AllocError>
        ensures { IfOk result (λ s. s ≡ replicate 65536 0) }
    {
        let memory = zeros(alloc, SIZE)?;
        Ok(SlaveBox {
            memory,
            arriving: Frame::new(),
        })
    }

    /// The byte at this address of its memory.
    pub fn peek(&self, at: u16) -> u8
        ensures { result ≡ get_or self.now at 0 }
    {
        self.memory[at as usize]
    }

    /// Changes the byte at this address of its memory, and no other.
    pub fn poke(&mut self, at: u16, byte: u8)
        ensures { self.new ≡ slice_set self.old at byte }
    {
        self.memory[usize::from(at)] = byte;
    }

    /// Does the datagrams of a frame, over a copy of it.
    fn act(&mut self, frame: &mut Frame)
        ensures memory { self.new ≡ memory_after self.old frame.old.items }
        ensures frame { frame.new.items ≡ frame_after self.old frame.old.items }
    {
        refill(&mut self.arriving, frame.as_slice());
        if let Ok(parsed) = parse(self.arriving.as_slice()) {
            step_datagrams(self.memory.as_mut_slice(), frame.as_mut_slice(), &parsed);
        }
    }

    /// Lets a frame pass (own profile, after ETG.1000.4, clauses 5.3 and 5.4). One that doesn't parse stays as it is; else its
    /// datagrams are done in order. No byte of the frame changes but positions, data and working counters.
    pub fn step(&mut self, frame: &mut Frame)
        ensures memory { self.new ≡ memory_after self.old frame.old.items }
        ensures frame { frame.new.items ≡ frame_after self.old frame.old.items }
    {
        if leaves(self.memory.as_slice(), frame.as_slice()) {
            return;
        }
        self.act(frame);
    }
}

impl Pass for SlaveBox {
    ghost out = { frame_after };

    ghost next = { memory_after };

    fn pass(&mut self, frame: &mut Frame) {
        self.step(frame);
    }
}
