//! Readers and writers whose faults are remembered.

ghost use Rattle.std.specs.Prelude.{◌≡◌, ℕ, ◌+◌, ◌-◌, ◌^◌, min, ◌<◌, ◌≤◌, true, false, length, MatchResult, IfOk, OnOk, OnErr};
ghost use Rattle.std.specs.Io.{ReadsAtMost, WritesAtMost};
ghost use Rattle.std.specs.Io.KnownBytes.{ReadConsumes, WriteAppends, Appends};

use std::io::{Read, Write};

/// A reader or a writer of std that remembers whether it has failed, and counts the bytes that were read.
///
/// It tells the bytes that the reader or writer inside tells.
#[derive(Debug, Drop)]
pub struct Io<T> {
    inner: T,
    failed: bool,
    taken: u64,
}

/// A read or a write failed: the error of the reader or writer inside, or a write that took none of some bytes.
#[derive(Clone, Copy, Debug, PartialEq, Eq)]
pub struct IoFault;

/// A text could not be written whole; a front of it was.
#[derive(Clone, Copy, Debug, PartialEq, Eq)]
pub struct WriteFault;

impl<T> Io<T> {
    ghost use Rattle.ec_wire.specs.Stream.{stream, has_failed, taken};

    /// This reader or writer, which has not failed yet; takes no memory.
    pub fn new(inner: T) -> Io<T>
        ensures stream { stream result ≡ inner }
        ensures failed { has_failed result ≡ false }
        ensures taken { taken result ≡ 0 }
    {
        Io {
            inner,
            failed: false,
            taken: 0,
        }
    }

    /// Whether a call of `read` or `write` has failed.
    pub fn failed(&self) -> bool
        ensures { result ≡ has_failed self.now }
    {
        self.failed
    }

    /// A fault, which is remembered.
    fn fault(&mut self) -> IoFault
        ensures { self.new ≡ record self.old { failed = true } }
    {
        self.failed = true;
        IoFault
    }
}

impl<R: Read> Io<R> {
    ghost use Rattle.ec_wire.specs.Stream.{stream, has_failed, taken};

    /// Reads some bytes into the front of `buf` and says how many; none at the end, or where `buf` is empty. After a
    /// fault nothing is known of what `buf` holds.
    pub fn read(&mut self, buf: &mut [u8]) -> Result<usize, IoFault>
        ensures bound { ReadsAtMost result buf.new }
        ensures bytes { ReadConsumes (R.remaining (stream self.old)) (R.remaining (stream self.new)) result buf.new }
        ensures taken { MatchResult result (λ n. taken self.new ≡ min (taken self.old + n) (2 ^ 64 - 1)) (λ _. taken self.new ≡ taken self.old) }
        ensures ok { OnOk result (has_failed self.new ≡ has_failed self.old) }
        ensures err { OnErr result (has_failed self.new ≡ true) }
    {
        match self.inner.read(buf) {
            Ok(count) => {
                self.taken = self.taken.saturating_add(count as u64);
                Ok(count)
            }
            Err(_) => Err(self.fault()),
        }
    }
}

impl<W: Write> Io<W> {
    ghost use Rattle.ec_wire.specs.Stream.{stream, has_failed, taken, WritesFront};

    /// Writes a front of `bytes` and says how many; of some bytes at least one.
    pub fn write(&mut self, bytes: &[u8]) -> Result<usize, IoFault>
        ensures bound { WritesAtMost result bytes.now }
        ensures bytes { WriteAppends (W.contents (stream self.old)) (W.contents (stream self.new)) result bytes.now }
        ensures some { IfOk result (λ n. 0 < length bytes.now → 0 < n) }
        ensures ok { OnOk result (has_failed self.new ≡ has_failed self.old) }
        ensures err { OnErr result (has_failed self.new ≡ true) }
        ensures taken { taken self.new ≡ taken self.old }
    {
        match self.inner.write(bytes) {
            Ok(0) if !bytes.is_empty() => Err(self.fault()),
            Ok(count) => Ok(count),
            Err(_) => Err(self.fault()),
        }
    }

    /// Writes all of the bytes. After a fault a front of them is written.
    pub fn write_whole(&mut self, bytes: &[u8]) -> Result<(), WriteFault>
        ensures all { OnOk result (Appends (W.contents (stream self.old)) (W.contents (stream self.new)) bytes.now) }
        ensures front { WritesFront (W.contents (stream self.old)) (W.contents (stream self.new)) bytes.now }
        ensures ok { OnOk result (has_failed self.new ≡ has_failed self.old) }
        ensures err { OnErr result (has_failed self.new ≡ true) }
        ensures taken { taken self.new ≡ taken self.old }
    {
        let mut at = 0;
        while at < bytes.len() {
            match self.write(&bytes[at..]) {
                Ok(count) => at += count,
                Err(IoFault) => return Err(WriteFault),
            }
        }
        Ok(())
    }
}
