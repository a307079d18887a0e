//! Streams that fail at a call.

ghost use Rattle.std.specs.Prelude.{◌≡◌, Some};

use std::io;
use std::io::{ErrorKind, Read, Write};

/// A reader of these bytes that fails at a call.
#[derive(Drop)]
pub struct FailsAt<'a> {
    pub rest: &'a [u8],
    /// How many calls succeed.
    pub calls: u32,
}

impl<'a> Read for FailsAt<'a> {
    ghost remaining = { λ r. Some r.rest.now };

    fn read(&mut self, buf: &mut [u8]) -> io::Result<usize> {
        if self.calls == 0 {
            return Err(io::Error::from(ErrorKind::TimedOut));
        }
        self.calls -= 1;
        self.rest.read(buf)
    }
}

/// A writer that takes at most 16 bytes at a time, and fails at a call.
#[derive(Drop)]
pub struct Slow {
    pub held: Vec<u8>,
    /// How many calls succeed.
    pub calls: u32,
}

impl Write for Slow {
    ghost contents = { λ w. Some w.held.items };

    fn write(&mut self, buf: &[u8]) -> io::Result<usize> {
        if self.calls == 0 {
            return Err(io::Error::from(ErrorKind::BrokenPipe));
        }
        self.calls -= 1;
        let count = buf.len().min(16);
        self.held.extend_from_slice(&buf[..count])?;
        Ok(count)
    }

    fn flush(&mut self) -> io::Result<()> {
        Ok(())
    }
}
