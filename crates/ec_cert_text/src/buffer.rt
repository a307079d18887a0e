//! Lines that wait to be written together.

ghost use Rattle.std.specs.Prelude.{◌≡◌, ◌++◌, [], true, OnOk, OnErr};
ghost use Rattle.std.specs.Io.KnownBytes.{Appends};
ghost use Rattle.ec_wire.specs.Stream.{stream, has_failed, WritesFront};
ghost use Rattle.ec_cert_text.specs.Gathers.{Gathers, GathersFront};

use arrayvec::ArrayVec;
use ec_wire::{Io, WriteFault};
use std::io::Write;

/// Bytes that wait to be written: as many as one call of the system takes well.
#[derive(Drop)]
pub(crate) struct Waiting {
    pub bytes: ArrayVec<u8, 4096>,
}

impl Waiting {
    /// Nothing waits; takes no memory.
    pub(crate) fn new() -> Waiting
        ensures { result.bytes.items ≡ [] }
    {
        Waiting {
            bytes: ArrayVec::new(),
        }
    }

    /// Writes what waits.
    pub(crate) fn flush<W: Write>(&mut self, io: &mut Io<W>) -> Result<(), WriteFault>
        ensures all { OnOk result (Appends (W.contents (stream io.old)) (W.contents (stream io.new)) self.old.bytes.items) }
        ensures empty { OnOk result (self.new.bytes.items ≡ []) }
        ensures front { WritesFront (W.contents (stream io.old)) (W.contents (stream io.new)) self.old.bytes.items }
        ensures ok { OnOk result (has_failed io.new ≡ has_failed io.old) }
        ensures err { OnErr result (has_failed io.new ≡ true) }
    {
        io.write_whole(self.bytes.as_slice())?;
        self.bytes.clear();
        Ok(())
    }

    /// Lets these bytes wait behind what waits already, which is written where there is no room for both.
    pub(crate) fn write<W: Write>(&mut self, io: &mut Io<W>, bytes: &[u8]) -> Result<(), WriteFault>
        ensures all { OnOk result (Gathers (W.contents (stream io.old)) self.old.bytes.items (W.contents (stream io.new)) self.new.bytes.items bytes.now) }
        ensures front { GathersFront (W.contents (stream io.old)) self.old.bytes.items (W.contents (stream io.new)) bytes.now }
        ensures ok { OnOk result (has_failed io.new ≡ has_failed io.old) }
        ensures err { OnErr result (has_failed io.new ≡ true) }
    {
        if self.bytes.try_extend_from_slice(bytes).is_ok() {
            return Ok(());
        }
        self.flush(io)?;
        if self.bytes.try_extend_from_slice(bytes).is_ok() {
            return Ok(());
        }
        io.write_whole(bytes)
    }
}
