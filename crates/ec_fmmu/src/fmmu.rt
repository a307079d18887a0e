//! FMMU records.

ghost use Rattle.std.specs.Prelude.{◌≡◌};
ghost use Rattle.ec_fmmu.specs.Records.{record_bytes};

use ec_lists::Items;

/// An FMMU record (ETG.1000.4, clause 6.6): `len` bytes from the logical address `logical` on are those from
/// `physical` on in the slave's memory. Bit 0 of the type `kind` is for reading that memory, bit 1 for writing it.
#[derive(Clone, Copy, Debug, PartialEq, Eq)]
pub struct Fmmu {
    pub logical: u32,
    pub len: u16,
    pub physical: u16,
    pub kind: u8,
    pub active: bool,
}

/// The two records of each slave, in file order: the first for its outputs, the second for its inputs. A contract sees
/// them as their list.
pub type Fmmus = Items<[Fmmu; 2]>;

/// The 16 bytes of a record as they stand in a slave's memory (ETG.1000.4, clause 6.6), numbers with their lowest byte
/// first. Whole bytes are mapped: start bits 0, stop bit 7. A record without bytes is 16 zeros. Takes no memory.
pub fn fmmu_bytes(fmmu: &Fmmu) -> [u8; 16]
    ensures { result ≡ record_bytes fmmu.now }
{
    if fmmu.len == 0 {
        return [0; 16];
    }
    let start = fmmu.logical.to_le_bytes();
    let len = fmmu.len.to_le_bytes();
    let physical = fmmu.physical.to_le_bytes();
    [
        start[0],
        start[1],
        start[2],
        start[3],
        len[0],
        len[1],
        0,
        7,
        physical[0],
        physical[1],
        0,
        fmmu.kind,
        u8::from(fmmu.active),
        0,
        0,
        0,
    ]
}
