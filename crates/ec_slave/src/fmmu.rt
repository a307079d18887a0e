//! The FMMUs of a slave.

ghost use Rattle.std.specs.Prelude.{◌≡◌, ◌+◌, ◌≤◌, length};
ghost use Rattle.ec_slave.specs.Fmmus.{fmmu_at, fmmus_in, has};

use byteorder::{ByteOrder, LittleEndian};

/// An FMMU as a slave's memory holds it (ETG.1000.4, clause 6.6): it maps `len` bytes of logical memory from
/// `logical` on to the slave's memory from `physical` on. `reads` and `writes` are false where it isn't active. The bit numbers
/// are ignored (own profile).
#[derive(Clone, Copy, Debug, PartialEq, Eq)]
pub struct Fmmu {
    pub logical: u32,
    pub len: u16,
    pub physical: u16,
    pub reads: bool,
    pub writes: bool,
}

/// FMMU 0 and FMMU 1 of a slave. Where both map a byte, FMMU 1 counts.
#[derive(Clone, Copy, Debug, PartialEq, Eq)]
pub struct Fmmus {
    pub first: Fmmu,
    pub second: Fmmu,
}

/// Whether bytes go from a slave's memory into the datagram or from the datagram into the memory.
#[derive(Clone, Copy, Debug, PartialEq, Eq)]
pub enum Direction {
    Reads,
    Writes,
}

/// Where FMMU 0 stands in the memory; FMMU 1 follows it.
const FMMU_0: usize = 0x0600;

/// The FMMU whose 16 bytes begin here.
fn fmmu_at(memory: &[u8], at: usize) -> Fmmu
    requires { at + 16 ≤ length memory.now }
    ensures { result ≡ fmmu_at memory.now at }
{
    let active = memory[at + 12] % 2 == 1;
    let kind = memory[at + 11];
    Fmmu {
        logical: LittleEndian::read_u32(&memory[at..]),
        len: LittleEndian::read_u16(&memory[at + 4..]),
        physical: LittleEndian::read_u16(&memory[at + 8..]),
        reads: active && kind % 2 == 1,
        writes: active && kind / 2 % 2 == 1,
    }
}

/// The FMMUs of a slave with this memory.
#[tactic(auto, unfolding(crate::specs::Fmmus::fmmus_in))]
pub(crate) fn fmmus_in(memory: &[u8]) -> Fmmus
    requires { 1568 ≤ length memory.now }
    ensures { result ≡ fmmus_in memory.now }
{
    Fmmus {
        first: fmmu_at(memory, FMMU_0),
        second: fmmu_at(memory, FMMU_0 + 16),
    }
}

impl Fmmu {
    pub(crate) fn has(self, direction: Direction) -> bool
        ensures { result ≡ has self direction }
    {
        match direction {
            Direction::Reads => self.reads,
            Direction::Writes => self.writes,
        }
    }
}
