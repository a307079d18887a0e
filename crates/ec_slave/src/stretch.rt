//! The bytes of a datagram that an FMMU maps.

ghost use Rattle.std.specs.Prelude.{◌≡◌, ◌<◌};
ghost use Rattle.ec_slave.specs.Logical.{meets};
ghost use Rattle.ec_slave.specs.IsStretch.{IsStretch};

use crate::fmmu::{Direction, Fmmu, Fmmus};

/// All bytes of a datagram that an FMMU maps: `len` of them, from byte `from` of the data on, to the memory from `place` on.
#[derive(Clone, Copy)]
pub(crate) struct Stretch {
    pub from: usize,
    pub len: usize,
    pub place: usize,
}

/// No byte.
const NOTHING: Stretch = Stretch {
    from: 0,
    len: 0,
    place: 0,
};

/// The first address behind logical memory.
const LOGICAL_END: u64 = 0x1_0000_0000;

impl Fmmu {
    /// Those of so many bytes from an address on that it maps to a memory of `size` bytes.
    pub(crate) fn stretch(
        self,
        size: usize,
        direction: Direction,
        address: u32,
        count: usize,
    ) -> Stretch
        requires { count < 65536 }
        ensures { IsStretch self size direction address count result }
    {
        let logical = u64::from(self.logical);
        let address = u64::from(address);
        let physical = usize::from(self.physical);
        let mapped = usize::from(self.len).min(size.saturating_sub(physical)) as u64;
        let from = logical.max(address);
        let end = (logical + mapped)
            .min(address + count as u64)
            .min(LOGICAL_END);
        if !self.has(direction) || end <= from {
            return NOTHING;
        }
        Stretch {
            from: (from - address) as usize,
            len: (end - from) as usize,
            place: physical + (from - logical) as usize,
        }
    }
}

impl Fmmus {
    /// Whether at least one of so many bytes from an address on meets the map.
    pub(crate) fn meets(self, size: usize, direction: Direction, address: u32, count: usize) -> bool
        requires { count < 65536 }
        ensures { result ≡ meets self size direction address count }
    {
        let first = self.first.stretch(size, direction, address, count).len != 0;
        let second = self.second.stretch(size, direction, address, count).len != 0;
        first | second
    }
}
