//! Which slots are in use.

ghost use Rattle.std.specs.Prelude.{◌≡◌, ◌<◌, ◌≤◌, replicate, get_or};
ghost use Rattle.ec_loads.specs.InUse.{IsOneMoreIn};

/// How many slots a place can name.
const SLOTS: usize = 256;

/// How many places name each slot, and how many slots some place names.
#[derive(Clone, Copy)]
pub(crate) struct InUse {
    pub counts: [u8; SLOTS],
    pub different: u8,
}

impl InUse {
    /// No slot.
    pub fn none() -> InUse
        ensures counts { result.counts ≡ replicate 256 0 }
        ensures different { result.different ≡ 0 }
    {
        InUse {
            counts: [0; SLOTS],
            different: 0,
        }
    }

    /// One place more names this slot.
    pub fn add(&mut self, slot: u8)
        requires count { get_or self.old.counts slot 0 < 255 }
        requires different { self.old.different < 255 }
        ensures { IsOneMoreIn slot self.old self.new }
    {
        let slot = usize::from(slot);
        if self.counts[slot] == 0 {
            self.different += 1;
        }
        self.counts[slot] += 1;
    }

    /// One place less names this slot.
    pub fn take(&mut self, slot: u8)
        requires count { 1 ≤ get_or self.old.counts slot 0 }
        requires different { 1 ≤ self.old.different }
        ensures { IsOneMoreIn slot self.new self.old }
    {
        let slot = usize::from(slot);
        self.counts[slot] -= 1;
        if self.counts[slot] == 0 {
            self.different -= 1;
        }
    }
}
