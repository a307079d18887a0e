//! Groups: what travels in one datagram.

use ec_lists::Items;

/// A group: the units of one slot, period and phase, both in ticks, which share one logical read-write datagram.
///
/// `start` is its logical address, `len` its process bytes, and `counter` the working counter that its slaves give the
/// datagram (ETG.1000.4, clause 5.4).
#[derive(Clone, Copy, Debug, PartialEq, Eq)]
pub struct Group {
    pub slot: u8,
    pub period: u16,
    pub phase: u16,
    pub start: u32,
    pub len: u16,
    pub counter: u16,
}

/// Groups by slot, period and phase. A contract sees them as their list.
pub type Groups = Items<Group>;
