//! What is told of a tick that was played.

use ec_lists::Items;

/// Working counters, frame by frame and datagram by datagram. A contract sees them as their list.
pub type Counters = Items<u16>;

/// A tick that was played: its frames, the bytes that they take on the wire (IEEE 802.3), and the working counters with which their
/// datagrams came back.
#[derive(Debug, Drop)]
pub struct TickRow {
    pub frames: u32,
    pub bytes: u64,
    pub counters: Counters,
}

/// Ticks in the order in which they were played. A contract sees them as their list.
pub type Rows = Items<TickRow>;
