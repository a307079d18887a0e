//! When a frame is sent, and which datagram of it came back wrong.

/// When a frame is sent: before the first tick, or in a slot of a tick; both are counted from 0.
#[derive(Clone, Copy, Debug, PartialEq, Eq)]
pub enum Stage {
    Start,
    Tick { tick: u32, slot: u8 },
}

/// A datagram of a frame, counted from 0, the working counter that is wanted of it, and the one with which it came back.
#[derive(Clone, Copy, Debug, PartialEq, Eq)]
pub struct Wrong {
    pub datagram: usize,
    pub want: u16,
    pub got: u16,
}
