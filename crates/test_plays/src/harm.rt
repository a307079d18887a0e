//! What a slave that misbehaves does to each frame.

/// What is done to a frame that passed.
#[derive(Clone, Copy, Debug)]
pub(crate) enum Harm {
    /// Only its first bytes are kept.
    Cut(usize),
    /// A byte is put in place of one of its own, from the frame with this number on.
    Put { at: usize, byte: u8, from: u32 },
    /// 1 is added to a byte.
    Count(usize),
    /// A byte 0 is appended.
    Longer,
}
