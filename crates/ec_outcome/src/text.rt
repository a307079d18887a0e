//! What comes of frames whose lines or capture file can't be made.

use std::alloc::AllocError;

/// Over what memory ran out.
#[derive(Clone, Copy, Debug, PartialEq, Eq)]
pub enum TextFault {
    /// The image of zeros, or the frames of a tick.
    Frames,
    /// The text, or the bytes of the capture file.
    Text,
}

impl From<AllocError> for TextFault {
    fn from(_error: AllocError) -> TextFault {
        TextFault::Text
    }
}
