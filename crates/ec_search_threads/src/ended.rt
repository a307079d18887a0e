//! Why a worker ends.

/// Why a worker ends.
#[derive(Clone, Copy, Debug, PartialEq, Eq)]
pub enum Ended {
    /// Nothing can be handed out any more.
    Done,
    /// Memory was refused.
    Memory,
    /// The book refused what it was told.
    Refused,
    /// The time for the search was over.
    Time,
}
