//! How many new groups a period needs.

/// How many new groups (`count`) the units of a period without a place need at least. A new group is one of a phase that no unit of the
/// period has so far. `room`, in bytes, shows it: fewer new groups, with `room` bytes in each, and what every phase has room for beside
/// that, hold less than these units send. At a count of 0 the room says nothing.
#[derive(Clone, Copy, Debug, PartialEq, Eq)]
pub struct Pair {
    pub count: u16,
    pub room: u16,
}
