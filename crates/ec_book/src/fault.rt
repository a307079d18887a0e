//! Why a book refuses a call.

use ec_loads::Illegal;

/// Why a call is refused. Costs are in wire bytes.
#[derive(Clone, Copy, PartialEq, Eq, Debug)]
pub enum BookFault {
    OutOfMemory,
    /// Nobody has taken this piece.
    NotTaken,
    /// Another worker has taken this piece.
    NotYours,
    /// The subtree holds at a threshold below this value, the book's.
    AheadOfBook(Option<u64>),
    /// The subtree has more nodes than were granted.
    OverGrant,
    /// The plan's busiest tick doesn't cost less than this value, the book's.
    NotBetter(u64),
    /// The plan isn't legal.
    Illegal(Illegal),
    /// The subtree's prefix isn't that of the piece.
    Stranger,
    /// The piece isn't free, is of another part, or there is no such piece.
    NotFree,
}
