//! Pieces of a search.

/// What became of a piece.
#[derive(Clone, Copy, PartialEq, Eq, Debug)]
pub enum Piece {
    /// Anyone may take it.
    Free,
    /// A worker has it, and may split and close so many nodes of it.
    Taken { worker: usize, grant: u32 },
    /// Its subtree was reported.
    Ended,
}
