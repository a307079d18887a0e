//! What a worker gets.

use ec_loads::Places;

/// A piece that was handed out: its number, the places of the first units of the order that lead to it, the value
/// in wire bytes (none, as long as no plan is known), and how many nodes may be split and closed.
#[derive(Debug, Drop)]
pub struct Took {
    pub piece: u64,
    pub prefix: Places,
    pub value: Option<u64>,
    pub grant: u32,
}

/// The answer to a worker that asks for a piece.
#[derive(Debug, Drop)]
pub enum Taken {
    Piece(Took),
    /// Nothing can be handed out, but a piece that another worker has may still come back or leave pieces.
    Later,
    /// Nothing can be handed out any more.
    Done,
}
