//! Who is told of the nodes and pieces of a search, and says when the time for it is over.

/// Told by the workers how far a search is, with the value, in wire bytes, that each knows by then: of the best plan that it was
/// told, if there is one. Workers and pieces go by their numbers, from 0.
pub trait Gate {
    /// Told before each node of an exploration. A search takes 7 to 10 % longer where a step on shared memory comes of it.
    fn before(&self, worker: usize, piece: u64, value: Option<u64>);

    /// Told once a piece was explored and reported, with how many nodes that took.
    fn after(&self, _worker: usize, _nodes: u64, _value: Option<u64>) {}

    /// Whether the time for the search is over. Each worker asks before it asks for a piece, and ends where it is. What is
    /// answered may be anything, and what an outcome says doesn't rest on it.
    fn is_over(&self) -> bool;
}

/// A gate that does nothing, and whose time is never over.
pub struct Quiet;

impl Gate for Quiet {
    fn before(&self, _worker: usize, _piece: u64, _value: Option<u64>) {}

    fn is_over(&self) -> bool {
        false
    }
}
