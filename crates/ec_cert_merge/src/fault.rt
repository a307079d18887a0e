//! Why two certificates don't fit together.

/// Why two certificates for the same units don't fit together.
#[derive(Clone, Copy, Debug, PartialEq, Eq)]
pub enum Misfit {
    /// They place the units in another order.
    Order,
    /// Their trees are made by other rules (own profile): of version 1, of versions 2 and 3, or of version 4.
    Rules,
}
