//! What is proved of a plan.

/// What is proved of a plan beside that it is legal (own profile).
#[derive(Clone, Copy, Debug, PartialEq, Eq)]
pub enum Claim {
    /// Nothing: the plan is that of the places in the units.
    Nothing,
    /// No legal plan has a busiest tick that costs less.
    Optimal,
    /// Every legal plan has a tick that costs at least so many bytes on the wire.
    AtLeast { level: u64 },
}
