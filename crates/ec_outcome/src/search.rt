//! What comes of a search.

use ec_cert::{Best, Cert, Order, Tree};
use ec_loads::Plan;
use std::alloc::AllocError;

/// Why a search ended without a proof. Refusals by the book come first, then a spent budget, then a part that is done. Of memory and time
/// one worker tells which ended it; of several workers memory comes first. The rest is `Journal`.
#[derive(Clone, Copy, Debug, PartialEq, Eq)]
pub enum Cut {
    /// The book refused a worker, or what the workers wrote down doesn't agree.
    Journal,
    /// All nodes that were allowed are split or closed, and a leaf is still open.
    Budget,
    /// Memory was refused.
    Memory,
    /// The time for the search was over, and a leaf is still open.
    Time,
    /// The leaves that are open are left to other parts.
    Parts,
}

/// What comes of a search. Costs are in wire bytes.
#[derive(Debug, Drop)]
pub enum Outcome {
    /// The plan is legal, its busiest tick costs `busiest`, and every legal plan has a tick that costs at least that;
    /// the certificate shows it.
    Optimal {
        plan: Plan,
        busiest: u64,
        cert: Cert,
    },
    /// No plan is legal; the certificate shows it.
    NoPlan {
        cert: Cert,
    },
    /// The best plan that was found, if any, and the tree so far, in this order of the units; whether it goes by the strong
    /// rules.
    Unproved {
        best: Option<Best>,
        order: Order,
        tree: Tree,
        strong: bool,
        cut: Cut,
    },
}

/// Why there is no outcome.
#[derive(Clone, Copy, Debug, PartialEq, Eq)]
pub enum SolveFault {
    /// Memory was refused before the search began.
    OutOfMemory,
    /// No worker could be started.
    Spawn,
}

impl From<AllocError> for SolveFault {
    ghost use Rattle.std.specs.Prelude.{◌≡◌};
    ghost use Rattle.ec_outcome.specs.declared.search.SolveFault.TheVariants.{OutOfMemory};

    ghost from_gives = { λ _ e. e ≡ OutOfMemory };

    fn from(_: AllocError) -> SolveFault {
        SolveFault::OutOfMemory
    }
}
