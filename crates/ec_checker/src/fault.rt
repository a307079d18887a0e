//! What the checker answers.

ghost use Rattle.std.specs.Prelude.{◌≡◌};
ghost use Rattle.ec_checker.specs.declared.fault.CheckFault.TheVariants.{OutOfMemory};

use ec_loads::Illegal;
use std::alloc::AllocError;

/// What a certificate shows of all legal plans.
#[derive(Clone, Copy, Debug, PartialEq, Eq)]
pub enum Verdict {
    /// The certificate's plan is legal, its busiest tick costs this, in wire bytes, and every legal plan has a tick that
    /// costs at least this.
    Least(u64),
    /// No plan is legal.
    NoPlan,
    /// The certificate's plan, where it has one, is legal with its stated cost, and every legal plan has a tick that
    /// costs at least this, in wire bytes.
    AtLeast(u64),
}

/// Why a certificate shows nothing. Nodes are numbered from 0, each before its children; a number that a `usize`
/// can't hold is told as the greatest one.
#[derive(Clone, Copy, Debug, PartialEq, Eq)]
pub enum CheckFault {
    /// Memory was refused (K1).
    OutOfMemory,
    /// The slots, the count of units, or the name, bytes or period of a unit are others (K2).
    OtherUnits,
    /// The order doesn't name each unit once (K3).
    Order,
    /// The plan is not legal (K4).
    Plan(Illegal),
    /// The stated cost of the busiest tick, and the plan's own, in wire bytes (K5).
    Value(u64, u64),
    /// A split has not one tree for each child that the rules of its version give: the node, the count of children,
    /// and the count of trees (K6).
    Children(usize, usize, usize),
    /// This leaf doesn't hold, an open one at the level (K7).
    Leaf(usize),
    /// This node is a split where every unit has a place (K8).
    Depth(usize),
    /// The level is above the value: both, in wire bytes. Judged before the nodes (K9).
    Level(u64, u64),
}

impl From<AllocError> for CheckFault {
    ghost from_gives = { λ _ e. e ≡ OutOfMemory };

    fn from(_e: AllocError) -> CheckFault {
        CheckFault::OutOfMemory
    }
}
