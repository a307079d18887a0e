//! Where a worker takes its pieces from and hands its subtrees in.

ghost use Rattle.std.specs.Prelude.{◌≡◌, ℕ, ◌<◌, ◌≤◌, true, Option, Some, IfOk, IfErr, OnOk, length, drop};
ghost use Rattle.ec_loads.specs.Line.{line_by};
ghost use Rattle.ec_loads.specs.Search.{BoundsAll, IsPartialTree, node_count};
ghost use Rattle.ec_symmetry.specs.Orders.{prefix_of};
ghost use Rattle.ec_symmetry.specs.Ruled.{line_rules};
ghost use Rattle.ec_cert.specs.Shapes.{shape_of};
ghost use Rattle.ec_book.specs.Faults.{IsPlanOf};
ghost use Rattle.ec_search_queues.specs.Lowest.{IsAtMost};
ghost use Rattle.ec_search_threads.specs.Turns.{IsAhead};

use crate::ended::Ended;
use ec_book::{BookFault, Took};
use ec_book_shared::Search;
use ec_cert::{Best, Subtree};
use ec_symmetry::Rules;

/// Where a worker calls the book of a search from: a book of its own, or a seat at a shared one. Contracts see the value that others
/// published, as far as the worker knows it, the values that are some book's of the search, and which pieces the worker is rid of.
pub(crate) trait Desk<S: Search> {
    ghost known: { Self → Option ℕ };

    ghost is_value: { Self → Option ℕ → Type 0 };

    ghost left: { Self → ℕ → Type 0 };

    /// The worker's number.
    fn worker(&self) -> usize;

    /// The rules by which the search makes its tree.
    fn rules(&self) -> Rules
        ensures { line_rules result ≡ S.rules };

    /// The least value that others published, in wire bytes.
    fn read(&mut self) -> Option<u64>
        ensures falls { IsAtMost result (known self.old) }
        ensures known { known self.new ≡ result };

    /// Offers a legal plan with what its busiest tick costs; gives the value from then on, which is that cost where the book took the
    /// plan, else the book's. Why the worker ends, if it does.
    fn improve(&mut self, best: Best) -> Result<u64, Ended>
        requires plan { IsPlanOf S.loads S.slots best.plan.places best.busiest }
        ensures value { IfOk result (λ v. v ≤ best.busiest) }
        ensures least { IfOk result (λ v. (x : ℕ) → BoundsAll S.loads S.slots (Some x) → x ≤ v) }
        ensures from { IfOk result (λ v. is_value self.new (Some v)) }
        ensures falls { IsAtMost (known self.new) (known self.old) };

    /// Reports the subtree of a piece that the worker has taken.
    fn report(&mut self, took: &Took, sub: Subtree) -> Result<(), BookFault>
        requires tree { IsPartialTree (line_by S.rules S.loads S.slots) sub.threshold (shape_of sub.tree) (prefix_of S.loads S.order took.now.prefix) (drop (length took.now.prefix) S.order) }
        requires some { 0 < node_count (shape_of sub.tree) }
        ensures left { OnOk result (left self.new took.now.piece) }
        ensures ahead { IfErr result (IsAhead (is_value self.new) sub.threshold) };

    /// Gives a piece back; false where it isn't the worker's.
    fn give_back(&mut self, piece: u64) -> bool
        ensures { result ≡ true → left self.new piece };
}
