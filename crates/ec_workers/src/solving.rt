//! The planner, whatever the number of its workers.

ghost use Rattle.std.specs.Prelude.{◌≤◌, None, IfOk, IfErr};
ghost use Rattle.ec_units.specs.Load.{loads_of};
ghost use Rattle.ec_loads.specs.Shape.{open_leaf};
ghost use Rattle.ec_workers.specs.Answers.{asked_for, GoesBeyond, HasRules, HasSearchOrder, IsOutcome, IsSolveFault};

use crate::crewed::solve_by_crew;
use crate::planning::solve_alone;
use ec_outcome::{Outcome, SolveFault};
use ec_search_threads::Gate;
use ec_units::Units;
use std::alloc::Global;
use std::sync::Wait;
use std::thread::Threads;

/// Searches for a plan whose busiest tick costs least, with 1 to 16 workers, which split and close at most `nodes` nodes of the tree (1 to
/// 10,000,000); the plan that is offered first counts none. By the `strong` rules, those of certificates of version 4, they place the units
/// in the order that `strong_order` gives, and `first_plan` is offered; else in that of `search_order`, and the greedy plan is. `gate` is
/// told before each node, and asked before each piece whether the time is over; then the search ends, with all that it found. Once it has
/// begun its end takes no memory.
///
/// One worker runs in the calling thread, and its answer is always the same for the same units and budget, as long as memory is given.
/// Several run each in a thread of its own; one that can't be started is left out. Before they start, worker 0 splits and closes single
/// nodes, of which `gate` isn't told, until as many pieces are free as there are workers. Which of several optimal plans they give, and
/// with which certificate, hangs on the order in which their pieces end; what an outcome says is so whatever that order is.
///
/// `OutOfMemory` where memory was refused before the search began, `Spawn` where more than one worker was asked for and none could be
/// started.
pub fn solve<R: Threads + Wait + Sync, G: Gate + Sync>(
    rt: &R,
    alloc: Global,
    units: &Units,
    workers: usize,
    nodes: u32,
    strong: bool,
    gate: &G,
) -> Result<Outcome, SolveFault>
    requires workers { (1 ≤ workers) × (workers ≤ 16) }
    requires nodes { (1 ≤ nodes) × (nodes ≤ 10000000) }
    ensures outcome { IfOk result (IsOutcome units.now.units units.now.slots (asked_for strong workers nodes)) }
    ensures beyond { IfOk result (GoesBeyond open_leaf None nodes) }
    ensures order { IfOk result (HasSearchOrder strong (loads_of units.now.units)) }
    ensures rules { IfOk result (HasRules strong) }
    ensures fault { IfErr result (IsSolveFault workers) }
{
    if workers == 1 {
        return solve_alone(rt, alloc, units, nodes, strong, gate);
    }
    solve_by_crew(rt, alloc, units, workers, nodes, strong, gate)
}
