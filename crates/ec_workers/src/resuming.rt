//! The planner, where it goes on with a certificate.

ghost use Rattle.std.specs.Prelude.{◌≡◌, ℕ, ◌≤◌, Some, IfOk, IfErr};
ghost use Rattle.ec_cert.specs.IsBestPlan.{value_of};
ghost use Rattle.ec_cert.specs.Parts.{IsPart};
ghost use Rattle.ec_cert.specs.Shapes.{cert_view, shape_of};
ghost use Rattle.ec_workers.specs.Answers.{asked_beyond, GoesBeyond, HasLevelFrom, HasOrder, HasRules, IsOutcome, IsSolveFault, is_strong, KeepsToPart};
ghost use Rattle.ec_workers.specs.Outcomes.{IsPartialCert};

use crate::crewed::resume_by_crew;
use crate::planning::resume_alone;
use ec_cert::{Cert, Part, is_closed};
use ec_outcome::{Outcome, SolveFault};
use ec_search_threads::Gate;
use ec_tree::law_levels_bound;
use ec_units::Units;
use std::alloc::Global;
use std::sync::Wait;
use std::thread::Threads;

/// Goes on with a search that ended without a proof, from its certificate and by the rules of its version, with 1 to 16 workers, which
/// split and close at most `nodes` nodes more (1 to 10,000,000). The order of the units is the certificate's, and so are the tree and the
/// plan from which it goes on, which it never loses: what it finds is as if it had found all of the tree. `gate` is told and asked as
/// `solve` does it. Nothing of the certificate is copied but its order, and once the search has begun its end takes no memory.
///
/// It works only on the open leaves of the tree that `part` has, and on what comes of them; the others stay open leaves. Where all of the
/// part are closed, and others are open, it ends without a proof, by `Cut::Parts`.
///
/// Where no leaf of the tree is open it ends at once. One worker runs in the calling thread; its answer is always the same for the same
/// units, certificate, part and budget, as long as memory is given. Several run as `solve` says, but no first plan is made, and all begin
/// at the value of the certificate's plan if it has one.
///
/// `OutOfMemory` where memory was refused before the search began, `Spawn` where more than one worker was asked for and none could be
/// started.
pub fn solve_from<R: Threads + Wait + Sync, G: Gate + Sync>(
    rt: &R,
    alloc: Global,
    units: &Units,
    cert: Cert,
    part: Part,
    workers: usize,
    nodes: u32,
    gate: &G,
) -> Result<Outcome, SolveFault>
    requires workers { (1 ≤ workers) × (workers ≤ 16) }
    requires nodes { (1 ≤ nodes) × (nodes ≤ 10000000) }
    requires part { IsPart part }
    requires cert { IsPartialCert units.now.units units.now.slots (cert_view cert) }
    ensures outcome { IfOk result (IsOutcome units.now.units units.now.slots (asked_beyond (is_strong (cert_view cert)) workers nodes (shape_of cert.tree) part.count)) }
    ensures beyond { IfOk result (GoesBeyond (shape_of cert.tree) (value_of cert.best) nodes) }
    ensures others { IfOk result (KeepsToPart part (shape_of cert.tree)) }
    ensures level { IfOk result (λ o. (l : ℕ) → cert.level ≡ Some l → HasLevelFrom units.now.units units.now.slots l o) }
    ensures fault { IfErr result (IsSolveFault workers) }
    ensures order { IfOk result (HasOrder cert.order) }
    ensures rules { IfOk result (HasRules (is_strong (cert_view cert))) }
{
    law_levels_bound();
    if workers == 1 || is_closed(&cert.tree) {
        return resume_alone(rt, alloc, units, cert, part, nodes, gate);
    }
    resume_by_crew(rt, alloc, units, cert, part, workers, nodes, gate)
}
