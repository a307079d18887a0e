//! What a certificate says as the outcome of a search.

ghost use Rattle.std.specs.Prelude.{◌≡◌, ℕ, ◌<◌, None, Some, IfOk};
ghost use Rattle.ec_loads.specs.Search.{open_count};
ghost use Rattle.ec_cert.specs.IsBestPlan.{value_of};
ghost use Rattle.ec_cert.specs.Shapes.{cert_view, shape_of};
ghost use Rattle.ec_outcome.specs.declared.search.Cut.TheVariants.{Parts};
ghost use Rattle.ec_workers.specs.Answers.{Asked, HasCut, HasLevelFrom, HasOrder, HasRules, IsOutcome, is_strong, tree_in, value_in};
ghost use Rattle.ec_cert_merge.specs.Certs.{HasBest, IsProved, IsProven};

use crate::version::version_for;
use ec_cert::{Cert, is_closed};
use ec_checker::law_faults_refute;
use ec_outcome::{Cut, Outcome};
use ec_tree::{law_levels_bound, law_trees_bound};
use ec_units::Units;
use std::alloc::{AllocError, Global};

/// What a certificate with an open leaf says. Takes no memory.
fn unproved(units: &Units, cert: Cert) -> Outcome
    requires proven { IsProven units.now.units units.now.slots (cert_view cert) }
    requires some { 0 < open_count (shape_of cert.tree) }
    ensures outcome { (asked : Asked) × IsOutcome units.now.units units.now.slots asked result }
    ensures tree { tree_in result ≡ shape_of cert.tree }
    ensures value { value_in result ≡ value_of cert.best }
    ensures best { HasBest cert.best result }
    ensures order { HasOrder cert.order result }
    ensures rules { HasRules (is_strong (cert_view cert)) result }
    ensures cut { HasCut Parts result }
{
    let strong = 3 < cert.version;
    Outcome::Unproved {
        best: cert.best,
        order: cert.order,
        tree: cert.tree,
        strong,
        cut: Cut::Parts,
    }
}

/// The certificate without a level, where no leaf of its tree is open. Takes no memory.
fn settled(units: &Units, cert: Cert) -> Cert
    requires proven { IsProven units.now.units units.now.slots (cert_view cert) }
    requires none { open_count (shape_of cert.tree) ≡ 0 }
    ensures proven { IsProven units.now.units units.now.slots (cert_view result) }
    ensures rules { is_strong (cert_view result) ≡ is_strong (cert_view cert) }
    ensures level { result.level ≡ None }
    ensures order { result.order ≡ cert.order }
    ensures best { result.best ≡ cert.best }
    ensures tree { shape_of result.tree ≡ shape_of cert.tree }
{
    let version = version_for(cert.version, None);
    Cert {
        version,
        slots: units.slots,
        units: cert.units,
        order: cert.order,
        best: cert.best,
        level: None,
        tree: cert.tree,
    }
}

/// What a certificate without a level says.
fn proved(alloc: Global, units: &Units, cert: Cert) -> Result<Outcome, AllocError>
    requires proven { IsProven units.now.units units.now.slots (cert_view cert) }
    requires level { cert.level ≡ None }
    ensures outcome { IfOk result (λ o. (asked : Asked) → IsOutcome units.now.units units.now.slots asked o) }
    ensures tree { IfOk result (λ o. tree_in o ≡ shape_of cert.tree) }
    ensures value { IfOk result (λ o. value_in o ≡ value_of cert.best) }
    ensures best { IfOk result (HasBest cert.best) }
    ensures order { IfOk result (HasOrder cert.order) }
    ensures rules { IfOk result (HasRules (is_strong (cert_view cert))) }
    ensures proof { IfOk result IsProved }
{
    law_faults_refute();
    law_trees_bound();
    let (plan, busiest) = match &cert.best {
        None => return Ok(Outcome::NoPlan { cert }),
        Some(best) => (best.plan.copied(alloc)?, best.busiest),
    };
    Ok(Outcome::Optimal {
        plan,
        busiest,
        cert,
    })
}

/// What a proven certificate says as the outcome of a search: where no leaf of its tree is open, its plan is optimal or no
/// plan is legal; else it ended without a proof, since leaves are left to other parts. Only the places of its plan are
/// copied.
pub fn outcome_of(alloc: Global, units: &Units, cert: Cert) -> Result<Outcome, AllocError>
    requires { IsProven units.now.units units.now.slots (cert_view cert) }
    ensures outcome { IfOk result (λ o. (asked : Asked) × IsOutcome units.now.units units.now.slots asked o) }
    ensures tree { IfOk result (λ o. tree_in o ≡ shape_of cert.tree) }
    ensures value { IfOk result (λ o. value_in o ≡ value_of cert.best) }
    ensures best { IfOk result (HasBest cert.best) }
    ensures order { IfOk result (HasOrder cert.order) }
    ensures rules { IfOk result (HasRules (is_strong (cert_view cert))) }
    ensures level { IfOk result (λ o. (l : ℕ) → cert.level ≡ Some l → HasLevelFrom units.now.units units.now.slots l o) }
    ensures proof { open_count (shape_of cert.tree) ≡ 0 → IfOk result IsProved }
    ensures cut { 0 < open_count (shape_of cert.tree) → IfOk result (HasCut Parts) }
{
    law_levels_bound();
    if !is_closed(&cert.tree) {
        return Ok(unproved(units, cert));
    }
    proved(alloc, units, settled(units, cert))
}
