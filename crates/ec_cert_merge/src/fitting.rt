//! Whether two certificates fit together.

ghost use Rattle.std.specs.Prelude.{◌≡◌, ◌↔◌, IsTrue, MatchOption};
ghost use Rattle.ec_cert.specs.Shapes.{cert_view};
ghost use Rattle.ec_cert.specs.Versions.{rules_of};
ghost use Rattle.ec_cert_merge.specs.Certs.{FitTogether, IsMisfit};

use crate::fault::Misfit;
use ec_cert::Cert;
use ec_checker::rules_for;

/// Whether trees of certificates of these two versions are made by the same rules.
fn have_same_rules(first: u8, second: u8) -> bool
    ensures { IsTrue result ↔ (rules_of first ≡ rules_of second) }
{
    rules_for(first) == rules_for(second)
}

/// Why two certificates for the same units don't fit together, the order before the rules; none where they do. Takes no memory.
pub fn misfit(first: &Cert, second: &Cert) -> Option<Misfit>
    ensures { MatchOption result (FitTogether (cert_view first.now) (cert_view second.now)) (IsMisfit (cert_view first.now) (cert_view second.now)) }
{
    if first.order.as_slice() != second.order.as_slice() {
        return Some(Misfit::Order);
    }
    if !have_same_rules(first.version, second.version) {
        return Some(Misfit::Rules);
    }
    None
}
