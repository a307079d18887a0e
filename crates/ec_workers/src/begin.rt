//! How a search begins: by which rules, and in which order of the units.

ghost use Rattle.std.specs.Prelude.{◌≡◌, IfOk};
ghost use Rattle.ec_units.specs.Load.{loads_of};
ghost use Rattle.ec_cert.specs.Shapes.{cert_view};
ghost use Rattle.ec_symmetry.specs.Ruled.{line_rules};
ghost use Rattle.ec_outcome.specs.Searched.{searched_by};
ghost use Rattle.ec_workers.specs.Answers.{IsOrderBy, is_strong as strong_spec};

use ec_branch::{search_order, strong_order};
use ec_cert::Cert;
use ec_symmetry::Rules;
use ec_units::Units;
use std::alloc::{AllocError, Global};

/// The rules by which a search makes its tree: the strong ones, or turned time.
pub fn rules_by(strong: bool) -> Rules
    ensures { line_rules result ≡ searched_by strong }
{
    if strong { Rules::Strong } else { Rules::Turned }
}

/// Whether a certificate is of the strong rules, those of version 4.
pub(crate) fn is_strong(cert: &Cert) -> bool
    ensures { result ≡ strong_spec (cert_view cert.now) }
{
    3 < cert.version
}

/// The order in which a search places the units: by the strong rules the least period first, and of one period the most
/// bytes; else by the bytes that they send in a hyperperiod.
pub(crate) fn order_by(alloc: Global, units: &Units, strong: bool) -> Result<Vec<u8>, AllocError>
    ensures { IfOk result (λ order. IsOrderBy strong (loads_of units.now.units) order.items) }
{
    if strong {
        strong_order(alloc, units)
    } else {
        search_order(alloc, units)
    }
}
