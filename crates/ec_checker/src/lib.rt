//! The checker of certificates: its yes needs no trust in whoever made the certificate.
#![tactic(auto)]

mod best;
mod checking;
mod fault;
mod law;
mod leaf;
mod look;
mod order;
mod same;
mod shown;
mod walk;

pub use checking::{check, check_in, rules_for};
pub use ec_symmetry::Rules;
pub use fault::{CheckFault, Verdict};
pub use law::law_faults_refute;
pub use shown::{level, level_in};
