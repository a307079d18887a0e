//! The version of certificates by their rules.

ghost use Rattle.std.specs.Prelude.{◌≡◌};
ghost use Rattle.ec_cert.specs.Versions.{rules_of};
ghost use Rattle.ec_cert_merge.specs.Certs.{version_by};

use ec_checker::{Rules, rules_for};

/// The version of certificates by the rules of this version, with such a level.
pub(crate) fn version_for(version: u8, level: Option<u64>) -> u8
    ensures { result ≡ version_by (rules_of version) level }
{
    match rules_for(version) {
        Rules::Plain => 1,
        Rules::Turned => { if level.is_some() { 3 } else { 2 } }
        Rules::Strong => 4,
    }
}
