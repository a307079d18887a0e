//! Which kinds of leaf certificates have.

ghost use Rattle.std.specs.Prelude.{◌≡◌};
ghost use Rattle.ec_cert.specs.LeafKinds.{kinds_in};

/// Which kinds of leaf a certificate may have beside ticks, full slots and averages: leaves by weights, leaves that are
/// left open, and by the strong rules merges, counts and groups.
#[derive(Clone, Copy, Debug, PartialEq, Eq)]
pub struct Kinds {
    pub weights: bool,
    pub left_open: bool,
    pub rooms: bool,
}

/// Which kinds certificates of this version with such a level have: weights from version 2 on, open leaves where there
/// is a level, merges, counts and groups from version 4 on.
pub fn kinds_of(version: u8, level: Option<u64>) -> Kinds
    ensures { result ≡ kinds_in version level }
{
    Kinds {
        weights: 2 <= version,
        left_open: level.is_some(),
        rooms: 4 <= version,
    }
}
