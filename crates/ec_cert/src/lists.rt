//! The units of a certificate.

use ec_lists::Items;
use ec_units::Name;

/// What a certificate says of a unit: its name, its process bytes and its period in ticks.
#[derive(Debug, Drop)]
pub struct UnitLine {
    pub name: Name,
    pub bytes: u16,
    pub period: u16,
}

/// The units of a certificate, in file order. A contract sees them as their list.
pub type UnitLines = Items<UnitLine>;
