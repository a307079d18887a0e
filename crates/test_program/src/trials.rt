//! What no text can say of the crates below: bytes that aren't text, certificates by hand, and lists that go in and out.

mod certs;
mod frames;
mod hyper;
mod placing;
mod slave;
mod tickets;
mod wire;

use ec_cert_text::law_one_text_each;
use ec_unit_text::{UnitFault, read_units};
use ec_units::{Name, Slaves, UnitList};
use std::alloc::{AllocError, Global};

/// The byte that two hexadecimal digits are.
fn byte_of(digits: &str) -> u8 {
    u8::from_str_radix(digits, 16).unwrap_or(0)
}

const ONE_UNIT: &[u8] =
    b"tick_ns = 80\nslots = 1\nunit = [{name = \"a\", period = 1, slave = [{station = 1, out_bytes = 4, in_bytes = 0}]}]\n";

/// How many units and slaves a text has, whose lists were taken apart and made again.
fn counts(alloc: Global, text: &[u8]) -> Result<(usize, usize), UnitFault> {
    let units = read_units(alloc, text)?;
    let list = UnitList::new(units.units.into_vec()).into_vec();
    let mut slaves = 0usize;
    let count = list.len();
    for unit in list {
        let some = Slaves::new(unit.slaves.into_vec());
        slaves = slaves.saturating_add(some.as_slice().len());
    }
    Ok((count, slaves))
}

#[test]
fn lists_go_in_and_out(rt: HostRuntime) -> Result<(), AllocError> {
    let name = Name::new(String::from_str(rt.alloc(), "a")?).into_string();
    let counts = [
        counts(rt.alloc(), ONE_UNIT),
        // bytes that aren't text
        counts(rt.alloc(), b"tick_ns = \"\xFF\""),
    ];
    assert_eq!(rt;
        (name.as_str(), counts),
        ("a", [Ok((1, 1)), Err(UnitFault::NotToml)])
    );
    Ok(())
}

#[test]
fn laws() {
    law_one_text_each();
}
