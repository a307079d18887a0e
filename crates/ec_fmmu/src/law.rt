//! Laws of the addresses.

ghost use Rattle.ec_fmmu.specs.Addresses.{OrderIsByAddress, AddressesAreWithin, AddressesHaveNoGap, AddressesAreApart};

/// Of any two process bytes one stands before the other, in the order of slot, period, phase, unit, slave, outputs before
/// inputs, offset, exactly if its logical address is less. The addresses are 0x00010000 and those after it, as many as
/// there are process bytes; at each of them lies one process byte, and no other.
pub fn law_addresses_in_order()
    ensures order { OrderIsByAddress }
    ensures within { AddressesAreWithin }
    ensures whole { AddressesHaveNoGap }
    ensures apart { AddressesAreApart }
{}
