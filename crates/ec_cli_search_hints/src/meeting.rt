//! Units that meet in some tick wherever they are placed.

use ec_cli_spots::are_coprime;
use ec_units::{Unit, bytes_of};
use std::fmt;

/// Two units that may meet.
#[derive(Clone, Copy)]
pub struct Meeting<'a>(&'a Unit, &'a Unit);

impl Meeting<'_> {
    /// Whether their periods are different and have no common divisor but 1: in some tick both travel, whatever their phases are.
    fn is_met(self) -> bool {
        let (one, other) = (self.0.period, self.1.period);
        one != other && are_coprime(u64::from(one), u64::from(other))
    }

    /// The bytes of both.
    pub(crate) fn bytes(self) -> u32 {
        u32::from(bytes_of(self.0)) + u32::from(bytes_of(self.1))
    }
}

impl fmt::Display for Meeting<'_> {
    fn fmt<W: fmt::Write>(&self, f: &mut fmt::Formatter<W>) -> fmt::Result {
        let (one, other) = (self.0.name.as_str(), self.1.name.as_str());
        let (period, its) = (self.0.period, self.1.period);
        write!(
            f,
            "The units \"{one}\" and \"{other}\", with periods {period} and {its}, meet in some tick wherever they are placed"
        )
    }
}

/// The least bytes of a unit of which no two go into one frame, also in one datagram.
const LARGE: u16 = 744;

/// How many units of which no two go into one frame meet in some tick wherever they are placed: large ones whose periods have no common
/// divisor but 1, in pairs, as period 1 has none with any other. Where there are several such sets, one of them is counted.
pub(crate) fn crowd(units: &[Unit]) -> u64 {
    let (mut count, mut product) = (0u64, 1u64);
    for unit in units {
        let period = u64::from(unit.period);
        if bytes_of(unit) >= LARGE && are_coprime(product, period) {
            count = count.saturating_add(1);
            product = product.saturating_mul(period);
        }
    }
    count
}

/// The meeting of a unit with one of some others that has the most bytes, if it has one, or one that was found before and has as many.
fn heaviest_with<'a>(
    found: Option<Meeting<'a>>,
    unit: &'a Unit,
    others: &'a [Unit],
) -> Option<Meeting<'a>> {
    let mut most = found;
    for other in others {
        let meeting = Meeting(unit, other);
        if meeting.is_met() && most.is_none_or(|most| most.bytes() < meeting.bytes()) {
            most = Some(meeting);
        }
    }
    most
}

/// The two of some units that have the most bytes of those that meet in some tick wherever they are placed.
pub(crate) fn heaviest<'a>(units: &'a [Unit]) -> Option<Meeting<'a>> {
    let mut most = None;
    for at in 0..units.len() {
        most = heaviest_with(most, &units[at], &units[at..]);
    }
    most
}
