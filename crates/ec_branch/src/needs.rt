//! What is left to place, for each count of units that are left.

ghost use Rattle.std.specs.Prelude.{◌≡◌, ◌<◌, ◌≤◌, length};

use crate::waiting::{
    MOST_PERIOD, MOST_UNITS, NO_UNITS, bytes_of, insert, is_last, period_end, period_of,
    period_start,
};
use ec_loads::{GROUP_BYTES, Loads};
use ec_units::Load;
use std::alloc::{AllocError, Global};

/// The units of a period that are left: their bytes, the bytes of a hyperperiod that a new group costs, where the classes
/// of the period begin in a row, and which sizes are theirs.
#[derive(Clone, Copy, Debug)]
pub(crate) struct Need {
    pub period: u16,
    pub bytes: u32,
    pub group: u32,
    pub start: usize,
    pub first: usize,
    pub end: usize,
}

/// How many units of a period that are left have at least so many bytes. The inverse, more than 2^31 divided by the bytes
/// by at most 1, gives quotients of rooms without a division: they are right up to 100,000 bytes.
#[derive(Clone, Copy, Debug)]
pub(crate) struct Size {
    pub bytes: u16,
    pub count: u32,
    pub inverse: u32,
}

/// More than 2^31 divided by so many bytes, by at most 1.
fn inverse_of(bytes: u16) -> u32
    requires { 1 ≤ bytes }
{
    (1u32 << 31) / u32::from(bytes) + 1
}

/// What is left where so many of the last units of an order are: the periods in ascending order, each with its sizes by
/// falling bytes. The width of a row is the sum of all periods.
#[derive(Drop)]
pub(crate) struct Needs {
    ends: Vec<usize>,
    needs: Vec<Need>,
    sizes: Vec<Size>,
    starts: [u16; MOST_PERIOD + 1],
    width: usize,
}

/// The period of a need, in ticks.
pub(crate) fn period_in(need: Need) -> u16
    ensures least { 1 ≤ result }
    ensures most { result ≤ 60 }
{
    need.period.clamp(1, 60)
}

impl Needs {
    /// Of no unit.
    pub(crate) fn none(alloc: Global) -> Needs {
        Needs {
            ends: Vec::new(alloc),
            needs: Vec::new(alloc),
            sizes: Vec::new(alloc),
            starts: [0; MOST_PERIOD + 1],
            width: 0,
        }
    }

    /// Of these units, which are left in this order.
    pub(crate) fn of(alloc: Global, loads: &Loads, order: &[u8]) -> Result<Needs, AllocError> {
        let mut needs = Needs::none(alloc);
        needs.lay_out(loads, order);
        needs.gather(loads, order)?;
        Ok(needs)
    }

    /// The width of a row.
    pub(crate) fn width(&self) -> usize {
        self.width
    }

    /// Where the classes of each period begin in a row.
    pub(crate) fn starts(&self) -> &[u16; MOST_PERIOD + 1] {
        &self.starts
    }

    /// Where the needs begin and end, where so many units are left.
    pub(crate) fn range(&self, left: usize) -> (usize, usize) {
        if left == 0 || left >= self.ends.len() {
            return (0, 0);
        }
        (self.ends[left - 1], self.ends[left])
    }

    /// A need by its number.
    pub(crate) fn need(&self, number: usize) -> Option<Need> {
        self.needs.as_slice().get(number).copied()
    }

    /// The sizes of a need.
    pub(crate) fn sizes(&self, need: Need) -> &[Size] {
        match self.sizes.as_slice().get(need.first..need.end) {
            Some(sizes) => sizes,
            None => &[],
        }
    }

    /// Gives each period of these units its place in a row.
    fn lay_out(&mut self, loads: &Loads, order: &[u8]) {
        let all = loads.loads();
        let mut seen = [false; MOST_PERIOD + 1];
        for unit in order {
            let unit = usize::from(*unit);
            if unit < all.len() {
                let period = usize::from(period_of(all[unit]));
                if !seen[period] {
                    seen[period] = true;
                    self.starts[period] = self.width.min(65_535) as u16;
                    self.width = self.width.saturating_add(period);
                }
            }
        }
    }

    /// Adds what is left for each count of these units, from 0 on.
    fn gather(&mut self, loads: &Loads, order: &[u8]) -> Result<(), AllocError> {
        let all = loads.loads();
        let mut table = NO_UNITS;
        let mut count = 0usize;
        self.ends.push(0)?;
        for i in 0..order.len() {
            let unit = usize::from(order[order.len() - 1 - i]);
            if count < MOST_UNITS && unit < all.len() {
                let at = insert(&mut table, count, all[unit]);
                count += 1;
                self.add(&table[..count], at, loads.ticks())?;
            }
            self.ends.push(self.needs.len())?;
        }
        Ok(())
    }

    /// Adds the needs of these units, which stand by ascending period and by falling bytes: those of the units before,
    /// without the one that stands here, but for its period.
    fn add(&mut self, left: &[Load], at: usize, ticks: u32) -> Result<(), AllocError>
        requires { at < length left.now }
    {
        let end = period_end(left, at);
        let group = &left[period_start(left, at)..end];
        let need = self.need_of(group, ticks)?;
        let (first, end) = self.range(self.ends.len().saturating_sub(1));
        self.copy(first, end, 0, need.period)?;
        self.needs.push(need)?;
        self.copy(first, end, need.period.saturating_add(1), u16::MAX)
    }

    /// Adds needs that are there once more: those with a period from one on and below another one.
    fn copy(&mut self, first: usize, end: usize, from: u16, below: u16) -> Result<(), AllocError> {
        for number in first..end {
            if let Some(need) = self.need(number) {
                if need.period >= from && need.period < below {
                    self.needs.push(need)?;
                }
            }
        }
        Ok(())
    }

    /// The need of these units, all of one period, whose sizes are added.
    fn need_of(&mut self, group: &[Load], ticks: u32) -> Result<Need, AllocError>
        requires { 0 < length group.now }
    {
        let period = period_of(group[0]);
        let first = self.sizes.len();
        let mut bytes = 0u32;
        let mut count = 0u32;
        for i in 0..group.len() {
            bytes = bytes.saturating_add(u32::from(group[i].bytes));
            count = count.saturating_add(1);
            if is_last(group, i) {
                let bytes = bytes_of(group[i]);
                self.sizes.push(Size {
                    bytes,
                    count,
                    inverse: inverse_of(bytes),
                })?;
            }
        }
        Ok(Need {
            period,
            bytes,
            group: GROUP_BYTES.saturating_mul(ticks / u32::from(period)),
            start: usize::from(self.starts[usize::from(period)]),
            first,
            end: self.sizes.len(),
        })
    }
}
