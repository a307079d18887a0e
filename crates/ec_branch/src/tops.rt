//! What the classes of periods cost, for each count of units that are left. The class of a phase is the ticks in which
//! what has its period and this phase travels; it is open where a unit has them.

ghost use Rattle.std.specs.Prelude.{◌≡◌, ◌+◌, ◌%◌, ◌<◌, ◌≤◌, get_or, length};

use crate::needs::{Need, Needs, period_in};
use crate::waiting::{MOST_PERIOD, period_of};
use ec_bounds::Ticks;
use ec_loads::{GROUP_BYTES, Loads};
use ec_units::Load;
use std::alloc::{AllocError, Global};

/// What a frame costs beside its groups, without padding, in bytes.
const FRAME_BYTES: u16 = 40;

/// More than any tick: a mark is so many times what the group of its class costs, and a tick.
const MARK: u16 = 4096;

/// A class: its cost, which is its top, the greatest of 40 bytes and of what its ticks cost without padding, and what its
/// group costs, nothing where it is open, in bytes together; and the mark of what its group costs and of a tick that costs
/// as much as the top, where one does.
#[derive(Clone, Copy, Debug)]
pub(crate) struct Class {
    pub cost: u16,
    pub mark: u16,
}

/// A class with nothing in it.
const EMPTY: Class = Class {
    cost: FRAME_BYTES + GROUP_BYTES as u16,
    mark: GROUP_BYTES as u16 * MARK,
};

/// Whether a class is open.
pub(crate) fn is_open(class: Class) -> bool {
    class.mark < MARK
}

/// What the group of a class costs, in bytes; 0 where it is open.
fn head_of(class: Class) -> u16
    ensures { result ≤ 15 }
{
    class.mark / MARK
}

/// Raises the top of a class to what a tick of it costs without padding, in bytes, and keeps the tick where that is more.
fn raise_class(class: &mut Class, cost: u16, tick: u32)
    requires { cost ≤ 60000 }
{
    let raised = cost + head_of(*class);
    if raised > class.cost {
        class.cost = raised;
        class.mark = (class.mark & !(MARK - 1)) | (tick % u32::from(MARK)) as u16;
    }
}

/// The tick of one of these classes, by its number; 0 where there is none.
fn tick_at(classes: &[Class], at: usize) -> u32
    ensures { result ≡ (get_or classes.now at (record { cost = 0; mark = 0 })).mark % 4096 }
{
    match classes.get(at) {
        Some(class) => u32::from(class.mark % MARK),
        None => 0,
    }
}

/// Where the classes of a period begin in a row; 0 where it has none.
fn start_at(starts: &[u16; MOST_PERIOD + 1], period: u16) -> usize
    ensures value { result ≡ get_or starts.now period 0 }
    ensures bound { result ≤ 65535 }
{
    let period = usize::from(period);
    if period > MOST_PERIOD {
        return 0;
    }
    usize::from(starts[period])
}

/// The ticks that cost most: those of the classes of a row, in which the periods begin here.
#[derive(Clone, Copy)]
pub(crate) struct Costly<'a> {
    classes: &'a [Class],
    starts: &'a [u16; MOST_PERIOD + 1],
}

impl<'a> Ticks for Costly<'a> {
    ghost ticks = { λ s p f. (get_or s.classes.now (get_or s.starts.now p 0 + f) (record { cost = 0; mark = 0 })).mark % 4096 };

    fn tick(&self, period: u16, phase: u16) -> u32 {
        tick_at(
            self.classes,
            start_at(self.starts, period) + usize::from(phase),
        )
    }
}

/// The unit that got its place last, and its phase.
#[derive(Clone, Copy, Debug)]
pub(crate) struct Last {
    pub load: Load,
    pub phase: u16,
}

/// The classes of the periods that are needed, in a row for each count of units that are left. A row is made of the one
/// above, where one unit more is left, and of the ticks of the unit that got its place between.
#[derive(Drop)]
pub(crate) struct Tops {
    order: Vec<u8>,
    needs: Needs,
    classes: Vec<Class>,
}

/// What a tick costs without padding, in bytes; 60,000 at most, above what any tick with room costs.
fn raw_at(loads: &Loads, tick: u32) -> u16
    ensures { result ≤ 60000 }
{
    loads.raw(tick).min(60_000) as u16
}

/// Raises the tops of the classes of a period to what the ticks of a unit cost, and keeps the ticks that cost more.
fn raise(row: &mut [Class], loads: &Loads, last: Last)
    requires { 0 < length row.old }
{
    let ticks = loads.ticks();
    let period = row.len();
    let pace = period_of(last.load);
    let step = usize::from(pace) % period;
    let mut at = usize::from(last.phase) % period;
    let mut tick = u32::from(last.phase);
    while tick < ticks {
        raise_class(&mut row[at], raw_at(loads, tick), tick);
        tick += u32::from(pace);
        at += step;
        if at >= period {
            at -= period;
        }
    }
}

/// Raises the tops of the classes of a period to what all ticks cost, and keeps those that cost most.
fn raise_all(row: &mut [Class], loads: &Loads)
    requires { 0 < length row.old }
{
    let period = row.len();
    let mut at = 0usize;
    for tick in 0..loads.ticks() {
        raise_class(&mut row[at], raw_at(loads, tick), tick);
        at += 1;
        if at == period {
            at = 0;
        }
    }
}

/// Opens a class of a period.
fn open(row: &mut [Class], phase: u16) {
    let phase = usize::from(phase);
    if phase < row.len() {
        row[phase].cost = row[phase].cost.saturating_sub(head_of(row[phase]));
        row[phase].mark %= MARK;
    }
}

/// Opens the classes of a period that a unit has.
fn open_all(row: &mut [Class], period: u16, loads: &Loads) {
    let all = loads.loads();
    let places = loads.places();
    for i in 0..all.len() {
        if all[i].period == period {
            if let Some(place) = places[i] {
                open(row, place.phase);
            }
        }
    }
}

impl Tops {
    /// Of no unit.
    pub(crate) fn none(alloc: Global) -> Tops {
        Tops {
            order: Vec::new(alloc),
            needs: Needs::none(alloc),
            classes: Vec::new(alloc),
        }
    }

    /// Of these units, which are left in this order; the rows aren't made yet.
    pub(crate) fn of(alloc: Global, loads: &Loads, order: &[u8]) -> Result<Tops, AllocError> {
        let needs = Needs::of(alloc, loads, order)?;
        let count = order.len().saturating_add(1).saturating_mul(needs.width());
        Ok(Tops {
            order: Vec::from_slice(alloc, order)?,
            needs,
            classes: Vec::from_elem(alloc, EMPTY, count)?,
        })
    }

    /// Whether it is of no unit.
    pub(crate) fn is_none(&self) -> bool {
        self.order.is_empty()
    }

    /// What is left.
    pub(crate) fn needs(&self) -> &Needs {
        &self.needs
    }

    /// The unit that got its place last, where so many are left; none where these are all.
    pub(crate) fn last(&self, loads: &Loads, left: usize) -> Option<Last> {
        let number = self.order.len().checked_sub(left)?.checked_sub(1)?;
        let unit = usize::from(*self.order.as_slice().get(number)?);
        let load = *loads.loads().get(unit)?;
        let place = (*loads.places().get(unit)?)?;
        Some(Last {
            load,
            phase: place.phase,
        })
    }

    /// Where the classes of a need begin, where so many units are left.
    fn start(&self, need: Need, left: usize) -> usize {
        left.saturating_mul(self.needs.width())
            .saturating_add(need.start)
    }

    /// The classes of a need where so many units are left, of which the row is made.
    pub(crate) fn row(&self, need: Need, left: usize) -> &[Class]
        ensures { length result.now ≤ 60 }
    {
        let start = self.start(need, left);
        let end = start.saturating_add(usize::from(period_in(need)));
        match self.classes.as_slice().get(start..end) {
            Some(row) => row,
            None => &[],
        }
    }

    /// The ticks that cost most, of the classes where so many units are left.
    pub(crate) fn ticks(&self, left: usize) -> Costly<'_> {
        let start = left.saturating_mul(self.needs.width());
        let end = start.saturating_add(self.needs.width());
        let classes = match self.classes.as_slice().get(start..end) {
            Some(row) => row,
            None => &[],
        };
        Costly {
            classes,
            starts: self.needs.starts(),
        }
    }

    /// Makes the classes of a need where so many units are left.
    pub(crate) fn make(&mut self, loads: &Loads, need: Need, left: usize, last: Option<Last>) {
        match last {
            Some(last) => self.descend(loads, need, left, last),
            None => self.begin(loads, need, left),
        }
    }

    /// Makes the classes of a need of what all ticks cost and of all places.
    fn begin(&mut self, loads: &Loads, need: Need, left: usize) {
        let start = self.start(need, left);
        let end = start.saturating_add(usize::from(period_in(need)));
        let Some(row) = self.classes.as_mut_slice().get_mut(start..end) else {
            return;
        };
        if row.is_empty() {
            return;
        }
        raise_all(row, loads);
        open_all(row, need.period, loads);
    }

    /// Makes the classes of a need of those in the row above and of the ticks of the last unit.
    fn descend(&mut self, loads: &Loads, need: Need, left: usize, last: Last) {
        let above = self.start(need, left.saturating_add(1));
        let start = self.start(need, left);
        let count = usize::from(period_in(need));
        let Some((below, rest)) = self.classes.as_mut_slice().split_at_mut_checked(above) else {
            return;
        };
        let Some(row) = below.get_mut(start..start.saturating_add(count)) else {
            return;
        };
        let Some(before) = rest.get(..count) else {
            return;
        };
        if row.is_empty() || row.len() != before.len() {
            return;
        }
        row.copy_from_slice(before);
        raise(row, loads, last);
        if last.load.period == need.period {
            open(row, last.phase);
        }
    }
}
