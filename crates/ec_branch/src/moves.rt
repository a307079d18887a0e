//! Steps of a local search: a unit leaves its place for one that is least too much.

ghost use Rattle.std.specs.Prelude.{◌≡◌, ◌+◌, ◌*◌, ◌%◌, ◌<◌, ◌≤◌, length};
ghost use Rattle.ec_branch.specs.Draws.{next_draw};
ghost use Rattle.ec_branch.specs.FirstPlans.{AreAllPlaced};

use ec_loads::{GROUP_BYTES, Loads, MOST_PAYLOAD};
use ec_units::{Load, Place};
use ec_wire::frame_wire;

/// The most groups of a period: a phase below 60 and a slot below 8 each.
const MOST_GROUPS: usize = 480;

/// Numbers that look random and are the same in each search.
#[derive(Clone, Copy, Debug)]
pub(crate) struct Draws {
    pub last: u32,
}

impl Draws {
    /// What the next number leaves, divided by the count.
    pub(crate) fn below(&mut self, count: u32) -> u32
        requires { 0 < count }
        ensures next { self.new.last ≡ next_draw self.old.last }
        ensures value { result ≡ self.new.last % count }
        ensures below { result < count }
    {
        self.last = (u64::from(self.last) * 48271 % 2147483647) as u32;
        self.last % count
    }
}

/// What the steps go by: the slots that are used, and the greatest cost in bytes that a tick may have.
#[derive(Clone, Copy, Debug)]
pub(crate) struct Aim {
    pub width: u8,
    pub limit: u64,
}

/// What a slot with this payload in bytes costs; 0 where nothing travels.
fn wire(bytes: u32) -> u64
    requires { bytes ≤ 90000 }
    ensures { result ≤ 90100 }
{
    if bytes == 0 {
        0
    } else {
        u64::from(frame_wire(2 + bytes))
    }
}

/// By how much what is above a limit grows from one number to another that is no less.
fn more_above(before: u64, after: u64, limit: u64) -> u64
    ensures { result ≤ after }
{
    after.saturating_sub(limit.max(before))
}

/// By how much what is too much grows where a slot gets so many bytes more, in a tick of such a cost.
fn growth(payload: u32, more: u32, cost: u64, limit: u64) -> u64
    requires payload { payload ≤ 71904 }
    requires more { more ≤ 1498 }
    requires cost { cost ≤ 575552 }
{
    let full = payload + more;
    let dearer = cost + wire(full).saturating_sub(wire(payload));
    more_above(cost, dearer, limit)
        + more_above(u64::from(payload), u64::from(full), u64::from(MOST_PAYLOAD))
}

/// By how much what is too much grows where a unit travels at this place with so many bytes more in its slot.
fn growth_at(loads: &Loads, period: u16, place: Place, more: u32, limit: u64) -> u64
    requires period { (1 ≤ period) × (period ≤ 60) }
    requires more { more ≤ 1498 }
{
    let ticks = loads.ticks();
    let mut sum = 0u64;
    let mut tick = u32::from(place.phase);
    while tick < ticks {
        let payload = loads.payload(tick, place.slot);
        sum = sum.saturating_add(growth(payload, more, loads.cost(tick), limit));
        tick += u32::from(period);
    }
    sum
}

/// The number of a group among those of its period.
fn group_of(place: Place) -> usize
    ensures { result ≡ place.phase * 8 + place.slot }
{
    usize::from(place.phase) * 8 + usize::from(place.slot)
}

/// Marks the groups of this period that travel.
fn mark_groups(loads: &Loads, period: u16, travels: &mut [bool; MOST_GROUPS]) {
    let all = loads.loads();
    let places = loads.places();
    for i in 0..all.len() {
        if let Some(place) = places[i] {
            let group = group_of(place);
            if all[i].period == period && group < MOST_GROUPS {
                travels[group] = true;
            }
        }
    }
}

/// Place number `number` of a unit: by phase and then slot.
fn numbered(number: u32, period: u16, width: u8) -> Place
    requires width { (1 ≤ width) × (width ≤ 8) }
    requires number { number < period * width }
    ensures phase { result.phase < period }
    ensures slot { result.slot < width }
{
    let width = u32::from(width);
    Place {
        phase: (number / width) as u16,
        slot: (number % width) as u8,
    }
}

/// The number that stands so far behind another one, where the first one follows the last.
fn around(from: u32, far: u32, count: u32) -> u32
    requires from { from < count }
    requires far { far < count }
    requires count { count ≤ 480 }
    ensures { result < count }
{
    let number = from + far;
    if number < count {
        number
    } else {
        number - count
    }
}

/// The bytes that a unit adds to the payload of its slot.
fn more_bytes(load: Load, travels: bool) -> u32
    requires { load.bytes ≤ 1486 }
    ensures { result ≤ 1498 }
{
    if travels {
        u32::from(load.bytes)
    } else {
        GROUP_BYTES + u32::from(load.bytes)
    }
}

/// The first place, from number `from` on, at which a unit that has no place is least too much.
fn least_place(loads: &Loads, load: Load, aim: Aim, from: u32) -> Place
    requires load { (1 ≤ load.period) × (load.period ≤ 60) × (load.bytes ≤ 1486) }
    requires width { (1 ≤ aim.width) × (aim.width ≤ 8) }
    requires from { from < load.period * aim.width }
    ensures phase { result.phase < load.period }
    ensures slot { result.slot < aim.width }
{
    let mut travels = [false; MOST_GROUPS];
    mark_groups(loads, load.period, &mut travels);
    let count = place_count(load, aim);
    let mut least = u64::MAX;
    let mut best = numbered(from, load.period, aim.width);
    for far in 0..count {
        let place = numbered(around(from, far, count), load.period, aim.width);
        let more = more_bytes(load, travels[group_of(place)]);
        let grown = growth_at(loads, load.period, place, more, aim.limit);
        if grown == 0 {
            return place;
        }
        if grown < least {
            least = grown;
            best = place;
        }
    }
    best
}

/// A place for a unit that has none: that of the number, where the step is blind, else the first one, from there on, at
/// which the unit is least too much.
fn next_place(loads: &Loads, load: Load, aim: Aim, from: u32, blind: bool) -> Place
    requires load { (1 ≤ load.period) × (load.period ≤ 60) × (load.bytes ≤ 1486) }
    requires width { (1 ≤ aim.width) × (aim.width ≤ 8) }
    requires from { from < load.period * aim.width }
    ensures phase { result.phase < load.period }
    ensures slot { result.slot < aim.width }
{
    if blind {
        numbered(from, load.period, aim.width)
    } else {
        least_place(loads, load, aim, from)
    }
}

/// How many places a unit has.
fn place_count(load: Load, aim: Aim) -> u32
    requires period { (1 ≤ load.period) × (load.period ≤ 60) }
    requires width { (1 ≤ aim.width) × (aim.width ≤ 8) }
    ensures value { result ≡ load.period * aim.width }
    ensures some { 0 < result }
    ensures few { result ≤ 480 }
{
    u32::from(load.period) * u32::from(aim.width)
}

/// One step: a unit that is drawn leaves its place for another one. One step of 32 takes a place that is drawn.
pub(crate) fn step(loads: &mut Loads, draws: &mut Draws, aim: Aim)
    requires placed { AreAllPlaced loads.old.loads loads.old.slots loads.old.places }
    requires width { (1 ≤ aim.width) × (aim.width ≤ loads.old.slots) }
    requires some { 0 < length loads.old.loads }
    ensures loads { loads.new.loads ≡ loads.old.loads }
    ensures slots { loads.new.slots ≡ loads.old.slots }
    ensures placed { AreAllPlaced loads.new.loads loads.new.slots loads.new.places }
{
    let _slots = loads.slots();
    let unit = draws.below(loads.loads().len() as u32) as usize;
    let load = loads.loads()[unit];
    let from = draws.below(place_count(load, aim));
    let blind = draws.below(32) == 0;
    loads.remove(unit);
    let place = next_place(loads, load, aim, from, blind);
    loads.place(unit, place);
}
