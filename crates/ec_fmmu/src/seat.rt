//! Slaves at the places of their units, and the bytes that stand before them.

ghost use Rattle.std.specs.Prelude.{◌≡◌, ℕ, ◌+◌, ◌*◌, ◌<◌, ◌≤◌, ◌^◌, ◌++◌, nat_lt, if◌then◌else◌, length, map, filter, sum_by, IfOk, OnOk};
ghost use Rattle.ec_units.specs.Views.{slave_view, unit_view};
ghost use Rattle.ec_fmmu.specs.Order.{is_before, is_same};
ghost use Rattle.ec_fmmu.specs.Seats.{key_numbers, spot, counter_of, seat_counter, slave_seats, seats_of as seats_in, size, AreKept};
ghost use Rattle.ec_fmmu.specs.Layout.{address_of, total_of, bytes_in, counter_in};

use ec_units::{Place, Slave, Unit};
use std::alloc::{AllocError, Global};

/// The logical address of the first process byte (own profile).
pub const FIRST_ADDRESS: u32 = 0x0001_0000;

/// What puts groups into order: slot, then period, then phase, both in ticks.
#[derive(Clone, Copy, Debug, PartialEq, Eq)]
pub struct Key {
    pub slot: u8,
    pub period: u16,
    pub phase: u16,
}

/// A slave at the place of its unit: its group, the number of the unit and its own in the unit, both in file order from
/// 0, and what is mapped of it.
#[derive(Clone, Copy, Debug, PartialEq, Eq)]
pub struct Seat {
    pub key: Key,
    pub unit: usize,
    pub slave: usize,
    pub out_bytes: u16,
    pub in_bytes: u16,
    pub out_at: u16,
    pub in_at: u16,
}

/// Whether the group of one key stands before that of the other.
pub(crate) fn is_key_before(a: &Key, b: &Key) -> bool
    ensures { result ≡ is_before (key_numbers a.now) (key_numbers b.now) }
{
    a.slot < b.slot
        || a.slot == b.slot && (a.period < b.period || a.period == b.period && a.phase < b.phase)
}

/// Whether two keys are those of one group.
pub(crate) fn is_same_key(a: &Key, b: &Key) -> bool
    ensures { result ≡ is_same (key_numbers a.now) (key_numbers b.now) }
{
    a.slot == b.slot && a.period == b.period && a.phase == b.phase
}

/// Whether the bytes of one slave stand before those of the other.
pub(crate) fn is_seat_before(a: &Seat, b: &Seat) -> bool
    ensures { result ≡ is_before (spot a.now) (spot b.now) }
{
    is_key_before(&a.key, &b.key)
        || is_same_key(&a.key, &b.key) && (a.unit < b.unit || a.unit == b.unit && a.slave < b.slave)
}

/// What a slave with so many bytes adds to the working counter of a logical read-write datagram.
pub(crate) fn counted(out_bytes: u16, in_bytes: u16) -> u16
    ensures value { result ≡ (if nat_lt 0 out_bytes then 2 else 0) + (if nat_lt 0 in_bytes then 1 else 0) }
    ensures most { result ≤ 3 }
{
    let outputs = if out_bytes > 0 { 2 } else { 0 };
    let inputs = if in_bytes > 0 { 1 } else { 0 };
    outputs + inputs
}

/// Adds the slaves of a unit.
fn push_seats(
    seats: &mut Vec<Seat>,
    key: Key,
    unit: usize,
    slaves: &[Slave],
) -> Result<(), AllocError>
    ensures { OnOk result (seats.new.items ≡ seats.old.items ++ slave_seats key unit 0 (map slave_view slaves.now)) }
{
    for (number, slave) in slaves.iter().enumerate() {
        seats.push(Seat {
            key,
            unit,
            slave: number,
            out_bytes: slave.out_bytes,
            in_bytes: slave.in_bytes,
            out_at: slave.out_at,
            in_at: slave.in_at,
        })?;
    }
    Ok(())
}

/// The slaves of the units at their places, in file order.
pub(crate) fn seats_of(
    alloc: Global,
    units: &[Unit],
    places: &[Place],
) -> Result<Vec<Seat>, AllocError>
    requires few { length units.now ≤ 48 }
    requires each { length places.now ≡ length units.now }
    ensures seats { IfOk result (λ v. v.items ≡ seats_in (map unit_view units.now) places.now) }
    ensures kept { IfOk result (λ v. AreKept v.items) }
{
    let mut seats = Vec::new(alloc);
    for i in 0..units.len() {
        let key = Key {
            slot: places[i].slot,
            period: units[i].period,
            phase: places[i].phase,
        };
        push_seats(&mut seats, key, i, units[i].slaves.as_slice())?;
    }
    Ok(seats)
}

/// The process bytes of a slave.
fn size_of(seat: &Seat) -> u32
    ensures value { result ≡ size seat.now }
    ensures most { result < 2 ^ 17 }
{
    u32::from(seat.out_bytes) + u32::from(seat.in_bytes)
}

/// The process bytes of all slaves.
pub(crate) fn all_bytes(seats: &[Seat]) -> u32
    requires { length seats.now ≤ 384 }
    ensures { result ≡ sum_by size seats.now }
{
    seats.iter().map(size_of).sum()
}

/// The process bytes of the slaves that stand before this one.
fn bytes_before(seats: &[Seat], at: &Seat) -> u32
    requires { length seats.now ≤ 384 }
    ensures { result ≡ sum_by size (filter (λ s. is_before (spot s) (spot at.now)) seats.now) }
{
    seats
        .iter()
        .filter(|s| is_seat_before(s, at))
        .map(size_of)
        .sum()
}

/// The process bytes of the groups before that of this key.
fn bytes_ahead(seats: &[Seat], key: &Key) -> u32
    requires { length seats.now ≤ 384 }
    ensures { result ≡ sum_by size (filter (λ s. is_before (key_numbers s.key) (key_numbers key.now)) seats.now) }
{
    seats
        .iter()
        .filter(|s| is_key_before(&s.key, key))
        .map(size_of)
        .sum()
}

/// The logical address of the first process byte of a slave.
pub(crate) fn seat_start(seats: &[Seat], seat: &Seat) -> u32
    requires { AreKept seats.now }
    ensures start { result ≡ 65536 + sum_by size (filter (λ s. is_before (spot s) (spot seat.now)) seats.now) }
    ensures most { result < 2 ^ 26 + 65536 }
{
    FIRST_ADDRESS + bytes_before(seats, seat)
}

/// The logical address of the first process byte of a group.
pub(crate) fn key_start(seats: &[Seat], key: &Key) -> u32
    requires { AreKept seats.now }
    ensures { result ≡ address_of seats.now (key_numbers key.now) }
{
    FIRST_ADDRESS + bytes_ahead(seats, key)
}

/// The process bytes of the group of this key.
pub(crate) fn bytes_within(seats: &[Seat], key: &Key) -> u32
    requires { length seats.now ≤ 384 }
    ensures { result ≡ sum_by size (filter (λ s. is_same (key_numbers s.key) (key_numbers key.now)) seats.now) }
{
    seats
        .iter()
        .filter(|s| is_same_key(&s.key, key))
        .map(size_of)
        .sum()
}

/// The working counter of the group of this key.
pub(crate) fn counter_within(seats: &[Seat], key: &Key) -> u16
    requires { length seats.now ≤ 384 }
    ensures { result ≡ sum_by seat_counter (filter (λ s. is_same (key_numbers s.key) (key_numbers key.now)) seats.now) }
{
    seats
        .iter()
        .filter(|s| is_same_key(&s.key, key))
        .map(|s| counted(s.out_bytes, s.in_bytes))
        .sum()
}

/// The working counter that slaves add to a logical read-write datagram that holds all their bytes: 2 for each with
/// outputs and 1 for each with inputs (ETG.1000.4, clause 5.4), of at most 384 slaves; takes no memory.
pub fn expected(slaves: &[Slave]) -> u16
    requires { length slaves.now ≤ 384 }
    ensures { result ≡ sum_by counter_of (map slave_view slaves.now) }
{
    let mut counter = 0u16;
    for slave in slaves {
        counter += counted(slave.out_bytes, slave.in_bytes);
    }
    counter
}
