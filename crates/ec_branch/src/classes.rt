//! The rooms of the classes of a period, in a table.

ghost use Rattle.std.specs.Prelude.{◌+◌, ◌≤◌, length};

use crate::needs::Size;
use crate::tops::{Class, is_open};
use crate::waiting::MOST_PERIOD;

/// A limit in bytes at which every unit has room.
pub(crate) const MOST_LIMIT: u32 = 100_000;

/// What the classes of a period have room for, in bytes: the open ones, the closed ones, and how many of these have
/// room.
#[derive(Clone, Copy, Debug)]
pub(crate) struct Rooms {
    pub open: u32,
    pub closed: u32,
    pub count: u32,
}

/// The room of a class below a limit.
fn room_of(class: Class, limit: u32) -> u32
    ensures { result ≤ limit }
{
    limit.saturating_sub(u32::from(class.cost))
}

/// With the room of one more class.
fn with_room(rooms: Rooms, room: u32, class: Class) -> Rooms
    requires open { rooms.open ≤ 10000000 }
    requires closed { rooms.closed ≤ 10000000 }
    requires count { rooms.count ≤ 10000000 }
    requires room { room ≤ 100000 }
    ensures open { result.open ≤ rooms.open + 100000 }
    ensures closed { result.closed ≤ rooms.closed + 100000 }
    ensures count { result.count ≤ rooms.count + 1 }
{
    if is_open(class) {
        return Rooms {
            open: rooms.open + room,
            closed: rooms.closed,
            count: rooms.count,
        };
    }
    Rooms {
        open: rooms.open,
        closed: rooms.closed + room,
        count: rooms.count + room.min(1),
    }
}

/// Writes the room of each of these classes below a limit into a table.
pub(crate) fn fill_rooms(row: &[Class], limit: u32, rooms: &mut [u32; MOST_PERIOD]) -> Rooms
    requires few { length row.now ≤ 60 }
    requires limit { limit ≤ 100000 }
    ensures open { result.open ≤ 6000000 }
    ensures closed { result.closed ≤ 6000000 }
    ensures count { result.count ≤ 60 }
{
    let mut sums = Rooms {
        open: 0,
        closed: 0,
        count: 0,
    };
    for i in 0..row.len() {
        let class = row[i];
        let room = room_of(class, limit);
        rooms[i] = room;
        sums = with_room(sums, room, class);
    }
    sums
}

/// How many units of a size have room in these classes.
fn room_count(rooms: &[u32], size: Size) -> u64 {
    let mut count = 0u64;
    for room in rooms {
        count = count.wrapping_add(u64::from(*room) * u64::from(size.inverse) >> 31);
    }
    count
}

/// Whether so many units of so many bytes are more than have room in these classes. Each quotient loses less than 1, so
/// that not all need to be made.
pub(crate) fn is_crowded(rooms: &[u32], all: Rooms, size: Size) -> bool
    requires few { length rooms.now ≤ 60 }
    requires open { all.open ≤ 6000000 }
    requires closed { all.closed ≤ 6000000 }
{
    let bytes = u32::from(size.bytes.max(1));
    let wanted = size.count.saturating_mul(bytes);
    let whole = all.open + all.closed;
    if wanted > whole {
        return true;
    }
    let lost = (bytes - 1) * rooms.len() as u32;
    if wanted.saturating_add(lost) <= whole {
        return false;
    }
    u64::from(size.count) > room_count(rooms, size)
}
