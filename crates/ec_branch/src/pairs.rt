//! The pairs of a leaf by new groups.

ghost use Rattle.std.specs.Prelude.{◌≡◌, ◌<◌, ◌≤◌, IfOk, All, length};
ghost use Rattle.ec_loads.specs.Search.{IsShortPair};

use crate::classes::{Rooms, fill_rooms};
use crate::needs::Need;
use crate::tops::{Class, Tops, is_open};
use crate::waiting::{MOST_PERIOD, MOST_UNITS};
use ec_loads::Pair;
use std::alloc::{AllocError, Global};

/// The greatest room of a pair in bytes.
const MOST_ROOM: u32 = 12_304;

/// The bytes of a hyperperiod that the new groups of a period cost at most, and more than any value allows where its
/// units have no room.
pub(crate) fn most_group_bytes(need: Need, rooms: Rooms) -> u64
    requires open { rooms.open ≤ 6000000 }
    requires closed { rooms.closed ≤ 6000000 }
{
    if rooms.open + rooms.closed < need.bytes {
        return u64::MAX;
    }
    u64::from(need.group).saturating_mul(u64::from(rooms.count))
}

/// Where the greatest of these rooms is, of the closed classes.
fn greatest(row: &[Class], rooms: &[u32; MOST_PERIOD]) -> usize
    requires { length row.now ≤ 60 }
    ensures { result < 60 }
{
    let mut at = 0usize;
    let mut most = 0u32;
    for i in 0..row.len() {
        if !is_open(row[i]) && rooms[i] > most {
            most = rooms[i];
            at = i;
        }
    }
    at
}

/// The pair by which so many bytes, more than the open classes have room for, need the greatest of the closed ones.
fn needed(row: &[Class], rooms: &mut [u32; MOST_PERIOD], bytes: u32) -> Pair
    requires { length row.now ≤ 60 }
    ensures { IsShortPair result }
{
    let mut left = bytes;
    let mut pair = Pair { count: 0, room: 0 };
    for count in 0..60u16 {
        if left == 0 {
            return pair;
        }
        let at = greatest(row, rooms);
        let room = rooms[at];
        rooms[at] = 0;
        left = left.saturating_sub(room);
        pair = Pair {
            count: count + 1,
            room: room.min(MOST_ROOM) as u16,
        };
    }
    pair
}

/// How many new groups the units of a need, whose classes these are, want below a limit: none where the open classes have
/// room for them, else as many as there are greatest closed classes that then have it, with the least room of these; at
/// most 65,535 where all classes together don't suffice.
fn pair_of(row: &[Class], bytes: u32, limit: u32) -> Pair
    requires few { length row.now ≤ 60 }
    requires limit { limit ≤ 100000 }
    ensures { IsShortPair result }
{
    let mut rooms = [0u32; MOST_PERIOD];
    let all = fill_rooms(row, limit, &mut rooms);
    if all.open + all.closed < bytes {
        return Pair {
            count: 65_535,
            room: 0,
        };
    }
    needed(row, &mut rooms, bytes.saturating_sub(all.open))
}

/// For each period of the units that are left, so many, how many new groups they need below a limit.
pub(crate) fn pairs_of(
    alloc: Global,
    tops: &Tops,
    left: usize,
    limit: u32,
) -> Result<Vec<Pair>, AllocError>
    requires limit { limit ≤ 100000 }
    ensures few { IfOk result (λ pairs. length pairs.items ≤ 48) }
    ensures short { IfOk result (λ pairs. All IsShortPair pairs.items) }
{
    let (first, end) = tops.needs().range(left);
    let mut pairs = Vec::with_capacity(alloc, end.saturating_sub(first))?;
    for number in first..end {
        if let Some(need) = tops.needs().need(number) {
            if pairs.len() < MOST_UNITS {
                pairs.push(pair_of(tops.row(need, left), need.bytes, limit))?;
            }
        }
    }
    Ok(pairs)
}
