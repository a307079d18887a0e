//! The order in which a strong search places units.

ghost use Rattle.std.specs.Prelude.{◌≡◌, IfOk, All, length, map, get_or};
ghost use Rattle.std.specs.List.{range_with_len};
ghost use Rattle.ec_units.specs.Load.{load_of, loads_of};
ghost use Rattle.ec_loads.specs.Search.{nobody};
ghost use Rattle.ec_symmetry.specs.Orders.{IsOrder};
ghost use Rattle.ec_branch.specs.StrongOrders.{IsStrongOrder};
ghost use Rattle.ec_branch.specs.Turns.{IsStrongRank};

use crate::turns::{Turn, in_turn};
use ec_units::{Unit, Units, bytes_of};
use std::alloc::{AllocError, Global};

/// A number that is less the lesser the period of a unit is, and for one period less the more bytes it has.
fn rank_of(unit: &Unit) -> u32
    ensures { IsStrongRank (load_of unit.now) result }
{
    u32::from(unit.period) * 65536 + u32::from(u16::MAX - bytes_of(unit))
}

/// The units in file order, with their ranks.
fn strong_turns_of(alloc: Global, units: &Units) -> Result<Vec<Turn>, AllocError>
    ensures units { IfOk result (λ turns. map (λ t. t.unit) turns.items ≡ range_with_len 0 (length units.now.units)) }
    ensures ranks { IfOk result (λ turns. All (λ t. IsStrongRank (get_or (loads_of units.now.units) t.unit nobody) t.rank) turns.items) }
{
    let all = units.units.as_slice();
    let mut turns = Vec::new(alloc);
    for i in 0..all.len() {
        turns.push(Turn {
            unit: i as u8,
            rank: rank_of(&all[i]),
        })?;
    }
    Ok(turns)
}

/// The units by period in ticks, the least first, those of one period by bytes, the most first, ties in file order;
/// units are numbered in file order from 0.
pub fn strong_order(alloc: Global, units: &Units) -> Result<Vec<u8>, AllocError>
    ensures each { IfOk result (λ order. IsOrder (length units.now.units) order.items) }
    ensures sorted { IfOk result (λ order. IsStrongOrder (loads_of units.now.units) order.items) }
{
    let turns = strong_turns_of(alloc, units)?;
    in_turn(alloc, turns)
}
