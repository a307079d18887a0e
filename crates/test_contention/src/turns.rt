//! The turns of one thread.

ghost use Rattle.std.specs.Prelude.{◌≡◌, ℕ, ◌<◌, ◌≤◌, ◌↔◌, IsTrue};
ghost use Rattle.ec_units.specs.Load.{loads_of};
ghost use Rattle.ec_loads.specs.Line.{line_by};
ghost use Rattle.ec_loads.specs.Search.{node_count};
ghost use Rattle.ec_cert.specs.Shapes.{shape_of};
ghost use Rattle.ec_symmetry.specs.Orders.{IsReachedPrefix};

use ec_book::{Taken, Took};
use ec_book_shared::{Search, Seat, Shared};
use ec_branch::{Guide, explore};
use ec_cert::Tree;
use ec_loads::{Places, Plan};
use ec_units::{Place, Units};
use std::alloc::Global;
use std::sync::Wait;

/// A guide that knows one value, and stops at each plan.
#[derive(Drop)]
struct Known<'a> {
    units: &'a Units,
    value: Option<u64>,
    halted: bool,
}

impl<'a> Guide for Known<'a> {
    ghost frame = { λ s. record { loads = loads_of s.units.now.units; slots = s.units.now.slots; floor = 0 } };

    ghost halted = { λ s. s.halted };

    ghost known = { λ s. s.value };

    fn bound(&mut self) -> Option<u64> {
        self.value
    }

    fn found(&mut self, _plan: &Plan, _cost: u64) -> Option<u64> {
        self.halted = true;
        None
    }

    fn stopped(&self) -> bool {
        self.halted
    }
}

/// Whether a tree splits or closes a node.
fn has_nodes(tree: &Tree) -> bool
    ensures { IsTrue result ↔ (0 < node_count (shape_of tree.now)) }
{
    match tree {
        Tree::OpenLeaf => false,
        _ => true,
    }
}

/// Explores what was handed out and reports it; every fifth piece is given back instead, and each piece once more,
/// which is refused where it was reported.
fn settle<S: Search, R: Wait>(
    rt: &R,
    alloc: Global,
    shared: &Shared<S>,
    seat: &mut Seat<'_, '_, S>,
    took: &Took,
    turn: u32,
)
    requires reached { IsReachedPrefix (line_by S.rules (loads_of seat.old.units) seat.old.slots) seat.old.order took.now.prefix }
    requires some { 1 ≤ took.now.grant }
{
    if turn % 5 == 4 {
        let _ = shared.back(rt, seat, took.piece);
        return;
    }
    let units = seat.units();
    let order = seat.order();
    let prefix = took.prefix.as_slice();
    let mut guide = Known {
        units,
        value: took.value,
        halted: false,
    };
    let rules = shared.rules();
    if let Ok(sub) = explore(alloc, units, order, rules, prefix, &mut guide, took.grant) {
        if has_nodes(&sub.tree) {
            let _ = shared.report(rt, seat, took.piece, prefix, sub);
        }
    }
    let _ = shared.back(rt, seat, took.piece);
}

/// Takes the lowest free piece.
fn take_lowest<S: Search, R: Wait>(
    rt: &R,
    alloc: Global,
    shared: &Shared<S>,
    seat: &mut Seat<'_, '_, S>,
    turn: u32,
) {
    match shared.take(rt, seat, 3) {
        Ok(Taken::Piece(took)) => settle(rt, alloc, shared, seat, &took, turn),
        _ => {}
    }
}

/// Takes a piece by a number, whether there is one or not.
fn take_numbered<S: Search, R: Wait>(
    rt: &R,
    alloc: Global,
    shared: &Shared<S>,
    seat: &mut Seat<'_, '_, S>,
    turn: u32,
) {
    match shared.take_piece(rt, seat, u64::from(turn), 3) {
        Ok(Taken::Piece(took)) => settle(rt, alloc, shared, seat, &took, turn),
        _ => {}
    }
}

/// Offers a plan, and keeps it where it is handed back; else one without places is kept.
fn offer<S: Search, R: Wait>(
    rt: &R,
    alloc: Global,
    shared: &Shared<S>,
    seat: &mut Seat<'_, '_, S>,
    plan: Plan,
) -> Plan {
    match shared.better(rt, seat, plan) {
        Err((_, plan)) => plan,
        Ok(()) => Plan {
            places: Places::new(Vec::new(alloc)),
        },
    }
}

/// A plan of two phases and two slots, which is legal and far from the best; as many places as memory is given for.
fn spread_plan(alloc: Global, units: &Units) -> Plan {
    let mut places = Vec::new(alloc);
    for unit in 0..units.units.as_slice().len() {
        let place = Place {
            phase: (unit % 2) as u16,
            slot: (unit / 2 % 2) as u8,
        };
        if places.push(place).is_err() {
            break;
        }
    }
    Plan {
        places: Places::new(places),
    }
}

/// So many turns: a piece, the lowest or one by its number; at times a plan.
pub(crate) fn work<S: Search, R: Wait>(
    rt: &R,
    alloc: Global,
    shared: &Shared<S>,
    seat: &mut Seat<'_, '_, S>,
    turns: u32,
) {
    let mut plan = spread_plan(alloc, seat.units());
    for turn in 0..turns {
        if turn % 7 == 0 {
            plan = offer(rt, alloc, shared, seat, plan);
        }
        if turn % 3 == 2 {
            take_numbered(rt, alloc, shared, seat, turn);
        } else {
            take_lowest(rt, alloc, shared, seat, turn);
        }
    }
}
