//! A turn of a worker: one piece, explored and reported.

ghost use Rattle.std.specs.Prelude.{◌≡◌, ◌<◌, ◌≤◌, ◌↔◌, IfOk, IsTrue, length, drop};
ghost use Rattle.ec_loads.specs.Line.{line_by};
ghost use Rattle.ec_loads.specs.Search.{IsPartialTree, node_count};
ghost use Rattle.ec_symmetry.specs.Orders.{IsReachedPrefix, prefix_of};
ghost use Rattle.ec_cert.specs.Shapes.{shape_of};
ghost use Rattle.ec_search_threads.specs.Turns.{LeavesPiece, FindsValue};
ghost use Rattle.ec_search_threads.specs.declared.ended.Ended.{Ended};
ghost use Rattle.ec_search_threads.specs.declared.turn.Turn.TheVariants.{Stopped};

use crate::desk::Desk;
use crate::ended::Ended;
use crate::gate::Gate;
use crate::ground::OwnGround;
use crate::watch::Watch;
use ec_book::{BookFault, Took};
use ec_book_shared::Search;
use ec_branch::explore_in;
use ec_cert::{Subtree, Tree};
use std::alloc::{AllocError, Global};
use std::marker::PhantomData;
use std::sync::Wait;

/// Whether a tree splits or closes a node.
fn has_nodes(tree: &Tree) -> bool
    ensures { IsTrue result ↔ (0 < node_count (shape_of tree.now)) }
{
    match tree {
        Tree::OpenLeaf => false,
        _ => true,
    }
}

/// What became of a piece in a turn of a worker.
pub(crate) enum Turn {
    /// Its subtree was reported.
    Reported,
    /// It is to be explored again, at this value of the book.
    Again(Option<u64>),
    /// The worker ends.
    Stopped(Ended),
}

/// Gives a piece back; the worker ends, for this reason if the book takes the piece.
fn given_back<S: Search, D: Desk<S>>(desk: &mut D, piece: u64, why: Ended) -> Turn
    ensures stops { (e : Ended) × (result ≡ Stopped e) }
    ensures leaves { LeavesPiece (D.left desk.new piece) result }
{
    if desk.give_back(piece) {
        Turn::Stopped(why)
    } else {
        Turn::Stopped(Ended::Refused)
    }
}

/// Reports a subtree of the piece. It is to be explored again, at the book's value, where that is above the subtree's.
/// Where anything else is refused the piece is given back and the worker ends, as it does where the exploration
/// stopped.
fn reported<S: Search, D: Desk<S>>(
    desk: &mut D,
    took: &Took,
    sub: Subtree,
    stop: Option<Ended>,
) -> Turn
    requires tree { IsPartialTree (line_by S.rules S.loads S.slots) sub.threshold (shape_of sub.tree) (prefix_of S.loads S.order took.now.prefix) (drop (length took.now.prefix) S.order) }
    requires some { 0 < node_count (shape_of sub.tree) }
    ensures leaves { LeavesPiece (D.left desk.new took.now.piece) result }
    ensures again { FindsValue (D.is_value desk.new) sub.threshold result }
{
    match desk.report(took, sub) {
        Ok(()) => match stop {
            Some(ended) => Turn::Stopped(ended),
            None => Turn::Reported,
        },
        Err(BookFault::AheadOfBook(now)) => Turn::Again(now),
        Err(BookFault::OutOfMemory) => given_back(desk, took.piece, Ended::Memory),
        Err(_) => given_back(desk, took.piece, Ended::Refused),
    }
}

/// Explores a piece at a value, and where it `reads` at the published value once that is lower; plans are offered as they are
/// found. Also says why the worker is to stop, if it is.
fn explored<'a, S: Search, D: Desk<S>, G: Gate>(
    alloc: Global,
    desk: &'a mut D,
    ground: &mut OwnGround<'_, S>,
    took: &Took,
    value: Option<u64>,
    reads: bool,
    gate: &'a G,
) -> (Result<Subtree, AllocError>, Option<Ended>)
    requires reached { IsReachedPrefix (line_by S.rules S.loads S.slots) S.order took.now.prefix }
    requires some { 1 ≤ took.now.grant }
    ensures { IfOk result.0 (λ sub. IsPartialTree (line_by S.rules S.loads S.slots) sub.threshold (shape_of sub.tree) (prefix_of S.loads S.order took.now.prefix) (drop (length took.now.prefix) S.order)) }
{
    let order = ground.order;
    let rules = desk.rules();
    let prefix = took.prefix.as_slice();
    let mut watch = Watch {
        alloc,
        desk,
        gate,
        search: PhantomData,
        piece: took.piece,
        first: value,
        value,
        reads,
        stop: None,
    };
    let OwnGround { ground, .. } = ground;
    let explored = explore_in(alloc, ground, order, rules, prefix, &mut watch, took.grant);
    (explored, watch.stop)
}

/// Explores a piece at a value, or at the published one where that is lower and it `reads`, and reports the subtree.
fn take_turn<S: Search, D: Desk<S>, G: Gate>(
    alloc: Global,
    desk: &mut D,
    ground: &mut OwnGround<'_, S>,
    took: &Took,
    value: Option<u64>,
    reads: bool,
    gate: &G,
) -> Turn
    requires reached { IsReachedPrefix (line_by S.rules S.loads S.slots) S.order took.now.prefix }
    requires some { 1 ≤ took.now.grant }
    ensures leaves { LeavesPiece (D.left desk.new took.now.piece) result }
{
    let (explored, stop) = explored(alloc, desk, ground, took, value, reads, gate);
    match explored {
        Ok(sub) if has_nodes(&sub.tree) => reported(desk, took, sub, stop),
        _ => given_back(desk, took.piece, stop.unwrap_or(Ended::Memory)),
    }
}

/// Explores a piece until its subtree is reported; else why the worker ends. Once a subtree was refused as ahead of the
/// book, the piece is explored at the book's value, whatever is published.
pub(crate) fn worked_off<S: Search, D: Desk<S>, R: Wait, G: Gate>(
    rt: &R,
    alloc: Global,
    desk: &mut D,
    ground: &mut OwnGround<'_, S>,
    took: &Took,
    gate: &G,
) -> Option<Ended>
    requires reached { IsReachedPrefix (line_by S.rules S.loads S.slots) S.order took.now.prefix }
    requires some { 1 ≤ took.now.grant }
{
    let mut value = took.value;
    let mut reads = true;
    for _ in rt.forever() {
        match take_turn(alloc, desk, ground, took, value, reads, gate) {
            Turn::Reported => return None,
            Turn::Again(now) => {
                value = now;
                reads = false;
            }
            Turn::Stopped(ended) => return Some(ended),
        }
    }
    unreachable!()
}
