//! What worker 0 does before the workers start.

ghost use Rattle.std.specs.Prelude.{◌≡◌, ◌≢◌, ◌≤◌};
ghost use Rattle.ec_cert.specs.Parts.{IsPart};

use crate::ended::Ended;
use crate::first::opening_plan;
use crate::gate::Quiet;
use crate::ground::{OwnGround, ground_of};
use crate::pieces::{opened, shared_out};
use crate::post::Post;
use crate::work::crew_worked_off;
use ec_book::Taken;
use ec_book_shared::{Search, Shared};
use ec_cert::Part;
use std::alloc::Global;
use std::sync::Wait;

/// What worker 0 begins with.
#[derive(Clone, Copy)]
pub(crate) struct Opening {
    /// The value of the book, in wire bytes.
    pub(crate) value: Option<u64>,
    /// How many pieces are free in the book.
    pub(crate) pieces: usize,
    /// The part of them that the search goes on with.
    pub(crate) part: Part,
    /// Whether the plan that a search opens with is offered.
    pub(crate) first: bool,
}

/// Offers the plan that a search by these rules opens with, if there is one; why the worker ends, if it does.
fn offered_first<S: Search, R: Wait>(
    rt: &R,
    alloc: Global,
    shared: &Shared<S>,
    post: &mut Post<'_, '_, '_, S>,
) -> Option<Ended> {
    let plan = match opening_plan(alloc, post.seat.units(), shared.rules()) {
        Ok(Some(plan)) => plan,
        Ok(None) => return None,
        Err(_) => return Some(Ended::Memory),
    };
    post.offer(rt, shared, plan)
}

/// Splits or closes one node after another, each of the lowest free piece, on a book with so many free pieces of the part,
/// until as many are free as there are workers, or nothing can be handed out; why the worker ends, if it does. Nobody is told of
/// these nodes.
fn split_up<S: Search, R: Wait>(
    rt: &R,
    alloc: Global,
    shared: &Shared<S>,
    post: &mut Post<'_, '_, '_, S>,
    ground: &mut OwnGround<'_, S>,
    pieces: usize,
    workers: usize,
) -> Option<Ended> {
    let mut free = pieces;
    for _ in rt.forever() {
        if free >= workers {
            return None;
        }
        let took = match post.take(rt, shared, 1) {
            Ok(Taken::Piece(took)) => took,
            Ok(_) => return None,
            Err(ended) => return Some(ended),
        };
        if let Some(ended) = crew_worked_off(rt, alloc, shared, post, ground, &took, &Quiet) {
            return Some(ended);
        }
        let (first, end) = opened(post.seat.receipts());
        free = free
            .saturating_sub(1)
            .saturating_add(end.saturating_sub(first) as usize);
    }
    unreachable!()
}

/// Publishes the value that the book has, if it has one, offers the first plan where it is to, and then makes pieces for
/// as many workers; why worker 0 ends before the others start, if it does.
pub(crate) fn seed<S: Search, R: Wait>(
    rt: &R,
    alloc: Global,
    shared: &Shared<S>,
    post: &mut Post<'_, '_, '_, S>,
    opening: Opening,
    workers: usize,
) -> Option<Ended>
    requires { IsPart opening.part }
{
    if let Some(value) = opening.value {
        post.lower(value);
    }
    if opening.first {
        if let Some(ended) = offered_first(rt, alloc, shared, post) {
            return Some(ended);
        }
    }
    let Ok(mut ground) = ground_of::<S>(alloc, post.units(), post.order()) else {
        return Some(Ended::Memory);
    };
    let free = shared_out(opening.part, opening.pieces as u64);
    split_up(rt, alloc, shared, post, &mut ground, free as usize, workers)
}
