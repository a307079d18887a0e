//! The turns of a worker beside others.

ghost use Rattle.std.specs.Prelude.{◌≡◌, ◌≤◌};
ghost use Rattle.ec_loads.specs.Line.{line_by};
ghost use Rattle.ec_symmetry.specs.Orders.{IsReachedPrefix};

use crate::crew_desk::CrewDesk;
use crate::ended::Ended;
use crate::gate::Gate;
use crate::ground::{OwnGround, ground_of};
use crate::pace::Pace;
use crate::pieces::spent;
use crate::post::Post;
use crate::turn::worked_off;
use ec_book::{Taken, Took};
use ec_book_shared::{Search, Shared};
use std::alloc::Global;
use std::sync::Wait;

/// The bytes that the trees of a grant take on most lines. An allocator of glibc maps a block from 128 KiB on by itself.
const TREE_BYTES: usize = 96 * 1024;

/// Room for the trees of a grant. Let go of at once, it stays with the thread's allocator, which so asks the system for a piece's
/// trees once, and not for each page of them. Nothing comes of a refusal.
#[inline(never)]
fn room_for_trees(alloc: Global) -> Option<Vec<u8>> {
    Vec::with_capacity(alloc, TREE_BYTES).ok()
}

/// Explores a piece from a seat at the shared book until its subtree is reported; else why the worker ends.
pub(crate) fn crew_worked_off<'a, S: Search, R: Wait, G: Gate>(
    rt: &'a R,
    alloc: Global,
    shared: &'a Shared<S>,
    post: &'a mut Post<'_, '_, '_, S>,
    ground: &mut OwnGround<'_, S>,
    took: &Took,
    gate: &G,
) -> Option<Ended>
    requires reached { IsReachedPrefix (line_by S.rules S.loads S.slots) S.order took.now.prefix }
    requires some { 1 ≤ took.now.grant }
{
    let mut desk = CrewDesk { rt, shared, post };
    worked_off(rt, alloc, &mut desk, ground, took, gate)
}

/// Takes a piece and explores it, by the tickets before the lowest free one, makes tickets of the pieces of the reports on it,
/// and wakes who sleeps. None where the worker goes on; else why it ends, as where the time is over. Where nothing can be
/// handed out yet it waits a moment: longer each time for the first seven asks in a row, for four more as long as the system
/// runs another thread. Then it sleeps, until another worker has reported its piece or given it back.
fn worked<S: Search, R: Wait, G: Gate>(
    rt: &R,
    alloc: Global,
    shared: &Shared<S>,
    post: &mut Post<'_, '_, '_, S>,
    ground: &mut OwnGround<'_, S>,
    pace: &mut Pace,
    gate: &G,
) -> Option<Ended> {
    if gate.is_over() {
        return Some(Ended::Time);
    }
    let announced = pace.announced(post.bell);
    match post.ask(rt, shared, pace.most) {
        Ok(Some(Taken::Piece(took))) => {
            drop(announced);
            pace.go_on();
            drop(room_for_trees(alloc));
            let ended = crew_worked_off(rt, alloc, shared, post, ground, &took, gate);
            drop(took);
            let nodes = spent(post.seat.receipts());
            pace.grow(nodes);
            post.push_opened();
            post.bell.notify_all();
            gate.after(post.worker(), nodes, post.read());
            ended
        }
        Ok(Some(Taken::Later)) => {
            pace.wait(rt, announced);
            None
        }
        Ok(Some(Taken::Done)) => Some(Ended::Done),
        Ok(None) => None,
        Err(ended) => Some(ended),
    }
}

/// Takes pieces until none can be handed out any more, memory is refused, the book refuses a call or the time is over; says
/// which. It goes by its tickets before it asks for the lowest free piece, and makes tickets of the pieces of its own
/// reports. While nothing can be handed out yet it asks again after waits that grow, and at last sleeps before each ask.
pub(crate) fn work<S: Search, R: Wait, G: Gate>(
    rt: &R,
    alloc: Global,
    shared: &Shared<S>,
    post: &mut Post<'_, '_, '_, S>,
    gate: &G,
) -> Ended {
    let Ok(mut ground) = ground_of::<S>(alloc, post.units(), post.order()) else {
        return Ended::Memory;
    };
    let mut pace = Pace::new();
    for _ in rt.forever() {
        if let Some(ended) = worked(rt, alloc, shared, post, &mut ground, &mut pace, gate) {
            return ended;
        }
    }
    unreachable!()
}
