//! The desk of a worker beside others.

ghost use Rattle.std.specs.Prelude.{◌≡◌, false};
ghost use Rattle.ec_book_shared.specs.Receipts.{holds};
ghost use Rattle.ec_search_threads.specs.Turns.{IsSeatValue};

use crate::desk::Desk;
use crate::ended::Ended;
use crate::post::Post;
use ec_book::{BookFault, Took};
use ec_book_shared::{Search, Shared};
use ec_cert::{Best, Subtree};
use ec_symmetry::Rules;
use std::sync::Wait;

/// A seat at a shared book. What is done there to the book is done with the lock free, but for the call itself.
#[derive(Drop)]
pub(crate) struct CrewDesk<'a, 'u, 'o, 'b, S: Search, R: Wait> {
    pub rt: &'a R,
    pub shared: &'a Shared<S>,
    pub post: &'a mut Post<'u, 'o, 'b, S>,
}

impl<'a, 'u, 'o, 'b, S: Search, R: Wait> Desk<S> for CrewDesk<'a, 'u, 'o, 'b, S, R> {
    ghost known = { λ d. d.post.now.reader.known };

    ghost is_value = { λ d. IsSeatValue S.loads S.slots S.order S.rules S.given S.given_value S.nodes S.part d.post.now.seat };

    ghost left = { λ d piece. holds d.post.now.seat.receipts piece ≡ false };

    fn worker(&self) -> usize {
        self.post.worker()
    }

    fn rules(&self) -> Rules {
        self.shared.rules()
    }

    fn read(&mut self) -> Option<u64> {
        self.post.read()
    }

    fn improve(&mut self, best: Best) -> Result<u64, Ended> {
        let busiest = best.busiest;
        let post = &mut *self.post;
        match self.shared.improve(self.rt, &mut post.seat, best) {
            Ok(()) => {
                post.publish();
                Ok(busiest)
            }
            Err((BookFault::NotBetter(value), _)) => Ok(value),
            Err((BookFault::OutOfMemory, _)) => Err(Ended::Memory),
            Err(_) => Err(Ended::Refused),
        }
    }

    #[tactic(auto, using(crate::proofs::Leaving::report_leaves))]
    fn report(&mut self, took: &Took, sub: Subtree) -> Result<(), BookFault> {
        let prefix = took.prefix.as_slice();
        let post = &mut *self.post;
        match self
            .shared
            .report(self.rt, &mut post.seat, took.piece, prefix, sub)
        {
            Ok(()) => Ok(()),
            Err((fault, _)) => Err(fault),
        }
    }

    #[tactic(auto, using(crate::proofs::Leaving::back_leaves))]
    fn give_back(&mut self, piece: u64) -> bool {
        let post = &mut *self.post;
        self.shared.back(self.rt, &mut post.seat, piece).is_ok()
    }
}
