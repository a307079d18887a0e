//! Numbers of pieces that threads take from one another.

ghost use Rattle.std.specs.Prelude.{◌≡◌, IfOk, IsTrue, IsFalse, MatchOption, vec_len, All};
ghost use Rattle.ec_search_queues.specs.Counted.{TakenFrom, AreNew, with_pushed};

use crate::deques::Deques;
use std::alloc::{AllocError, Global};
use std::marker::Model;

/// What one worker knows of the numbers that workers hand to one another: a deque of its own, first in first out, and
/// the deques of the others. A contract sees, for each of these deques, its own first, the numbers that this worker has
/// pushed there and those that it has taken from there, in order. Of one deque, each number was pushed as often as all
/// workers together took it from there and it still stands there.
#[derive(Drop)]
pub struct Tickets {
    deques: Deques,
}

impl Model for Tickets {
    ghost use Rattle.std.specs.Prelude.{List};
    ghost use Rattle.ec_search_queues.specs.declared.deques.Hand.{Hand};
    ghost use Rattle.ec_search_queues.specs.Hands.{all_hands};

    ghost Value = { List Hand };

    ghost view = { λ t. all_hands t.deques };
}

impl Tickets {
    /// The tickets of each of some workers, all of whose deques are empty.
    pub fn new(alloc: Global, workers: usize) -> Result<Vec<Tickets>, AllocError>
        ensures count { IfOk result (λ v. vec_len v ≡ workers) }
        ensures each { IfOk result (λ v. All (AreNew workers) v.items) }
    {
        let mut all = Vec::with_capacity(alloc, workers)?;
        for deques in Deques::new(alloc, workers)? {
            all.push(Tickets { deques })?;
        }
        Ok(all)
    }

    /// Pushes a number to the worker's own deque; false where memory for it was refused.
    pub fn push(&mut self, piece: u64) -> bool
        ensures pushed { IsTrue result → self.new ≡ with_pushed self.old piece }
        ensures refused { IsFalse result → self.new ≡ self.old }
    {
        self.deques.push(piece)
    }

    /// The oldest number of the worker's own deque, else that of the first of the others that has one; each is tried
    /// once.
    pub fn next_ticket(&mut self) -> Option<u64>
        ensures { MatchOption result (self.new ≡ self.old) (λ n. TakenFrom self.old n self.new) }
    {
        self.deques.next()
    }
}
