//! The deques of several threads, each of which takes numbers from all of them.

ghost use Rattle.std.specs.Prelude.{◌≡◌, ℕ, ◌+◌, ◌≤◌, ◌<◌, [], ◌∷◌, ◌++◌, IfOk, IsTrue, IsFalse, OnOk, MatchOption, vec_len, All, length};
ghost use Rattle.crossbeam_deque.specs.Handles.{view, IsPassOf, worker_deque, stealer_deque, worker_view, worker_flavor};
ghost use Rattle.ec_search_queues.specs.Counted.{hand, took, TakenFrom};

use crossbeam_deque::protocol::{Outcome, Protocol};
use crossbeam_deque::{Pass, Steal, Stealer, Worker};
use std::alloc::{AllocError, Global};
use std::collections::LinkedList;

/// What a pass has pushed to its deque and taken from it. No value of it is made.
pub struct Hand {
    pub pushed: LinkedList<u64>,
    pub taken: LinkedList<u64>,
}

/// Each number was pushed as often as all passes took it and it still stands there.
pub(crate) struct Fair;

impl Protocol<u64, Hand> for Fair {
    ghost use Rattle.std.specs.Prelude.{[]};
    ghost use Rattle.ec_search_queues.specs.Counted.{hand, Balanced};

    ghost holds = { Balanced };

    ghost first = { hand [] [] };

    ghost guest = { hand [] [] };
}

/// The numbers join what the pass has pushed.
struct Pushes;

impl Outcome<u64, Hand> for Pushes {
    ghost then = { λ v xs w. w ≡ hand (v.pushed ++ xs) v.taken };
}

/// The numbers join what the pass has taken.
struct Takes;

impl Outcome<u64, Hand> for Takes {
    ghost then = { λ v xs w. w ≡ hand v.pushed (v.taken ++ xs) };
}

type Owner = Worker<u64, Global, Hand, Fair>;

type Thief = Stealer<u64, Global, Hand, Fair>;

/// The deque of another thread, and the pass by which this one takes from it.
#[derive(Drop)]
pub(crate) struct Other {
    pub(crate) stealer: Thief,
    pub(crate) pass: Pass<u64, Hand>,
    pub ghost fits: { IsPassOf (stealer_deque stealer) pass },
}

impl Other {
    fn of(stealer: Thief) -> Other
        ensures { view result.pass ≡ hand [] [] }
    {
        let pass = stealer.pass();
        Other { stealer, pass }
    }

    /// The oldest number, if one was there and no other thread was about to take it.
    fn steal(&mut self) -> Option<u64>
        ensures { MatchOption result (view self.new.pass ≡ view self.old.pass) (λ n. view self.new.pass ≡ took (view self.old.pass) n) }
    {
        match self.stealer.steal_as::<Takes>(&mut self.pass) {
            Steal::Success(n) => Some(n),
            Steal::Empty | Steal::Retry => None,
        }
    }
}

/// A thread's own deque, first in first out, and those of the others.
#[derive(Drop)]
pub(crate) struct Deques {
    pub(crate) own: Owner,
    pub(crate) others: Vec<Other>,
    pub ghost fifo: { worker_flavor own ≡ 0 },
}

impl Deques {
    ghost use Rattle.ec_search_queues.specs.Hands.{hands, all_hands, IsFresh, IsAlone, IsNew};

    /// An empty deque of the thread's own, with no others.
    fn alone(alloc: Global) -> Result<Deques, AllocError>
        ensures { IfOk result IsAlone }
    {
        let own = Owner::fifo_as(alloc, 8)?;
        Ok(Deques {
            own,
            others: Vec::new(alloc),
        })
    }

    /// An empty deque for each of some threads.
    fn alone_each(alloc: Global, workers: usize) -> Result<Vec<Deques>, AllocError>
        ensures count { IfOk result (λ v. vec_len v ≡ workers) }
        ensures each { IfOk result (λ v. All IsAlone v.items) }
    {
        let mut all = Vec::with_capacity(alloc, workers)?;
        for _i in 0..workers {
            all.push(Deques::alone(alloc)?)?;
        }
        Ok(all)
    }

    /// Adds what takes from each of these deques.
    fn add_thieves(others: &mut Vec<Other>, deques: &[Deques]) -> Result<(), AllocError>
        requires { All IsFresh others.old.items }
        ensures count { OnOk result (vec_len others.new ≡ vec_len others.old + length deques.now) }
        ensures each { OnOk result (All IsFresh others.new.items) }
    {
        for one in deques {
            others.push(Other::of(one.own.stealer()?))?;
        }
        Ok(())
    }

    /// What takes from each deque but one, the ones after that first.
    fn others_of(alloc: Global, all: &[Deques], me: usize) -> Result<Vec<Other>, AllocError>
        requires { me < length all.now }
        ensures count { IfOk result (λ v. vec_len v + 1 ≡ length all.now) }
        ensures each { IfOk result (λ v. All IsFresh v.items) }
    {
        let mut others = Vec::with_capacity(alloc, all.len())?;
        Deques::add_thieves(&mut others, &all[me + 1..])?;
        Deques::add_thieves(&mut others, &all[..me])?;
        Ok(others)
    }

    /// An empty deque for each of some threads, which can take from one another's.
    pub(crate) fn new(alloc: Global, workers: usize) -> Result<Vec<Deques>, AllocError>
        ensures count { IfOk result (λ v. vec_len v ≡ workers) }
        ensures each { IfOk result (λ v. All (IsNew workers) v.items) }
    {
        let mut all = Deques::alone_each(alloc, workers)?;
        for i in 0..workers {
            let others = Deques::others_of(alloc, all.as_slice(), i)?;
            let one: &mut Deques = &mut all[i];
            one.others = others;
        }
        Ok(all)
    }

    /// The number joins the thread's own deque; false where it has no room.
    pub(crate) fn push(&mut self, piece: u64) -> bool
        ensures pushed { IsTrue result → worker_view self.new.own ≡ hand ((worker_view self.old.own).pushed ++ piece ∷ []) (worker_view self.old.own).taken }
        ensures refused { IsFalse result → worker_view self.new.own ≡ worker_view self.old.own }
        ensures others { self.new.others.items ≡ self.old.others.items }
    {
        self.own.push_as::<Pushes>(piece).is_ok()
    }

    /// A number of the first of the other deques that has one.
    fn steal(&mut self) -> Option<u64>
        ensures own { worker_view self.new.own ≡ worker_view self.old.own }
        ensures taken { MatchOption result (hands self.new.others.items ≡ hands self.old.others.items) (λ n. TakenFrom (hands self.old.others.items) n (hands self.new.others.items)) }
    {
        for i in 0..self.others.len() {
            let other = &mut self.others[i];
            if let Some(n) = other.steal() {
                return Some(n);
            }
        }
        None
    }

    /// A number of the thread's own deque, or else one of another's.
    pub(crate) fn next(&mut self) -> Option<u64>
        ensures { MatchOption result (all_hands self.new ≡ all_hands self.old) (λ n. TakenFrom (all_hands self.old) n (all_hands self.new)) }
    {
        if let Some(n) = self.own.pop_as::<Takes>() {
            return Some(n);
        }
        self.steal()
    }
}
