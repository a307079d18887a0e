//! The guide of a worker.

ghost use Rattle.std.specs.Option.{is_some};
ghost use Rattle.ec_search_threads.specs.Turns.{IsTied};

use crate::desk::Desk;
use crate::ended::Ended;
use crate::gate::Gate;
use ec_book_shared::Search;
use ec_branch::{Guide, lesser};
use ec_cert::Best;
use ec_loads::Plan;
use std::alloc::Global;
use std::marker::PhantomData;

/// What a worker watches while it explores a piece: the value that it began with, in wire bytes; the value, at first that one and
/// then that of the last plan that it was told, or that of the book or the published one where these were lower; whether it looks
/// at the published one; and why it is to stop, if it is.
#[derive(Drop)]
pub(crate) struct Watch<'a, S: Search, D: Desk<S>, G: Gate> {
    pub alloc: Global,
    pub desk: &'a mut D,
    pub gate: &'a G,
    pub search: PhantomData<S>,
    pub piece: u64,
    pub first: Option<u64>,
    pub value: Option<u64>,
    pub reads: bool,
    pub stop: Option<Ended>,
    pub ghost tied: { IsTied S.loads S.slots first (D.known desk.now) value },
}

impl<'a, S: Search, D: Desk<S>, G: Gate> Guide for Watch<'a, S, D, G> {
    ghost frame = { λ _. record { loads = S.loads; slots = S.slots; floor = 0 } };

    ghost halted = { λ s. is_some s.stop };

    ghost known = { λ s. s.value };

    fn bound(&mut self) -> Option<u64> {
        self.gate.before(self.desk.worker(), self.piece, self.value);
        if self.reads {
            self.value = lesser(self.value, self.desk.read());
        }
        self.value
    }

    fn found(&mut self, plan: &Plan, cost: u64) -> Option<u64> {
        let Ok(plan) = plan.copied(self.alloc) else {
            self.stop = Some(Ended::Memory);
            return None;
        };
        let best = Best {
            busiest: cost,
            plan,
        };
        match self.desk.improve(best) {
            Ok(value) => {
                self.value = Some(value);
                self.stop = None;
                Some(value)
            }
            Err(ended) => {
                self.stop = Some(ended);
                None
            }
        }
    }

    fn stopped(&self) -> bool {
        self.stop.is_some()
    }
}
