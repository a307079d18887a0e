//! What searches find, of one worker and of several.

ghost use Rattle.std.specs.Prelude.{◌≤◌};

use crate::call::Call;
use crate::certs::{add_verdict, add_written};
use crate::samples::add_places;
use ec_cert::Cert;
use ec_text_builder::Draft;
use ec_units::Units;
use ec_workers::{Gate, Outcome, SolveFault, solve};
use std::alloc::{AllocError, Global};
use std::hint;
use std::sync::Wait;
use std::sync::atomic::{AtomicBool, AtomicU64, Ordering};
use std::thread::Threads;

/// A gate that counts the calls of all workers before a node, apart those that aren't of worker 0 and piece 0, and the nodes that are told
/// after the pieces.
#[derive(Drop)]
pub(crate) struct Told {
    pub calls: AtomicU64,
    pub others: AtomicU64,
    pub nodes: AtomicU64,
}

impl Told {
    pub(crate) fn new() -> Told {
        Told {
            calls: AtomicU64::new(0),
            others: AtomicU64::new(0),
            nodes: AtomicU64::new(0),
        }
    }
}

impl Told {
    /// Adds how many nodes were told after the pieces, where these aren't those before which it was told.
    pub(crate) fn add_nodes(&self, out: &mut Draft) {
        let nodes = self.nodes.load(Ordering::SeqCst);
        if nodes != self.calls.load(Ordering::SeqCst) {
            out.add(format_args!(" after {nodes}"));
        }
    }
}

impl Gate for Told {
    fn before(&self, worker: usize, piece: u64, _value: Option<u64>) {
        self.calls.fetch_add(1, Ordering::SeqCst);
        if worker != 0 || piece != 0 {
            self.others.fetch_add(1, Ordering::SeqCst);
        }
    }

    fn after(&self, _worker: usize, nodes: u64, _value: Option<u64>) {
        self.nodes.fetch_add(nodes, Ordering::SeqCst);
    }

    fn is_over(&self) -> bool {
        false
    }
}

/// How many workers search, 1 to 16 of them, within how many nodes, at least one, and whether by the strong rules.
#[derive(Clone, Copy)]
pub(crate) struct Crew {
    pub workers: usize,
    pub nodes: u32,
    pub strong: bool,
}

/// What is told of a search.
#[derive(Clone, Copy)]
pub(crate) enum Shown {
    /// How it ended, and the places of its plan.
    Plan,
    /// The same, and of a search without a proof its tree.
    Tree,
    /// How it ended, and what the checker answers of its certificate: all that is the same whatever the order in which
    /// workers made it.
    End,
    /// What the checker answers of its certificate.
    Verdict,
    /// Its certificate, with bars.
    Cert,
}

/// Adds how a search ended.
fn add_end(out: &mut Draft, outcome: &Outcome) {
    match outcome {
        Outcome::Optimal { busiest, .. } => out.add(format_args!("optimal {busiest}")),
        Outcome::NoPlan { .. } => out.add("no plan"),
        Outcome::Unproved { best, cut, .. } => match best {
            Some(best) => out.add(format_args!("unproved {} {cut:?}", best.busiest)),
            None => out.add(format_args!("unproved none {cut:?}")),
        },
    }
}

/// The certificate of a search that ended with a proof.
fn proof_of(outcome: &Outcome) -> Option<&Cert> {
    match outcome {
        Outcome::Optimal { cert, .. } => Some(cert),
        Outcome::NoPlan { cert } => Some(cert),
        Outcome::Unproved { .. } => None,
    }
}

/// Adds how a search ended and its plan, and of a search without a proof, where it is asked for, its tree.
fn add_plan(out: &mut Draft, outcome: &Outcome, whole: bool) {
    add_end(out, outcome);
    match outcome {
        Outcome::Optimal { plan, .. } => {
            out.add(' ');
            add_places(out, plan.places.as_slice());
        }
        Outcome::Unproved { tree, .. } if whole => out.add(format_args!(" {tree:?}")),
        _ => {}
    }
}

/// Adds how a search ended, and what the checker answers of its certificate, if it has one.
pub(crate) fn add_outcome(out: &mut Draft, alloc: Global, units: &Units, outcome: &Outcome) {
    add_end(out, outcome);
    if let Some(cert) = proof_of(outcome) {
        out.add(' ');
        add_verdict(out, alloc, units, cert);
    }
}

/// Adds what is asked of a search.
fn add_shown(out: &mut Draft, alloc: Global, units: &Units, outcome: &Outcome, shown: Shown) {
    match shown {
        Shown::Plan => add_plan(out, outcome, false),
        Shown::Tree => add_plan(out, outcome, true),
        Shown::End => add_outcome(out, alloc, units, outcome),
        Shown::Verdict => match proof_of(outcome) {
            Some(cert) => add_verdict(out, alloc, units, cert),
            None => out.add("unproved"),
        },
        Shown::Cert => if let Some(cert) = proof_of(outcome) {
            add_written(out, cert, usize::MAX);
        },
    }
}

/// Adds why no search began, where that is asked.
fn add_fault(out: &mut Draft, fault: SolveFault, shown: Shown) {
    match shown {
        Shown::Verdict => out.add("refused"),
        Shown::Cert => {}
        _ => out.add(format_args!("{fault:?}")),
    }
}

/// Searches, and adds what is found.
pub(crate) fn search(
    rt: &(impl Threads + Wait + Sync),
    alloc: Global,
    units: &Units,
    crew: Crew,
    gate: &(impl Gate + Sync),
    shown: Shown,
    out: &mut Draft,
) {
    let workers = crew.workers.clamp(1, 16);
    let nodes = crew.nodes.clamp(1, 10_000_000);
    match solve(rt, alloc, units, workers, nodes, crew.strong, gate) {
        Ok(outcome) => {
            add_shown(out, alloc, units, &outcome, shown);
            drop(outcome);
        }
        Err(fault) => add_fault(out, fault, shown),
    }
}

/// What a search finds, as a text.
pub(crate) fn found(
    rt: &(impl Threads + Wait + Sync),
    alloc: Global,
    units: &Units,
    crew: Crew,
) -> Result<String, AllocError> {
    let mut text = Draft::new(alloc);
    search(rt, alloc, units, crew, &Told::new(), Shown::End, &mut text);
    text.finish()
}

/// The workers that a word of a call is, and the nodes that the next one is; by the strong rules where the call says so.
pub(crate) fn crew_of(call: Call<'_>, at: usize) -> Crew {
    Crew {
        workers: call.index(at),
        nodes: call.count(at.saturating_add(1)),
        strong: call.is_strong(),
    }
}

/// What so many workers find; with `told`, also before how many nodes the gate was told: `crew WORKERS NODES told`.
pub(crate) fn crewed(
    rt: &(impl Threads + Wait + Sync),
    alloc: Global,
    units: &Units,
    call: Call<'_>,
    out: &mut Draft,
) {
    let gate = Told::new();
    search(rt, alloc, units, crew_of(call, 1), &gate, Shown::End, out);
    if call.word(3) == "told" {
        out.add(format_args!(" told {}", gate.calls.load(Ordering::SeqCst)));
        gate.add_nodes(out);
    }
}

/// Adds what the first of many searches found, and how many of them find the same.
fn add_same(
    rt: &(impl Threads + Wait + Sync),
    alloc: Global,
    units: &Units,
    call: Call<'_>,
    first: &str,
    out: &mut Draft,
) {
    let mut same = 1u32;
    for _ in 1..call.count(1) {
        match found(rt, alloc, units, crew_of(call, 2)) {
            Ok(text) => {
                if text.as_str() == first {
                    same = same.saturating_add(1);
                }
                drop(text);
            }
            Err(_) => out.give_up(),
        }
    }
    out.add(format_args!("{first} {same} times"));
}

/// What the first of many searches finds, and how many of them find the same: `again TIMES WORKERS NODES`.
pub(crate) fn crewed_again(
    rt: &(impl Threads + Wait + Sync),
    alloc: Global,
    units: &Units,
    call: Call<'_>,
    out: &mut Draft,
) {
    match found(rt, alloc, units, crew_of(call, 2)) {
        Ok(first) => add_same(rt, alloc, units, call, first.as_str(), out),
        Err(_) => out.give_up(),
    }
}

/// How often a worker looks whether the others have come.
const LOOKS: u32 = 100_000_000;

/// A gate at which each worker, before its first node, sets its flag and waits for those of the others; and whether
/// one of them waited in vain.
#[derive(Drop)]
struct Meeting {
    flags: AtomicU64,
    all: u64,
    missed: AtomicBool,
}

/// The flag of a worker, a bit.
fn flag_of(worker: usize) -> u64 {
    match worker {
        0..64 => 1 << worker,
        _ => 0,
    }
}

impl Meeting {
    /// Whether all have come.
    fn is_full(&self) -> bool {
        self.flags.load(Ordering::SeqCst) == self.all
    }
}

impl Gate for Meeting {
    fn before(&self, worker: usize, _piece: u64, _value: Option<u64>) {
        let flag = flag_of(worker);
        if self.flags.fetch_or(flag, Ordering::SeqCst) & flag != 0 {
            return;
        }
        for _ in 0..LOOKS {
            if self.is_full() {
                return;
            }
            hint::spin_loop();
        }
        self.missed.store(true, Ordering::SeqCst);
    }

    fn is_over(&self) -> bool {
        false
    }
}

/// What so many workers find that wait for each other before their first nodes, and whether they met: `meet WORKERS
/// NODES`. A search whose workers run one after the other, or explore under a lock, misses.
pub(crate) fn met(
    rt: &(impl Threads + Wait + Sync),
    alloc: Global,
    units: &Units,
    call: Call<'_>,
    out: &mut Draft,
) {
    let gate = Meeting {
        flags: AtomicU64::new(0),
        all: flag_of(call.index(1).clamp(1, 16)).saturating_sub(1),
        missed: AtomicBool::new(false),
    };
    search(rt, alloc, units, crew_of(call, 1), &gate, Shown::End, out);
    let is_met = gate.is_full() && !gate.missed.load(Ordering::SeqCst);
    out.add(if is_met { " met" } else { " missed" });
}
