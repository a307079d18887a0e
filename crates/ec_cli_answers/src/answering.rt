//! What each job tells of its inputs.

ghost use Rattle.std.specs.Prelude.{◌≡◌, ◌≤◌, ℕ, List, Option, Ok as OkOf, Some, None, IfOk, IfErr, true};
ghost use Rattle.ec_units.specs.Load.{loads_of};
ghost use Rattle.ec_loads.specs.Held.{no_places};
ghost use Rattle.ec_loads.specs.Shape.{open_leaf};
ghost use Rattle.ec_cert.specs.Parts.{IsPart};
ghost use Rattle.ec_workers.specs.Answers.{asked_for, GoesBeyond, HasRules, HasSearchOrder, IsNoDearer, IsOutcome, IsSolveFault};
ghost use Rattle.ec_cli_command.specs.Words.{JobFits};
ghost use Rattle.ec_cli_command.specs.declared.job.Job.TheVariants.{Plan, Resume};
ghost use Rattle.ec_cli_inputs.specs.Input.{AnswersUnits, Says, HasRoom, text_given};
ghost use Rattle.ec_cli_answers.specs.Told.{HasInput, IsWritable, TellsFor};

use crate::outcome::tell_outcome;
use crate::plain::answer_plain;
use crate::resume::text_outcome;
use crate::told::Told;
use ec_cert::Part;
use ec_cli_command::Job;
use ec_cli_inputs::{Given, Inputs};
use ec_cli_refusals::Refusal;
use ec_cli_text::Together;
use ec_loads::Loads;
use ec_outcome::{Outcome, SolveFault};
use ec_units::Units;
use ec_workers::{Gate, lines_of, solve, solve_kept};
use std::alloc::Global;
use std::sync::Wait;
use std::thread::Threads;

/// What comes of a search for a plan, which begins at the places of the units where it is to keep them.
fn searched<T: Threads + Wait + Sync, G: Gate + Sync>(
    rt: &T,
    alloc: Global,
    workers: usize,
    nodes: u32,
    strong: bool,
    keep: bool,
    units: &Units,
    gate: &G,
) -> Result<Outcome, SolveFault>
    requires workers { (1 ≤ workers) × (workers ≤ 16) }
    requires nodes { (1 ≤ nodes) × (nodes ≤ 10000000) }
    ensures outcome { IfOk result (IsOutcome units.now.units units.now.slots (asked_for strong workers nodes)) }
    ensures beyond { IfOk result (GoesBeyond open_leaf None nodes) }
    ensures order { IfOk result (HasSearchOrder strong (loads_of units.now.units)) }
    ensures rules { IfOk result (HasRules strong) }
    ensures kept { keep ≡ true → IfOk result (IsNoDearer units.now.units units.now.slots) }
    ensures fault { IfErr result (IsSolveFault workers) }
{
    if keep {
        return solve_kept(rt, alloc, units, workers, nodes, strong, gate);
    }
    solve(rt, alloc, units, workers, nodes, strong, gate)
}

/// What a search for a plan tells of the units.
fn tell_plan<T: Threads + Wait + Sync, G: Gate + Sync>(
    rt: &T,
    alloc: Global,
    workers: usize,
    nodes: u32,
    strong: bool,
    keep: bool,
    units: &Units,
    gate: &G,
) -> Result<Told, Refusal>
    requires workers { (1 ≤ workers) × (workers ≤ 16) }
    requires nodes { (1 ≤ nodes) × (nodes ≤ 10000000) }
    ensures told { (bytes : List ℕ) (cert : Option (List ℕ)) → AnswersUnits (OkOf units.now) bytes → TellsFor (Plan workers nodes strong keep) bytes cert result }
    ensures text { IsWritable result }
{
    let mut loads = Loads::new(alloc, units)?;
    let lines = lines_of(alloc, units)?;
    let outcome = searched(rt, alloc, workers, nodes, strong, keep, units, gate)?;
    tell_outcome(alloc, units, &mut loads, lines, outcome)
}

/// What a search tells that goes on with a certificate for the units.
fn tell_resumed<T: Threads + Wait + Sync, G: Gate + Sync>(
    rt: &T,
    alloc: Global,
    workers: usize,
    nodes: u32,
    part: Part,
    units: &Units,
    given: Given,
    gate: &G,
) -> Result<Told, Refusal>
    requires workers { (1 ≤ workers) × (workers ≤ 16) }
    requires nodes { (1 ≤ nodes) × (nodes ≤ 10000000) }
    requires part { IsPart part }
    requires room { given.loads ≡ record { loads = loads_of units.now.units; slots = units.now.slots; places = no_places (loads_of units.now.units) } }
    ensures told { (bytes : List ℕ) → AnswersUnits (OkOf units.now) bytes → TellsFor (Resume workers nodes part) bytes (Some given.text.items) result }
    ensures text { IsWritable result }
{
    let Given { mut loads, text } = given;
    let lines = lines_of(alloc, units)?;
    let outcome = text_outcome(
        rt, alloc, workers, nodes, part, &mut loads, units, text, gate,
    )?;
    tell_outcome(alloc, units, &mut loads, lines, outcome)
}

/// What a search tells of its inputs that goes on with the certificate in them.
fn tell_resume<T: Threads + Wait + Sync, G: Gate + Sync>(
    rt: &T,
    alloc: Global,
    workers: usize,
    nodes: u32,
    part: Part,
    inputs: Inputs,
    gate: &G,
) -> Result<Told, Refusal>
    requires workers { (1 ≤ workers) × (workers ≤ 16) }
    requires nodes { (1 ≤ nodes) × (nodes ≤ 10000000) }
    requires part { IsPart part }
    requires room { HasRoom inputs }
    requires given { HasInput (Resume workers nodes part) (text_given inputs) }
    ensures told { (bytes : List ℕ) (cert : Option (List ℕ)) → Says bytes cert inputs → TellsFor (Resume workers nodes part) bytes cert result }
    ensures text { IsWritable result }
{
    let Inputs { units, given } = inputs;
    match given {
        Some(given) => tell_resumed(rt, alloc, workers, nodes, part, &units, given, gate),
        None => unreachable!(),
    }
}

/// What a job tells of its inputs. A search works with one worker in the calling thread or with 2 to 16 in threads of their
/// own, and `gate` is told before each of its nodes; a play has a thread for each of at most 16 slaves. All that is told, the
/// file that a job writes too, is made here: memory is wanted no more once a byte is written.
///
/// # Errors
///
/// Why nothing is told: the first fault, or that memory, a ring or a thread was wanting.
pub fn answer<T: Threads + Wait + Sync, G: Gate + Sync>(
    rt: &T,
    alloc: Global,
    job: &Job,
    inputs: Inputs,
    gate: &G,
) -> Result<Told, Refusal>
    requires fits { JobFits job.now }
    requires room { HasRoom inputs }
    requires given { HasInput job.now (text_given inputs) }
    ensures told { (bytes : List ℕ) (cert : Option (List ℕ)) → Says bytes cert inputs → TellsFor job.now bytes cert result }
    ensures text { IsWritable result }
{
    match job {
        Job::Plan {
            workers,
            nodes,
            strong,
            keep,
        } => tell_plan(
            rt,
            alloc,
            *workers,
            *nodes,
            *strong,
            *keep,
            &inputs.units,
            gate,
        ),
        Job::Resume {
            workers,
            nodes,
            part,
        } => tell_resume(rt, alloc, *workers, *nodes, *part, inputs, gate),
        Job::Cost | Job::Check | Job::Frames | Job::Capture | Job::Play | Job::PlanCost => {
            answer_plain(&Together(rt), alloc, job, inputs)
        }
    }
}
