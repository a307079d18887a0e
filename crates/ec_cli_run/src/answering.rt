//! What is told of what was read.

ghost use Rattle.std.specs.Prelude.{IfOk};
ghost use Rattle.ec_cli_command.specs.Words.{IsPlain, JobFits};
ghost use Rattle.ec_cli_inputs.specs.Input.{HasRoom, text_given};
ghost use Rattle.ec_cli_answers.specs.Told.{HasInput, IsWritable};
ghost use Rattle.ec_cli_run.specs.Runs.{AnswersOf};

use ec_cli_answers::{Told, answer, answer_plain};
use ec_cli_command::Job;
use ec_cli_inputs::Inputs;
use ec_cli_refusals::Refusal;
use ec_cli_text::Alone;
use ec_workers::Gate;
use std::alloc::Global;
use std::sync::Wait;
use std::thread::Threads;

/// What a job tells of what was read, or why nothing was.
pub(crate) fn tell<T: Threads + Wait + Sync, G: Gate + Sync>(
    rt: &T,
    alloc: Global,
    job: &Job,
    read: Result<Inputs, Refusal>,
    gate: &G,
) -> Result<Told, Refusal>
    requires fits { JobFits job.now }
    requires room { IfOk read HasRoom }
    requires given { IfOk read (λ i. HasInput job.now (text_given i)) }
    ensures told { AnswersOf job.now read result }
    ensures text { IsWritable result }
{
    match read {
        Ok(inputs) => answer(rt, alloc, job, inputs, gate),
        Err(refusal) => Err(refusal),
    }
}

/// The same of a job that searches for nothing, without a runtime.
pub(crate) fn tell_plain(
    alloc: Global,
    job: &Job,
    read: Result<Inputs, Refusal>,
) -> Result<Told, Refusal>
    requires plain { IsPlain job.now }
    requires room { IfOk read HasRoom }
    requires given { IfOk read (λ i. HasInput job.now (text_given i)) }
    ensures told { AnswersOf job.now read result }
    ensures text { IsWritable result }
{
    match read {
        Ok(inputs) => answer_plain(&Alone, alloc, job, inputs),
        Err(refusal) => Err(refusal),
    }
}
