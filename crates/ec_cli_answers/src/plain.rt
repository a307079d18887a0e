//! What jobs tell that search for nothing.

ghost use Rattle.std.specs.Prelude.{◌≡◌, ℕ, List, Option, Some, None, IfOk};
ghost use Rattle.ec_units.specs.Load.{loads_of};
ghost use Rattle.ec_units.specs.Views.{units_view};
ghost use Rattle.ec_loads.specs.Held.{no_places};
ghost use Rattle.ec_loads.specs.Legal.{IsLegal};
ghost use Rattle.ec_cli_command.specs.Words.{IsPlain};
ghost use Rattle.ec_cli_command.specs.declared.job.Job.TheVariants.{Check};
ghost use Rattle.ec_cli_inputs.specs.Input.{Says, HasRoom, text_given};
ghost use Rattle.ec_cli_text.specs.Output.{Answers, IsCheckOutput};
ghost use Rattle.ec_cli_answers.specs.Told.{HasInput, IsCaptureTold, HasNoCert, IsOfPlan, IsPlanTold, IsWritable, TellsFor, file_of, plan_told, told as told_of};

use crate::plans::{Chosen, plan_for};
use crate::right::right_cert;
use crate::told::{File, Told, without_file};
use ec_cli_command::Job;
use ec_cli_inputs::{Given, Inputs};
use ec_cli_refusals::Refusal;
use ec_cli_text::{Answer, Player, plan_capture, plan_cost, plan_frames, verdict_answer};
use ec_loads::{Loads, Plan};
use ec_units::Units;
use std::alloc::Global;

/// What is answered for units and a certificate's text: its verdict, or why it shows nothing. The loads are those of the
/// units, with no place.
fn check_answer(
    alloc: Global,
    loads: &mut Loads,
    units: &Units,
    text: Vec<u8>,
) -> Result<Answer, Refusal>
    requires { loads.old ≡ record { loads = loads_of units.now.units; slots = units.now.slots; places = no_places (loads_of units.now.units) } }
    ensures { Answers Check result (IsCheckOutput (units_view units.now) text.items) }
{
    let right = right_cert(alloc, loads, units, text)?;
    Ok(verdict_answer(alloc, right.verdict)?)
}

/// What is told of the frames of a legal plan, with their capture file.
fn tell_capture(alloc: Global, units: &Units, plan: &Plan) -> Result<Told, Refusal>
    requires { IsLegal (loads_of units.now.units) units.now.slots plan.now.places }
    ensures told { IsCaptureTold (units_view units.now) plan.now.places result }
    ensures text { IsWritable result }
    ensures kind { IfOk result (λ t. HasNoCert t.file) }
{
    let made = plan_capture(alloc, units, plan)?;
    Ok(Told {
        answer: made.answer,
        file: File::Capture(made.file),
        plan: None,
        ending: None,
        verdict: None,
    })
}

/// What a job tells of a legal plan.
fn tell_plan<P: Player>(
    player: &P,
    alloc: Global,
    job: &Job,
    units: &Units,
    plan: &Plan,
) -> Result<Told, Refusal>
    requires job { IsOfPlan job.now }
    requires ready { P.ready player.now }
    requires legal { IsLegal (loads_of units.now.units) units.now.slots plan.now.places }
    ensures told { IsPlanTold job.now (units_view units.now) plan.now.places result }
    ensures text { IsWritable result }
    ensures kind { IfOk result (λ t. HasNoCert t.file) }
{
    match job {
        Job::Frames => without_file(plan_frames(alloc, units, plan)),
        Job::Capture => tell_capture(alloc, units, plan),
        Job::Play => without_file(player.play(alloc, units, plan)),
        Job::Cost | Job::PlanCost => without_file(plan_cost(alloc, units, plan)),
        Job::Check => unreachable!(),
        Job::Plan { .. } => unreachable!(),
        Job::Resume { .. } => unreachable!(),
    }
}

/// What is told, with the plan of which it is told.
fn with_plan(told: Result<Told, Refusal>, chosen: Chosen) -> Result<Told, Refusal>
    requires kind { IfOk told (λ t. HasNoCert t.file) }
    ensures text { told_of result ≡ told_of told }
    ensures file { file_of result ≡ file_of told }
    ensures formed { IsWritable told → IsWritable result }
    ensures plan { IfOk result (λ t. plan_told t ≡ Some chosen.plan.places) }
    ensures ending { IfOk result (λ t. t.ending ≡ None) }
    ensures verdict { IfOk result (λ t. t.verdict ≡ chosen.verdict) }
{
    let old = told?;
    let Chosen { plan, verdict } = chosen;
    Ok(Told {
        answer: old.answer,
        file: old.file,
        plan: Some(plan),
        ending: None,
        verdict,
    })
}

/// What a job that searches for nothing tells of its inputs.
///
/// # Errors
///
/// The first fault of the plan or the certificate, or that memory, of a play also that a ring or a thread, was wanting.
pub fn answer_plain<P: Player>(
    player: &P,
    alloc: Global,
    job: &Job,
    inputs: Inputs,
) -> Result<Told, Refusal>
    requires plain { IsPlain job.now }
    requires ready { P.ready player.now }
    requires room { HasRoom inputs }
    requires given { HasInput job.now (text_given inputs) }
    ensures told { (bytes : List ℕ) (cert : Option (List ℕ)) → Says bytes cert inputs → TellsFor job.now bytes cert result }
    ensures text { IsWritable result }
{
    let Inputs { units, given } = inputs;
    match job {
        Job::Check => match given {
            Some(given) => {
                let Given { mut loads, text } = given;
                without_file(check_answer(alloc, &mut loads, &units, text))
            }
            None => unreachable!(),
        },
        Job::Plan { .. } => unreachable!(),
        Job::Resume { .. } => unreachable!(),
        Job::Frames | Job::Capture | Job::Play | Job::PlanCost | Job::Cost => {
            let chosen = plan_for(alloc, &units, given)?;
            let told = tell_plan(player, alloc, job, &units, &chosen.plan);
            with_plan(told, chosen)
        }
    }
}
