//! The command `frames`: the FMMU records and the frames of a plan.

ghost use Rattle.std.specs.Prelude.{◌≡◌, string_bytes, IfOk, IfErr};
ghost use Rattle.ec_units.specs.Load.{loads_of};
ghost use Rattle.ec_units.specs.Views.{units_view};
ghost use Rattle.ec_loads.specs.Legal.{IsLegal};
ghost use Rattle.ec_frame_text.specs.Lines.{IsFramesText};
ghost use Rattle.ec_frame_text.specs.Captures.{IsCapture};
ghost use Rattle.ec_cli_text.specs.Output.{Answers};
ghost use Rattle.ec_cli_refusals.specs.Refusals.{IsFramesMemory};
ghost use Rattle.ec_cli_command.specs.declared.job.Job.TheVariants.{Frames};

use crate::answer::Answer;
use ec_cli_refusals::Refusal;
use ec_fmmu::layout;
use ec_frame_text::{capture_of, frames_text};
use ec_loads::Plan;
use ec_outcome::PlayFault;
use ec_units::Units;
use std::alloc::Global;

/// The text of frames, with its status, and the same frames as a capture file.
#[derive(Debug, Drop)]
pub struct Captured {
    pub answer: Answer,
    pub file: Vec<u8>,
}

/// What is answered for a legal plan of the units: the text of its frames, or that memory ran out.
pub fn plan_frames(alloc: Global, units: &Units, plan: &Plan) -> Result<Answer, Refusal>
    requires { IsLegal (loads_of units.now.units) units.now.slots plan.now.places }
    ensures { Answers Frames result (λ w. IsFramesText (units_view units.now) plan.now.places w.text × (w.code ≡ 0)) }
{
    let Ok(mapping) = layout(alloc, units, plan) else {
        return Err(Refusal::Play(PlayFault::OutOfMemory));
    };
    let text = frames_text(alloc, units, &mapping)?;
    Ok(Answer { text, code: 0 })
}

/// The text of the frames of a legal plan of the units, and their capture file, or that memory ran out.
pub fn plan_capture(alloc: Global, units: &Units, plan: &Plan) -> Result<Captured, Refusal>
    requires { IsLegal (loads_of units.now.units) units.now.slots plan.now.places }
    ensures text { IfOk result (λ c. IsFramesText (units_view units.now) plan.now.places (string_bytes c.answer.text)) }
    ensures status { IfOk result (λ c. c.answer.code ≡ 0) }
    ensures file { IfOk result (λ c. IsCapture (units_view units.now) plan.now.places c.file.items) }
    ensures err { IfErr result IsFramesMemory }
{
    let Ok(mapping) = layout(alloc, units, plan) else {
        return Err(Refusal::Play(PlayFault::OutOfMemory));
    };
    let text = frames_text(alloc, units, &mapping)?;
    let file = capture_of(alloc, units, &mapping)?;
    Ok(Captured {
        answer: Answer { text, code: 0 },
        file,
    })
}
