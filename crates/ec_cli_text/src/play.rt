//! The command `play`: a plan is played through modelled slaves.

ghost use Rattle.std.specs.Prelude.{◌≡◌};
ghost use Rattle.std.specs.Thread.{IsSync};
ghost use Rattle.ec_units.specs.Load.{loads_of};
ghost use Rattle.ec_units.specs.Views.{units_view};
ghost use Rattle.ec_loads.specs.Legal.{IsLegal};
ghost use Rattle.ec_play_text.specs.Plays.{IsPlayText};
ghost use Rattle.ec_cli_text.specs.Output.{Answers};
ghost use Rattle.ec_cli_command.specs.declared.job.Job.TheVariants.{Play};

use crate::answer::Answer;
use ec_cli_refusals::Refusal;
use ec_fmmu::layout;
use ec_loads::Plan;
use ec_outcome::PlayFault;
use ec_play_text::{played_text, played_together};
use ec_units::Units;
use std::alloc::Global;
use std::sync::Wait;
use std::thread::Threads;

/// Plays plans.
pub trait Player {
    // what is to be known of its threads
    ghost ready: { Self → Type 0 };

    /// What is answered for a legal plan of the units that is played for a hyperperiod through new modelled slaves, with an image of
    /// zeros: the text of the play, or that memory, a ring or a thread was wanting.
    fn play(&self, alloc: Global, units: &Units, plan: &Plan) -> Result<Answer, Refusal>
        requires ready { ready self.now }
        requires legal { IsLegal (loads_of units.now.units) units.now.slots plan.now.places }
        ensures { Answers Play result (λ w. IsPlayText (units_view units.now) plan.now.places w.text × (w.code ≡ 0)) };
}

/// Plays in the calling thread.
#[derive(Clone, Copy, Debug)]
pub struct Alone;

/// Plays with a thread for each slave where there are at most 16, and else in the calling thread.
#[derive(Drop)]
pub struct Together<'a, R: Threads + Wait + Sync>(pub &'a R);

impl Player for Alone {
    ghost ready = { λ _. Unit {0} };

    fn play(&self, alloc: Global, units: &Units, plan: &Plan) -> Result<Answer, Refusal> {
        let Ok(mapping) = layout(alloc, units, plan) else {
            return Err(Refusal::Play(PlayFault::OutOfMemory));
        };
        let text = played_text(alloc, units, &mapping)?;
        Ok(Answer { text, code: 0 })
    }
}

impl<'a, R: Threads + Wait + Sync> Player for Together<'a, R> {
    ghost ready = { λ _. IsSync R.row };

    fn play(&self, alloc: Global, units: &Units, plan: &Plan) -> Result<Answer, Refusal> {
        let Ok(mapping) = layout(alloc, units, plan) else {
            return Err(Refusal::Play(PlayFault::OutOfMemory));
        };
        let text = played_together(self.0, alloc, units, &mapping)?;
        Ok(Answer { text, code: 0 })
    }
}
