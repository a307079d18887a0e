//! What a check answers.

ghost use Rattle.std.specs.Prelude.{◌≡◌, IfOk};
ghost use Rattle.ec_cli_text.specs.Output.{shown, verdict_output};

use crate::answer::Answer;
use ec_checker::Verdict;
use std::alloc::{AllocError, Global};

/// The line of a verdict, with its status.
pub fn verdict_answer(alloc: Global, verdict: Verdict) -> Result<Answer, AllocError>
    ensures { IfOk result (λ answer. shown answer ≡ verdict_output verdict) }
{
    match verdict {
        Verdict::Least(bytes) => Ok(Answer {
            text: format!(in alloc; "least {bytes}\n")?,
            code: 0,
        }),
        Verdict::NoPlan => Ok(Answer {
            text: String::from_str(alloc, "no plan\n")?,
            code: 1,
        }),
        Verdict::AtLeast(level) => Ok(Answer {
            text: format!(in alloc; "at least {level}\n")?,
            code: 2,
        }),
    }
}
