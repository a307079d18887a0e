//! What a job tells.

ghost use Rattle.std.specs.Prelude.{◌≡◌, None, IfOk, option_map};
ghost use Rattle.ec_cli_text.specs.Output.{written_of};
ghost use Rattle.ec_cli_answers.specs.Told.{told, file_of, plan_told, HandsNothing, HasNoCert};

use ec_cert::Cert;
use ec_checker::Verdict;
use ec_cli_refusals::Refusal;
use ec_cli_text::Answer;
use ec_loads::Plan;
use ec_outcome::Ending;

/// The file that a job writes before its text.
#[derive(Debug, Drop)]
pub enum File {
    /// There is none.
    Nothing,
    /// The certificate of a search.
    Cert(Cert),
    /// The frames of a plan as a capture file.
    Capture(Vec<u8>),
}

/// What a job tells: its text with its exit status, and the file that is written before it.
#[derive(Debug, Drop)]
pub struct Told {
    pub answer: Answer,
    pub file: File,
    /// The plan whose frames, play or costs are told; none of a check and of a search, whose certificate has it.
    pub plan: Option<Plan>,
    /// How a search ended without a proof; none of a proof, and of other jobs.
    pub ending: Option<Ending>,
    /// What the checker said of the certificate that this plan is of; none of other plans.
    pub verdict: Option<Verdict>,
}

impl Told {
    /// The plan of which is told, if there is one here: of a search that of its certificate.
    pub fn plan(&self) -> Option<&Plan>
        ensures { option_map (λ plan. plan.now.places) result ≡ plan_told self.now }
    {
        match &self.file {
            File::Cert(cert) => match &cert.best {
                Some(best) => Some(&best.plan),
                None => None,
            },
            File::Nothing | File::Capture(_) => self.plan.as_ref(),
        }
    }
}

/// What is told by a job that writes no file.
pub(crate) fn without_file(answer: Result<Answer, Refusal>) -> Result<Told, Refusal>
    ensures text { told result ≡ written_of answer }
    ensures file { file_of result ≡ None }
    ensures kind { IfOk result (λ t. HasNoCert t.file) }
    ensures hands { IfOk result HandsNothing }
{
    match answer {
        Ok(answer) => Ok(Told {
            answer,
            file: File::Nothing,
            plan: None,
            ending: None,
            verdict: None,
        }),
        Err(refusal) => Err(refusal),
    }
}
