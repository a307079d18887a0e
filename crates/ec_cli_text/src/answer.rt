//! What a job answers.

/// The text that a run writes, and the exit status of the run that writes it whole.
#[derive(Debug, Drop)]
pub struct Answer {
    pub text: String,
    pub code: u8,
}
