//! The jobs of the program: what is read, what is told of it, and how that is delivered.
#![tactic(auto)]

mod answering;
mod delivering;
mod doing;
mod job;
mod law;
mod merging;
mod misfits;
mod older;
mod reporting;
mod running;

pub use doing::do_line;
pub use job::{Status, refuse, refuse_words};
pub use law::{
    law_a_plan_is_true, law_a_resumed_plan_is_true, law_a_yes_is_true, law_answers_agree,
    law_one_capture_each, law_one_least_each, law_one_output_each,
};
pub use merging::{MergeFault, do_merge};
pub use reporting::Report;
pub use running::{run, run_plain};
