//! The commands of the command line and their options.
#![tactic(auto)]

mod options;
mod tips;

pub use options::all_commands;
pub use tips::{tip_of_command, tip_of_option};
