//! A unit text that isn't TOML, and numbers that TOML reads otherwise than they look, explained in sentences: where the reader stopped, and
//! what was likely meant.
#![tactic(auto)]

mod marked;
mod mixed;
mod others;
mod slips;
mod syntax;

pub use marked::{add_marked, misread};
pub use others::tell_large;
pub use syntax::tell_not_toml;
