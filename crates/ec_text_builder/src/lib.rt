//! Text that is put together piece by piece, where want of memory is told once, at its end.
#![tactic(auto)]

mod amount;
mod draft;

pub use amount::Amount;
pub use draft::Draft;
