//! A play that went to its end.

ghost use Rattle.std.specs.Prelude.{◌≤◌, length};

use crate::round::Round;
use crate::tick::Tick;

/// A play that went to its end: the start frames, and each tick of a hyperperiod.
#[derive(Drop)]
pub struct Trial {
    pub start: Round,
    pub ticks: Vec<Tick>,
    pub ghost few: { length start.trips.items ≤ 769 },
    pub ghost most: { length ticks.items ≤ 1024 },
}
