//! A tick of a play.

ghost use Rattle.std.specs.Prelude.{◌≤◌, length};

use crate::round::Round;
use ec_player::{TickRow, Wrong};

/// A tick that was played: its frames, what is told of it, and each working counter that isn't the one that is wanted. Its
/// datagrams are counted from 0 on, one frame after the other.
#[derive(Drop)]
pub struct Tick {
    pub round: Round,
    pub row: TickRow,
    pub shorts: Vec<Wrong>,
    pub ghost few: { length round.trips.items ≤ 8 },
}
