//! What the answers of plays mean for one another.

ghost use Rattle.std.specs.Prelude.{◌≡◌, ◌⊎◌, ℕ, List, Result};
ghost use Rattle.ec_units.specs.declared.units.Units.{Units};
ghost use Rattle.ec_fmmu.specs.declared.mapping.Mapping.{Mapping};
ghost use Rattle.ec_outcome.specs.declared.play.PlayFault.{PlayFault};
ghost use Rattle.ec_player.specs.declared.playing.Played.{Played};
ghost use Rattle.ec_player.specs.Lines.{IsMemory};
ghost use Rattle.ec_player.specs.Plays.{IsAnswer};
ghost use Rattle.ec_player_threads.specs.Plays.{IsLack, SameAnswers};

use ec_slave::Pass;

/// A play in one thread and one with a thread for each slave answer the same, but for what they lacked: the same rows, image and
/// slaves, or the fault of the same frame.
pub fn law_same_answer<X: Pass>()
    ensures { (us : Units) (m : Mapping) (image : List ℕ) (n : ℕ) (slaves : List X) (plain threads : Result (Played X) PlayFault) →
        IsAnswer X.out X.next IsMemory us m image n slaves plain → IsAnswer X.out X.next IsLack us m image n slaves threads → SameAnswers IsLack plain threads }
{}
