//! What plays through modelled slaves answer.

ghost use Rattle.std.specs.Prelude.{◌≡◌, ℕ, ◌<◌, Bool, true, List, length, map, Err};
ghost use Rattle.ec_units.specs.declared.slave.Place.{Place};
ghost use Rattle.ec_units.specs.declared.units.Units.{Units};
ghost use Rattle.ec_units.specs.Views.{unit_view};
ghost use Rattle.ec_fmmu.specs.declared.mapping.Mapping.{Mapping};
ghost use Rattle.ec_fmmu.specs.Seats.{seats_of};
ghost use Rattle.ec_slave.specs.Step.{memory_after, frame_after};
ghost use Rattle.ec_outcome.specs.declared.play.PlayFault.{PlayFault};
ghost use Rattle.ec_player.specs.declared.playing.Played.{Played};
ghost use Rattle.ec_player.specs.Plays.{IsAnswer, IsPlayed};
ghost use Rattle.ec_player_threads.specs.Plays.{IsLack};
ghost use Rattle.ec_play_laws.specs.Arrivals.{OutputsArrived, InputsArrived, InputsAreAbsent};
ghost use Rattle.ec_frame_laws.specs.IsLine.{IsLine};

/// A play through modelled slaves that fails lacked what it needs, whatever that may be, and no frame of it was faulty. With a thread
/// for each slave it lacked memory, a ring or a thread.
pub fn law_plays_lack()
    ensures any { (lacks : PlayFault → Bool) (us : Units) (ps : List Place) (m : Mapping) (image : List ℕ) (n : ℕ) (slaves : List (List ℕ)) (f : PlayFault) → IsLine us ps m slaves →
        length image ≡ m.total → IsAnswer frame_after memory_after (λ g. lacks g ≡ true) us m image n slaves (Err f) → lacks f ≡ true }
    ensures threads { (us : Units) (ps : List Place) (m : Mapping) (image : List ℕ) (n : ℕ) (slaves : List (List ℕ)) (f : PlayFault) → IsLine us ps m slaves →
        length image ≡ m.total → IsAnswer frame_after memory_after IsLack us m image n slaves (Err f) → IsLack f }
{}

/// What a play through modelled slaves hands back, in one thread or with a thread for each slave, has what travelled: each output of
/// the units in the memory of its slave, and each input in the image; an input of a unit that didn't travel is 0 (own profile, after
/// ETG.1000.4, clause 6.6).
pub fn law_plays_arrive()
    ensures outputs { (us : Units) (ps : List Place) (m : Mapping) (image : List ℕ) (n t : ℕ) (slaves : List (List ℕ)) (p : Played (List ℕ)) → IsLine us ps m slaves →
        length image ≡ m.total → IsPlayed frame_after memory_after us m image n slaves p → t < n →
        OutputsArrived (seats_of (map unit_view us.units) ps) image t p.slaves.items }
    ensures inputs { (us : Units) (ps : List Place) (m : Mapping) (image : List ℕ) (n t : ℕ) (slaves : List (List ℕ)) (p : Played (List ℕ)) → IsLine us ps m slaves →
        length image ≡ m.total → IsPlayed frame_after memory_after us m image n slaves p → t < n →
        InputsArrived (seats_of (map unit_view us.units) ps) p.image.items t p.slaves.items }
    ensures others { (us : Units) (ps : List Place) (m : Mapping) (image : List ℕ) (n : ℕ) (slaves : List (List ℕ)) (p : Played (List ℕ)) → IsLine us ps m slaves →
        length image ≡ m.total → IsPlayed frame_after memory_after us m image n slaves p →
        InputsAreAbsent (seats_of (map unit_view us.units) ps) p.image.items n }
{}
