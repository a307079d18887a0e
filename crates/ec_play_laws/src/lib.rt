//! What is wrong with a frame that comes back, said as relations between its bytes and those of the frame that was sent, and that through
//! modelled slaves none comes back so.
#![tactic(auto)]

ghost use Rattle.std.specs.Prelude.{◌≡◌, ◌<◌, ◌↔◌, ℕ, true, List, length, map, Some, None, Err};
ghost use Rattle.ec_frames.specs.Reading.{Entry, ReadsAs, HasFault};
ghost use Rattle.ec_frames.specs.declared.reading.FrameFault.{FrameFault};
ghost use Rattle.ec_player.specs.declared.faults.Wrong.{Wrong};
ghost use Rattle.ec_outcome.specs.declared.play.PlayFault.{PlayFault};
ghost use Rattle.ec_outcome.specs.declared.play.PlayFault.TheVariants as fault;
ghost use Rattle.ec_units.specs.declared.units.Units.{Units};
ghost use Rattle.ec_units.specs.Together.{stations_of};
ghost use Rattle.ec_fmmu.specs.declared.mapping.Mapping.{Mapping};
ghost use Rattle.ec_slave.specs.Step.{memory_after, frame_after};
ghost use Rattle.ec_units.specs.declared.slave.Place.{Place};
ghost use Rattle.ec_units.specs.Views.{unit_view};
ghost use Rattle.ec_fmmu.specs.Seats.{seats_of};
ghost use Rattle.ec_frame_builder.specs.Frames.{HasLayout, IsLayoutFor};
ghost use Rattle.ec_player.specs.Sent.{Sent, start_sents, all_sents};
ghost use Rattle.ec_player.specs.Faults.{entries_of, is_reply_of, first_wrong, counter_fault, fault_of};
ghost use Rattle.ec_player.specs.Lines.{slaves_after, AreRight, IsMemory};
ghost use Rattle.ec_player.specs.Plays.{IsAnswer};
ghost use Rattle.ec_play_laws.specs.IsReply.{IsReply};
ghost use Rattle.ec_play_laws.specs.Started.{AreMemories, started};
ghost use Rattle.ec_play_laws.specs.Arrivals.{OutputsArrived, inputs_after, InputsArrived, InputsAreAbsent};
ghost use Rattle.ec_play_laws.specs.Counters.{IsFirstWrong, AreAlike};

/// A frame that comes back is judged by what it is read as, then as a reply, then by its working counters (own profile, after
/// ETG.1000.4, clause 5.4). A reply has the length of the frame that was sent and each byte that no slave may change.
pub fn law_what_is_faulty()
    ensures unread { (n : ℕ) (s : Sent) (back : List ℕ) (f : FrameFault) → HasFault f back → fault_of n s back ≡ Some (fault.Frame f) }
    ensures other { (n : ℕ) (s : Sent) (back : List ℕ) (ds : List Entry) → ReadsAs back ds → ¬ IsReply (entries_of s.bytes) s.bytes back → fault_of n s back ≡ Some (fault.Reply n) }
    ensures counter { (n : ℕ) (s : Sent) (back : List ℕ) (ds : List Entry) → ReadsAs back ds → IsReply (entries_of s.bytes) s.bytes back →
        fault_of n s back ≡ counter_fault n s.stage (first_wrong 0 s.wants (map (λ d. d.counter) ds)) }
    ensures reply { (ds : List Entry) (sent back : List ℕ) → (is_reply_of ds sent back ≡ true) ↔ IsReply ds sent back }
{}

/// The wrong counter is the first that isn't the one that is wanted. Where there is none, all are the wanted ones.
pub fn law_wrong_counters()
    ensures wrong { (wants gots : List ℕ) (w : Wrong) → first_wrong 0 wants gots ≡ Some w → IsFirstWrong wants gots w }
    ensures alike { (wants gots : List ℕ) → first_wrong 0 wants gots ≡ None → AreAlike wants gots }
{}

/// Start frames that go through modelled slaves, one for each slave of the units in file order, come back right: they are read, they
/// are replies, and their counters are those that are wanted. They leave each slave its station and its records (own profile, after
/// ETG.1000.4, clauses 5.4 and 6.6).
pub fn law_start_is_right()
    ensures right { (us : Units) (m : Mapping) (slaves : List (List ℕ)) → HasLayout us m → AreMemories slaves → length slaves ≡ length (stations_of us.units) →
        AreRight frame_after memory_after slaves 0 (start_sents us m) }
    ensures slaves { (us : Units) (m : Mapping) (slaves : List (List ℕ)) → HasLayout us m → AreMemories slaves → length slaves ≡ length (stations_of us.units) →
        slaves_after frame_after memory_after slaves (start_sents us m) ≡ started (stations_of us.units) m.fmmus slaves }
{}

/// A play through modelled slaves, one for each slave of the units in file order, has no faulty frame: each frame, of the start and of
/// the ticks, comes back readable, as a reply, and with the counters that are wanted (own profile, after ETG.1000.4, clause 5.4). So a
/// play that fails lacked what it needs.
pub fn law_play_is_right()
    ensures right { (us : Units) (m : Mapping) (image : List ℕ) (n : ℕ) (slaves : List (List ℕ)) → HasLayout us m → length image ≡ m.total → AreMemories slaves →
        length slaves ≡ length (stations_of us.units) → AreRight frame_after memory_after slaves 0 (all_sents us m image n) }
    ensures lacks { (us : Units) (m : Mapping) (image : List ℕ) (n : ℕ) (slaves : List (List ℕ)) (f : PlayFault) → HasLayout us m → length image ≡ m.total → AreMemories slaves →
        length slaves ≡ length (stations_of us.units) →
        IsAnswer frame_after memory_after IsMemory us m image n slaves (Err f) → IsMemory f }
{}

/// After a play through modelled slaves each output of the units that travelled stands in the memory of its slave: at the address of
/// the FMMU's area, the byte that the image has at its logical address (own profile, after ETG.1000.4, clause 6.6).
pub fn law_outputs_arrive()
    ensures { (us : Units) (ps : List Place) (m : Mapping) (image : List ℕ) (n t : ℕ) (slaves : List (List ℕ)) → IsLayoutFor us ps m → length image ≡ m.total → AreMemories slaves →
        length slaves ≡ length (stations_of us.units) → t < n →
        OutputsArrived (seats_of (map unit_view us.units) ps) image t (slaves_after frame_after memory_after slaves (all_sents us m image n)) }
{}

/// After a play through modelled slaves each input of the units that travelled stands in the image, at its logical address, as the
/// memory of its slave has it; those of units that didn't travel are 0 (own profile, after ETG.1000.4, clause 6.6).
pub fn law_inputs_arrive()
    ensures travelled { (us : Units) (ps : List Place) (m : Mapping) (image : List ℕ) (n t : ℕ) (slaves : List (List ℕ)) → IsLayoutFor us ps m → length image ≡ m.total → AreMemories slaves →
        length slaves ≡ length (stations_of us.units) → t < n →
        InputsArrived (seats_of (map unit_view us.units) ps) (inputs_after us m image n slaves) t (slaves_after frame_after memory_after slaves (all_sents us m image n)) }
    ensures others { (us : Units) (ps : List Place) (m : Mapping) (image : List ℕ) (n : ℕ) (slaves : List (List ℕ)) → IsLayoutFor us ps m → length image ≡ m.total → AreMemories slaves →
        length slaves ≡ length (stations_of us.units) →
        InputsAreAbsent (seats_of (map unit_view us.units) ps) (inputs_after us m image n slaves) n }
{}
