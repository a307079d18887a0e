//! The laws of frames and their datagrams.

ghost use Rattle.std.specs.Prelude.{◌≡◌, ◌<◌, ◌^◌, ℕ, List, All, length, sum_by};
ghost use Rattle.ec_frames.specs.declared.writing.Datagram.{Datagram};
ghost use Rattle.ec_frames.specs.Reading.{Entry, ReadsAs};
ghost use Rattle.ec_frames.specs.IsReadBack.{read_back};
ghost use Rattle.ec_frames.specs.Written.{written, AreBuildable};
ghost use Rattle.ec_slave.specs.Step.{memory_after, frame_after};
ghost use Rattle.ec_slave.specs.Journey.{through, passed, journey, arrived};
ghost use Rattle.ec_slave_laws.specs.Datagrams.{framed, AreWhole, entry_out, entry_next};

/// A frame of datagrams is read as these, and what a line of modelled slaves makes of it is the frame of what they make of one
/// datagram after the other (own profile, after ETG.1000.4, clauses 5.3 and 5.4). A frame that is written is such a frame.
pub fn law_datagrams_pass()
    ensures read { (ds : List Entry) → AreWhole ds → ReadsAs (framed ds) ds }
    ensures frame { (slaves : List (List ℕ)) (ds : List Entry) → AreWhole ds →
        through frame_after memory_after slaves (framed ds) ≡ framed (journey entry_out entry_next slaves ds) }
    ensures slaves { (slaves : List (List ℕ)) (ds : List Entry) → AreWhole ds →
        passed frame_after memory_after slaves (framed ds) ≡ arrived entry_out entry_next slaves ds }
    ensures whole { (slaves : List (List ℕ)) (ds : List Entry) → AreWhole ds → AreWhole (journey entry_out entry_next slaves ds) }
    ensures written { (ds : List Datagram) (bytes : List ℕ) → AreBuildable ds → All (λ d. d.address < 2 ^ 32) ds → sum_by (λ d. d.len) ds ≡ length bytes →
        (written ds bytes ≡ framed (read_back 0 ds bytes)) × AreWhole (read_back 0 ds bytes) }
{}
