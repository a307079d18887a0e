//! What frames that pass modelled slaves keep.

ghost use Rattle.std.specs.Prelude.{◌≡◌, ℕ, List, length};
ghost use Rattle.ec_frames.specs.Reading.{Entry, ReadsAs};
ghost use Rattle.ec_slave.specs.Step.{memory_after, frame_after};
ghost use Rattle.ec_slave.specs.Journey.{through};
ghost use Rattle.ec_play_laws.specs.IsReply.{IsReply};
ghost use Rattle.ec_frame_laws.specs.Replies.{ReadsBackOf};

/// A frame that passes a modelled slave comes out as a reply: of the same length, and with each byte as it was that is none of a
/// position, of data or of a working counter (own profile, after ETG.1000.4, clause 5.4). So it does of a line of them.
pub fn law_frames_are_kept()
    ensures slave { (memory frame : List ℕ) (ds : List Entry) → ReadsAs frame ds → IsReply ds frame (frame_after memory frame) }
    ensures line { (slaves : List (List ℕ)) (frame : List ℕ) (ds : List Entry) → ReadsAs frame ds → IsReply ds frame (through frame_after memory_after slaves frame) }
{}

/// A reply can be read: as as many datagrams as were sent, each with the command, the index, the bits and the length of its own, and
/// with its address but for a position (own profile, after ETG.1000.4, clause 5.4).
pub fn law_replies_are_read()
    ensures { (sent back : List ℕ) (ds : List Entry) → ReadsAs sent ds → IsReply ds sent back → ReadsBackOf ds back }
{}

/// A reply has as many datagrams as the frame that was sent.
pub fn law_as_many_datagrams()
    ensures { (sent back : List ℕ) (ds es : List Entry) → ReadsAs sent ds → ReadsAs back es → IsReply ds sent back → length es ≡ length ds }
{}
