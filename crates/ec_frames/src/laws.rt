ghost use Rattle.std.specs.Prelude.{◌≡◌, ◌<◌, ◌^◌, ℕ, List, All, length, sum_by};
ghost use Rattle.ec_frames.specs.declared.writing.Datagram.{Datagram};
ghost use Rattle.ec_frames.specs.Reading.{Entry, ReadsAs};
ghost use Rattle.ec_frames.specs.IsReadBack.{IsReadBack};
ghost use Rattle.ec_frames.specs.Written.{AreBuildable};

/// The frame of datagrams is read as the same datagrams, with indexes 0, 1, .. and every other field 0,
/// and no other reading of its bytes exists.
pub fn law_written_is_read()
    ensures { (ds : List Datagram) (bytes : List ℕ) → AreBuildable ds → All (λ d. d.address < 2 ^ 32) ds
        → sum_by (λ d. d.len) ds ≡ length bytes → IsReadBack ds bytes }
{}

/// No bytes are read in two ways.
pub fn law_one_reading()
    ensures { (frame : List ℕ) (ds es : List Entry) → ReadsAs frame ds → ReadsAs frame es → ds ≡ es }
{}
