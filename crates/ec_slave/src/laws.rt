//! What the definitions of the slave's step mean.

ghost use Rattle.std.specs.Prelude.{◌≡◌, ◌↔◌, ℕ, List, Some};
ghost use Rattle.ec_frames.specs.Reading.{Entry, ReadsAs, HasFault};
ghost use Rattle.ec_frames.specs.declared.reading.FrameFault.{FrameFault};
ghost use Rattle.ec_slave.specs.declared.fmmu.Fmmu.{Fmmu};
ghost use Rattle.ec_slave.specs.declared.fmmu.Direction.{Direction};
ghost use Rattle.ec_slave.specs.Fmmus.{IsMapped, place_of, source_of};
ghost use Rattle.ec_slave.specs.Step.{slave_step, datagrams_step};
ghost use Rattle.ec_slave.specs.Journey.{journey, arrived, line_outs, line_finals};

/// The byte of the memory to which an FMMU maps a logical byte, and the logical byte that it maps to a byte of the memory, are
/// those of its mapped bytes: a logical byte, a byte of the memory and a direction.
pub fn law_mapped_bytes()
    ensures place { (f : Fmmu) (size : ℕ) (d : Direction) (a m : ℕ) → (place_of f size d a ≡ Some m) ↔ IsMapped f size d a m }
    ensures source { (f : Fmmu) (size : ℕ) (d : Direction) (a m : ℕ) → (source_of f size d m ≡ Some a) ↔ IsMapped f size d a m }
{}

/// A frame that is read as datagrams has them done in order; one with a fault passes unchanged, and leaves the memory.
pub fn law_what_passes()
    ensures read { (memory frame : List ℕ) (ds : List Entry) → ReadsAs frame ds → slave_step memory frame ≡ datagrams_step 16 ds (memory, frame) }
    ensures unread { (memory frame : List ℕ) (f : FrameFault) → HasFault f frame → slave_step memory frame ≡ (memory, frame) }
{}

/// Of slaves in a line, frame by frame is slave by slave: the frames that come back, and the slaves after them.
pub fn law_same_journey()
    ensures frames { (out next : List ℕ → List ℕ → List ℕ) (slaves frames : List (List ℕ)) → line_outs out next slaves frames ≡ journey out next slaves frames }
    ensures slaves { (out next : List ℕ → List ℕ → List ℕ) (slaves frames : List (List ℕ)) → line_finals out next slaves frames ≡ arrived out next slaves frames }
{}
