//! The bytes that a layout maps, and those that a slave maps.

ghost use Rattle.std.specs.Prelude.{◌≡◌, ◌↔◌, ℕ, ◌<◌, List, [], length, map, get_or};
ghost use Rattle.ec_units.specs.declared.slave.Place.{Place};
ghost use Rattle.ec_units.specs.declared.units.Units.{Units};
ghost use Rattle.ec_units.specs.Views.{unit_view};
ghost use Rattle.ec_fmmu.specs.declared.fmmu.Fmmu.{Fmmu};
ghost use Rattle.ec_fmmu.specs.declared.mapping.Mapping.{Mapping};
ghost use Rattle.ec_fmmu.specs.declared.seat.Seat.{Seat};
ghost use Rattle.ec_fmmu.specs.Seats.{seats_of};
ghost use Rattle.ec_fmmu.specs.Records.{Triple, IsMappedBy};
ghost use Rattle.ec_fmmu.specs.Mappings.{IsWanted};
ghost use Rattle.ec_slave.specs.Step.{memory_after, frame_after};
ghost use Rattle.ec_player.specs.Sent.{all_sents};
ghost use Rattle.ec_player.specs.Lines.{slaves_after};
ghost use Rattle.ec_frame_laws.specs.IsLine.{IsLine};
ghost use Rattle.ec_frame_laws.specs.Maps.{IsNarrow, HoldsRecord, MapsAt, SlaveMaps};

/// A slave maps by a record in its memory the bytes that the record maps (ETG.1000.4, clause 6.6). So each slave of a layout, once the
/// start frames went through the line, maps its process bytes to the addresses that they have, and no other byte. The frames of the
/// ticks leave that so.
pub fn law_maps_are_one()
    ensures record { (f : Fmmu) (memory : List ℕ) (at : ℕ) (t : Triple) → IsNarrow f → length memory ≡ 65536 → HoldsRecord memory at f →
        IsMappedBy f t ↔ MapsAt memory at t }
    ensures slaves { (us : Units) (ps : List Place) (m : Mapping) (image : List ℕ) (n : ℕ) (slaves : List (List ℕ)) (i : ℕ) (s : Seat) (t : Triple) → IsLine us ps m slaves →
        length image ≡ m.total → i < length (seats_of (map unit_view us.units) ps) →
        IsWanted (seats_of (map unit_view us.units) ps) (get_or (seats_of (map unit_view us.units) ps) i s) t
        ↔ SlaveMaps (get_or (slaves_after frame_after memory_after slaves (all_sents us m image n)) i []) t }
{}
