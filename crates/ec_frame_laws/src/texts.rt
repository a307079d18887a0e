//! What the frames of the text and of the capture file have to do with the costs.

ghost use Rattle.std.specs.Prelude.{◌≡◌, ℕ, ◌≤◌, List, map, sum_by};
ghost use Rattle.ec_units.specs.declared.slave.Place.{Place};
ghost use Rattle.ec_units.specs.declared.units.Units.{Units};
ghost use Rattle.ec_units.specs.Load.{loads_of};
ghost use Rattle.ec_units.specs.Views.{UnitsView, unit_view, units_view};
ghost use Rattle.ec_wire.specs.Wire.{ns_of};
ghost use Rattle.ec_loads.specs.Cost.{plan_items, tick_cost, IsBusiest};
ghost use Rattle.ec_fmmu.specs.declared.mapping.Mapping.{Mapping};
ghost use Rattle.ec_frame_builder.specs.Frames.{slot_frame, IsLayoutFor};
ghost use Rattle.ec_frame_text.specs.Lines.{stations_in, wire_bytes, zeros, slots_of};
ghost use Rattle.ec_play_text.specs.Plays.{row_at};
ghost use Rattle.ec_frame_laws.specs.Stamps.{frames_at, StampsRise};

/// The frames of a tick in the capture file are those in the text, in the same order.
pub fn law_same_frames()
    ensures { (v : UnitsView) (m : Mapping) (t : ℕ) → frames_at v m t ≡ map (slot_frame m (zeros m) t) (slots_of m v.slots t) }
{}

/// What the frames of a tick take on the wire, as the lines of their text name it, adds up to the cost of that tick (IEEE 802.3). So
/// does what the frames of the capture file take, and so much the text of a play names for that tick.
pub fn law_wire_is_cost()
    ensures lines { (us : Units) (ps : List Place) (m : Mapping) (t : ℕ) → IsLayoutFor us ps m →
        sum_by (λ s. wire_bytes (slot_frame m (zeros m) t s)) (slots_of m us.slots t) ≡ tick_cost (plan_items (loads_of us.units) ps) us.slots t }
    ensures file { (us : Units) (ps : List Place) (m : Mapping) (t : ℕ) → IsLayoutFor us ps m →
        sum_by wire_bytes (frames_at (units_view us) m t) ≡ tick_cost (plan_items (loads_of us.units) ps) us.slots t }
    ensures play { (us : Units) (ps : List Place) (m : Mapping) (t : ℕ) → IsLayoutFor us ps m →
        (row_at (stations_in (map unit_view us.units)) m us.slots t).bytes ≡ tick_cost (plan_items (loads_of us.units) ps) us.slots t }
{}

/// Where the busiest tick of a plan fits the length of a tick, each frame of the capture file has passed (80 ns a byte) when the next
/// one begins, also from one tick to the next. So the stamps rise.
pub fn law_stamps_rise()
    ensures { (us : Units) (ps : List Place) (m : Mapping) (top : ℕ) → IsLayoutFor us ps m →
        IsBusiest (plan_items (loads_of us.units) ps) us.slots top → ns_of top ≤ us.tick_ns → StampsRise (units_view us) m }
{}
