//! The law on the order of the faults of a unit text.

ghost use Rattle.std.specs.Prelude.{◌≡◌, ◌⊎◌, Some};
ghost use Rattle.std.specs.List.{AllByRecursion};
ghost use Rattle.toml.specs.Data.{Members};
ghost use Rattle.ec_unit_text.specs.declared.fault.UnitFault.{UnitFault};
ghost use Rattle.ec_unit_text.specs.Rank.{IsBefore, AreInOrder};
ghost use Rattle.ec_unit_text.specs.UnitText.{first, unit_faults};

/// All that is wrong with a document stands in the order of the faults: by number, then by place, where the top table
/// comes first, then each unit, each followed by its slaves, and in a table by the order of its keys. So the first
/// of them is the least.
pub fn law_faults_in_order()
    ensures order { (ms : Members) → AreInOrder (unit_faults ms) }
    ensures least { (ms : Members) (f : UnitFault) → first (unit_faults ms) ≡ Some f → AllByRecursion (λ g. (g ≡ f) ⊎ IsBefore f g) (unit_faults ms) }
{}
