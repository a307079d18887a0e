//! The laws of what the children reach.

ghost use Rattle.ec_symmetry.specs.Orders.{EveryPlanIsReachedBy};
ghost use Rattle.ec_symmetry.specs.Reached.{EveryPlanIsReached, SlotsHaveNoGap};
ghost use Rattle.ec_symmetry.specs.StrongReach.{StrongChildrenReach, SlotsMerge};

/// For every legal plan and every order of the units there is a legal plan that the children by slots alone reach,
/// unit by unit in that order, and it costs the same in every tick.
pub fn law_every_plan_is_reached()
    ensures { EveryPlanIsReached }
{}

/// By any rules, for every legal plan and every order of the units there is a legal plan that the children reach,
/// unit by unit in that order, and each of its ticks costs what some tick of the plan costs. So a search that tries
/// the children alone misses no plan that is below a value in every tick. Search trees rest on this law.
pub fn law_every_plan_is_reached_by()
    ensures { EveryPlanIsReachedBy }
{
    law_every_plan_is_reached();
    law_strong_children_reach();
}

/// A prefix that the children reach uses the least slots, without a gap, so that the number of its different slots
/// is its first free one.
pub fn law_slots_have_no_gap()
    ensures { SlotsHaveNoGap }
{}

/// For every legal plan and every order of the units there is a legal plan that the strong children reach, unit by unit
/// in that order, and each of its ticks costs what some tick of the plan costs. Where the plan uses slot 0 alone, so does
/// that one.
pub fn law_strong_children_reach()
    ensures { StrongChildrenReach }
{}

/// Where no tick of a legal plan costs more than 1578 bytes, all its units can go into slot 0, with the phases that they
/// have: that plan is legal too, and no tick of it costs more than before. At 1579 bytes this is no longer so.
pub fn law_slots_merge()
    ensures { SlotsMerge }
{}
