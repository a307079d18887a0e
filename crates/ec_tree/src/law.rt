//! The law of trees.

ghost use Rattle.ec_tree.specs.Trees.{TreesBound, LevelsBound};

use ec_loads::law_ticks_repeat;
use ec_symmetry::{law_every_plan_is_reached_by, law_slots_merge, law_strong_children_reach};

/// By any rules a tree for the empty prefix at a value, in any order of the units, gives every legal plan a tick that costs
/// at least the value; at no value, no plan is legal.
pub fn law_trees_bound()
    ensures { TreesBound }
{
    law_every_plan_is_reached_by();
    law_strong_children_reach();
    law_slots_merge();
    law_ticks_repeat();
}

/// By any rules a tree with open leaves for the empty prefix, in any order of the units, gives every legal plan a tick that
/// costs at least the level that it shows: its closed leaves hold at a value that isn't below the level, and at each
/// open leaf some tick, or the average of all, reaches the level.
pub fn law_levels_bound()
    ensures { LevelsBound }
{
    law_every_plan_is_reached_by();
    law_strong_children_reach();
    law_slots_merge();
    law_ticks_repeat();
}
