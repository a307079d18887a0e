//! Bounds: why a prefix of a plan can't become a plan whose busiest tick is cheaper than a value.
#![tactic(auto)]

mod bound;
mod counted;
mod grouped;
mod law;
mod mean;
mod merged;
mod rest;
mod rooms;
mod tops;
mod weight;

pub use bound::{average_bound, average_level, full_bound, tick_bound};
pub use counted::{count_bound, count_bound_at};
pub use grouped::{groups_bound, groups_bound_at};
pub use law::{
    law_counted_units_bound, law_leaves_bound, law_leaves_fall, law_new_groups_bound,
    law_raw_at_most_cost, law_room_suffices, law_rooms_fall,
};
pub use mean::{MeanTick, mean_tick};
pub use merged::{MOST_MERGED, is_above_slot_0, merge_bound};
pub use rest::Rest;
pub use tops::Ticks;
pub use weight::weight_bound;
