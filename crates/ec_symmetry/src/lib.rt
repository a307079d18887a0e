//! The places that a search tries for a unit, and plans whose slots are renamed so that it finds them.
#![tactic(auto)]

mod child;
mod law;
mod rename;
mod rules;
mod slots;
mod strong;
mod turn;

pub use child::{Children, children_of, choices};
pub use law::{
    law_every_plan_is_reached, law_every_plan_is_reached_by, law_slots_have_no_gap,
    law_slots_merge, law_strong_children_reach,
};
pub use rename::canonical;
pub use rules::{Rules, children_after_last, children_by, next_children};
pub use slots::used_slots;
pub use strong::strong_choices;
