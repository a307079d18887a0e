//! The search below a prefix: the order of the units, a first plan, and trees whose leaves hold.
#![tactic(auto)]

mod ask;
mod back;
mod bettered;
mod choice;
mod classes;
mod exploring;
mod greedy_plan;
mod ground;
mod guide;
mod kept;
mod leaf;
mod level;
mod moves;
mod needs;
mod node;
mod order;
mod pairs;
mod plan;
mod strong;
mod strong_leaf;
mod tops;
mod turns;
mod value;
mod waiting;
mod walk;
mod weighted;

pub use bettered::first_plan;
pub use exploring::{explore, explore_in};
pub use greedy_plan::greedy;
pub use ground::Ground;
pub use guide::Guide;
pub use kept::kept_plan;
pub use order::search_order;
pub use strong::strong_order;
pub use value::lesser;
