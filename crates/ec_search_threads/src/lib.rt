//! Workers on a book: one alone, or several on a book under a lock, each in a thread of its own.
#![tactic(auto)]

mod alone;
mod crew;
mod crew_desk;
mod desk;
mod ended;
mod first;
mod gate;
mod ground;
mod pace;
mod pieces;
mod post;
mod seeding;
mod threads;
mod turn;
mod watch;
mod work;

pub use alone::work_alone;
pub use crew::{CrewFault, Crewed, search_by_crew};
pub use ended::Ended;
pub use first::opening_plan;
pub use gate::{Gate, Quiet};
