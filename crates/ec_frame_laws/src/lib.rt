//! Laws on what modelled slaves, plays, texts and files have to do with one another.
#![tactic(auto)]

mod maps;
mod passing;
mod plays;
mod texts;

pub use maps::law_maps_are_one;
pub use passing::{law_as_many_datagrams, law_frames_are_kept, law_replies_are_read};
pub use plays::{law_plays_arrive, law_plays_lack};
pub use texts::{law_same_frames, law_stamps_rise, law_wire_is_cost};
