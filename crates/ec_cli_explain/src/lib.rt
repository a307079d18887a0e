//! Refusals explained on standard error, in nothing but what a terminal shows as it stands.
#![tactic(auto)]

mod explaining;
mod plain;
mod sheet;
mod telling;

pub use ec_cli_search_hints::{Again, Asked, Cycle, Filed, Found, Written, room_beside};
pub use ec_cli_spots::{Inputs, TextLine, quoted_path};
pub use ec_cli_toml_hints::misread;
pub use ec_cli_unit_hints::unset_areas;
pub use explaining::{advice, explain};
pub use plain::{plain_text, shown_text};
