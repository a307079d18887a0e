//! A play of a plan that loses slaves: once the line is started, these pass each frame on as it is. What is sent and what comes
//! back of each frame, and each working counter that isn't the one that is wanted (own profile, after ETG.1000.4, clause 5.4).
#![tactic(auto)]

mod capture;
mod member;
mod playing;
mod round;
mod rounds;
mod shorts;
mod text;
mod tick;
mod trial;

pub use capture::trial_capture;
pub use member::Member;
pub use playing::try_plan;
pub use round::Round;
pub use text::trial_text;
pub use tick::Tick;
pub use trial::Trial;
