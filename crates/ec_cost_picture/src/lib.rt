//! A picture of a plan as SVG: what each tick below the hyperperiod costs on the wire.
#![tactic(auto)]

mod axes;
mod bars;
mod document;
mod frame;
mod label;
mod legend;
mod placed;
mod scale;

pub use document::picture;
