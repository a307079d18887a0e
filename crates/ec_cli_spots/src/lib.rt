//! What a refused job had read, where its parts stand, and how they stand in a sentence.
#![tactic(auto)]

mod headers;
mod illegal;
mod inputs;
mod kinds;
mod label;
mod made;
mod quoted;
mod written;

pub use headers::{header_line, header_of, line_named, line_within, name_of};
pub use illegal::add_illegal;
pub use inputs::{Doc, Fields, Inputs, are_coprime, bytes_of, has_period, slave_bytes, ticks_of};
pub use kinds::{Kind, SLAVE, TOP, UNIT};
pub use label::{AtLine, In, Named, Pair};
pub use made::made_text;
pub use quoted::{
    Bytes, CertName, Coded, Front, Letter, MOST_OF_LINE, PIECE, PathPiece, Quoted, Shown, TextLine,
    Word, is_shown, is_told_whole, quoted_path,
};
pub use written::{
    before_comment, is_digit, is_strange, line_at, other_base, position_of, uncommented,
};
