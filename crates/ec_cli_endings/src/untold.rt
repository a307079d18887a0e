//! Standard output that takes no text.

use ec_cli_paths::{Host, tell};
use std::io;

/// The system's number of the error that a stream takes no bytes since it is closed, or opened for reading.
const NOT_FOR_WRITING: i32 = 9;

/// What is told of such a stream.
const NO_WRITING: &str =
    "The text cannot be written to standard output: it is closed, or opened for reading alone.\n";

/// Tells why a text isn't written, if it isn't.
pub fn tell_untold(rt: &impl Host, why: Option<io::Error>) {
    let Some(why) = why else {
        return;
    };
    let text = if why.raw_os_error() == Some(NOT_FOR_WRITING) {
        String::from_str(rt.alloc(), NO_WRITING)
    } else {
        format!(in rt.alloc(); "The text cannot be written to standard output: {why}.\n")
    };
    tell(rt, text);
}
