//! The files that a run reads, looked at before it: standard output may not go to one.

use crate::telling::{Host, tell, tell_path};
use ec_cli_files::are_same_file;
use std::fs;

/// What is told before the path of a file that is read, and to which standard output goes.
const GOES_TO: &str = "Standard output goes to";

/// Why nothing is written there.
const IS_READ: &str =
    "This run reads it, so nothing is written there: send the text to another file";

/// The same of a file that is empty.
const IS_EMPTY: &str =
    "This run reads it, and it is empty: a shell empties the file behind > before the program begins";

/// Where the units come from without a path.
const STDIN: &str = "/dev/stdin";

/// Tells that standard output goes to the file at a path, or without one to that of standard input.
fn tell_taken(rt: &impl Host, path: Option<&str>, why: &str) {
    match path {
        Some(path) => tell_path(rt, GOES_TO, path, why),
        None => tell(
            rt,
            format!(in rt.alloc(); "{GOES_TO} the file on standard input.\n{why}.\n"),
        ),
    }
}

/// Whether standard output goes to the file at a path, or without one to that of standard input, which is read; tells that. The text
/// would stand in what is read then.
pub fn takes_text(rt: &impl Host, path: Option<&str>) -> bool {
    let at = path.unwrap_or(STDIN);
    let Ok(found) = fs::metadata(rt, at) else {
        return false;
    };
    if !found.is_file() || !are_same_file(rt, at, "/dev/stdout") {
        return false;
    }
    let why = if found.len() == 0 { IS_EMPTY } else { IS_READ };
    tell_taken(rt, path, why);
    true
}
