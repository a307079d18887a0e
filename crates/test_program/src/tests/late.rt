//! A file that is made when it is first written.

use ec_cli_files::{Content, Fate, Folders, Late};
use ec_text_builder::Draft;
use ec_wire::Io;
use std::fs;
use std::io::Write;
use std::rt::Files;

/// Adds the text of the file at a path, if there is one.
pub(super) fn add_file<R: Files + AllocGlobal>(out: &mut Draft, rt: &R, path: &str) {
    match fs::read_to_string(rt, path) {
        Ok(file) => out.add(file.as_str()),
        Err(_) => out.add("no file"),
    }
}

/// Adds what the file at a path holds, in brackets.
fn add_held<R: Files + AllocGlobal>(out: &mut Draft, rt: &R, path: &str) {
    out.add("[");
    add_file(out, rt, path);
    out.add("]\n");
}

/// Does one call and tells it: a `flush` or a write of the `whole` text, and whether it is done, or one `write`, and how many
/// bytes it took.
fn add_call<W: Write>(out: &mut Draft, late: &mut W, call: &str) {
    let (word, text) = call.split_once(' ').unwrap_or((call, ""));
    out.add(word);
    out.add(" ");
    match word {
        "flush" => out.add(late.flush().is_ok()),
        "whole" => out.add(late.write_all(text.as_bytes()).is_ok()),
        _ => out.add(late.write(text.as_bytes()).unwrap_or(usize::MAX)),
    }
}

/// Whether a file took its place, whatever stood there.
fn is_settled<F: Folders>(late: Late<'_, F>) -> bool {
    match late.finish() {
        Ok(Some(whole)) => whole.settle(|_| Fate::Replaced).is_ok(),
        Ok(None) => true,
        Err(_) => false,
    }
}

/// Tells what the file at a path holds before the first of some calls, parted by `|`, after each, and once the file took its
/// place.
pub(super) fn add_calls<R: Files + AllocGlobal, F: Folders>(
    out: &mut Draft,
    rt: &R,
    files: &F,
    words: &str,
) {
    let (path, calls) = words.split_once(' ').unwrap_or((words, ""));
    let Ok(mut late) = Late::new(files, rt.alloc(), path, Content::Certificate) else {
        return out.give_up();
    };
    add_held(out, rt, path);
    for call in calls.split('|') {
        add_call(out, &mut late, call);
        add_held(out, rt, path);
    }
    out.add(format_args!("settle {}", is_settled(late)));
    add_held(out, rt, path);
}

/// Tells of a path whether writing to it fails, and whether that is remembered.
pub(super) fn add_failed<R: Files + AllocGlobal>(out: &mut Draft, rt: &R, path: &str) {
    let Ok(late) = Late::new(rt, rt.alloc(), path, Content::Certificate) else {
        return out.give_up();
    };
    let mut late = Io::new(late);
    let is_whole = late.write_whole(b"ecplan 1\n").is_ok();
    if late.failed() && !is_whole {
        out.add("a failed write\n");
    } else {
        out.add("no failed write\n");
    }
}
