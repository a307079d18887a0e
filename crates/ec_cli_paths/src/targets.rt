//! What the words write to paths, looked at before the job.

use crate::telling::{Host, more_on, reason_at, tell};
use ec_cli_command::Line;
use ec_cli_files::{Content, KeepReason, Late, are_one, are_same_file, is_no_file, reason_to_keep};
use ec_cli_spots::PathPiece;
use ec_cli_words::Words;
use std::alloc::{AllocError, Global};
use std::io;
use std::rt::Files;

/// A path to write, and what is written there.
#[derive(Clone, Copy)]
pub struct Target<'a> {
    pub path: &'a str,
    pub content: Content,
    /// Whether it is the file that the units come from.
    pub is_own: bool,
    /// Whether it is a pipe or a device that the units come from.
    pub is_read: bool,
}

impl Target<'_> {
    /// Whether it is the units' own file, which gets their places.
    fn takes_places(&self) -> bool {
        self.is_own && self.content == Content::Units
    }
}

/// What is written: the file of the job, and what is written after its text.
pub type Targets<'a> = [Option<Target<'a>>; 4];

/// A path to write, if it is there.
pub fn target_at(path: &Option<String>, content: Content) -> Option<Target<'_>> {
    Some(Target {
        path: path.as_deref()?,
        content,
        is_own: false,
        is_read: false,
    })
}

/// Whether a path leads to the file of the units: the one at their path, else the one that standard input comes from.
fn is_own_file<F: Files>(files: &F, path: &str, units: Option<&str>) -> bool {
    match units {
        Some(units) => are_one(files, path, units),
        None => are_same_file(files, path, "/dev/stdin"),
    }
}

/// Whether a path leads to what is no file, and has the units at their path: what is written there would be read there.
fn is_own_pipe<F: Files>(files: &F, path: &str, units: Option<&str>) -> bool {
    match units {
        Some(units) => is_no_file(files, path) && are_same_file(files, path, units),
        None => false,
    }
}

/// What the words of a line write, wherever the units come from.
fn named_targets(words: &Words) -> Targets<'_> {
    match &words.line {
        Line::Cost { svg, .. } => [None, target_at(svg, Content::Picture), None, None],
        Line::Plan { out, places, .. } | Line::Resume { out, places, .. } => [
            target_at(out, Content::Certificate),
            target_at(places, Content::Units),
            None,
            None,
        ],
        Line::Check { .. } => [None, None, None, None],
        Line::Frames {
            pcap,
            header,
            map,
            report,
            ..
        } => [
            target_at(pcap, Content::Capture),
            target_at(header, Content::Header),
            target_at(map, Content::Map),
            target_at(report, Content::Report),
        ],
        Line::Play { .. } => [
            target_at(&words.trial.pcap, Content::Capture),
            None,
            None,
            None,
        ],
    }
}

/// A path to write, and whether it leads to the units, which come from there or from standard input.
pub fn beside_units<'a>(rt: &impl Host, target: Target<'a>, units: Option<&str>) -> Target<'a> {
    Target {
        is_own: is_own_file(rt, target.path, units),
        is_read: is_own_pipe(rt, target.path, units),
        ..target
    }
}

/// What the words of a line write.
pub fn targets_of<'a>(rt: &impl Host, words: &'a Words) -> Targets<'a> {
    let mut targets = named_targets(words);
    for i in 0..targets.len() {
        if let Some(target) = targets[i] {
            targets[i] = Some(beside_units(rt, target, words.units.as_deref()));
        }
    }
    targets
}

/// Why something is to be written to what is no path: to an empty one, or to the word that stands for a stream elsewhere.
fn nameless_text(alloc: Global, target: Target<'_>) -> Result<String, AllocError> {
    let name = target.content.as_str();
    if target.path.is_empty() {
        return format!(in alloc;
            "The path of the {name} is empty: give one, or leave the option out.\n"
        );
    }
    format!(in alloc;
        "The path of the {name} is -, and standard output has the text: give a path, or ./- for a file of that name.\n"
    )
}

/// What is told where something else is to be written over the units.
const IS_UNITS: &str =
    "It is the file of the units: give another path. plan --places PATH writes a unit text";

/// Tells that what stands at a path is left as it is, and why.
fn tell_kept(rt: &impl Host, target: Target<'_>, why: KeepReason) {
    let (name, path) = (target.content.as_str(), PathPiece(target.path));
    let why = match why {
        KeepReason::HoldsElse if target.is_own => IS_UNITS,
        _ => why.as_str(),
    };
    tell(
        rt,
        format!(in rt.alloc(); "The {name} is not written over the file {path}.\n{why}.\n"),
    );
}

/// Tells that something isn't written to a pipe, since the units come from it.
fn tell_own_pipe(rt: &impl Host, target: Target<'_>) {
    let (name, path) = (target.content.as_str(), PathPiece(target.path));
    tell(
        rt,
        format!(in rt.alloc();
            "The {name} is not written to {path}.\nThe units come from there, and would take it up again: give another path.\n"
        ),
    );
}

/// Whether nothing may be written to a path: it is empty or -, the units come from it and it is no file, or what stands there is left as
/// it is; tells why. The units' own file is judged as the units are, and kept only where standard output or standard error goes to it.
fn is_kept(rt: &impl Host, target: Target<'_>) -> bool {
    if matches!(target.path, "" | "-") {
        tell(rt, nameless_text(rt.alloc(), target));
        return true;
    }
    if target.is_read {
        tell_own_pipe(rt, target);
        return true;
    }
    match reason_to_keep(rt, rt.alloc(), target.path, target.content) {
        Some(why)
            if !target.takes_places() || matches!(why, KeepReason::IsOutput | KeepReason::IsTold) =>
            {
                tell_kept(rt, target, why);
                true
            }
        _ => false,
    }
}

/// That two paths to write are one file.
fn same_text(alloc: Global, one: &str, other: &str) -> Result<String, AllocError> {
    let (path, same) = (PathPiece(one), PathPiece(other));
    if one == other {
        return format!(in alloc;
            "Two files are to be written to one path, {path}.\nGive each a path of its own.\n"
        );
    }
    format!(in alloc;
        "Two files are to be written to one path, {path}.\n{same} is the same file: give each a path of its own.\n"
    )
}

/// Whether two of some paths to write are one file; tells that.
fn has_same(rt: &impl Host, targets: &[Option<Target<'_>>]) -> bool {
    for at in 0..targets.len() {
        let Some(Target { path, .. }) = targets[at] else {
            continue;
        };
        let mut others = targets[at + 1..].iter().flatten();
        if let Some(other) = others.find(|other| are_one(rt, path, other.path)) {
            tell(rt, same_text(rt.alloc(), path, other.path));
            return true;
        }
    }
    false
}

/// Whether all that is to be written may be: none of the paths is one whose file is left as it is, and no two are one. Tells
/// what is wrong. The file of `--places` may be the units' own.
pub fn may_write(rt: &impl Host, targets: &[Option<Target<'_>>]) -> bool {
    let is_any_kept = targets.iter().flatten().any(|target| is_kept(rt, *target));
    !is_any_kept && !has_same(rt, targets)
}

/// Whether standard output goes to the file at one of some paths to write; tells that. Not even a line that refuses may be written there.
pub fn goes_to_output(rt: &impl Host, targets: &[Option<Target<'_>>]) -> bool {
    for target in targets.iter().flatten() {
        let kept = reason_to_keep(rt, rt.alloc(), target.path, target.content);
        if kept == Some(KeepReason::IsOutput) {
            tell_kept(rt, *target, KeepReason::IsOutput);
            return true;
        }
    }
    false
}

/// That a path can't be written, while a search goes on.
fn unwritable_text(
    rt: &impl Host,
    target: Target<'_>,
    why: io::Error,
) -> Result<String, AllocError> {
    let (name, path) = (target.content.as_str(), PathPiece(target.path));
    let (reason, more) = (reason_at(rt, target.path, why)?, more_on(why));
    format!(in rt.alloc();
        "A search tells its plan all the same, but the {name} cannot be written to {path}.\n{reason}.\n{more}"
    )
}

/// Tells that a path can't be written, if it can't.
fn try_target(rt: &impl Host, target: Target<'_>) -> Result<(), AllocError> {
    let mut late = Late::new(rt, rt.alloc(), target.path, target.content)?;
    if let Err(why) = late.try_path() {
        tell(rt, unwritable_text(rt, target, why));
    }
    Ok(())
}

/// Tells which paths can't be written, before a search begins.
pub fn try_targets(rt: &impl Host, targets: &Targets<'_>) -> Result<(), AllocError> {
    for target in targets.iter().flatten() {
        try_target(rt, *target)?;
    }
    Ok(())
}
