//! What is told on standard error at the end of a job.

use crate::own::{Own, tell_other, tell_own};
use crate::record::Record;
use crate::refusal::tell_refusal;
use crate::untold::tell_untold;
use ec_cert::{Cert, node_count};
use ec_cli_answers::{File, Told};
use ec_cli_command::{Effort, Line, MOST_MINUTES, MOST_NODES};
use ec_cli_explain::{Again, Asked, Cycle, Filed, Found, Written, advice, misread, unset_areas};
use ec_cli_files::{FileFault, is_no_file};
use ec_cli_paths::{Host, Target, replaced_at, tell, tell_fault, tell_whole};
use ec_cli_places::legal_cost;
use ec_cli_refusals::Refusal;
use ec_loads::Plan;
use ec_outcome::Cut;
use ec_units::Units;
use std::rt::Files;
use std::{fs, io};

/// The status where reading or writing failed.
pub const FAILED: u8 = 4;

/// From so many nodes on a certificate shows how many bytes a node takes.
const MANY_NODES: u64 = 100_000;

/// Whether a search that was cut short took as many nodes or minutes as may be asked for.
fn is_most(effort: &Effort, cut: Cut) -> bool {
    match cut {
        Cut::Budget => effort.nodes == MOST_NODES,
        Cut::Time => effort.minutes == Some(MOST_MINUTES),
        _ => false,
    }
}

/// Into how many parts the open leaves of the certificate go with which a line goes on; 1 of another line.
fn parts_of(line: &Line) -> u16 {
    match line {
        Line::Resume { part, .. } => part.count,
        _ => 1,
    }
}

/// What was asked of a search, where that ended so.
fn asked_of(rt: &impl Host, line: &Line, effort: &Effort, told: &Told) -> Asked {
    if parts_of(line) > 1 && replaced_at(rt, line).is_none() {
        return Asked::Part;
    }
    match told.ending {
        Some(ending) if is_most(effort, ending.cut) => Asked::Most,
        _ => Asked::Whole,
    }
}

/// What a search is asked for that goes on as before.
fn again_of(line: &Line, effort: Effort) -> Again<'_> {
    Again {
        workers: effort.workers,
        nodes: effort.nodes,
        minutes: effort.minutes,
        places: line.places().map(|path| path.as_str()),
    }
}

/// What a search or a merge found.
fn found_of(told: &Told) -> Found {
    if let Some(ending) = told.ending {
        return Found::Unproved(ending);
    }
    match &told.file {
        File::Cert(
            Cert {
                best: Some(best),
                ..
            },
        ) => Found::Least(best.busiest),
        _ => Found::NoPlan,
    }
}

/// Tells that a plan whose busiest tick costs so many wire bytes doesn't fit into its ticks, if it doesn't.
fn tell_unfit(rt: &impl Host, cycle: Cycle<'_>, cost: u64) {
    let given = Found::Given(cost);
    if let Ok(text) = advice(rt.alloc(), given, Some(cycle), Filed::Unasked, Asked::Whole) {
        let _ = rt.eprint(text.as_str());
    }
}

/// Tells of the plan of a job that doesn't search: that it doesn't fit into its ticks, if it doesn't, and, where it is that of a
/// certificate, that the places of the units are another one, if they are.
pub fn tell_given(rt: &impl Host, line: &Line, plan: &Plan, units: &Units) {
    let Some(cost) = legal_cost(units, plan) else {
        return;
    };
    tell_unfit(rt, Cycle::of(units), cost);
    if line.cert().is_some() {
        tell_other(rt, units, plan, cost);
    }
}

/// The bytes of the file at a path; none where there is no file, or what is none, as a pipe.
pub(crate) fn file_bytes<R: Files>(files: &R, path: &str) -> Option<u64> {
    let found = fs::metadata(files, path).ok()?;
    Some(found.len()).filter(|_| found.is_file())
}

/// How many bytes a node takes of the certificate of a search without a proof, which has so many; 0 where it has so few nodes that its
/// other lines count.
fn bytes_each(told: &Told, bytes: u64) -> u64 {
    let (File::Cert(cert), Some(_)) = (&told.file, told.ending) else {
        return 0;
    };
    let nodes = node_count(&cert.tree);
    if nodes < MANY_NODES {
        return 0;
    }
    bytes.div_ceil(nodes.max(1))
}

/// What became of the certificate, if one was to be written; `again` is what a search is asked for that goes on with it as before.
fn filed_at<'x, R: Files>(files: &R, told: &Told, done: Done<'x>, again: Again<'x>) -> Filed<'x> {
    let Some(Target { path, .. }) = done.target else {
        return Filed::Unasked;
    };
    match done.fault {
        Some(FileFault::TooLarge { .. }) => Filed::TooLarge,
        Some(_) => Filed::Missing,
        None => match file_bytes(files, path) {
            Some(bytes) => Filed::There(Written {
                path,
                units: done.record.path.filter(|path| !is_no_file(files, path)),
                bytes,
                each: bytes_each(told, bytes),
                again,
            }),
            None => Filed::Missing,
        },
    }
}

/// What is there once a job is done, beside what is told.
#[derive(Clone, Copy)]
pub struct Done<'a> {
    pub record: Record<'a>,
    /// What a search was asked for, before its nodes were limited; none of a run that searches for nothing.
    pub asked: Option<Effort>,
    /// The units, where the job found them right.
    pub units: Option<&'a Units>,
    /// The file that the job writes, if it writes one.
    pub target: Option<Target<'a>>,
    /// Why that file isn't at its path, or may not last there.
    pub fault: Option<&'a FileFault>,
    /// Why standard output hasn't got the text.
    pub untold: Option<io::Error>,
    /// The status.
    pub code: u8,
}

/// Tells at the end of a job which number of its units is read otherwise than it looks, if one is, and why its file isn't at its
/// path, or where it lies where standard output hasn't got the text.
fn tell_end(rt: &impl Host, done: Done<'_>) {
    tell(rt, misread(rt.alloc(), done.record.text));
    match (done.target, done.fault, done.untold) {
        (Some(target), Some(fault), _) => tell_fault(rt, target, fault),
        (Some(target), None, Some(_)) => tell_whole(rt, target),
        _ => {}
    }
}

/// Tells what a search or a merge found, where standard output hasn't got it, what to do next, and where the units' own places are better.
fn tell_found(
    rt: &impl Host,
    told: &Told,
    done: Done<'_>,
    asked: Asked,
    again: Again<'_>,
    keep: Option<bool>,
) {
    if done.code == FAILED {
        let _ = rt.eprint("What was found:\n");
        let _ = rt.eprint(told.answer.text.as_str());
    }
    let own = match done.units {
        Some(units) => Own::of(rt.alloc(), told, units),
        None => None,
    };
    let found = match own {
        Some(own) if own.is_least => Found::Least(own.cost),
        _ => found_of(told),
    };
    let filed = filed_at(rt, told, done, again);
    let cycle = done.units.map(|units| Cycle {
        own: own.map(|own| own.cost),
        ..Cycle::of(units)
    });
    if let Ok(text) = advice(rt.alloc(), found, cycle, filed, asked) {
        let _ = rt.eprint(text.as_str());
    }
    if let Some(units) = done.units {
        tell_own(rt, told, units, own, keep);
    }
}

/// Tells what came of certificates that were merged, as it is told of a search.
pub fn tell_merged(rt: &impl Host, told: &Told, done: Done<'_>) {
    tell_end(rt, done);
    tell_found(rt, told, done, Asked::Merged, Again::usual(), None);
}

/// Tells what came of the job of a line.
fn tell_done(rt: &impl Host, line: &Line, told: &Told, done: Done<'_>) {
    tell_end(rt, done);
    if let Some(effort) = done.asked {
        let asked = asked_of(rt, line, &effort, told);
        let keep = match line {
            Line::Plan { keep, .. } => Some(*keep),
            _ => None,
        };
        tell_found(rt, told, done, asked, again_of(line, effort), keep);
    }
    if let (
        Line::Cost { .. } | Line::Frames { .. } | Line::Play { .. },
        Some(units),
        Some(plan),
    ) = (line, done.units, told.plan())
    {
        tell_given(rt, line, plan, units);
    }
    if matches!(line, Line::Frames { .. }) {
        tell(rt, unset_areas(rt.alloc(), done.record.text));
    }
}

/// Tells what came of a line: why standard output hasn't got the text, what a refusal means, why a file isn't at its path or
/// where it lies, what was found where standard output hasn't got it, what would help a search that ended without a proof, where the
/// units' own places are better, and of frames which addresses the units don't give. Where that can't be written or made, nothing is told.
pub fn tell_line(rt: &impl Host, line: &Line, told: &Result<Told, Refusal>, done: Done<'_>) {
    tell_untold(rt, done.untold);
    match told {
        Ok(told) => tell_done(rt, line, told, done),
        Err(refusal) => tell_refusal(rt, refusal, line.cert(), done.record),
    }
}
