//! Does the job of a row, by each of the ways that there are.

ghost use Rattle.std.specs.Prelude.{Some, None, ◌≡◌, ◌≤◌, false};
ghost use Rattle.ec_wire.specs.Stream.{has_failed};
ghost use Rattle.ec_cli_command.specs.Words.{JobFits, IsPlain};
ghost use Rattle.ec_cli_run.specs.Runs.{HasCert};

use crate::table::row::Row;
use ec_cert::Part;
use ec_cli_command::Job;
use ec_cli_run::{Status, run, run_plain};
use ec_wire::Io;
use ec_workers::Quiet;
use std::alloc::Global;
use std::io;
use std::io::{Read, Write};
use std::sync::Wait;
use std::thread::Threads;
use test_streams::{FailsAt, Slow};

/// A way to do a job.
#[derive(Clone, Copy)]
pub(crate) enum Way {
    /// Without a runtime; writes nothing beside the text.
    Plain,
    /// By the call that does any job; writes nothing beside the text.
    Any,
    /// By that call, with its certificate or its capture file.
    Writing,
}

/// Which streams failed; `out` is what is written beside the text.
#[derive(Clone, Copy, PartialEq, Eq)]
pub(crate) struct Failed {
    pub units: bool,
    pub cert: bool,
    pub text: bool,
    pub out: bool,
}

/// What a job left: its text, its certificate or capture file, its status, and which streams failed.
#[derive(Drop)]
pub(crate) struct Told {
    pub text: Vec<u8>,
    pub out: Vec<u8>,
    pub code: u8,
    pub failed: Failed,
}

/// The job of a row without a certificate: frames or a play of the places in the units.
fn alone_job(row: &Row<'_>) -> Job
    ensures plain { IsPlain result }
    ensures fits { JobFits result }
    ensures cert { HasCert {C = Unit {0}} result None }
{
    match row.job {
        "play" => Job::Play,
        _ => Job::Frames,
    }
}

/// The job of a row that searches for nothing.
fn plain_job(row: &Row<'_>) -> Job
    ensures plain { IsPlain result }
    ensures fits { JobFits result }
{
    match row.job {
        "cost" => Job::Cost,
        "priced" => Job::PlanCost,
        "framed" | "captured" => Job::Frames,
        "played" => Job::Play,
        _ => Job::Check,
    }
}

/// The search of a row, or another job where it searches for nothing.
fn search_or(row: &Row<'_>, other: Job) -> Job
    requires { JobFits other }
    ensures { JobFits result }
{
    let workers = row.workers.clamp(1, 16);
    let nodes = row.nodes.clamp(1, 10_000_000);
    match row.job {
        "plan" | "strong" => Job::Plan {
            workers,
            nodes,
            strong: row.job == "strong",
            keep: false,
        },
        "resume" => Job::Resume {
            workers,
            nodes,
            part: Part::whole(),
        },
        _ => other,
    }
}

/// Does the job of a row in this way.
fn run_by<R: Read, C: Read, W: Write, O: Write>(
    rt: &(impl Threads + Wait + Sync),
    alloc: Global,
    row: &Row<'_>,
    way: Way,
    units: &mut Io<R>,
    cert: &mut Io<C>,
    text: &mut Io<W>,
    out: &mut Io<O>,
) -> Status
    requires units { has_failed units.old ≡ false }
    requires cert { has_failed cert.old ≡ false }
    requires text { has_failed text.old ≡ false }
    requires out { has_failed out.old ≡ false }
{
    let none: Option<&mut Io<io::Empty>> = None;
    let nowhere: Option<&mut Io<io::Sink>> = None;
    match way {
        Way::Writing if row.is_alone => {
            run(
                rt,
                alloc,
                &Job::Capture,
                units,
                none,
                text,
                Some(out),
                &Quiet,
            )
        }
        Way::Writing => {
            let job = search_or(row, Job::Capture);
            run(rt, alloc, &job, units, Some(cert), text, Some(out), &Quiet)
        }
        Way::Any if row.is_alone => {
            let job = alone_job(row);
            run(rt, alloc, &job, units, none, text, nowhere, &Quiet)
        }
        Way::Any => {
            let job = search_or(row, plain_job(row));
            run(rt, alloc, &job, units, Some(cert), text, nowhere, &Quiet)
        }
        Way::Plain if row.is_alone => {
            run_plain(alloc, &alone_job(row), units, none, text, nowhere)
        }
        Way::Plain => run_plain(alloc, &plain_job(row), units, Some(cert), text, nowhere),
    }
}

/// Sets up the streams of a row, does its job in this way, and gathers what it left.
pub(crate) fn done(
    rt: &(impl Threads + Wait + Sync),
    alloc: Global,
    row: &Row<'_>,
    way: Way,
) -> Told {
    let mut units = Io::new(FailsAt {
        rest: row.units.as_bytes(),
        calls: row.calls.units,
    });
    let mut cert = Io::new(FailsAt {
        rest: row.cert.as_bytes(),
        calls: row.calls.cert,
    });
    let mut held = Slow {
        held: Vec::new(alloc),
        calls: row.calls.text,
    };
    let mut kept = Slow {
        held: Vec::new(alloc),
        calls: row.calls.out,
    };
    let mut text = Io::new(&mut held);
    let mut out = Io::new(&mut kept);
    let status = run_by(
        rt, alloc, row, way, &mut units, &mut cert, &mut text, &mut out,
    );
    let failed = Failed {
        units: units.failed(),
        cert: cert.failed(),
        text: text.failed(),
        out: out.failed(),
    };
    drop(text);
    drop(out);
    Told {
        text: held.held,
        out: kept.held,
        code: status.code,
        failed,
    }
}
