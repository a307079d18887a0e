//! Searches that are cut short and gone on with: their levels and their certificates.

ghost use Rattle.std.specs.Prelude.{IfOk};
ghost use Rattle.ec_cert.specs.Parts.{IsPart};
ghost use Rattle.ec_workers.specs.Answers.{Asked, IsOutcome};

use crate::call::Call;
use crate::certs::{add_verdict, add_written, resumable};
use crate::crews::{Crew, Told, add_outcome, crew_of};
use ec_cert::{Cert, Part};
use ec_checker::level;
use ec_text_builder::Draft;
use ec_units::Units;
use ec_workers::{Outcome, SolveFault, lines_of, partial, rules_by, solve, solve_from};
use std::alloc::{AllocError, Global};
use std::sync::Wait;
use std::thread::Threads;

/// The certificate of what a search found: its own, or the partial one with the level that its tree shows.
fn cert_of(alloc: Global, units: &Units, outcome: Outcome) -> Result<Cert, AllocError>
    requires { (asked : Asked) × IsOutcome units.now.units units.now.slots asked outcome }
{
    match outcome {
        Outcome::Optimal { cert, .. } => Ok(cert),
        Outcome::NoPlan { cert } => Ok(cert),
        Outcome::Unproved {
            best,
            order,
            tree,
            strong,
            ..
        } => {
            let rules = rules_by(strong);
            let level = level(alloc, units, rules, order.as_slice(), &tree, &best)?;
            let lines = lines_of(alloc, units)?;
            Ok(partial(units, lines, order, best, tree, strong, level))
        }
    }
}

/// Adds of the certificate of a search without a proof its level and what the checker answers of it, and the certificate
/// to a text of its own. Where memory ran out over it, that is told.
fn add_cert(
    told: &mut Draft,
    text: &mut Draft,
    alloc: Global,
    units: &Units,
    cert: &Result<Cert, AllocError>,
) {
    match cert {
        Ok(cert) => {
            if let Some(level) = cert.level {
                told.add(format_args!(" {level} "));
                add_verdict(told, alloc, units, cert);
            }
            add_written(text, cert, usize::MAX);
        }
        Err(_) => told.add(" OutOfMemory"),
    }
}

/// Adds what a search ended with, of one without a proof its level and what the checker answers of its certificate, and
/// that certificate, with bars, to a text of its own; or why no search began. Where memory ran out over the level or the
/// certificate, that is told.
fn end(
    told: &mut Draft,
    text: &mut Draft,
    alloc: Global,
    units: &Units,
    found: Result<Outcome, SolveFault>,
)
    requires { (asked : Asked) × IfOk found (IsOutcome units.now.units units.now.slots asked) }
{
    match found {
        Ok(outcome) => {
            add_outcome(told, alloc, units, &outcome);
            let cert = cert_of(alloc, units, outcome);
            add_cert(told, text, alloc, units, &cert);
            drop(cert);
        }
        Err(fault) => told.add(format_args!("{fault:?}")),
    }
}

/// Adds what so many workers find, and their certificate.
fn cut(
    rt: &(impl Threads + Wait + Sync),
    alloc: Global,
    units: &Units,
    crew: Crew,
    told: &mut Draft,
    text: &mut Draft,
) {
    let workers = crew.workers.clamp(1, 16);
    let nodes = crew.nodes.clamp(1, 10_000_000);
    let found = solve(rt, alloc, units, workers, nodes, crew.strong, &Told::new());
    end(told, text, alloc, units, found);
}

/// The part that the first two words of a call name, by its index and its count; the whole where they name none.
fn part_of(call: Call<'_>) -> Part
    ensures { IsPart result }
{
    let (index, count) = (call.short(1), call.short(2));
    if index < count {
        Part { index, count }
    } else {
        Part::whole()
    }
}

/// Adds what so many workers find that go on with a part of the text of a certificate, with bars, over so many nodes more, and
/// their certificate, where the checker shows of it no more than a level; else adds what it answers.
fn resume(
    rt: &(impl Threads + Wait + Sync),
    alloc: Global,
    units: &Units,
    barred: &str,
    part: Part,
    crew: Crew,
    told: &mut Draft,
    text: &mut Draft,
)
    requires { IsPart part }
{
    let workers = crew.workers.clamp(1, 16);
    let nodes = crew.nodes.clamp(1, 10_000_000);
    if let Some(cert) = resumable(told, alloc, units, barred) {
        let found = solve_from(rt, alloc, units, cert, part, workers, nodes, &Told::new());
        end(told, text, alloc, units, found);
    }
}

/// Adds what a search finds that goes on with the certificate of one that was cut short.
/// What else they tell goes to another text.
fn onward(
    rt: &(impl Threads + Wait + Sync),
    alloc: Global,
    units: &Units,
    call: Call<'_>,
    out: &mut Draft,
    other: &mut Draft,
) {
    let mut cert = Draft::new(alloc);
    cut(rt, alloc, units, crew_of(call, 1), other, &mut cert);
    let more = Crew {
        workers: call.index(1),
        nodes: call.count(3),
        strong: call.is_strong(),
    };
    match cert.finish() {
        Ok(cert) => resume(
            rt,
            alloc,
            units,
            cert.as_str(),
            Part::whole(),
            more,
            out,
            other,
        ),
        Err(_) => out.give_up(),
    }
}

/// Adds what is found by going on with a part, and its certificate to another text.
fn go_on_by_part(
    rt: &(impl Threads + Wait + Sync),
    alloc: Global,
    units: &Units,
    call: Call<'_>,
    told: &mut Draft,
    text: &mut Draft,
) {
    let crew = crew_of(call, 3);
    resume(
        rt,
        alloc,
        units,
        call.after(5),
        part_of(call),
        crew,
        told,
        text,
    );
}

/// Adds what is asked of a search, and what else it tells to another text.
fn tell(
    rt: &(impl Threads + Wait + Sync),
    alloc: Global,
    units: &Units,
    call: Call<'_>,
    out: &mut Draft,
    other: &mut Draft,
) {
    let crew = crew_of(call, 1);
    let alone = Crew {
        workers: 1,
        nodes: call.count(1),
        strong: call.is_strong(),
    };
    let whole = Part::whole();
    match call.name() {
        "level" => cut(rt, alloc, units, alone, out, other),
        "partial" => cut(rt, alloc, units, alone, other, out),
        "resume" => resume(rt, alloc, units, call.after(3), whole, crew, out, other),
        "resumed" => resume(rt, alloc, units, call.after(3), whole, crew, other, out),
        "part" => go_on_by_part(rt, alloc, units, call, out, other),
        "parted" => go_on_by_part(rt, alloc, units, call, other, out),
        "onward" => onward(rt, alloc, units, call, out, other),
        _ => out.add("no call"),
    }
}

/// Adds what a call about searches that are gone on with answers: `level NODES` what one worker finds, its level and
/// what the checker answers of its certificate; `partial NODES` that certificate; `resume WORKERS NODES CERT` what is
/// found by going on with a certificate, and `resumed WORKERS NODES CERT` the certificate of that; `part INDEX COUNT WORKERS
/// NODES CERT` and `parted ..` the same of one that goes on with a part; `onward WORKERS NODES
/// MORE` what a search finds that is cut after so many nodes and gone on with by more.
pub(crate) fn answer(
    rt: &(impl Threads + Wait + Sync),
    alloc: Global,
    units: &Units,
    call: Call<'_>,
    out: &mut Draft,
) {
    let mut other = Draft::new(alloc);
    tell(rt, alloc, units, call, out, &mut other);
}
