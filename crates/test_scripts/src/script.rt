//! A script: its subject, and what its calls are asked of.

use crate::bench::Bench;
use crate::call::Call;
use crate::desk::Desk;
use crate::samples::line_of;
use crate::{certs, layouts, plans, searching, sweep, texts};
use ec_symmetry::Rules;
use ec_text_builder::Draft;
use ec_units::Units;
use std::alloc::Global;
use std::sync::Wait;
use std::thread::Threads;

/// What calls about a line ask for.
#[derive(Clone, Copy)]
pub(crate) enum Subject {
    /// Plans, and places.
    Plans,
    /// Layouts of plans, and their frames.
    Layouts,
    /// Certificates that are read for it.
    Certs,
    /// Searches.
    Search,
}

/// What the calls of a script are asked of.
#[derive(Drop)]
pub(crate) enum Script {
    /// Unit texts.
    Texts,
    /// Searches of many lines with so many slots.
    Sweep(u8),
    /// Loads and bounds of a line.
    Loads(Bench),
    /// A book for a line.
    Book(Desk),
    /// A line.
    Line(Subject, Units),
}

/// The loads of a line.
fn loads_for(alloc: Global, units: &Units) -> Option<Script> {
    match Bench::new(alloc, units) {
        Ok(bench) => Some(Script::Loads(bench)),
        Err(_) => None,
    }
}

/// The book of a first line, by these rules: for its line, with so many nodes.
fn book_for(alloc: Global, head: Call<'_>, rules: Rules) -> Option<Script> {
    let units = line_of(alloc, head.small(1), head.after(3))?;
    match Desk::new(alloc, units, rules, head.number(2).unwrap_or(0)) {
        Ok(desk) => Some(Script::Book(desk)),
        Err(_) => None,
    }
}

/// Adds what a call about these units answers, by the subject.
fn answer_line(
    rt: &(impl Threads + Wait + Sync),
    alloc: Global,
    subject: Subject,
    units: &Units,
    call: Call<'_>,
    out: &mut Draft,
) {
    match subject {
        Subject::Plans => plans::answer(alloc, units, call, out),
        Subject::Layouts => layouts::answer(alloc, units, call, out),
        Subject::Certs => certs::answer(alloc, units, call, out),
        Subject::Search => searching::answer(rt, alloc, units, call, out),
    }
}

impl Script {
    /// The script of this first line: its subject, the slot count, of a book the nodes, and the units. There is none
    /// where the line names none, or memory runs out over it.
    pub(crate) fn of(alloc: Global, head: Call<'_>) -> Option<Script> {
        match head.name() {
            "texts" => Some(Script::Texts),
            "sweep" => Some(Script::Sweep(head.small(1))),
            "book" => book_for(alloc, head, Rules::Turned),
            "unturned" => book_for(alloc, head, Rules::Plain),
            _ => match line_of(alloc, head.small(1), head.after(2)) {
                Some(units) => Script::about(alloc, head.name(), units),
                None => None,
            },
        }
    }

    /// The script of this name for these units.
    fn about(alloc: Global, name: &str, units: Units) -> Option<Script> {
        match name {
            "loads" => loads_for(alloc, &units),
            "plans" => Some(Script::Line(Subject::Plans, units)),
            "layouts" => Some(Script::Line(Subject::Layouts, units)),
            "certs" => Some(Script::Line(Subject::Certs, units)),
            "search" => Some(Script::Line(Subject::Search, units)),
            _ => None,
        }
    }

    /// Adds what a call answers.
    pub(crate) fn answer(
        &mut self,
        rt: &(impl Threads + Wait + Sync),
        alloc: Global,
        call: Call<'_>,
        out: &mut Draft,
    ) {
        match self {
            Script::Texts => texts::answer(alloc, call, out),
            Script::Sweep(slots) => sweep::answer(rt, alloc, *slots, call, out),
            Script::Loads(bench) => bench.answer(alloc, call, out),
            Script::Book(desk) => desk.answer(alloc, call, out),
            Script::Line(subject, units) => answer_line(rt, alloc, *subject, units, call, out),
        }
    }
}
