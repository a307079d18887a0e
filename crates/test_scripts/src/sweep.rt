//! Searches of every two units of some sizes and periods, with two numbers of workers.

use crate::call::Call;
use crate::crews::{Crew, Shown, Told, search};
use crate::samples::line_of;
use ec_text_builder::Draft;
use ec_units::Units;
use std::alloc::Global;
use std::sync::Wait;
use std::thread::Threads;

/// The units: 1, 100, 744 or 1486 bytes every 1, 2, 3 or 4 ticks.
const KINDS: &str =
    "1/1 1/2 1/3 1/4 100/1 100/2 100/3 100/4 744/1 744/2 744/3 744/4 1486/1 1486/2 1486/3 1486/4";

/// What is searched: the slots, and with which workers.
#[derive(Clone, Copy)]
struct Wanted {
    slots: u8,
    one: Crew,
    other: Crew,
}

/// How many lines have a best plan and how many have none, by the same answer of both searches, to which the checker
/// says yes; how many are answered in any other way.
#[derive(Clone, Copy)]
struct Tally {
    optimal: u32,
    without: u32,
    otherwise: u32,
}

/// Whether a text is `optimal B` and the checker's yes to B.
fn is_least(text: &str) -> bool {
    let Some(rest) = text.strip_prefix("optimal ") else {
        return false;
    };
    match rest.split_once(" Ok(Least(") {
        Some((value, end)) => end.strip_suffix("))") == Some(value),
        None => false,
    }
}

impl Tally {
    /// Counts a line by what its two searches answered, each on a line.
    fn count(&mut self, answers: &str) {
        let (one, other) = answers.split_once('\n').unwrap_or((answers, ""));
        if one == other && is_least(one) {
            self.optimal = self.optimal.saturating_add(1);
        } else if one == other && one == "no plan Ok(NoPlan)" {
            self.without = self.without.saturating_add(1);
        } else {
            self.otherwise = self.otherwise.saturating_add(1);
        }
    }
}

/// Searches a line once with each number of workers, and counts what they find.
fn search_twice(
    rt: &(impl Threads + Wait + Sync),
    alloc: Global,
    units: &Units,
    wanted: Wanted,
    tally: &mut Tally,
    out: &mut Draft,
) {
    let mut answers = Draft::new(alloc);
    search(
        rt,
        alloc,
        units,
        wanted.one,
        &Told::new(),
        Shown::End,
        &mut answers,
    );
    answers.add('\n');
    search(
        rt,
        alloc,
        units,
        wanted.other,
        &Told::new(),
        Shown::End,
        &mut answers,
    );
    match answers.finish() {
        Ok(answers) => tally.count(answers.as_str()),
        Err(_) => out.give_up(),
    }
}

/// Searches the line of these two units.
fn search_pair(
    rt: &(impl Threads + Wait + Sync),
    alloc: Global,
    wanted: Wanted,
    first: &str,
    second: &str,
    tally: &mut Tally,
    out: &mut Draft,
) {
    match format!(in alloc; "{first} {second}") {
        Ok(words) => if let Some(units) = line_of(alloc, wanted.slots, words.as_str()) {
            search_twice(rt, alloc, &units, wanted, tally, out);
            drop(units);
        },
        Err(_) => out.give_up(),
    }
}

/// Searches every two units with so many slots, once with each number of workers: `pairs WORKERS WORKERS NODES`; where the
/// call says so, the second time by the strong rules.
pub(crate) fn answer(
    rt: &(impl Threads + Wait + Sync),
    alloc: Global,
    slots: u8,
    call: Call<'_>,
    out: &mut Draft,
) {
    let nodes = call.count(3);
    let wanted = Wanted {
        slots,
        one: Crew {
            workers: call.index(1),
            nodes,
            strong: false,
        },
        other: Crew {
            workers: call.index(2),
            nodes,
            strong: call.is_strong(),
        },
    };
    let mut tally = Tally {
        optimal: 0,
        without: 0,
        otherwise: 0,
    };
    for pair in 0..256usize {
        let first = KINDS.split(' ').nth(pair / 16).unwrap_or("");
        let second = KINDS.split(' ').nth(pair % 16).unwrap_or("");
        search_pair(rt, alloc, wanted, first, second, &mut tally, out);
    }
    out.add(format_args!("optimal {} no plan {}", tally.optimal, tally.without));
    out.add(format_args!(" otherwise {}", tally.otherwise));
}
