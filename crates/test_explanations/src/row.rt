//! A row of the table.
//!
//! Its head is the line of a refusal, and below it `cert PATH`, `out PATH` and `reason WORDS` where the job had them. Or it is
//! the first line of a search's text: `optimal V`, `no plan`, or of one without a proof `unproved V`, below it `cut WHY` and
//! `at least L`, and `strong` of a search by the strong rules, `most` of one that took as much as may be asked for, `merged` of
//! merged certificates; and where a certificate was wanted, `out PATH`, `units PATH`, `bytes N` and `nodes N`, and `missing` where
//! it isn't there, or `beside` where it is too large to be there. Or it is `given V` of a plan that no search found. Its units are
//! those of the job; where they can't be read, they aren't known.

use crate::refusals::refusal_of;
use ec_cli_explain::{Again, Asked, Cycle, Filed, Found, Inputs, Written, advice, explain};
use ec_outcome::{Cut, Ending};
use ec_unit_text::read_units;
use std::alloc::{AllocError, Global};

/// What stands after a word at the beginning of a line of the head.
fn part<'a>(head: &'a str, word: &str) -> Option<&'a str> {
    for line in head.lines() {
        if let Some(rest) = line.strip_prefix(word) {
            return Some(rest);
        }
    }
    None
}

/// The number behind a word of the head, if it is there.
fn number(head: &str, word: &str) -> Option<u32> {
    part(head, word)?.parse::<u32>().ok()
}

/// What a search of the head was asked for.
fn again_of(head: &str) -> Again<'_> {
    let usual = Again::usual();
    Again {
        workers: number(head, "workers ").map_or(1, |count| count as usize),
        nodes: number(head, "nodes ").unwrap_or(usual.nodes),
        minutes: number(head, "minutes "),
        places: part(head, "places "),
    }
}

/// What became of the certificate of a search of the head.
fn filed_of(head: &str) -> Filed<'_> {
    let bytes = u64::from(number(head, "bytes ").unwrap_or(0));
    match part(head, "out ") {
        Some(_) if part(head, "missing").is_some() => Filed::Missing,
        Some(_) if part(head, "beside").is_some() => Filed::TooLarge,
        Some(path) => Filed::There(Written {
            path,
            units: part(head, "units "),
            bytes,
            each: u64::from(number(head, "each ").unwrap_or(0)),
            again: again_of(head),
        }),
        None => Filed::Unasked,
    }
}

/// The cut with this name.
fn cut_named(name: &str) -> Option<Cut> {
    match name {
        "journal" => Some(Cut::Journal),
        "budget" => Some(Cut::Budget),
        "memory" => Some(Cut::Memory),
        "time" => Some(Cut::Time),
        "parts" => Some(Cut::Parts),
        _ => None,
    }
}

/// How a search of the head ended without a proof, if it did.
fn ending_of(head: &str) -> Option<Ending> {
    let value = part(head, "unproved ")?;
    let cut = cut_named(part(head, "cut ")?)?;
    let level = part(head, "at least ")?.parse::<u64>().ok()?;
    Some(Ending {
        best: value.parse::<u64>().ok(),
        cut,
        level,
        strong: part(head, "strong").is_some(),
    })
}

/// What a search of the head found.
fn found_of(head: &str) -> Found {
    let least = part(head, "optimal ").unwrap_or("").parse::<u64>();
    match (ending_of(head), least) {
        (Some(ending), _) => Found::Unproved(ending),
        (None, Ok(least)) => Found::Least(least),
        (None, Err(_)) => match part(head, "given ").unwrap_or("").parse::<u64>() {
            Ok(cost) => Found::Given(cost),
            Err(_) => Found::NoPlan,
        },
    }
}

/// What a search was asked for.
fn asked_of(head: &str) -> Asked {
    if part(head, "most").is_some() {
        return Asked::Most;
    }
    if part(head, "part").is_some() {
        return Asked::Part;
    }
    if part(head, "merged").is_some() {
        return Asked::Merged;
    }
    Asked::Whole
}

/// What is told of a row.
pub(crate) fn answer_to<'x>(
    alloc: Global,
    head: &'x str,
    units: &'x [u8],
    cert: Option<&'x [u8]>,
) -> Result<String, AllocError> {
    if !head.starts_with("refused ") {
        let units = read_units(alloc, units).ok();
        let cycle = units.as_ref().map(|units| Cycle::of(units));
        return advice(alloc, found_of(head), cycle, filed_of(head), asked_of(head));
    }
    let Some(refusal) = refusal_of(head.lines().next().unwrap_or("")) else {
        return String::from_str(alloc, "no line of a refusal\n");
    };
    let inputs = Inputs {
        units,
        cert,
        cert_path: part(head, "cert "),
        reason: part(head, "reason "),
    };
    explain(alloc, &refusal, &inputs)
}
