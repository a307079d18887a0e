//! Does the rows of a table on standard input: headers, maps and reports. Tells each row whose text isn't as it says.
#![tactic(auto)]

use ec_loads::{Places, Plan, is_legal};
use ec_master_files::{Claim, header_of, map_of, report_of};
use ec_unit_text::read_units;
use ec_units::{Place, Units};
use std::alloc::{AllocError, Global};
use std::fmt::Write;
use std::io;
use std::io::Read;

/// The plan of the places in the units; a unit without one gets a phase that no tick has.
fn plan_of(alloc: Global, units: &Units) -> Result<Plan, AllocError> {
    let mut places = Vec::new(alloc);
    for unit in units.units.as_slice() {
        let nowhere = Place {
            phase: unit.period,
            slot: 0,
        };
        places.push(unit.place.unwrap_or(nowhere))?;
    }
    Ok(Plan {
        places: Places::new(places),
    })
}

/// What is proved of a plan, by the word of a row: `nothing`, `optimal`, or the least that a tick costs.
fn claim_of(word: &str) -> Claim {
    match word {
        "optimal" => Claim::Optimal,
        _ => match word.parse::<u64>() {
            Ok(level) => Claim::AtLeast { level },
            Err(_) => Claim::Nothing,
        },
    }
}

/// The text of a kind for a plan; empty where the plan isn't legal.
fn text_for(alloc: Global, kind: &str, units: &Units, plan: &Plan) -> Result<String, AllocError> {
    if is_legal(units, plan).is_err() {
        return Ok(String::new(alloc));
    }
    match kind {
        "header" => header_of(alloc, units, plan),
        "map" => map_of(alloc, units, plan),
        _ => report_of(alloc, units, plan, claim_of(kind)),
    }
}

/// The text of a kind for a unit text at its places; empty where the text is refused.
fn text_of(alloc: Global, kind: &str, units: &str) -> Result<String, AllocError> {
    let Ok(units) = read_units(alloc, units.as_bytes()) else {
        return Ok(String::new(alloc));
    };
    let plan = plan_of(alloc, &units)?;
    text_for(alloc, kind, &units, &plan)
}

/// Tells the first piece of a row that doesn't stand in its text behind the pieces before it.
fn tell_missing(out: &mut String, drawn: &str, row: &str) -> Result<(), AllocError> {
    let mut rest = drawn;
    for piece in row.split('^').skip(2) {
        match rest.split_once(piece) {
            Some((_before, behind)) => rest = behind,
            None => {
                write!(out, "not written:\n{piece}\n")?;
                return Ok(());
            }
        }
    }
    Ok(())
}

/// Does a row: a kind of text, a unit text, and then the pieces that stand in its text, one after the other. Where there
/// are none the text itself is told.
fn tell(alloc: Global, out: &mut String, row: &str) -> Result<(), AllocError> {
    let mut parts = row.split('^');
    let kind = parts.next().unwrap_or("");
    let units = parts.next().unwrap_or("");
    let written = text_of(alloc, kind, units)?;
    if parts.next().is_none() {
        return out.push_str(written.as_str());
    }
    tell_missing(out, written.as_str(), row)
}

/// What there is to tell of a table: the wrong rows, and how many rows there are.
fn report(alloc: Global, table: &str) -> Result<String, AllocError> {
    let mut out = String::new(alloc);
    let mut count = 0u32;
    for row in table.split('~') {
        tell(alloc, &mut out, row)?;
        count = count.saturating_add(1);
    }
    write!(out, "{count} rows\n")?;
    Ok(out)
}

/// Reads the table and tells of it.
fn main(rt: HostRuntime) -> io::Result<()> {
    let mut table = String::new(rt.alloc());
    rt.reader().read_to_string(&mut table)?;
    let out = report(rt.alloc(), table.as_str())?;
    rt.print(out.as_str())
}
