//! Does the rows of a table on standard input: pictures. Tells each row whose picture isn't as it says.
#![tactic(auto)]

use ec_cost_picture::picture;
use ec_loads::{Places, Plan};
use ec_unit_text::read_units;
use ec_units::{Place, Units};
use std::alloc::{AllocError, Global};
use std::fmt::Write;
use std::io;
use std::io::Read;

/// The plan of the places in the units; a unit without one gets a phase that no tick has.
fn plan_of(alloc: Global, units: &Units) -> Result<Plan, AllocError> {
    let mut places = Vec::new(alloc);
    for unit in units.units.as_slice() {
        let nowhere = Place {
            phase: unit.period,
            slot: 0,
        };
        places.push(unit.place.unwrap_or(nowhere))?;
    }
    Ok(Plan {
        places: Places::new(places),
    })
}

/// The picture of a unit text at its places; empty where the text is refused.
fn picture_of(alloc: Global, text: &str) -> Result<String, AllocError> {
    let Ok(units) = read_units(alloc, text.as_bytes()) else {
        return Ok(String::new(alloc));
    };
    let plan = plan_of(alloc, &units)?;
    picture(alloc, &units, &plan)
}

/// Tells the first piece of a row that doesn't stand in its picture behind the pieces before it.
fn tell_missing(out: &mut String, drawn: &str, row: &str) -> Result<(), AllocError> {
    let mut rest = drawn;
    for piece in row.split('^').skip(1) {
        match rest.split_once(piece) {
            Some((_before, behind)) => rest = behind,
            None => {
                write!(out, "not drawn:\n{piece}\n")?;
                return Ok(());
            }
        }
    }
    Ok(())
}

/// Does a row: a unit text, and then the pieces that stand in its picture, one after the other.
fn tell(alloc: Global, out: &mut String, row: &str) -> Result<(), AllocError> {
    let units = row.split('^').next().unwrap_or("");
    let drawn = picture_of(alloc, units)?;
    tell_missing(out, drawn.as_str(), row)
}

/// What there is to tell of a table: the wrong rows, and how many rows there are.
fn report(alloc: Global, table: &str) -> Result<String, AllocError> {
    let mut out = String::new(alloc);
    let mut count = 0u32;
    for row in table.split('~') {
        tell(alloc, &mut out, row)?;
        count = count.saturating_add(1);
    }
    write!(out, "{count} rows\n")?;
    Ok(out)
}

/// Reads the table and tells of it.
fn main(rt: HostRuntime) -> io::Result<()> {
    let mut table = String::new(rt.alloc());
    rt.reader().read_to_string(&mut table)?;
    let out = report(rt.alloc(), table.as_str())?;
    rt.print(out.as_str())
}
