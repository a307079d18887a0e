//! Does the rows of a table on standard input: explanations of refusals, and advice after a search. Tells each row that answers otherwise than it says.
#![tactic(auto)]

mod refusals;
mod row;
mod words;

use row::answer_to;
use std::alloc::{AllocError, Global};
use std::fmt::Write;
use std::io;
use std::io::Read;

/// Tells a row that isn't answered as it says. Its parts are the head, what is told, the units, and the certificate.
fn tell(alloc: Global, out: &mut String, row: &[u8]) -> Result<(), AllocError> {
    let mut parts = row.split(|byte| *byte == b'^');
    let head = parts.next().unwrap_or(&[]);
    let expected = parts.next().unwrap_or(&[]);
    let units = parts.next().unwrap_or(&[]);
    let Ok(head) = std::str::from_utf8(head) else {
        return out.push_str("a head that is no text\n");
    };
    let answer = answer_to(alloc, head, units, parts.next())?;
    if answer.as_bytes() != expected {
        let told = answer.as_str();
        write!(out, "{head}\nanswers\n{told}")?;
    }
    Ok(())
}

/// What there is to tell of a table: the wrong rows, and how many rows there are.
fn report(alloc: Global, table: &[u8]) -> Result<String, AllocError> {
    let mut out = String::new(alloc);
    let mut count = 0u32;
    for row in table.split(|byte| *byte == b'~') {
        tell(alloc, &mut out, row)?;
        count = count.saturating_add(1);
    }
    write!(out, "{count} rows\n")?;
    Ok(out)
}

/// Reads the table and tells of it.
fn main(rt: HostRuntime) -> io::Result<()> {
    let mut table = Vec::new(rt.alloc());
    rt.reader().read_to_end(&mut table)?;
    let out = report(rt.alloc(), table.as_slice())?;
    rt.print(out.as_str())
}
