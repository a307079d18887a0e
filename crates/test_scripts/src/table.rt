//! Does the jobs of a table, and tells each row that answers otherwise than it says.

mod answer;
mod jobs;
mod row;

use answer::add_answer;
use ec_text_builder::Draft;
use row::{is_as, row_of};
use std::alloc::Global;
use std::sync::Wait;
use std::thread::Threads;

/// Tells a row that isn't answered as it says.
fn tell(rt: &(impl Threads + Wait + Sync), alloc: Global, text: &str, out: &mut Draft) {
    let row = row_of(text);
    let mut answer = Draft::new(alloc);
    add_answer(&mut answer, rt, alloc, &row);
    match answer.finish() {
        Ok(answer) => {
            if !is_as(answer.as_str(), row.expected) {
                out.add(format_args!("{text}\nanswers {}\n", answer.as_str()));
            }
            drop(answer);
        }
        Err(_) => out.give_up(),
    }
}

/// Adds what there is to tell of a table: the wrong rows, and how many rows there are.
pub(crate) fn report(
    rt: &(impl Threads + Wait + Sync),
    alloc: Global,
    table: &str,
    out: &mut Draft,
) {
    let mut count = 0u32;
    for text in table.split('~') {
        tell(rt, alloc, text, out);
        count = count.saturating_add(1);
    }
    out.add(format_args!("{count} rows\n"));
}
