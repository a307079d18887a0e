//! Does the scripts on standard input, lines of calls with what they answer, and the jobs of the table behind them, and
//! tells each line and each row that is answered otherwise.
#![tactic(auto)]

mod bench;
mod call;
mod certs;
mod crews;
mod desk;
mod guide;
mod layouts;
mod onward;
mod plans;
mod samples;
mod script;
mod searching;
mod steps;
mod sweep;
mod table;
mod texts;

use call::Call;
use ec_text_builder::Draft;
use script::Script;
use std::alloc::Global;
use std::io;
use std::str::Lines;
use std::sync::Wait;
use std::thread::Threads;

/// What stands between a call and its answer.
const SIGN: &str = " => ";

/// The line between the scripts and the table.
const LINE: &str = "====\n";

/// Does a line, and tells it where it is answered otherwise than it says; a line without an answer is to say `-`.
fn tell(
    rt: &(impl Threads + Wait + Sync),
    alloc: Global,
    script: &mut Script,
    line: &str,
    out: &mut Draft,
) {
    let (call, wanted) = line.split_once(SIGN).unwrap_or((line, "-"));
    let mut answer = Draft::new(alloc);
    script.answer(rt, alloc, Call::of(call), &mut answer);
    match answer.finish() {
        Ok(answer) => {
            if answer.as_str() != wanted {
                out.add(format_args!("{line}\nanswers {}\n", answer.as_str()));
            }
            drop(answer);
        }
        Err(_) => out.give_up(),
    }
}

/// Does the lines of a script, and gives how many there are.
fn tell_all(
    rt: &(impl Threads + Wait + Sync),
    alloc: Global,
    mut script: Script,
    lines: Lines<'_>,
    out: &mut Draft,
) -> u32 {
    let mut count = 0u32;
    for line in lines {
        if !line.is_empty() && !line.starts_with('#') {
            tell(rt, alloc, &mut script, line, out);
            count = count.saturating_add(1);
        }
    }
    drop(script);
    count
}

/// Does a script: its first line names its subject, and each other one is a call, is empty, or begins with a number
/// sign and is a remark. Gives how many calls there are.
fn perform(rt: &(impl Threads + Wait + Sync), alloc: Global, text: &str, out: &mut Draft) -> u32 {
    let mut lines = text.lines();
    let head = lines.next().unwrap_or("");
    match Script::of(alloc, Call::of(head)) {
        Some(script) => tell_all(rt, alloc, script, lines, out),
        None => {
            out.add(format_args!("no script: {head}\n"));
            0
        }
    }
}

/// Adds what there is to tell of all scripts, and how many lines they have.
fn report(rt: &(impl Threads + Wait + Sync), alloc: Global, scripts: &str, out: &mut Draft) {
    let mut count = 0u32;
    for text in scripts.split("~\n") {
        count = count.saturating_add(perform(rt, alloc, text, out));
    }
    out.add(format_args!("{count} lines\n"));
}

/// Adds what there is to tell of the scripts, and of the table where there is one.
fn report_all(rt: &(impl Threads + Wait + Sync), alloc: Global, text: &str, out: &mut Draft) {
    match text.split_once(LINE) {
        Some((scripts, rows)) => {
            report(rt, alloc, scripts, out);
            table::report(rt, alloc, rows, out);
        }
        None => report(rt, alloc, text, out),
    }
}

fn main(rt: HostRuntime) -> io::Result<()> {
    let text = io::read_to_string(rt.alloc(), rt.reader())?;
    let mut out = Draft::new(rt.alloc());
    report_all(&rt, rt.alloc(), text.as_str(), &mut out);
    let out = out.finish()?;
    rt.print(out.as_str())
}
