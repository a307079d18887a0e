//! What a row's job answers, as one text.

use crate::table::jobs::{Told, Way, done};
use crate::table::row::{ALL, Kind, Row, is_plan};
use ec_text_builder::Draft;
use std::alloc::Global;
use std::sync::Wait;
use std::thread::Threads;

/// Adds bytes as text.
fn add(out: &mut Draft, bytes: &[u8]) {
    match std::str::from_utf8(bytes) {
        Ok(text) => out.add(text),
        Err(_) => out.add("no text\n"),
    }
}

/// Adds a certificate. Where the row of a plan has the whole one, whether it is a front of that is told in its place.
fn add_cert(out: &mut Draft, row: &Row<'_>, cert: &[u8]) {
    if !is_plan(row.job) || row.cert.is_empty() {
        add(out, cert);
    } else if row.cert.as_bytes().starts_with(cert) && cert.len() < row.cert.len() {
        out.add("a front\n");
    } else {
        out.add("no front\n");
    }
}

/// Adds so many zeros, as their number.
fn add_zeros(out: &mut Draft, zeros: u32) {
    if zeros > 0 {
        out.add(format_args!("({zeros})"));
    }
}

/// Adds a capture file, if there is one: two digits for each byte, and for zeros how many stand there.
fn add_file(out: &mut Draft, file: &[u8]) {
    if file.is_empty() {
        return;
    }
    out.add("file ");
    let mut zeros = 0u32;
    for byte in file {
        if *byte == 0 {
            zeros = zeros.saturating_add(1);
        } else {
            add_zeros(out, zeros);
            zeros = 0;
            out.add(format_args!("{byte:02x}"));
        }
    }
    add_zeros(out, zeros);
    out.add("\n");
}

/// Adds a line, where it holds.
fn add_if(out: &mut Draft, holds: bool, line: &str) {
    if holds {
        out.add(line);
    }
}

/// Adds what a job left: its status, its text, what it wrote beside that, and the streams that failed. What a plan writes
/// is the certificate, what any other job writes is the file.
fn add_told(out: &mut Draft, row: &Row<'_>, told: &Told) {
    out.add(format_args!("{}\n", told.code));
    add(out, told.text.as_slice());
    match row.kind {
        Kind::Plain => {}
        Kind::Search => add_cert(out, row, told.out.as_slice()),
        Kind::Capture => add_file(out, told.out.as_slice()),
    }
    let failed = told.failed;
    let is_plan = is_plan(row.job);
    add_if(out, failed.units, "units failed\n");
    add_if(out, failed.cert || is_plan && failed.out, "cert failed\n");
    add_if(out, failed.text, "text failed\n");
    add_if(out, failed.out && !is_plan, "file failed\n");
}

/// Adds what a check says of a certificate that a search wrote whole.
fn add_check(
    out: &mut Draft,
    rt: &(impl Threads + Wait + Sync),
    alloc: Global,
    row: &Row<'_>,
    told: &Told,
) {
    if !matches!(row.kind, Kind::Search) || told.failed.out || told.out.is_empty() {
        return;
    }
    let cert = std::str::from_utf8(told.out.as_slice()).unwrap_or("no text");
    let check = Row {
        job: "check",
        is_alone: false,
        calls: ALL,
        cert,
        ..*row
    };
    let checked = done(rt, alloc, &check, Way::Plain);
    out.add(format_args!("check {} ", checked.code));
    add(out, checked.text.as_slice());
    drop(checked);
}

/// The first line of a text.
fn first_line(bytes: &[u8]) -> &str {
    let text = std::str::from_utf8(bytes).unwrap_or("");
    match text.split_once('\n') {
        Some((line, _)) => line,
        None => text,
    }
}

/// Whether two runs left the same: status and text, and where both wrote it what they wrote and which streams failed. Of
/// several workers, whose pieces end in any order, only the first line of the text is compared.
fn is_same(row: &Row<'_>, one: &Told, other: &Told, both: bool) -> bool {
    if one.code != other.code {
        return false;
    }
    let (text, again) = (one.text.as_slice(), other.text.as_slice());
    if row.workers > 1 {
        return first_line(text) == first_line(again);
    }
    let written = one.out.as_slice() == other.out.as_slice() && one.failed == other.failed;
    text == again && (written || !both)
}

/// Whether the row's job leaves the same in this way. In a way that writes less than the first, status and text are to be
/// the same, and nothing is asked where the first couldn't write it.
fn is_left(
    rt: &(impl Threads + Wait + Sync),
    alloc: Global,
    row: &Row<'_>,
    told: &Told,
    way: Way,
) -> bool {
    let both = match (row.kind, way) {
        (Kind::Plain, _) | (_, Way::Writing) => true,
        _ => false,
    };
    let other = done(rt, alloc, row, way);
    !both && told.failed.out || is_same(row, told, &other, both)
}

/// Adds what a row's job answers: its status, its text, its certificate or capture file, the streams that failed, what is
/// told of the certificate, whether it leaves the same in the other ways, a search once more and without its certificate,
/// and a full stop.
pub(crate) fn add_answer(
    out: &mut Draft,
    rt: &(impl Threads + Wait + Sync),
    alloc: Global,
    row: &Row<'_>,
) {
    let (first, again) = match row.kind {
        Kind::Plain => (Way::Plain, Way::Plain),
        Kind::Search => (Way::Writing, Way::Writing),
        Kind::Capture => (Way::Writing, Way::Plain),
    };
    let told = done(rt, alloc, row, first);
    add_told(out, row, &told);
    add_check(out, rt, alloc, row, &told);
    let same = is_left(rt, alloc, row, &told, again) && is_left(rt, alloc, row, &told, Way::Any);
    add_if(out, !same, "otherwise again\n");
    drop(told);
    out.add(".\n");
}
