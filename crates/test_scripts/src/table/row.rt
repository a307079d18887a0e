//! A row of the table: `job nodes units-calls cert-calls text-calls file-calls`, then `^`, what it answers, `^`, the units, and
//! where it has one `^` and a certificate. Numbers that are left out are large. A plan by 16 workers is the job
//! `plan/16`, one by the strong rules `strong`, and `resume/16` goes on with the certificate, as `resume` does by one. The calls on the certificate are of
//! the one that is read, or that a plan writes; those on the file are of a capture file, or of the certificate that a
//! resumed search writes.

/// How many calls each stream allows before it fails; `out` is the certificate or the capture file that is written.
#[derive(Clone, Copy)]
pub(crate) struct Calls {
    pub units: u32,
    pub cert: u32,
    pub text: u32,
    pub out: u32,
}

/// So many calls as no row makes.
const MANY: u32 = 99_999;

/// Streams that don't fail.
pub(crate) const ALL: Calls = Calls {
    units: MANY,
    cert: MANY,
    text: MANY,
    out: MANY,
};

/// What a job writes beside its text.
#[derive(Clone, Copy)]
pub(crate) enum Kind {
    /// Nothing.
    Plain,
    /// The certificate of its search.
    Search,
    /// A capture file.
    Capture,
}

/// A job, its streams, and what it answers; one `*` in the answer stands for any text.
#[derive(Clone, Copy)]
pub(crate) struct Row<'a> {
    pub job: &'a str,
    pub kind: Kind,
    /// Whether the job takes the places in the units, and no certificate.
    pub is_alone: bool,
    pub workers: usize,
    pub nodes: u32,
    pub calls: Calls,
    pub expected: &'a str,
    pub units: &'a str,
    pub cert: &'a str,
}

/// The number at a place of a row's head, or many.
fn number(head: &str, place: usize) -> u32 {
    match head.split(' ').nth(place) {
        Some(word) => word.parse::<u32>().unwrap_or(MANY),
        None => MANY,
    }
}

/// A job and its workers, one where none are named.
fn job_and_workers(head: &str) -> (&str, usize) {
    let (word, _) = head.split_once(' ').unwrap_or((head, ""));
    match word.split_once('/') {
        Some((job, workers)) => (job, workers.parse::<usize>().unwrap_or(1)),
        None => (word, 1),
    }
}

/// What a job writes beside its text, and whether it takes the places in the units, and no certificate.
fn kind_of(job: &str) -> (Kind, bool) {
    match job {
        "plan" | "strong" | "resume" => (Kind::Search, false),
        "capture" => (Kind::Capture, true),
        "captured" => (Kind::Capture, false),
        "frames" | "play" => (Kind::Plain, true),
        _ => (Kind::Plain, false),
    }
}

/// Whether a job searches for a plan, in turned time or by the strong rules.
pub(crate) fn is_plan(job: &str) -> bool {
    matches!(job, "plan" | "strong")
}

/// The row that a text is; a text that is none is answered otherwise.
pub(crate) fn row_of(text: &str) -> Row<'_> {
    let (head, rest) = text.split_once('^').unwrap_or((text, ""));
    let (expected, rest) = rest.split_once('^').unwrap_or(("a row", ""));
    let (units, cert) = rest.split_once('^').unwrap_or((rest, ""));
    let (job, workers) = job_and_workers(head);
    let (kind, is_alone) = kind_of(job);
    let written = if is_plan(job) { 3 } else { 5 };
    let calls = Calls {
        units: number(head, 2),
        cert: number(head, 3),
        text: number(head, 4),
        out: number(head, written),
    };
    Row {
        job,
        kind,
        is_alone,
        workers,
        nodes: number(head, 1),
        calls,
        expected,
        units,
        cert,
    }
}

/// Whether a text is as expected, where one `*` stands for any text.
pub(crate) fn is_as(text: &str, expected: &str) -> bool {
    let Some((front, back)) = expected.split_once('*') else {
        return text == expected;
    };
    match text.strip_prefix(front) {
        Some(rest) => rest.ends_with(back),
        None => false,
    }
}
