//! What a command line says, done with the paths that it names.

ghost use Rattle.ec_cli_command.specs.Words.{JobFits, job_of};

use super::add_bytes;
use super::late::{add_calls, add_failed, add_file};
use super::threes::Threes;
use super::words::asked;
use ec_cli_command::Line;
use ec_cli_files::Folders;
use ec_cli_run::do_line;
use ec_cli_words::Asked;
use ec_text_builder::Draft;
use ec_wire::Io;
use ec_workers::Quiet;
use std::alloc::AllocError;
use std::io::Read;
use std::rt::Files;
use std::sync::Wait;
use std::thread::Threads;
use std::{fs, io};
use test_streams::Slow;

/// The units that always meet in one of six ticks.
const MEETING: &str =
    "tick_ns = 1000000\nslots = 1\n[[unit]]\nname = \"a\"\nperiod = 2\n[[unit.slave]]\nstation = 1001\nout_bytes = 200\nin_bytes = 0\n[[unit]]\nname = \"b\"\nperiod = 3\n[[unit.slave]]\nstation = 1002\nout_bytes = 200\nin_bytes = 0\n";

/// The same units, with the places of the certificate's plan.
const PLACED: &str =
    "tick_ns = 1000000\nslots = 1\n[[unit]]\nname = \"a\"\nperiod = 2\nphase = 0\nslot = 0\n[[unit.slave]]\nstation = 1001\nout_bytes = 200\nin_bytes = 0\n[[unit]]\nname = \"b\"\nperiod = 3\nphase = 0\nslot = 0\n[[unit.slave]]\nstation = 1002\nout_bytes = 200\nin_bytes = 0\n";

/// The certificate of a whole search.
const CERT: &str =
    "ecplan 2\nslots 1\nunit a 200 2\nunit b 200 3\norder 0 1\nvalue 464\nplace 0 0\nplace 0 0\ntree\nS 1\nS 3\nT 0\nT 4\nT 2\nend\n";

/// What a search of four nodes writes: the last leaf is open.
const CUT_CERT: &str =
    "ecplan 3\nslots 1\nunit a 200 2\nunit b 200 3\norder 0 1\nvalue 464\nplace 0 0\nplace 0 0\nlevel 464\ntree\nS 1\nS 3\nT 0\nT 4\nO\nend\n";

/// A reader of bytes that counts its calls.
#[derive(Drop)]
struct Counted<'a> {
    rest: &'a [u8],
    calls: u32,
}

impl<'a> Read for Counted<'a> {
    fn read(&mut self, buf: &mut [u8]) -> io::Result<usize> {
        self.calls = self.calls.saturating_add(1);
        self.rest.read(buf)
    }
}

/// Adds what is written for a line and these units, with the status, and how often the units were read.
fn add_done<R: Folders + AllocGlobal + Threads + Wait + Sync>(
    out: &mut Draft,
    rt: &R,
    line: &Line,
    units: &str,
)
    requires { JobFits (job_of line.now) }
{
    let mut bytes = Counted {
        rest: units.as_bytes(),
        calls: 0,
    };
    let mut held = Slow {
        held: Vec::new(rt.alloc()),
        calls: 999,
    };
    let mut units = Io::new(&mut bytes);
    let mut text = Io::new(&mut held);
    let report = do_line(rt, rt, rt.alloc(), line, &mut units, &mut text, &Quiet);
    drop(units);
    drop(text);
    add_bytes(out, held.held.as_slice());
    out.add(format_args!("status {}, {} reads\n", report.status.code, bytes.calls));
}

/// Adds what a line of words is answered with, for these units.
fn add_answer<R: Folders + AllocGlobal + Threads + Wait + Sync>(
    out: &mut Draft,
    rt: &R,
    line: &str,
    units: &str,
) {
    match asked(rt.alloc(), line) {
        Ok(Asked::Line(words)) => add_done(out, rt, &words.line, units),
        Ok(Asked::Merge(_)) => out.add("no line\n"),
        Err(_) => out.add("no line\n"),
    }
}

/// Adds what a line of words is answered with, for the units that always meet; behind `placed` for them with their places.
fn add_line<R: Folders + AllocGlobal + Threads + Wait + Sync>(out: &mut Draft, rt: &R, line: &str) {
    match line.strip_prefix("placed ") {
        Some(line) => add_answer(out, rt, line, PLACED),
        None => add_answer(out, rt, line, MEETING),
    }
}

/// What lines of words, parted by ` = `, are answered with.
fn answers_to<R: Folders + AllocGlobal + Threads + Wait + Sync>(
    rt: &R,
    lines: &str,
) -> Result<String, AllocError> {
    let mut out = Draft::new(rt.alloc());
    for line in lines.split(" = ") {
        add_line(&mut out, rt, line);
    }
    out.finish()
}

/// Tells whether a text is twice the same answer, of a job that is done; else the text.
fn add_same(out: &mut Draft, text: &str) {
    let (one, other) = text.as_bytes().split_at(text.len() / 2);
    if one == other && one.ends_with(b"\nstatus 0, 2 reads\n") {
        out.add("the same, and done\n");
    } else {
        out.add(text);
    }
}

/// Tells whether two lines of words have the same answer.
fn add_alike<R: Folders + AllocGlobal + Threads + Wait + Sync>(
    out: &mut Draft,
    rt: &R,
    lines: &str,
) {
    match answers_to(rt, lines) {
        Ok(text) => add_same(out, text.as_str()),
        Err(AllocError) => out.give_up(),
    }
}

/// Tells whether two files hold the same, and how many bytes.
fn add_equal_bytes(out: &mut Draft, one: &[u8], other: &[u8]) {
    if one == other {
        out.add(format_args!("the same {} bytes\n", one.len()));
    } else {
        out.add("not the same bytes\n");
    }
}

/// Reads two files, and tells whether they hold the same.
fn add_equal<R: Files + AllocGlobal>(out: &mut Draft, rt: &R, paths: &str) {
    let (one, other) = paths.split_once(' ').unwrap_or((paths, ""));
    match (fs::read(rt, one), fs::read(rt, other)) {
        (Ok(one), Ok(other)) => add_equal_bytes(out, one.as_slice(), other.as_slice()),
        _ => out.add("no files\n"),
    }
}

/// Writes a certificate to a path.
fn write<R: Files>(out: &mut Draft, rt: &R, cert: &str, path: &str) {
    if fs::write(rt, path, cert).is_err() {
        out.add("not written\n");
    }
}

/// Removes a file.
fn remove<R: Files>(out: &mut Draft, rt: &R, path: &str) {
    if fs::remove_file(rt, path).is_err() {
        out.add("not removed\n");
    }
}

/// Adds a step and what comes of it: what a line of words is answered with, or what one of the words below does.
fn add_step<R: Folders + AllocGlobal + Threads + Wait + Sync>(out: &mut Draft, rt: &R, step: &str) {
    out.add(format_args!("> {step}\n"));
    let (word, rest) = step.split_once(' ').unwrap_or((step, ""));
    match word {
        "write" => write(out, rt, CERT, rest),
        "write-cut" => write(out, rt, CUT_CERT, rest),
        "show" => add_file(out, rt, rest),
        "remove" => remove(out, rt, rest),
        "alike" => add_alike(out, rt, rest),
        "equal" => add_equal(out, rt, rest),
        "late" => add_calls(out, rt, rt, rest),
        "threes" => add_calls(out, rt, &Threes { files: rt }, rest),
        "fails" => add_failed(out, rt, rest),
        _ => add_line(out, rt, step),
    }
}

/// A text whose lines behind `> ` are steps, with what comes of each below it: the same steps with what comes of them now.
fn told_again<R: Folders + AllocGlobal + Threads + Wait + Sync>(
    rt: &R,
    text: &str,
) -> Result<String, AllocError> {
    let mut out = Draft::new(rt.alloc());
    for line in text.lines() {
        match line.strip_prefix("> ") {
            Some(step) => add_step(&mut out, rt, step),
            None => {}
        }
    }
    out.finish()
}

/// Plans and resumed searches with their paths; a certificate that takes the place of the one that its search began with;
/// paths that can't be opened; lines without paths; a check, a play, a cost and frames with the path of a certificate; capture
/// files of its plan and of the same places in the units. Then files that are made beside their paths: what is there stands
/// until the whole file takes its place, one takes three bytes a call, and one can't be opened.
const LINES: &str = "\
> plan --nodes 4 --out /tmp/ecplan-plan-out.cert
unproved 464
cut budget
at least 464
unit a phase 0 slot 0
unit b phase 0 slot 0
status 2, 2 reads
> show /tmp/ecplan-plan-out.cert
ecplan 3
slots 1
unit a 200 2
unit b 200 3
order 0 1
value 464
place 0 0
place 0 0
level 464
tree
S 1
S 3
T 0
T 4
O
end
> plan --nodes 5 --out /tmp/ecplan-plan-out.cert
optimal 464
unit a phase 0 slot 0
unit b phase 0 slot 0
status 0, 2 reads
> show /tmp/ecplan-plan-out.cert
ecplan 2
slots 1
unit a 200 2
unit b 200 3
order 0 1
value 464
place 0 0
place 0 0
tree
S 1
S 3
T 0
T 4
T 2
end
> remove /tmp/ecplan-plan-out.cert
> write-cut /tmp/ecplan-resume-in.cert
> check --cert /tmp/ecplan-resume-in.cert
at least 464
status 2, 2 reads
> resume --cert /tmp/ecplan-resume-in.cert
optimal 464
unit a phase 0 slot 0
unit b phase 0 slot 0
status 0, 2 reads
> resume --nodes 1 --cert /tmp/ecplan-resume-in.cert --out /tmp/ecplan-resume-in.cert
optimal 464
unit a phase 0 slot 0
unit b phase 0 slot 0
status 0, 2 reads
> resume --cert /tmp/ecplan-resume-in.cert
optimal 464
unit a phase 0 slot 0
unit b phase 0 slot 0
status 0, 2 reads
> show /tmp/ecplan-resume-in.cert
ecplan 2
slots 1
unit a 200 2
unit b 200 3
order 0 1
value 464
place 0 0
place 0 0
tree
S 1
S 3
T 0
T 4
T 2
end
> remove /tmp/ecplan-resume-in.cert
> plan --out /tmp/no-such-directory-of-ecplan/c
refused E4 Write
status 4, 2 reads
> plan --nodes 4 --out /tmp/no-such-directory-of-ecplan/c
refused E4 Write
status 4, 2 reads
> check --cert /tmp/no-such-directory-of-ecplan/c
refused E3 Read
status 4, 0 reads
> frames --cert /tmp/no-such-directory-of-ecplan/c
refused E3 Read
status 4, 0 reads
> play --cert /tmp/no-such-directory-of-ecplan/c
refused E3 Read
status 4, 0 reads
> cost --cert /tmp/no-such-directory-of-ecplan/c
refused E3 Read
status 4, 0 reads
> resume --cert /tmp/no-such-directory-of-ecplan/c --out /tmp/no-such-directory-of-ecplan/d
refused E3 Read
status 4, 0 reads
> play
refused E2 NoPlace 0
status 3, 2 reads
> cost
refused E2 NoPlace 0
status 3, 2 reads
> plan
optimal 464
unit a phase 0 slot 0
unit b phase 0 slot 0
status 0, 2 reads
> write /tmp/ecplan-check-in.cert
> check --cert /tmp/ecplan-check-in.cert
least 464
status 0, 2 reads
> play --cert /tmp/ecplan-check-in.cert
start 5
tick 0 frames 1 bytes 464 counters 2,2
tick 1 frames 0 bytes 0 counters -
tick 2 frames 1 bytes 252 counters 2
tick 3 frames 1 bytes 252 counters 2
tick 4 frames 1 bytes 252 counters 2
tick 5 frames 0 bytes 0 counters -
done
status 0, 2 reads
> cost --cert /tmp/ecplan-check-in.cert
hyperperiod 6
tick 0 bytes 464 ns 37120
tick 1 bytes 0 ns 0
tick 2 bytes 252 ns 20160
tick 3 bytes 252 ns 20160
tick 4 bytes 252 ns 20160
tick 5 bytes 0 ns 0
busiest 464 at 0
fits yes
status 0, 2 reads
> alike frames --cert /tmp/ecplan-check-in.cert = frames --cert /tmp/ecplan-check-in.cert --pcap /tmp/ecplan-capture-out.pcap
the same, and done
> alike frames --cert /tmp/ecplan-check-in.cert = placed frames --pcap /tmp/ecplan-capture-own.pcap
the same, and done
> equal /tmp/ecplan-capture-out.pcap /tmp/ecplan-capture-own.pcap
the same 1212 bytes
> remove /tmp/ecplan-capture-out.pcap
> remove /tmp/ecplan-capture-own.pcap
> remove /tmp/ecplan-check-in.cert
> late /tmp/ecplan-late.cert flush|write|whole ecplan 1;|whole slots 1;|flush
[no file]
flush true[no file]
write 0[no file]
whole true[no file]
whole true[no file]
flush true[no file]
settle true[ecplan 1;slots 1;]
> write /tmp/ecplan-late.cert
> late /tmp/ecplan-late.cert flush
[ecplan 2
slots 1
unit a 200 2
unit b 200 3
order 0 1
value 464
place 0 0
place 0 0
tree
S 1
S 3
T 0
T 4
T 2
end
]
flush true[ecplan 2
slots 1
unit a 200 2
unit b 200 3
order 0 1
value 464
place 0 0
place 0 0
tree
S 1
S 3
T 0
T 4
T 2
end
]
settle true[ecplan 2
slots 1
unit a 200 2
unit b 200 3
order 0 1
value 464
place 0 0
place 0 0
tree
S 1
S 3
T 0
T 4
T 2
end
]
> late /tmp/ecplan-late.cert whole ecplan 1;
[ecplan 2
slots 1
unit a 200 2
unit b 200 3
order 0 1
value 464
place 0 0
place 0 0
tree
S 1
S 3
T 0
T 4
T 2
end
]
whole true[ecplan 2
slots 1
unit a 200 2
unit b 200 3
order 0 1
value 464
place 0 0
place 0 0
tree
S 1
S 3
T 0
T 4
T 2
end
]
settle true[ecplan 1;]
> remove /tmp/ecplan-late.cert
> threes /tmp/ecplan-late.cert write ecplan 1;|write lan 1;|write  1;|whole slots 1;unit a 200 2;
[no file]
write 3[no file]
write 3[no file]
write 3[no file]
whole true[no file]
settle true[ecplan 1;slots 1;unit a 200 2;]
> remove /tmp/ecplan-late.cert
> fails /tmp/no-such-directory-of-ecplan/out.cert
a failed write
";

#[test]
fn lines_and_their_answers(rt: HostRuntime) -> Result<(), AllocError> {
    let _ = fs::remove_file(&rt, "/tmp/ecplan-late.cert");
    let told = told_again(&rt, LINES)?;
    assert_eq!(rt; told.as_str(), LINES);
    Ok(())
}
