//! The command line.

ghost use Rattle.std.specs.Prelude.{IfOk};
ghost use Rattle.ec_cli_words.specs.Merges.{AskedFits};

use ec_cert::Part;
use ec_cli_command::{Job, Line};
use ec_cli_words::{Asked, LineFault, Merging, Words, read_words};
use ec_text_builder::Draft;
use std::alloc::{AllocError, Global};

/// Adds words as the command line gives them, out of a text with one space between two words.
fn add_words(words: &mut Vec<String>, alloc: Global, text: &str) -> Result<(), AllocError> {
    if text.is_empty() {
        return Ok(());
    }
    for word in text.split(' ') {
        words.push(String::from_str(alloc, word)?)?;
    }
    Ok(())
}

/// What the words of a text ask for.
pub(super) fn asked(alloc: Global, text: &str) -> Result<Asked, LineFault>
    ensures { IfOk result AskedFits }
{
    let mut words = Vec::new(alloc);
    match add_words(&mut words, alloc, text) {
        Ok(()) => read_words(alloc, &words),
        Err(AllocError) => Err(LineFault::Memory),
    }
}

/// A path of a line, or a dash.
fn path_of(path: Option<&String>) -> &str {
    match path {
        Some(path) => path.as_str(),
        None => "-",
    }
}

/// Adds the part of a resumed search, where there are several.
fn add_part(out: &mut Draft, part: Part) {
    let Part { index, count } = part;
    if count != 1 {
        out.add(format_args!(" part {index}/{count}"));
    }
}

/// Adds a job, with its numbers.
fn add_job(out: &mut Draft, job: Job) {
    match job {
        Job::Cost => out.add("<cost"),
        Job::Plan {
            workers,
            nodes,
            strong,
            keep,
        } => {
            let how = if strong { " strong" } else { "" };
            let from = if keep { " keep" } else { "" };
            out.add(format_args!("<plan {workers} {nodes}{how}{from}"));
        }
        Job::Resume {
            workers,
            nodes,
            part,
        } => {
            out.add(format_args!("<resume {workers} {nodes}"));
            add_part(out, part);
        }
        Job::Check => out.add("<check"),
        Job::Frames => out.add("<frames"),
        Job::Capture => out.add("<capture"),
        Job::Play => out.add("<play"),
        Job::PlanCost => out.add("<plan cost"),
    }
}

/// The path of a picture and that of the units with their places, where a line has them.
fn after(line: &Line) -> (Option<&String>, Option<&String>) {
    match line {
        Line::Cost { svg, .. } => (svg.as_ref(), None),
        Line::Plan { places, .. } | Line::Resume { places, .. } => (None, places.as_ref()),
        _ => (None, None),
    }
}

/// Adds after how many minutes a search ends, where time ends it.
fn add_minutes(out: &mut Draft, line: &Line) {
    let (Line::Plan { effort, .. } | Line::Resume { effort, .. }) = line else {
        return;
    };
    if let Some(minutes) = effort.minutes {
        out.add(format_args!(" minutes {minutes}"));
    }
}

/// Adds the line of some words, which is its job, the path of a certificate to read and that of a file to write. Behind it
/// stand the paths of the units and of the picture, where one is given, that of the units with their places and whether the
/// progress is told, where either is asked for, and after how many minutes a search ends.
fn add_line(out: &mut Draft, words: &Words) {
    let line = &words.line;
    let (picture, places) = after(line);
    add_job(out, line.job());
    out.add(format_args!(" {} {}>", path_of(line.cert()), path_of(line.out())));
    if words.units.is_some() || picture.is_some() {
        out.add(format_args!(" {} {}", path_of(words.units.as_ref()), path_of(picture)));
    }
    if places.is_some() || words.progress {
        out.add(format_args!(" places {} {}", path_of(places), words.progress));
    }
    add_minutes(out, line);
}

/// Adds the certificates that are to be merged, the path of the merged one, and that of the units.
fn add_merging(out: &mut Draft, merging: &Merging) {
    out.add("<merge");
    for cert in merging.certs.as_slice() {
        out.add(format_args!(" {}", cert.as_str()));
    }
    out.add(format_args!(
        " {}> {}",
        path_of(merging.out.as_ref()),
        path_of(merging.units.as_ref())
    ));
}

/// Adds what the words of a text are answered with: their line, or the text of their refusal.
fn add_answer(out: &mut Draft, alloc: Global, text: &str) {
    match asked(alloc, text) {
        Ok(Asked::Line(words)) => add_line(out, &words),
        Ok(Asked::Merge(merging)) => add_merging(out, &merging),
        Err(LineFault::Refused { text }) => out.add(format_args!("<{text}>")),
        Err(LineFault::Memory) => out.give_up(),
    }
}

/// What the words of a text are answered with.
fn answer_to(alloc: Global, text: &str) -> Result<String, AllocError> {
    let mut out = Draft::new(alloc);
    add_answer(&mut out, alloc, text);
    out.finish()
}

/// Adds a row of which this isn't the answer.
fn add_unlike(out: &mut Draft, row: &str, part: &str, answer: &str) {
    if !answer.contains(part) {
        out.add(format_args!("{row} : {answer}\n"));
    }
}

/// Adds a row whose words are not answered so. In it stand the words and, after ` : `, a part of the answer.
fn add_wrong(out: &mut Draft, alloc: Global, row: &str) {
    let (words, part) = row.split_once(" : ").unwrap_or((row, "no row"));
    match answer_to(alloc, words) {
        Ok(answer) => add_unlike(out, row, part, answer.as_str()),
        Err(AllocError) => out.give_up(),
    }
}

/// Adds the rows of a table, separated by `|`, whose words are not answered so.
fn add_wrong_rows(out: &mut Draft, alloc: Global, table: &str) {
    for row in table.split('|') {
        add_wrong(out, alloc, row);
    }
}

/// The rows of some tables whose words are not answered so.
fn wrong_rows(alloc: Global, tables: &[&str]) -> Result<String, AllocError> {
    let mut out = Draft::new(alloc);
    for table in tables {
        add_wrong_rows(&mut out, alloc, table);
    }
    out.finish()
}

/// Words that are a command, with their line.
const LINES: &str = "cost : <cost - ->|\
    check --cert line.cert : <check line.cert ->|\
    check --cert=line.cert : <check line.cert ->|\
    frames : <frames - ->|\
    frames --cert line.cert : <frames line.cert ->|\
    frames --pcap line.pcap : <capture - line.pcap>|\
    frames --pcap=p --cert q : <capture q p>|\
    frames --cert=p --pcap=q : <capture p q>|\
    frames --header h --map=m --report r : <frames - ->|\
    frames --report r --cert q --pcap=p : <capture q p>|\
    play : <play - ->|\
    play --cert line.cert : <play line.cert ->|\
    play --pcap p : <play - ->|\
    play --cert=p q : <play p -> q -|\
    play - : <play - ->|\
    plan : <plan 1 1000000 - ->|\
    plan --workers 1 : <plan 1 1000000 - ->|\
    plan --strong : <plan 1 1000000 strong - ->|\
    plan --keep : <plan 1 1000000 keep - ->|\
    plan --keep --strong : <plan 1 1000000 strong keep - ->|\
    plan --out p --strong --nodes 8 : <plan 1 8 strong - p>|\
    plan --workers 16 : <plan 16 1000000 - ->|\
    plan --nodes 1 : <plan 1 1 - ->|\
    plan --nodes=5 : <plan 1 5 - ->|\
    plan --nodes 10000000 : <plan 1 10000000 - ->|\
    plan --out line.cert : <plan 1 1000000 - line.cert>|\
    plan --workers 1 --nodes 8 --out p : <plan 1 8 - p>|\
    plan --out p --nodes 8 --workers 1 : <plan 1 8 - p>|\
    plan --nodes 8 --out=p --workers=1 : <plan 1 8 - p>|\
    cost line.toml : <cost - -> line.toml -|\
    cost - : <cost - ->|\
    cost --svg p.svg : <cost - -> - p.svg|\
    cost --svg=p.svg line.toml : <cost - -> line.toml p.svg|\
    cost line.toml --svg p.svg : <cost - -> line.toml p.svg|\
    cost --svg - - : <cost - -> - -|\
    cost cost : <cost - -> cost -|\
    cost --cert p : <plan cost p ->|\
    cost --cert=p q : <plan cost p -> q -|\
    cost --svg p --cert q r : <plan cost q -> r p|\
    plan --places p : <plan 1 1000000 - -> places p false|\
    plan --progress : <plan 1 1000000 - -> places - true|\
    plan --out p --places q --progress r : <plan 1 1000000 - p> r - places q true|\
    plan --minutes 1 : <plan 1 10000000 - -> minutes 1|\
    plan --minutes 10000 --nodes 7 : <plan 1 7 - -> minutes 10000|\
    resume --minutes=60 --cert p --out q --workers 3 : <resume 3 10000000 p q> minutes 60|\
    resume --places=p --cert q : <resume 1 1000000 q -> places p false|\
    resume --cert p --progress - : <resume 1 1000000 p -> places - true|\
    plan line.toml : <plan 1 1000000 - -> line.toml -|\
    plan 5 : <plan 1 1000000 - -> 5 -|\
    plan --out p --nodes 8 line.toml : <plan 1 8 - p> line.toml -|\
    plan - --nodes 8 : <plan 1 8 - ->|\
    check p --cert q : <check q -> p -|\
    check --cert q - : <check q ->|\
    frames p : <frames - -> p -|\
    frames --cert q p : <frames q -> p -|\
    frames --pcap p q : <capture - p> q -|\
    resume --cert p : <resume 1 1000000 p ->|\
    resume --cert=p --out=q : <resume 1 1000000 p q>|\
    resume --cert p --out p : <resume 1 1000000 p p>|\
    resume --workers 16 --nodes 10000000 --cert p : <resume 16 10000000 p ->|\
    resume --out q --nodes 8 --cert p --workers 2 r : <resume 2 8 p q> r -|\
    resume r --cert p : <resume 1 1000000 p -> r -|\
    resume --cert p --part 3/8 : <resume 1 1000000 part 3/8 p ->|\
    resume --part=8/8 --cert p --workers 2 : <resume 2 1000000 part 0/8 p ->|\
    resume --cert p --part 1/1 : <resume 1 1000000 p ->|\
    resume --cert p --part 9999/10000 --nodes 5 : <resume 1 5 part 9999/10000 p ->|\
    merge --cert p : <merge p -> -|\
    merge --cert p --cert q --cert p : <merge p q p -> -|\
    merge --cert=q --out=r s --cert p : <merge q p r> s|\
    merge --cert p --out p - : <merge p p> -|\
    resume --cert p - : <resume 1 1000000 p ->";

/// Words that are no command, with a part of what is told; of two the whole text.
const REFUSED: &str = " : requires a subcommand|\
    costs : unrecognized subcommand 'costs'|\
    resumes : unrecognized subcommand 'resumes'|\
    resume : --cert <PATH>|\
    resume --nodes 5 : --cert <PATH>|\
    resume p --out q : --cert <PATH>|\
    resume --cert : a value is required for '--cert <PATH>'|\
    resume --cert p --cert q : '--cert <PATH>' cannot be used multiple times|\
    resume --cert p --out : a value is required for '--out <PATH>'|\
    resume --cert p --out q --out q : '--out <PATH>' cannot be used multiple times|\
    resume --cert p --workers 0 : invalid value '0' for '--workers <N>'|\
    resume --cert p --workers 17 : invalid value '17' for '--workers <N>'|\
    resume --cert p --nodes 0 : invalid value '0' for '--nodes <N>'|\
    resume --cert p --nodes 10000001 : invalid value '10000001' for '--nodes <N>'|\
    resume --cert p --pcap q : unexpected argument '--pcap'|\
    resume --cert p --svg q : unexpected argument '--svg'|\
    resume --cert p q r : tip: the path of each certificate has --cert before it|\
    resume --cert p --part : a value is required for '--part <I/N>'|\
    resume --cert p --part 1/2 --part 1/2 : '--part <I/N>' cannot be used multiple times|\
    resume --cert p --part 0/3 : <error: --part is I/N with 1 <= I <= N <= 10000, as 3/8\n>|\
    resume --cert p --part 4/3 : <error: --part is I/N with|\
    resume --cert p --part 1/0 : <error: --part is I/N with|\
    resume --cert p --part a/b : <error: --part is I/N with|\
    resume --cert p --part 1/10001 : <error: --part is I/N with|\
    resume --cert p --part 1/65537 : <error: --part is I/N with|\
    resume --cert p --part 65537/3 : <error: --part is I/N with|\
    resume --cert p --part 1 : <error: --part is I/N with|\
    resume --cert p --part / : <error: --part is I/N with|\
    resume --cert p --part 1/ : <error: --part is I/N with|\
    resume --cert p --part 1/2/3 : <error: --part is I/N with|\
    resume --cert p --part= : <error: --part is I/N with|\
    resume --part 1/2 : --cert <PATH>|\
    plan --part 1/2 : unexpected argument '--part'|\
    check --cert p --part 1/2 : unexpected argument '--part'|\
    merge : --cert <PATH>|\
    merge p q : --cert <PATH>|\
    merge --cert : a value is required for '--cert <PATH>'|\
    merge --cert p --cert : a value is required for '--cert <PATH>'|\
    merge --cert p --out q --out q : '--out <PATH>' cannot be used multiple times|\
    merge --cert p q r : unexpected argument 'r'|\
    merge --cert p --nodes 5 : unexpected argument '--nodes'|\
    merge --cert p --places q : unexpected argument '--places'|\
    merge --cert p --part 1/2 : unexpected argument '--part'|\
    frames --cert : a value is required for '--cert <PATH>'|\
    frames --out p : unexpected argument '--out'|\
    frames --pcap : a value is required for '--pcap <PATH>'|\
    frames --pcap p --pcap q : '--pcap <PATH>' cannot be used multiple times|\
    frames --header : a value is required for '--header <PATH>'|\
    frames --map p --map q : '--map <PATH>' cannot be used multiple times|\
    cost --report p : unexpected argument '--report'|\
    plan --header p : unexpected argument '--header'|\
    cost --pcap p : unexpected argument '--pcap'|\
    check --cert p --pcap q : unexpected argument '--pcap'|\
    plan --pcap p : unexpected argument '--pcap'|\
    frames p q : unexpected argument 'q'|\
    play p q : unexpected argument 'q'|\
    play --cert : a value is required for '--cert <PATH>'|\
    play --cert p --cert q : '--cert <PATH>' cannot be used multiple times|\
    play --pcap p --pcap q : '--pcap <PATH>' cannot be used multiple times|\
    frames --lose 1 : unexpected argument '--lose'|\
    check --cert p --strong : unexpected argument '--strong'|\
    plan --strong --strong : '--strong' cannot be used multiple times|\
    play --workers 2 : unexpected argument '--workers'|\
    frames --svg p : unexpected argument '--svg'|\
    cost p q : unexpected argument 'q'|\
    cost --svg : a value is required for '--svg <PATH>'|\
    cost --svg p --svg q : '--svg <PATH>' cannot be used multiple times|\
    cost --out p : unexpected argument '--out'|\
    cost --cert : a value is required for '--cert <PATH>'|\
    cost --cert p --cert q : '--cert <PATH>' cannot be used multiple times|\
    cost --places p : unexpected argument '--places'|\
    cost --progress : unexpected argument '--progress'|\
    check --cert p --places q : unexpected argument '--places'|\
    check --cert p --progress : unexpected argument '--progress'|\
    frames --places p : unexpected argument '--places'|\
    play --progress : unexpected argument '--progress'|\
    plan --places : a value is required for '--places <PATH>'|\
    plan --places p --places q : '--places <PATH>' cannot be used multiple times|\
    plan --progress=yes : unexpected value 'yes' for '--progress'|\
    plan --progress --progress : '--progress' cannot be used multiple times|\
    check : --cert <PATH>|\
    check --cert : a value is required for '--cert <PATH>'|\
    check p --cert : a value is required for '--cert <PATH>'|\
    check p : --cert <PATH>|\
    check --cert p more again : unexpected argument 'again'|\
    check --cert p --out q : unexpected argument '--out'|\
    check --cert p --cert p : '--cert <PATH>' cannot be used multiple times|\
    plan --cert p : unexpected argument '--cert'|\
    plan --workers 0 : invalid value '0' for '--workers <N>'|\
    plan --workers 17 : invalid value '17' for '--workers <N>'|\
    plan --workers 1 --workers 1 : '--workers <N>' cannot be used multiple times|\
    plan --nodes 0 : invalid value '0' for '--nodes <N>'|\
    plan --nodes 10000001 : invalid value '10000001' for '--nodes <N>'|\
    plan --nodes 4294967297 : invalid value '4294967297' for '--nodes <N>'|\
    plan --nodes -1 : unexpected argument '-1'|\
    plan --nodes x : invalid value 'x' for '--nodes <N>'|\
    plan --nodes 5 --nodes 5 : '--nodes <N>' cannot be used multiple times|\
    plan --minutes 0 : invalid value '0' for '--minutes <M>'|\
    plan --minutes 10001 : invalid value '10001' for '--minutes <M>'|\
    check --cert p --minutes 5 : unexpected argument '--minutes'|\
    plan --out : a value is required for '--out <PATH>'|\
    plan --out p --out q : '--out <PATH>' cannot be used multiple times|\
    plan 5 6 : unexpected argument '6'|\
    plan --svg p : unexpected argument '--svg'|\
    plan --workers 17 : <error: invalid value '17' for '--workers <N>': 17 is not in 1..=16\n\nFor more information, try '--help'.\n>|\
    plan --time 5 : <error: unexpected argument '--time' found\n\n  tip: --minutes <M> is an option of plan and resume\n\nUsage: ecplan plan [OPTIONS] [FILE]\n\nFor more information, try '--help'.\n>|\
    --nodes 5 plan : tip: --nodes <N> is an option of plan and resume: it stands behind the command\n|\
    plan -j4 : tip: --workers <N> is an option of plan and resume\n|\
    plan -o p : tip: --out <PATH> is an option of plan, resume and merge\n|\
    check --cert p --out q : tip: --out <PATH> is an option of plan, resume and merge\n|\
    plan --cert p : tip: --cert <PATH> is an option of cost, resume, merge, check, frames and play\n|\
    plan --out p --part 1/2 : tip: --part <I/N> is an option of resume\n|\
    check --cert p --strong : tip: --strong is an option of plan\n|\
    frames --csv p : tip: --map <PATH> is an option of frames\n|\
    play --lost 1001 : <error: unexpected argument '--lost' found\n\n  tip: --lose <STATION> is an option of play\n\nUsage: ecplan play --lose <STATION> [FILE]\n\nFor more information, try '--help'.\n>|\
    play --lsoe 1001 : tip: a similar argument exists: '--lose'|\
    play --map p : found\n\n  tip: --map <PATH> is an option of frames\n\nUsage|\
    frames --threads 2 : found\n\n  tip: --workers <N> is an option of plan and resume\n\nUsage|\
    continue --cert p : 'continue'\n\n  tip: resume does that here\n\nUsage|\
    plan.toml : 'plan.toml'\n\n  tip: a command stands before the path, as ecplan plan FILE\n\nUsage|\
    resume --cert p q 5 : tip: a part is one word, as --part 1/3, and nodes stand behind --nodes\n|\
    play --verbose : tip: --progress is an option of plan and resume\n|\
    cost -v : tip: ecplan --version tells the version\n|\
    plan --sideways : found\n\nUsage: ecplan plan [OPTIONS] [FILE]\n|\
    resume --part 1 of 3 --cert p : tip: a part is one word, as --part 1/3, and nodes stand behind --nodes\n|\
    verify --cert p q : tip: check does that here\n|\
    version : tip: --version does that here\n|\
    lines/first.toml : tip: a command stands before the path, as ecplan plan FILE\n|\
    cst : tip: a similar subcommand exists: 'cost'|\
    walk : <error: unrecognized subcommand 'walk'\n\nUsage: ecplan <COMMAND>\n\nFor more information, try '--help'.\n>";

/// Words that ask for help, with a part of it.
const HELP: &str = "--help : Usage: ecplan <COMMAND>|\
    -h : Usage: ecplan <COMMAND>|\
    help : Usage: ecplan <COMMAND>|\
    --help : Finds a plan whose busiest tick is least|\
    --version : <ecplan 0.4.0\n>|\
    -V : <ecplan 0.4.0\n>|\
    --help : The units are read from FILE, or from standard input|\
    --help : 3 refused input|\
    --help : FORMATS.md describes|\
    --help : share/doc/ecplan/ of an installation|\
    cost --help : Usage: ecplan cost [OPTIONS] [FILE]|\
    cost --help : The certificate whose plan is told|\
    plan --help : Where to write the unit text again, with the places of the plan|\
    resume --help : Tell the progress on standard error also where that is no terminal|\
    plan --help : Usage: ecplan plan [OPTIONS] [FILE]|\
    plan --help : without it 1000000, or with --minutes 10000000, and with --out no more than its certificate has room for|\
    plan --workers 1 --help : nodes of the search tree|\
    plan --help : How many workers search, 1 to 16|\
    check --help : Usage: ecplan check --cert <PATH> [FILE]|\
    resume --help : Usage: ecplan resume [OPTIONS] --cert <PATH> [FILE]|\
    resume --help : without it 1000000, or with --minutes 10000000, and with --out no more than its certificate has room for|\
    resume --help : Go on only with the open leaves of part I of N|\
    merge --help : Usage: ecplan merge [OPTIONS] --cert <PATH> [FILE]|\
    merge --help : Where to write the merged certificate|\
    --help : Merges certificates that come from one certificate|\
    frames --help : Usage: ecplan frames [OPTIONS] [FILE]|\
    frames --help : Where to write the frames as a capture file|\
    play --help : Usage: ecplan play [OPTIONS] [FILE]|\
    play --help : The certificate whose plan is played";

/// A row that is answered otherwise.
const WRONG: &str = "cost : <cost p ->";

/// The rows are answered as they say, and a wrong one is told.
#[test]
fn words_and_their_answers(rt: HostRuntime) -> Result<(), AllocError> {
    let wrong = wrong_rows(rt.alloc(), &[LINES, REFUSED, HELP, WRONG])?;
    assert_eq!(rt; wrong.as_str(), "cost : <cost p -> : <cost - ->\n");
    Ok(())
}
