//! The commands and their options.

use clap::{Arg, ArgAction, Command, value_parser};
use std::alloc::{AllocError, Global};

/// The commands in the order of the help, and what it says of each.
pub(crate) const COMMANDS: [(&str, &str); 7] = [
    ("cost", "Tells what each tick costs"),
    (
        "plan",
        "Finds a plan whose busiest tick is least, and its certificate",
    ),
    (
        "resume",
        "Goes on with a search that ended without a proof, from its certificate",
    ),
    (
        "merge",
        "Merges certificates that come from one certificate, and tells what they show together",
    ),
    ("check", "Checks a certificate for the units"),
    (
        "frames",
        "Tells the FMMU records of the slaves and the frames of each tick",
    ),
    (
        "play",
        "Plays a plan through modelled slaves: start-up, and each tick's frames and counters",
    ),
];

/// An option, or the path of the units: its name, what the help calls its value, the commands that have it, and what the help
/// says of it. A flag has no value.
pub(crate) type Row = (
    &'static str,
    &'static str,
    &'static [&'static str],
    &'static str,
);

/// The options in the order of the help.
pub(crate) const ROWS: [Row; 25] = [
    (
        "cert",
        "PATH",
        &["cost"],
        "The certificate whose plan is told; without it the places in the units are",
    ),
    (
        "cert",
        "PATH",
        &["resume"],
        "The certificate of a search that ended without a proof",
    ),
    (
        "cert",
        "PATH",
        &["merge"],
        "A certificate to merge; stands once for each",
    ),
    ("cert", "PATH", &["check"], "The certificate to check"),
    (
        "cert",
        "PATH",
        &["frames"],
        "The certificate whose plan is sent; without it the places in the units are",
    ),
    (
        "cert",
        "PATH",
        &["play"],
        "The certificate whose plan is played; without it the places in the units are",
    ),
    (
        "part",
        "I/N",
        &["resume"],
        "Go on only with the open leaves of part I of N, and leave the others to other machines",
    ),
    (
        "svg",
        "PATH",
        &["cost"],
        "Where to write a picture of the ticks, as SVG",
    ),
    (
        "lose",
        "STATION",
        &["play"],
        "The station of a slave that passes each frame of the ticks on as it is; may stand several times",
    ),
    (
        "pcap",
        "PATH",
        &["frames"],
        "Where to write the frames as a capture file, which Wireshark opens",
    ),
    (
        "pcap",
        "PATH",
        &["play"],
        "Where to write the frames as they are sent and as they come back, as a capture file",
    ),
    (
        "header",
        "PATH",
        &["frames"],
        "Where to write the plan as a C header for a master",
    ),
    (
        "map",
        "PATH",
        &["frames"],
        "Where to write a table of the process bytes, as CSV",
    ),
    (
        "report",
        "PATH",
        &["frames"],
        "Where to write a page about the plan, as HTML",
    ),
    (
        "workers",
        "N",
        &["plan", "resume"],
        "How many workers search, 1 to 16; with 1 the plan and the certificate are the same every time",
    ),
    (
        "nodes",
        "N",
        &["plan"],
        "The most nodes of the search tree to visit, 1 to 10000000; without it 1000000, or with --minutes 10000000, and with --out no more than its certificate has room for",
    ),
    (
        "nodes",
        "N",
        &["resume"],
        "The most nodes to visit beside those of the certificate, 1 to 10000000; without it 1000000, or with --minutes 10000000, and with --out no more than its certificate has room for",
    ),
    (
        "minutes",
        "M",
        &["plan", "resume"],
        "After how many minutes the search ends, 1 to 10000; ten million nodes end most searches sooner",
    ),
    (
        "strong",
        "",
        &["plan"],
        "Search by stronger rules, which prove most lines sooner, and some not at all: try both; the certificate is of version 4",
    ),
    (
        "keep",
        "",
        &["plan"],
        "Begin at the places in the units, with the units without one beside them, and move units only for a plan that costs less",
    ),
    (
        "out",
        "PATH",
        &["plan", "resume"],
        "Where to write the certificate, also of a search that ends without a proof",
    ),
    (
        "out",
        "PATH",
        &["merge"],
        "Where to write the merged certificate",
    ),
    (
        "places",
        "PATH",
        &["plan", "resume"],
        "Where to write the unit text again, with the places of the plan",
    ),
    (
        "progress",
        "",
        &["plan", "resume"],
        "Tell the progress on standard error also where that is no terminal",
    ),
    (
        "file",
        "FILE",
        &["cost", "plan", "resume", "merge", "check", "frames", "play"],
        "The units; standard input where it is - or isn't given",
    ),
];

/// What the help says of the units, the statuses and the formats.
const AFTER_HELP: &str =
    "The units are read from FILE, or from standard input where FILE is - or isn't given.\n\
The text goes to standard output, and what a refusal means to standard error.\n\n\
Exit statuses: 0 optimal, least or done; 1 no plan; 2 unproved or at least; 3 refused input;\n\
4 reading, writing, memory, a ring or a thread failed; 5 words that are no command, a station of\n\
--lose that no slave has, this help or --version.\n\n\
FORMATS.md describes the unit text, what each command writes, and each refusal. It is in docs/ of\n\
the sources, and in share/doc/ecplan/ of an installation.\n";

/// An option of a command with the limits of its value, and whether it must be there and may stand several times.
fn with_limits<'a>(arg: Arg<'a>, name: &str, command: &str) -> Arg<'a> {
    match (name, command) {
        ("cert", "merge") => arg.required(true).action(ArgAction::Append),
        ("cert", "resume" | "check") => arg.required(true),
        ("lose", _) => arg
            .action(ArgAction::Append)
            .value_parser(value_parser!(u16).range(1..=65_535)),
        ("workers", _) => arg
            .value_parser(value_parser!(usize).range(1..=16))
            .default_value("1"),
        ("nodes", _) => arg.value_parser(value_parser!(u32).range(1..=10_000_000)),
        ("minutes", _) => arg.value_parser(value_parser!(u32).range(1..=10_000)),
        _ => arg,
    }
}

/// The option of a row as a command has it.
fn arg_of<'a>(alloc: Global, row: &Row, command: &str) -> Arg<'a> {
    let (name, value, _, help) = *row;
    let arg = Arg::new(alloc, name).help(help);
    match (name, value) {
        ("file", _) => arg.value_name(value),
        (_, "") => arg.long(name).action(ArgAction::SetTrue),
        _ => with_limits(arg.long(name).value_name(value), name, command),
    }
}

/// A command with its options.
fn command_of<'a>(
    alloc: Global,
    name: &'static str,
    about: &'static str,
) -> Result<Command<'a>, AllocError> {
    let mut command = Command::new(alloc, name).about(about);
    for row in &ROWS {
        if row.2.contains(&name) {
            command = command.arg(arg_of(alloc, row, name))?;
        }
    }
    Ok(command)
}

/// The program without its commands.
fn program<'a>(alloc: Global) -> Result<Command<'a>, AllocError> {
    Command::new(alloc, "ecplan")
        .about("Plans the cyclic frames of an EtherCAT line")
        .version("0.4.0")
        .after_help(AFTER_HELP)
        .no_binary_name(true)
        .subcommand_required(true)
        .bin_name("ecplan")
}

/// All commands with their options, as `clap` reads them: the limits and the default of each number, which options must be
/// there, and what the help says. A list of words for it has no program's name. An error is want of memory. Own profile.
pub fn all_commands<'a>(alloc: Global) -> Result<Command<'a>, AllocError> {
    let mut all = program(alloc)?;
    for (name, about) in COMMANDS {
        all = all.subcommand(command_of(alloc, name, about)?)?;
    }
    Ok(all)
}
