//! What was likely meant by a word that a command doesn't have.

use crate::options::{COMMANDS, ROWS};
use std::alloc::{AllocError, Global};
use std::fmt::Write as _;

/// Words of other programs, without their dashes, and the option that is called so here.
const OTHER_OPTIONS: [(&str, &str); 22] = [
    ("time", "minutes"),
    ("timeout", "minutes"),
    ("seconds", "minutes"),
    ("threads", "workers"),
    ("jobs", "workers"),
    ("cores", "workers"),
    ("j", "workers"),
    ("max-nodes", "nodes"),
    ("iterations", "nodes"),
    ("output", "out"),
    ("o", "out"),
    ("certificate", "cert"),
    ("proof", "cert"),
    ("verbose", "progress"),
    ("csv", "map"),
    ("html", "report"),
    ("capture", "pcap"),
    ("picture", "svg"),
    ("lost", "lose"),
    ("drop", "lose"),
    ("V", "version"),
    ("v", "version"),
];

/// Words of other programs, and the command or the option that is called so here.
const OTHER_COMMANDS: [(&str, &str); 11] = [
    ("solve", "plan"),
    ("search", "plan"),
    ("optimize", "plan"),
    ("optimise", "plan"),
    ("continue", "resume"),
    ("verify", "check"),
    ("validate", "check"),
    ("simulate", "play"),
    ("join", "merge"),
    ("version", "--version"),
    ("usage", "--help"),
];

/// What stands beside a word in a list of words with what they mean here; none of a word that isn't there.
fn meant_by(list: &[(&'static str, &'static str)], word: &str) -> Option<&'static str> {
    let (_, meant) = list.iter().find(|(other, _)| *other == word)?;
    Some(*meant)
}

/// The commands that have an option, as `plan, resume and merge`; nothing where none has it.
fn takers_of(alloc: Global, option: &str) -> Result<String, AllocError> {
    let is_taker = |command: &str| {
        ROWS.iter().any(|(name, _, commands, _)| *name == option && commands.contains(&command))
    };
    let mut takers = Vec::new(alloc);
    for (command, _) in COMMANDS {
        if is_taker(command) {
            takers.push(command)?;
        }
    }
    let mut text = String::new(alloc);
    for (at, command) in takers.iter().enumerate() {
        let before = match at {
            0 => "",
            _ if at + 1 == takers.len() => " and ",
            _ => ", ",
        };
        write!(text, "{before}{command}")?;
    }
    Ok(text)
}

/// What is told of a word with dashes that a command doesn't have, or that stands before the command: which option of which commands was
/// likely meant. None of a word that no option is like. Own profile.
pub fn tip_of_option(
    alloc: Global,
    word: &str,
    is_before: bool,
) -> Result<Option<String>, AllocError> {
    let name = word.trim_start_matches('-');
    let name = meant_by(&OTHER_OPTIONS, name).unwrap_or(name);
    if name == "version" {
        return Ok(Some(format!(in alloc; "ecplan --version tells the version")?));
    }
    let Some((_, value, _, _)) = ROWS.iter().find(|row| row.0 == name && name != "file") else {
        return Ok(None);
    };
    let (open, close) = if value.is_empty() {
        ("", "")
    } else {
        (" <", ">")
    };
    let takers = takers_of(alloc, name)?;
    let where_to = if is_before {
        ": it stands behind the command"
    } else {
        ""
    };
    Ok(Some(format!(in alloc; "--{name}{open}{value}{close} is an option of {takers}{where_to}")?))
}

/// What is told of a word that is no command: which one was likely meant, or that a command stands before a path. None of another
/// word. Own profile.
pub fn tip_of_command(alloc: Global, word: &str) -> Result<Option<String>, AllocError> {
    if let Some(meant) = meant_by(&OTHER_COMMANDS, word) {
        return Ok(Some(format!(in alloc; "{meant} does that here")?));
    }
    if word.contains(['.', '/']) {
        return Ok(Some(format!(in alloc;
            "a command stands before the path, as ecplan plan FILE"
        )?));
    }
    Ok(None)
}
