//! What is told of words that are no command line: what `clap` says, with a tip.

use crate::words::{LineFault, refusal};
use clap::Error;
use clap::error::ErrorKind;
use ec_cli_options::{tip_of_command, tip_of_option};
use std::alloc::{AllocError, Global};
use std::fmt::Write as _;

/// What is told of a path where the command needs a certificate, since there the certificate's may be meant.
const CERT_TIP: &str = "the path of each certificate has --cert before it";

/// What is told of a number that stands where a path may, of a command that takes a part and nodes.
const PART_TIP: &str = "a part is one word, as --part 1/3, and nodes stand behind --nodes";

/// What is told of a word that stands behind the path of the units.
const PATH_TIP: &str = "one file of units is read; a path with spaces stands in quotes";

/// What is told where a search is to be gone on with by the strong rules.
const STRONG_TIP: &str = "resume goes by the rules of its certificate";

/// How the text tells the usage where no command was read yet.
const NO_COMMAND: &str = "Usage: ecplan <COMMAND>";

/// What is told of a value that is no number.
const NUMBER_TIP: &str = "a whole number is needed, in decimal digits alone";

/// The word in quotes in the first line of a text.
fn word_in(text: &str) -> Option<&str> {
    let (_, rest) = text.lines().next()?.split_once('\'')?;
    let (word, _) = rest.rsplit_once('\'')?;
    Some(word)
}

/// What is told of a word that is no option and that a command doesn't take, of which the text tells.
fn tip_of_path(word: &str, text: &str) -> &'static str {
    let is_number = !word.is_empty() && word.bytes().all(|byte| byte.is_ascii_digit());
    if is_number && text.contains(" resume ") {
        PART_TIP
    } else if text.contains(" --cert <PATH>") {
        CERT_TIP
    } else {
        PATH_TIP
    }
}

/// What is told beside what `clap` says in a text, if anything is.
fn tip_for(alloc: Global, kind: ErrorKind, text: &str) -> Result<Option<String>, AllocError> {
    let first = text.lines().next().unwrap_or("");
    let word = word_in(text).unwrap_or("");
    let tip = match kind {
        ErrorKind::UnknownArgument if word == "--strong" && text.contains(" resume ") => STRONG_TIP,
        ErrorKind::UnknownArgument if word.starts_with('-') => {
            return tip_of_option(alloc, word, text.contains(NO_COMMAND));
        }
        ErrorKind::UnknownArgument => tip_of_path(word, text),
        ErrorKind::InvalidSubcommand => return tip_of_command(alloc, word),
        ErrorKind::ValueValidation if first.ends_with(": invalid digit found in string") => {
            NUMBER_TIP
        }
        _ => return Ok(None),
    };
    Ok(Some(String::from_str(alloc, tip)?))
}

/// The text with a tip behind its first line in place of those that it has, and else without how to give an option as a path, since it
/// is meant as none. Between two paragraphs one line stays empty.
fn with_tip(alloc: Global, text: &str, tip: Option<String>) -> Result<String, AllocError> {
    let others = if tip.is_some() {
        "  tip: "
    } else {
        "  tip: to pass '"
    };
    let mut tip = tip;
    let mut out = String::new(alloc);
    let mut was_empty = false;
    for line in text.lines() {
        let is_left = line.starts_with(others) || (was_empty && line.is_empty());
        if !is_left {
            out.push_str(line)?;
            out.push('\n')?;
            was_empty = line.is_empty();
        }
        if let Some(tip) = tip.take() {
            write!(out, "\n  tip: {tip}\n")?;
        }
    }
    Ok(out)
}

/// The text of an error.
fn text_of(alloc: Global, error: Error) -> Result<String, AllocError> {
    let text = error.to_string(alloc)?;
    match error.kind() {
        ErrorKind::UnknownArgument | ErrorKind::InvalidSubcommand | ErrorKind::ValueValidation => {
            let tip = tip_for(alloc, error.kind(), text.as_str())?;
            with_tip(alloc, text.as_str(), tip)
        }
        _ => Ok(text),
    }
}

/// What words that give no matches are answered with: the error's text, unless memory ran out.
pub(crate) fn fault_of(alloc: Global, error: Error) -> LineFault {
    if error.kind() == ErrorKind::OutOfMemory {
        return LineFault::Memory;
    }
    refusal(text_of(alloc, error))
}
