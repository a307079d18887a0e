//! The command line.

ghost use Rattle.std.specs.Prelude.{IfOk};
ghost use Rattle.ec_cli_words.specs.Merges.{AskedFits};

use crate::merges::{Merging, merging_of};
use crate::tips::fault_of;
use crate::words::{LineFault, Words, line_words, refused};
use ec_cli_options::all_commands;
use std::alloc::Global;

/// What the words of a command line ask for.
#[derive(Debug, Drop)]
pub enum Asked {
    /// A line of a command.
    Line(Words),
    /// Certificates are to be merged.
    Merge(Merging),
}

/// Reads the words after the program's name: `cost`, `plan`, `resume`, `merge`, `check`, `frames` or `play`, with its options
/// and the path of the units.
pub fn read_words(alloc: Global, words: &[String]) -> Result<Asked, LineFault>
    ensures { IfOk result AskedFits }
{
    let matches = match all_commands(alloc)?.try_get_matches_from(words) {
        Ok(matches) => matches,
        Err(error) => return Err(fault_of(alloc, error)),
    };
    let Some((command, options)) = matches.subcommand() else {
        return Err(refused(alloc, "error: no command\n"));
    };
    if command == "merge" {
        Ok(Asked::Merge(merging_of(alloc, options)?))
    } else {
        Ok(Asked::Line(line_words(alloc, command, options)?))
    }
}
