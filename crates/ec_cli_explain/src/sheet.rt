//! Lines that are laid out.

ghost use Rattle.std.specs.Prelude.{◌≡◌, true, string_bytes};
ghost use Rattle.std.proofs.Props.{props};
ghost use Rattle.ec_cli_explain.specs.IsShown.{IsShown, is_told};

use ec_cli_spots::PIECE;
use std::alloc::{AllocError, Global};

/// The longest line that is told, in columns, but for a piece that is told whole.
const COLUMNS: usize = 160;

/// Lines under way. A line that is too long is cut; where it has a piece that is told whole, that gets a line of its own.
#[derive(Drop)]
pub(crate) struct Sheet {
    text: String,
    /// Whether something stands in the last line.
    is_begun: bool,
    ghost shown: { IsShown (string_bytes text) } by { Prim.hlevel props },
}

/// What is told for a character: itself, or `?` for a control character that is no line feed.
fn told_letter(letter: char) -> char
    ensures { is_told result ≡ true }
{
    if letter == '\n' || !letter.is_control() {
        letter
    } else {
        '?'
    }
}

impl Sheet {
    /// No line; takes no memory.
    pub(crate) fn new(alloc: Global) -> Sheet {
        Sheet {
            text: String::new(alloc),
            is_begun: false,
        }
    }

    /// Adds a character.
    fn push(&mut self, letter: char) -> Result<(), AllocError> {
        self.text.push(told_letter(letter))?;
        self.is_begun = letter != '\n';
        Ok(())
    }

    /// Adds text up to as many columns as a line may have, without the marks of its pieces.
    fn add_cut(&mut self, text: &str) -> Result<(), AllocError> {
        let mut columns = 0usize;
        for letter in text.chars() {
            if letter != PIECE && columns < COLUMNS {
                self.push(letter)?;
                columns += 1;
            }
        }
        Ok(())
    }

    /// Adds a piece whole, at the begin of a line.
    fn add_piece(&mut self, piece: &str) -> Result<(), AllocError> {
        if self.is_begun {
            self.push('\n')?;
        }
        for letter in piece.chars() {
            self.push(letter)?;
        }
        Ok(())
    }

    /// Adds what stands behind a piece: up to the first space beside it, and the rest in a line of its own.
    fn add_behind(&mut self, text: &str) -> Result<(), AllocError> {
        let (beside, rest) = text.split_once(' ').unwrap_or((text, ""));
        self.add_cut(beside)?;
        if !rest.is_empty() {
            self.push('\n')?;
            self.add_cut(rest.trim_end())?;
        }
        Ok(())
    }

    /// Adds a line that is too long and has pieces, each of them in a line of its own. Every second part is a piece.
    fn add_parts(&mut self, line: &str) -> Result<(), AllocError> {
        for (index, part) in line.split(PIECE).enumerate() {
            if index % 2 == 1 {
                self.add_piece(part)?;
            } else if index == 0 {
                self.add_cut(part.trim_end())?;
            } else {
                self.add_behind(part)?;
            }
        }
        Ok(())
    }

    /// Adds a line.
    pub(crate) fn add_line(&mut self, line: &str) -> Result<(), AllocError> {
        let columns = line.chars().filter(|letter| *letter != PIECE).count();
        if columns > COLUMNS && line.contains(PIECE) {
            self.add_parts(line)?;
        } else {
            self.add_cut(line)?;
        }
        self.push('\n')
    }

    /// The lines.
    pub(crate) fn finish(self) -> String
        ensures { IsShown (string_bytes result) }
    {
        let Sheet { text, .. } = self;
        text
    }
}
