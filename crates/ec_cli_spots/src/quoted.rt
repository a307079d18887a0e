//! Bytes and values that were read, and paths, as they stand in a sentence.

use crate::written::is_strange;
use std::alloc::{AllocError, Global};
use std::fmt;
use toml::Value;

/// What stands before and behind a piece of a sentence that is told whole: where its line would be too long it gets a line of
/// its own. Nothing else that is told has this character.
pub const PIECE: char = '\u{1}';

/// The most characters of a name, a key or a value that are told.
const MOST_OF_NAME: usize = 48;

/// The most characters of a line that are told.
pub const MOST_OF_LINE: usize = 120;

/// Of a path that has more characters than twice as many, so many are told at each end.
const END_OF_PATH: usize = 500;

/// Bytes that may be anything, at most so many of them, and dots where there are more: printable ASCII as it is, any other as
/// `\xNN`.
#[derive(Clone, Copy)]
pub struct Bytes<'a>(pub &'a [u8], pub usize);

impl fmt::Display for Bytes<'_> {
    fn fmt<W: fmt::Write>(&self, f: &mut fmt::Formatter<W>) -> fmt::Result {
        let Bytes(bytes, most) = *self;
        for byte in bytes.iter().take(most) {
            match *byte {
                0x20..=0x7e => f.write_char(char::from(*byte))?,
                _ => write!(f, "\\x{byte:02x}")?,
            }
        }
        f.write_str(if bytes.len() > most { "..." } else { "" })
    }
}

/// Whether a character is told as it stands. A control character isn't, nor one that ends a line, that turns the direction of
/// what stands beside it, or that takes no room.
pub fn is_shown(letter: char) -> bool {
    !letter.is_control()
        && !matches!(
            letter,
            '\u{ad}' | '\u{200b}' | '\u{200e}' | '\u{200f}' | '\u{2028}'..='\u{202e}' | '\u{2060}'..='\u{2069}' | '\u{feff}'
        )
}

/// Whether a path is told as it stands, so that it can be given again.
pub fn is_told_whole(path: &str) -> bool {
    path.chars().all(is_shown)
}

/// A character as it stands, or each of its bytes as `\xNN`.
#[derive(Clone, Copy)]
pub struct Letter(pub char);

impl fmt::Display for Letter {
    fn fmt<W: fmt::Write>(&self, f: &mut fmt::Formatter<W>) -> fmt::Result {
        if is_shown(self.0) {
            return f.write_char(self.0);
        }
        write!(f, "{}", Coded(self.0))
    }
}

/// Each byte of a character as `\xNN`, of one that isn't printable ASCII.
#[derive(Clone, Copy)]
pub struct Coded(pub char);

impl fmt::Display for Coded {
    fn fmt<W: fmt::Write>(&self, f: &mut fmt::Formatter<W>) -> fmt::Result {
        let mut room = [0u8; 4];
        let text = self.0.encode_utf8(&mut room);
        write!(f, "{}", Bytes(text.as_bytes(), 4))
    }
}

/// The first characters of a text, so many of them, and dots where there are more; of strange ones, where that is asked for, each byte as
/// `\xNN`.
#[derive(Clone, Copy)]
pub struct Front<'a>(pub &'a str, pub usize, pub bool);

impl fmt::Display for Front<'_> {
    fn fmt<W: fmt::Write>(&self, f: &mut fmt::Formatter<W>) -> fmt::Result {
        let Front(text, most, is_coded) = *self;
        for letter in text.chars().take(most) {
            if is_coded && is_strange(letter) {
                write!(f, "{}", Coded(letter))?;
            } else {
                write!(f, "{}", Letter(letter))?;
            }
        }
        let is_cut = text.chars().nth(most).is_some();
        f.write_str(if is_cut { "..." } else { "" })
    }
}

/// A line of a text, cut where it is long; one that isn't UTF-8 as its bytes.
#[derive(Clone, Copy)]
pub struct TextLine<'a>(pub &'a [u8]);

impl fmt::Display for TextLine<'_> {
    fn fmt<W: fmt::Write>(&self, f: &mut fmt::Formatter<W>) -> fmt::Result {
        match std::str::from_utf8(self.0) {
            Ok(text) => write!(f, "{}", Front(text, MOST_OF_LINE, false)),
            Err(_) => write!(f, "{}", Bytes(self.0, MOST_OF_LINE)),
        }
    }
}

/// A name, a key or a value in quotes, cut where it is long.
#[derive(Clone, Copy)]
pub struct Quoted<'a>(pub &'a str);

impl fmt::Display for Quoted<'_> {
    fn fmt<W: fmt::Write>(&self, f: &mut fmt::Formatter<W>) -> fmt::Result {
        write!(f, "\"{}\"", Front(self.0, MOST_OF_NAME, false))
    }
}

/// A path in quotes as it was given, as a piece; without its middle where it is longer than most systems let it be.
#[derive(Clone, Copy)]
pub struct PathPiece<'a>(pub &'a str);

impl fmt::Display for PathPiece<'_> {
    fn fmt<W: fmt::Write>(&self, f: &mut fmt::Formatter<W>) -> fmt::Result {
        let count = self.0.chars().count();
        if count <= 2 * END_OF_PATH {
            return write!(f, "{PIECE}\"{}\"{PIECE}", Front(self.0, count, false));
        }
        write!(f, "{PIECE}\"{}", Front(self.0, END_OF_PATH, false))?;
        for letter in self.0.chars().skip(count.saturating_sub(END_OF_PATH)) {
            write!(f, "{}", Letter(letter))?;
        }
        write!(f, "\"{PIECE}")
    }
}

/// The certificate with its path, if it has one.
#[derive(Clone, Copy)]
pub struct CertName<'a>(pub Option<&'a str>);

impl fmt::Display for CertName<'_> {
    fn fmt<W: fmt::Write>(&self, f: &mut fmt::Formatter<W>) -> fmt::Result {
        match self.0 {
            Some(path) => write!(f, "The certificate {}", PathPiece(path)),
            None => write!(f, "The certificate"),
        }
    }
}

/// A path in quotes, as a piece of a sentence. Only want of memory is an error.
pub fn quoted_path(alloc: Global, path: &str) -> Result<String, AllocError> {
    PathPiece(path).to_string(alloc)
}

/// Whether a character means nothing but itself to a shell.
fn is_plain(letter: char) -> bool {
    match letter {
        '/' | '.' | '_' | '-' | '+' | ',' | ':' | '@' | '%' | '=' => true,
        _ if letter.is_ascii() => letter.is_ascii_alphanumeric(),
        _ => is_shown(letter),
    }
}

/// A path as a word of a shell, in double quotes, or in single ones where it has a sign that a shell reads, and so that it isn't taken
/// for an option.
#[derive(Clone, Copy)]
pub struct Word<'a>(pub &'a str);

impl fmt::Display for Word<'_> {
    fn fmt<W: fmt::Write>(&self, f: &mut fmt::Formatter<W>) -> fmt::Result {
        let path = self.0;
        let front = if path.starts_with('-') { "./" } else { "" };
        if path.chars().all(is_plain) {
            return write!(f, "{front}\"{path}\"");
        }
        write!(f, "{front}'")?;
        for letter in path.chars() {
            match letter {
                '\'' => f.write_str("'\\''")?,
                _ => write!(f, "{}", Letter(letter))?,
            }
        }
        f.write_char('\'')
    }
}

/// A value: a number or a text as it stands, of anything else what it is.
#[derive(Clone, Copy)]
pub struct Shown<'a>(pub &'a Value);

impl fmt::Display for Shown<'_> {
    fn fmt<W: fmt::Write>(&self, f: &mut fmt::Formatter<W>) -> fmt::Result {
        match self.0 {
            Value::Integer(number) => write!(f, "{number}"),
            Value::String(text) => write!(f, "{}", Quoted(text.as_str())),
            Value::Boolean(is_set) => write!(f, "{is_set}"),
            Value::Float(_) => f.write_str("a number with a point or an exponent"),
            Value::Datetime(_) => f.write_str("a date or a time"),
            Value::Array(_) => f.write_str("an array"),
            Value::Table(_) => f.write_str("a table"),
        }
    }
}
