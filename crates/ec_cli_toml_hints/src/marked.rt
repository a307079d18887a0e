//! Numbers of base 16, 8 and 2 as PLC programs write them. TOML takes the `#` for the begin of a comment, and reads `16#3E9` as 16.

use ec_cli_spots::uncommented;
use ec_text_builder::Draft;
use std::alloc::{AllocError, Global};

/// The most digits that are told.
const MOST_DIGITS: usize = 32;

/// The number of a line whose base stands before its first `#` and whose digits stand behind it, if there is one: the base, how TOML
/// marks that, and the digits.
fn marked_in(line: &str) -> Option<(&str, &'static str, &str)> {
    let value = uncommented(line);
    let comment = line.strip_prefix(value)?.strip_prefix('#')?;
    let base = value
        .rsplit(|letter: char| !letter.is_ascii_digit())
        .next()?;
    let (mark, radix) = match base {
        "16" => ("0x", 16),
        "8" => ("0o", 8),
        "2" => ("0b", 2),
        _ => return None,
    };
    let mut words = comment.split(|letter: char| !letter.is_ascii_alphanumeric() && letter != '_');
    let digits = words.next()?;
    let is_digit = |letter: char| letter.to_digit(radix).is_some();
    let is_number = digits.starts_with(is_digit)
        && digits
            .chars()
            .all(|letter| is_digit(letter) || letter == '_');
    Some((base, mark, digits)).filter(|_| is_number
        && digits.len() <= MOST_DIGITS
        && value.contains('='))
}

/// Adds the first number of a unit text that a PLC program would write so, as it is read and as it is to be written.
pub fn add_marked(out: &mut Draft, text: &str) {
    for (index, line) in text.split('\n').enumerate() {
        if let Some((base, mark, digits)) = marked_in(line) {
            let number = index.saturating_add(1);
            return out.add(format_args!(
                "Line {number}: {base}#{digits} is read as {base}, since a comment begins with #. Write {mark}{digits}.\n"
            ));
        }
    }
}

/// What there is to tell of a unit text that was found right, and has numbers that are read otherwise than they look. Only want of
/// memory is an error (own profile).
pub fn misread(alloc: Global, units: &[u8]) -> Result<String, AllocError> {
    let text = String::from_utf8_lossy(alloc, units)?;
    let mut out = Draft::new(alloc);
    add_marked(&mut out, text.as_str());
    out.finish()
}
