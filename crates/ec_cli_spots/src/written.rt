//! Lines of a text, and how one is written: its comment, its numbers, its signs.

/// The line and the column, both from 1, behind so many bytes of a text. A column counts characters.
pub fn position_of(text: &[u8], count: usize) -> (usize, usize) {
    let before = text.get(..count).unwrap_or(text);
    let feeds = before.iter().filter(|byte| **byte == b'\n').count();
    let line = before.rsplit(|byte| *byte == b'\n').next().unwrap_or(&[]);
    let letters = line.iter().filter(|byte| **byte & 0xC0 != 0x80).count();
    (feeds.saturating_add(1), letters.saturating_add(1))
}

/// A line of a text, from 0, without its line feed.
pub fn line_at(text: &[u8], line: usize) -> Option<&[u8]> {
    text.split(|byte| *byte == b'\n').nth(line)
}

/// What stands in a line before the first # that is outside quotes.
pub fn uncommented(line: &str) -> &str {
    let mut quoted = false;
    for (index, byte) in line.bytes().enumerate() {
        match byte {
            b'"' => quoted = !quoted,
            b'#' if !quoted => return line.get(..index).unwrap_or(line),
            _ => {}
        }
    }
    line
}

/// What stands in a line before its first #.
pub fn before_comment(line: &str) -> &str {
    line.split('#').next().unwrap_or("").trim()
}

/// Whether a character is a digit of base 10.
pub fn is_digit(letter: char) -> bool {
    letter.is_ascii_digit()
}

/// The marks of base 16 in front of a number, in this language and in others.
const MARKS: [&str; 8] = ["0x", "0X", "16#", "#x", "&H", "&h", "$", "x"];

/// What is left of a value without the marks of base 16 in front of it and behind it.
fn without_marks(value: &str) -> &str {
    let bare = MARKS
        .iter()
        .find_map(|mark| value.strip_prefix(*mark))
        .unwrap_or(value);
    bare.strip_suffix(['h', 'H']).map_or(bare, str::trim_end)
}

/// The digits of a number of base 16 as TOML doesn't write it, as `1A00`, `0X3E9` and `3E9h` are.
pub fn other_base(value: &str) -> Option<&str> {
    let digits = without_marks(value);
    let is_marked = digits.len() < value.len();
    let is_hex = digits.contains(is_digit)
        && digits.chars().all(|letter| letter.is_ascii_hexdigit());
    let has_letter = digits.contains(|letter: char| letter.is_ascii_alphabetic());
    let is_binary = value.starts_with("0b");
    Some(digits).filter(|_| is_hex && (is_marked || (has_letter && !is_binary)))
}

/// Whether a character, no blank, is likely none that was meant: a dash or an equals sign that only looks plain, say, or a letter that isn't
/// a Latin one.
pub fn is_strange(letter: char) -> bool {
    !letter.is_ascii() && (!letter.is_alphabetic() || letter > '\u{24f}')
}
