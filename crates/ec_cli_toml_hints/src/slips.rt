//! What was likely meant by a line of a unit text at which the TOML reader stopped.

use ec_cli_spots::{
    SLAVE, UNIT, before_comment, header_of, is_digit, is_strange, name_of, other_base, uncommented,
};
use ec_text_builder::Draft;

/// Where the reader stopped.
#[derive(Clone, Copy)]
pub(crate) struct Stop<'a> {
    /// The line.
    pub line: &'a str,
    /// What stands in the line from there on.
    pub rest: &'a str,
    /// What stands in the text before it.
    pub before: &'a str,
    /// Why, in the reader's words.
    pub message: &'a str,
}

/// How a number is written.
const NUMBER: &str = "A number is written 1000000 or 1_000_000.\n";

/// How a number of base 16 is written.
const BASE: &str = "A number of base 16 has 0x in front, as 0x3E9.\n";

/// What is told of a text whose quotes aren't whole.
const QUOTES: &str =
    "A text has a quote before and behind it, as name = \"press-4\": one is missing.\n";

/// How a line is written.
const FORM: &str = "A line is key = value, or a header in brackets.\n";

/// Whether a line has an odd number of quotes before its comment.
fn lacks_quote(line: &str) -> bool {
    uncommented(line).matches('"').count() % 2 == 1
}

/// Whether a character is a quote that TOML doesn't know.
fn is_curly(letter: char) -> bool {
    matches!(
        letter,
        '\u{2018}'..='\u{201f}' | '\u{ab}' | '\u{bb}' | '\u{b4}' | '`'
    )
}

/// Whether a key or a value begins with a quote that TOML doesn't know, or a text ends with one.
fn has_curly(stop: Stop<'_>) -> bool {
    if stop.message.starts_with("invalid string") {
        before_comment(stop.line).ends_with(is_curly)
    } else {
        stop.message.starts_with("invalid") && stop.rest.starts_with(is_curly)
    }
}

/// Whether a value has digits, and nothing else but what is written between them.
fn is_spaced_number(value: &str) -> bool {
    value.contains(is_digit)
        && value
            .chars()
            .all(|letter| matches!(letter, '0'..='9' | ' ' | '.' | '_'))
}

/// The digits of a number of base 16 at which the reader stopped, as TOML doesn't write it; in a list or within braces more stands behind it.
fn digits_at<'a>(stop: Stop<'a>) -> Option<&'a str> {
    let value = stop.rest.split([',', '}', ']']).next().unwrap_or("");
    let marked = if value.starts_with('#') {
        value
    } else {
        before_comment(value)
    };
    other_base(marked.trim())
}

/// Whether a word is letters alone.
fn is_letters(word: &str) -> bool {
    !word.is_empty() && word.chars().all(char::is_alphabetic)
}

/// Whether a value is digits, and a word of letters behind them.
fn has_measure(value: &str) -> bool {
    let behind = value.trim_start_matches(is_digit);
    behind.len() < value.len() && !value.starts_with('0') && is_letters(behind.trim_start())
}

/// What is told of a number with a unit of measure behind some text that ends with its key.
fn measure_of(key: &str) -> &'static str {
    if key.ends_with("_bytes") {
        "A number has no letters behind it. Whole bytes are counted: up to 8 bits are 1, up to 16 are 2.\n"
    } else if key.ends_with("station") || key.ends_with("_at") {
        "A number has no letters behind it; one of base 16 has 0x in front.\n"
    } else {
        "A number has no letters behind it. A period is in ticks, and tick_ns in ns: 1 ms is 1000000.\n"
    }
}

/// What is told of something that is no value.
const VALUE: &str = "A value is a whole number, or a text in quotes, as name = \"press-4\".\n";

/// How the keys end whose numbers aren't addresses.
const COUNTS: [&str; 6] = ["tick_ns", "slots", "period", "phase", "slot", "_bytes"];

/// Whether the number of a key isn't an address.
fn is_count(key: &str) -> bool {
    COUNTS.iter().any(|count| key.ends_with(*count))
}

/// What was likely meant by something that is no value: of a name that it has no quotes, of an address a number of base 16.
fn hint_of_value(stop: Stop<'_>) -> &'static str {
    let rest = before_comment(stop.rest);
    let value = rest.split([',', '}', ']']).next().unwrap_or("").trim();
    let before = stop.line.strip_suffix(stop.rest).unwrap_or("").trim_end();
    let key = before.strip_suffix('=').unwrap_or("").trim_end();
    let behind_zero = value.trim_start_matches(['+', '-']).strip_prefix('0');
    if key.ends_with("name") {
        VALUE
    } else if is_count(key) && has_measure(value) {
        measure_of(key)
    } else if digits_at(stop).is_some() || stop.rest.starts_with("#x") {
        BASE
    } else if behind_zero.is_some_and(|digits| digits.starts_with(is_digit)) {
        "A number has no 0 in front.\n"
    } else if is_spaced_number(value) {
        NUMBER
    } else if has_measure(value) {
        measure_of(key)
    } else {
        VALUE
    }
}

/// Whether a character is a blank that TOML doesn't know.
fn is_strange_blank(letter: char) -> bool {
    matches!(
        letter,
        '\u{a0}' | '\u{2000}'..='\u{200a}' | '\u{202f}' | '\u{3000}'
    )
}

/// Whether a character shows nothing, and has no width.
fn is_unseen(letter: char) -> bool {
    let has_no_width = matches!(
        letter,
        '\u{ad}' | '\u{200b}'..='\u{200f}' | '\u{2060}' | '\u{feff}'
    );
    has_no_width || (letter.is_control() && letter != '\r')
}

/// Whether braces are open behind a text.
fn is_within_braces(text: &str) -> bool {
    let (mut opened, mut closed) = (0usize, 0usize);
    for line in text.lines().map(uncommented) {
        opened = opened.saturating_add(line.matches('{').count());
        closed = closed.saturating_add(line.matches('}').count());
    }
    opened > closed
}

/// What was likely meant by a key at which the reader stopped since its table has it already: a table that isn't begun, if the key is
/// one of a slave or a unit.
fn hint_of_twice(stop: Stop<'_>) -> &'static str {
    let key = stop.line.split('=').next().unwrap_or("").trim();
    if is_within_braces(stop.before) {
        "A key stands once within { }. Each table has braces of its own, with a comma between two.\n"
    } else if SLAVE.has(key) {
        "A key stands once in its table. Where a further slave begins here, the line [[unit.slave]] before it is missing; else take one of the two lines out.\n"
    } else if key == "slave" {
        "A key stands once in its table. All slaves of a unit stand in one list, as slave = [{ .. }, { .. }]; a further unit begins with a line [[unit]].\n"
    } else if UNIT.has(key) {
        "A key stands once in its table. Where a further unit begins here, the line [[unit]] before it is missing; else take one of the two lines out.\n"
    } else {
        "A key stands once in its table: take one of the two lines out.\n"
    }
}

/// Whether a line is a comment of another language, or has one behind its value.
fn has_other_comment(stop: Stop<'_>, word: &str) -> bool {
    let is_begun = |text: &str| ["/*", "(*", "<!--", "--", ";"]
        .iter()
        .any(|mark| text.starts_with(*mark));
    let behind = before_comment(stop.rest);
    let is_behind = stop.message.starts_with("unexpected key or value")
        && is_begun(behind)
        && behind.contains(' ')
        && !behind.contains('=');
    let before_slashes = uncommented(stop.line).split_once("//");
    before_slashes.is_some_and(|(before, _)| !lacks_quote(before))
        || is_begun(word)
        || is_behind
        || word.starts_with("REM ")
        || word.starts_with("rem ")
}

/// What was likely meant by a line with a header in other brackets, a key that stands twice, or the signs of another language.
fn hint_of_line(stop: Stop<'_>, word: &str) -> Option<&'static str> {
    if word.starts_with("[ [") || (word.starts_with("[[unit") && header_of(word).is_none()) {
        Some(
            "A header is [[unit]] or [[unit.slave]], with two brackets side by side before and behind it.\n",
        )
    } else if word.starts_with("[unit]") {
        Some("Each unit begins with [[unit]], in double brackets.\n")
    } else if word.starts_with("[unit.slave]") || word.starts_with("[slave]") {
        Some("Each slave begins with [[unit.slave]], in double brackets.\n")
    } else if stop.message.contains("duplicate") {
        Some(hint_of_twice(stop))
    } else if word.starts_with("```") {
        Some("This line is no part of the text: take it out.\n")
    } else if stop.rest.starts_with(is_strange_blank) {
        Some("A blank stands there that looks like a space and is none: type it again.\n")
    } else if stop.rest.starts_with(is_unseen) {
        Some("A character stands there that is not shown: delete it.\n")
    } else if has_other_comment(stop, word) {
        Some("A comment begins with #.\n")
    } else if has_curly(stop) {
        Some("Take the plain quote \".\n")
    } else if lacks_quote(stop.line) {
        Some(QUOTES)
    } else if stop.rest.starts_with(is_strange) {
        Some("The character there is none of the plain ones: type it again.\n")
    } else {
        None
    }
}

/// What was likely meant by what stands behind the value or the header of a line: behind a digit, perhaps the rest of a number.
fn hint_behind(stop: Stop<'_>, word: &str) -> &'static str {
    let before = stop.line.strip_suffix(stop.rest).unwrap_or("").trim_end();
    let behind = before_comment(stop.rest);
    if word.starts_with('[') {
        "A header stands alone on its line, without , or ; behind it.\n"
    } else if matches!(behind, "h" | "H")
        && before.ends_with(|letter: char| letter.is_ascii_hexdigit())
        && !is_count(name_of(stop.line))
    {
        BASE
    } else if before.ends_with(is_digit) && is_letters(behind) {
        measure_of(name_of(stop.line))
    } else if before.ends_with(is_digit) {
        "A line has one key and its value, without , or ; behind it. A number is written 1000000 or 1_000_000.\n"
    } else {
        "A line has one key and its value, without , or ; behind it.\n"
    }
}

/// Whether a line is a header, or one key with its value, and so no part of a list.
fn is_own_line(line: &str) -> bool {
    let line = uncommented(line).trim();
    header_of(line).is_some()
        || (line.contains('=') && !line.contains(['{', '}']) && !line.ends_with(','))
}

/// What was likely meant by a line that the reader took for part of a list.
fn hint_in_list(stop: Stop<'_>, word: &str) -> Option<&'static str> {
    let is_whole = stop.rest.trim() == word || header_of(word).is_some();
    let is_item = stop.message.contains("between array elements")
        || stop.message.starts_with("invalid value");
    if !is_whole || !is_item {
        None
    } else if is_own_line(word) {
        Some("A list that begins above this line is not closed: its ] is missing.\n")
    } else if word.starts_with(char::is_alphabetic) && word.contains('=') {
        Some("A table in a list stands in { }, and the { before this key is missing.\n")
    } else {
        None
    }
}

/// Whether plain words, and more than one, stand in place of a key.
fn has_words(key: &str) -> bool {
    let is_plain = |word: &str| {
        word.starts_with(|letter: char| letter.is_ascii_alphabetic())
            && word.chars().all(|letter| letter.is_ascii_alphanumeric()
                || matches!(letter, '_' | '-'))
    };
    key.trim().contains(' ') && key.split_whitespace().all(is_plain)
}

/// What was likely meant by a line with nothing but plain signs, by the reader's message; empty where that isn't known.
fn hint_of_message(stop: Stop<'_>, word: &str) -> &'static str {
    let Stop { rest, message, .. } = stop;
    let (key, _) = uncommented(word).split_once('=').unwrap_or(("", ""));
    if message.starts_with("invalid escape") && name_of(word) == "name" {
        "A name has no other characters than a-z, A-Z, 0-9, _ and -.\n"
    } else if message.starts_with("key with no value") && has_words(key) {
        "A key is one word, as out_bytes, with _ and no space.\n"
    } else if !key.is_ascii() {
        "A key has plain letters and _ alone, as out_bytes.\n"
    } else if message.starts_with("key with no value") {
        FORM
    } else if message.starts_with("number out of range") {
        "No key takes such a number.\n"
    } else if message.starts_with("unexpected key or value") {
        hint_behind(stop, word)
    } else if !word.is_empty() && !word.starts_with('[') && !word.contains('=') {
        FORM
    } else if message.starts_with("invalid value") {
        hint_of_value(stop)
    } else if message.contains("between digits") {
        NUMBER
    } else if message.starts_with("invalid string") && rest.trim().is_empty() {
        QUOTES
    } else if stop.line.contains('{') {
        "Within { } and [ ] a comma stands between two, and a value is a whole number, or a text in quotes.\n"
    } else {
        ""
    }
}

/// Adds what was likely meant by a line at which the reader stopped, if that is known; of a number of base 16 its own digits.
pub(crate) fn add_likely(out: &mut Draft, stop: Stop<'_>) {
    let word = stop.line.trim();
    let words = hint_of_line(stop, word)
        .or_else(|| hint_in_list(stop, word))
        .unwrap_or_else(|| hint_of_message(stop, word));
    match digits_at(stop) {
        Some(digits) if words == BASE => {
            out.add(format_args!("A number of base 16 has 0x in front: write 0x{digits}.\n"));
        }
        _ => out.add(words),
    }
}
