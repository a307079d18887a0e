//! Lines made without taking memory.

ghost use Rattle.std.specs.Prelude.{◌≡◌, ℕ, ◌+◌, ◌*◌, ◌<◌, ◌≤◌, ◌++◌, length, codes};
ghost use Rattle.std.specs.Fmt.{decimal};
ghost use Rattle.ec_cert.specs.WellFormed.{IsUnitLine};
ghost use Rattle.ec_cert_text.specs.Text.{unit_line as unit_line_spec, pair_words as pair_words_spec};

use ec_cert::UnitLine;
use ec_loads::Pair;
use ec_text_line::{LineText, push_bytes, push_number};

/// A space and a number.
pub(crate) fn number_word(number: usize) -> LineText
    ensures { result.items ≡ codes " " ++ decimal number }
{
    let mut line = LineText::new();
    line.push(b' ');
    push_number(&mut line, number);
    line
}

/// The two numbers of a pair, each behind a space.
pub(crate) fn pair_words(pair: Pair) -> LineText
    ensures { result.items ≡ pair_words_spec pair }
{
    let mut line = LineText::new();
    line.push(b' ');
    push_number(&mut line, usize::from(pair.count));
    line.push(b' ');
    push_number(&mut line, usize::from(pair.room));
    line
}

/// A word, a number and a line feed.
pub(crate) fn number_line(word: &[u8], number: usize) -> LineText
    requires { length word.now ≤ 32 }
    ensures { result.items ≡ word.now ++ (decimal number ++ codes "\n") }
{
    let mut line = LineText::new();
    push_bytes(&mut line, word);
    push_number(&mut line, number);
    line.push(b'\n');
    line
}

/// A word, two numbers with a space between them, and a line feed.
pub(crate) fn pair_line(word: &[u8], first: usize, second: usize) -> LineText
    requires { length word.now ≤ 32 }
    ensures { result.items ≡ word.now ++ (decimal first ++ (codes " " ++ (decimal second ++ codes "\n"))) }
{
    let mut line = LineText::new();
    push_bytes(&mut line, word);
    push_number(&mut line, first);
    line.push(b' ');
    push_number(&mut line, second);
    line.push(b'\n');
    line
}

/// The line of a unit.
pub(crate) fn unit_line(unit: &UnitLine) -> LineText
    requires { IsUnitLine unit.now }
    ensures { result.items ≡ unit_line_spec unit.now }
{
    let mut line = LineText::new();
    push_bytes(&mut line, b"unit ");
    push_bytes(&mut line, unit.name.as_str().as_bytes());
    line.push(b' ');
    push_number(&mut line, usize::from(unit.bytes));
    line.push(b' ');
    push_number(&mut line, usize::from(unit.period));
    line.push(b'\n');
    line
}
