//! Words and numbers of a line.

ghost use Rattle.std.specs.Prelude.{◌≡◌, ℕ, ◌+◌, ◌<◌, ◌≤◌, length, option_map, IfOk, IfSome};
ghost use Rattle.ec_cert_text.specs.Reading.{cut, number_in, pair_in, is_number as is_number_spec};

/// What is wrong with a line.
#[derive(Clone, Copy, Debug, PartialEq, Eq)]
pub(crate) enum Wrong {
    /// It is not of the kind that is due.
    Words,
    /// A number has a leading zero or is out of range.
    Number,
}

/// The bytes before the first such byte, and those after it.
pub(crate) fn cut_at(byte: u8, text: &[u8]) -> Option<(&[u8], &[u8])>
    ensures parts { option_map (λ x. (x.0.now, x.1.now)) result ≡ cut byte text.now }
    ensures len { IfSome result (λ x. length x.0.now + length x.1.now + 1 ≡ length text.now) }
{
    for (i, b) in text.iter().enumerate() {
        if *b == byte {
            return Some((&text[..i], &text[i + 1..]));
        }
    }
    None
}

/// Whether a word is one digit or more, and nothing else.
pub(crate) fn is_number(word: &[u8]) -> bool
    ensures { result ≡ is_number_spec word.now }
{
    if word.is_empty() {
        return false;
    }
    for byte in word {
        if *byte < b'0' || b'9' < *byte {
            return false;
        }
    }
    true
}

/// The number that a word is, in a range.
#[tactic(auto, unfolding(crate::specs::Reading::number_in))]
pub(crate) fn number(low: u32, high: u32, word: &[u8]) -> Result<u32, Wrong>
    requires { high < 1000000 }
    ensures value { result ≡ number_in low high word.now }
    ensures range { IfOk result (λ n. (low ≤ n) × (n ≤ high)) }
{
    if word.is_empty() {
        return Err(Wrong::Words);
    }
    let mut value = 0;
    for byte in word {
        if *byte < b'0' || b'9' < *byte {
            return Err(Wrong::Words);
        }
        value = (10 * value + u32::from(*byte - b'0')).min(1_000_000);
    }
    if (word[0] == b'0' && 1 < word.len()) || value < low || high < value {
        return Err(Wrong::Number);
    }
    Ok(value)
}

/// The two numbers that two words are, each in its range.
#[tactic(auto, unfolding(crate::specs::Reading::pair_in))]
pub(crate) fn pair(low: u32, high: (u32, u32), text: &[u8]) -> Result<(u32, u32), Wrong>
    requires first { high.0 < 1000000 }
    requires second { high.1 < 1000000 }
    ensures value { result ≡ pair_in low high.0 high.1 text.now }
    ensures range { IfOk result (λ n. (n.0 ≤ high.0) × (n.1 ≤ high.1)) }
{
    match cut_at(b' ', text) {
        Some((first, second)) if is_number(second) => {
            let first = number(low, high.0, first)?;
            let second = number(low, high.1, second)?;
            Ok((first, second))
        }
        _ => Err(Wrong::Words),
    }
}
