//! A line and its parts.

ghost use Rattle.std.specs.Prelude.{◌≡◌, ℕ, ◌+◌, ◌<◌, ◌≤◌, ◌++◌, length};
ghost use Rattle.std.specs.Fmt.{decimal};

use arrayvec::ArrayVec;

/// A line of at most 96 bytes, which takes no memory: room for the longest lines of a certificate, those of its
/// units, and for each line that refuses.
pub type LineText = ArrayVec<u8, 96>;

/// Adds bytes, for which there is room.
pub fn push_bytes(line: &mut LineText, bytes: &[u8])
    requires { length line.old.items + length bytes.now ≤ 96 }
    ensures items { line.new.items ≡ line.old.items ++ bytes.now }
    ensures len { length line.new.items ≡ length line.old.items + length bytes.now }
{
    for byte in bytes {
        line.push(*byte);
    }
}

#[tactic(auto, using(crate::proofs::DecimalLemmas::digits_step))]
fn push_decimal(line: &mut LineText, number: usize)
    requires { length line.old.items + length (decimal number) ≤ 96 }
    ensures { line.new.items ≡ line.old.items ++ decimal number }
{
    if number < 10 {
        line.push(b'0' + number as u8);
        return;
    }
    push_decimal(line, number / 10);
    line.push(b'0' + (number % 10) as u8);
}

/// Adds the decimal digits of a number, at most 20, for which there is room.
#[tactic(auto, using(crate::proofs::DecimalLemmas::digits_fit))]
pub fn push_number(line: &mut LineText, number: usize)
    requires { length line.old.items + 20 ≤ 96 }
    ensures items { line.new.items ≡ line.old.items ++ decimal number }
    ensures len { length line.new.items ≤ length line.old.items + 20 }
{
    push_decimal(line, number);
}
