//! Numbers with their nouns.

ghost use Rattle.std.specs.Prelude.{Some};
ghost use Rattle.ec_text_builder.specs.Amount.{amount_text};

use std::fmt;

/// So many of what a noun names, the noun in English: `1 unit`, `2 units`. Its plural is made by an `s`.
#[derive(Clone, Copy)]
pub struct Amount<'a>(pub u64, pub &'a str);

impl fmt::Display for Amount<'_> {
    ghost output = { λ c. Some (amount_text c.0 c.1.now) };

    fn fmt<W: fmt::Write>(&self, f: &mut fmt::Formatter<W>) -> fmt::Result {
        let Amount(count, noun) = self;
        if *count == 1 {
            write!(f, "{count} {noun}")
        } else {
            write!(f, "{count} {noun}s")
        }
    }
}
