//! The part of a resumed search.

ghost use Rattle.std.specs.Prelude.{◌≡◌, IfSome};
ghost use Rattle.ec_cli_words.specs.Parts.{HasPartOf, IsPartIn, PartFits};
ghost use Rattle.ec_cli_words.specs.Trials.{number_in};

use clap::ArgMatches;
use ec_cert::Part;

/// The number that a text says, if it is one of 16 bits.
fn number_of(text: &str) -> Option<u16>
    ensures { IfSome result (λ number. number ≡ number_in text.now) }
{
    text.parse::<u16>().ok()
}

/// The part that a text says as I/N, where 1 <= I <= N <= 10,000: part N has the index 0.
fn part_in(text: &str) -> Option<Part>
    ensures fits { IfSome result PartFits }
    ensures said { IfSome result (IsPartIn text.now) }
{
    let (first, second) = text.split_once('/')?;
    let number = number_of(first)?;
    let count = number_of(second)?;
    if number < 1 || number > count || count > 10_000 {
        return None;
    }
    Some(Part {
        index: number % count,
        count,
    })
}

/// The part of a resumed search, which is the whole where no option says another; none of a word that says no part.
pub(crate) fn part_of(matches: &ArgMatches<'_>) -> Option<Part>
    ensures fits { IfSome result PartFits }
    ensures said { IfSome result (HasPartOf matches.now) }
{
    match matches.get_str("part") {
        Some(text) => part_in(text),
        None => Some(Part::whole()),
    }
}
