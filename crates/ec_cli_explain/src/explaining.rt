//! What a refusal means, and what to do after a search.

ghost use Rattle.std.specs.Prelude.{◌≡◌, ◌↔◌, true, All, IfOk, IfSome, IsAscii, IsTrue, string_bytes};
ghost use Rattle.ec_cli_explain.specs.IsPlain.{IsPlain};
ghost use Rattle.ec_cli_explain.specs.IsShown.{IsShown};
ghost use Rattle.ec_cli_explain.specs.AreAscii.{AreAscii, HasAsciiPath};

use crate::plain::{plain_text, shown_text};
use crate::telling::remarks;
use ec_cli_refusals::Refusal;
use ec_cli_search_hints::{Asked, Cycle, Filed, Found, counsel};
use ec_cli_spots::Inputs;
use std::alloc::{AllocError, Global};

/// Whether a path, if there is one, is ASCII.
fn is_ascii(path: Option<&str>) -> bool
    ensures { IsTrue result ↔ IfSome path.entry (λ p. IsAscii p.now) }
{
    path.is_none_or(|path| path.is_ascii())
}

/// Whether the units and the path that a refusal is told of are ASCII.
fn are_ascii(inputs: &Inputs<'_>) -> bool
    ensures { IsTrue result ↔ AreAscii inputs.now }
{
    inputs.units.is_ascii() && is_ascii(inputs.cert_path)
}

/// Whether the paths of a certificate, of its units and of their places, if they are told, are ASCII.
fn has_ascii_path(filed: Filed<'_>) -> bool
    ensures { IsTrue result ↔ HasAsciiPath filed.entry }
{
    match filed {
        Filed::There(cert) => {
            cert.path.is_ascii() && is_ascii(cert.units) && is_ascii(cert.again.places)
        }
        Filed::Unasked | Filed::Missing | Filed::TooLarge => true,
    }
}

/// The lines of a text, with nothing but printable ASCII in them where that is asked for.
#[tactic(auto, using(crate::proofs::ShownLemmas::shown_plain))]
fn laid_out(alloc: Global, text: &str, is_plain: bool) -> Result<String, AllocError>
    ensures shown { IfOk result (λ out. IsShown (string_bytes out)) }
    ensures plain { is_plain ≡ true → IfOk result (λ out. All IsPlain (string_bytes out)) }
{
    if is_plain {
        plain_text(alloc, text)
    } else {
        shown_text(alloc, text)
    }
}

/// What a refusal means, in a few sentences for a person, each a line: which unit, slave, key, value or line of the
/// certificate it is, where it stands in the file, what would be right, and what was likely meant.
///
/// Whatever the inputs hold, the text has no control character but line feeds, and where the units and the path are ASCII, it
/// has nothing but that: of another byte its number is told, as `\x1b`. A line has at most 160 columns, but for one that has a
/// path alone; what is longer is cut. Where the inputs aren't those of the refusal, or are missing, less is told. Only want of
/// memory is an error (own profile).
pub fn explain(alloc: Global, refusal: &Refusal, inputs: &Inputs<'_>) -> Result<String, AllocError>
    ensures shown { IfOk result (λ text. IsShown (string_bytes text)) }
    ensures plain { AreAscii inputs.now → IfOk result (λ text. All IsPlain (string_bytes text)) }
{
    let text = remarks(alloc, refusal, inputs)?;
    laid_out(alloc, text.as_str(), are_ascii(inputs))
}

/// What to do after a search, or after certificates were merged, in a few sentences, each a line. Of an end without a proof:
/// what the plan is good for, what is proved of every plan, what would help, by what was asked for, and how one goes on from it.
/// Of any: whether the plan fits into its ticks, what would make room where there is none, and that its certificate, if one was
/// written, has more than the 67,108,864 bytes that are read again. Less where the cycle of the line isn't known.
///
/// Whatever the paths hold, the text has no control character but line feeds, and where they are ASCII nothing but that, as
/// `explain` says it. Only want of memory is an error (own profile).
pub fn advice(
    alloc: Global,
    found: Found,
    cycle: Option<Cycle<'_>>,
    filed: Filed<'_>,
    asked: Asked,
) -> Result<String, AllocError>
    ensures shown { IfOk result (λ told. IsShown (string_bytes told)) }
    ensures plain { HasAsciiPath filed.entry → IfOk result (λ told. All IsPlain (string_bytes told)) }
{
    let sentences = counsel(alloc, found, cycle, filed, asked)?;
    laid_out(alloc, sentences.as_str(), has_ascii_path(filed))
}
