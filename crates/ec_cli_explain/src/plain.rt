//! Text that a terminal can be given, whatever it was made of.

ghost use Rattle.std.specs.Prelude.{All, IfOk, string_bytes};
ghost use Rattle.ec_cli_explain.specs.IsPlain.{IsPlain};
ghost use Rattle.ec_cli_explain.specs.IsShown.{IsShown};

use crate::sheet::Sheet;
use std::alloc::{AllocError, Global};

/// What is told for a byte: itself where it is printable ASCII or a line feed, else `?`.
fn plain_byte(byte: u8) -> u8
    ensures { IsPlain result }
{
    match byte {
        b'\n' | 0x20..=0x7e => byte,
        _ => b'?',
    }
}

/// The lines of a text as `Sheet` lays them out, with no control character but line feeds; `?` stands for any other. Only want of
/// memory is an error (own profile).
pub fn shown_text(alloc: Global, text: &str) -> Result<String, AllocError>
    ensures { IfOk result (λ out. IsShown (string_bytes out)) }
{
    let mut sheet = Sheet::new(alloc);
    for line in text.lines() {
        sheet.add_line(line)?;
    }
    Ok(sheet.finish())
}

/// The same with nothing in it but line feeds and printable ASCII; `?` stands for a byte of anything else.
pub fn plain_text(alloc: Global, text: &str) -> Result<String, AllocError>
    ensures { IfOk result (λ out. All IsPlain (string_bytes out)) }
{
    let shown = shown_text(alloc, text)?;
    let mut out = String::new(alloc);
    for byte in shown.as_str().bytes() {
        out.push(char::from(plain_byte(byte)))?;
    }
    Ok(out)
}
