//! Bytes as hex digits.

ghost use Rattle.std.specs.Prelude.{◌≡◌, ◌++◌, string_bytes, OnOk};
ghost use Rattle.ec_frame_text.specs.Hex.{hex};

use std::alloc::AllocError;
use std::fmt::Write;

/// Adds two digits for each byte, in lower case.
#[tactic(auto, using(std::proofs::lemmas::Fmt::hex_byte))]
pub(crate) fn push_hex(text: &mut String, bytes: &[u8]) -> Result<(), AllocError>
    ensures { OnOk result (string_bytes text.new ≡ string_bytes text.old ++ hex bytes.now) }
{
    for byte in bytes {
        write!(text, "{byte:02x}")?;
    }
    Ok(())
}
