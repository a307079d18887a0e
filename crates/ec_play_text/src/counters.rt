//! Working counters as text.

ghost use Rattle.std.specs.Prelude.{◌≡◌, ◌++◌, string_bytes, OnOk};
ghost use Rattle.ec_play_text.specs.Lines.{others, counters_text};

use std::alloc::AllocError;
use std::fmt::Write;

/// Adds counters, each behind a comma.
fn push_others(text: &mut String, counters: &[u16]) -> Result<(), AllocError>
    ensures { OnOk result (string_bytes text.new ≡ string_bytes text.old ++ others counters.now) }
{
    for counter in counters {
        write!(text, ",{counter}")?;
    }
    Ok(())
}

/// Adds counters with a comma between them, or `-` for none.
pub(crate) fn push_counters(text: &mut String, counters: &[u16]) -> Result<(), AllocError>
    ensures { OnOk result (string_bytes text.new ≡ string_bytes text.old ++ counters_text counters.now) }
{
    match counters.split_first() {
        None => text.push_str("-"),
        Some((first, rest)) => {
            write!(text, "{first}")?;
            push_others(text, rest)
        }
    }
}
