//! The reader of a unit text.

ghost use Rattle.std.specs.Prelude.{◌≡◌, ◌≢◌, IfOk, IfErr};
ghost use Rattle.toml.specs.View.{table_view};
ghost use Rattle.ec_unit_text.specs.Reading.{document, told, reading, Gives, IsValidText, SaysUnits, IsLeastFault};
ghost use Rattle.ec_units.specs.Views.{units_view};

use crate::build::units_of_document;
use crate::fault::UnitFault;
use crate::walk::first_fault;
use ec_units::Units;
use std::alloc::Global;
use toml::Table;

/// The most bytes of a unit text that are read (own profile).
pub const MOST_BYTES: usize = 1_048_576;

/// The document that bytes are.
fn document_of(alloc: Global, text: &[u8]) -> Result<Table, UnitFault>
    ensures { Gives table_view result (told (document text.now)) }
{
    match toml::table_from_slice(alloc, text) {
        Ok(top) => Ok(top),
        Err(e) if e.is_memory() => Err(UnitFault::OutOfMemory),
        Err(_) => Err(UnitFault::NotToml),
    }
}

/// The units of a text, or its least fault.
#[tactic(auto, unfolding(crate::specs::Reading::reading))]
fn units_from(alloc: Global, text: &[u8]) -> Result<Units, UnitFault>
    ensures { Gives units_view result (reading text.now) }
{
    let top = document_of(alloc, text)?;
    match first_fault(&top) {
        Some(fault) => Err(fault),
        None => Ok(units_of_document(alloc, &top)?),
    }
}

/// The units that a unit text says, or the least fault that it has: by its number, then by its place, where
/// the top table comes first, then each unit, each followed by its slaves, and in a table the keys in their
/// order (own profile).
///
/// A text is TOML. Its top table has `tick_ns`, in ns, and `slots`, integers, and `unit`, an array of tables.
/// A unit has `name`, a string, `period`, in ticks, and `slave`, an array of tables; it may have `phase`, in
/// ticks, and `slot`. A slave has `station`, `out_bytes` and `in_bytes`, and may have `out_at` and `in_at`, the
/// addresses of its areas, else 4096 and 8192. `OutOfMemory` may come in place of any other answer.
pub fn read_units(alloc: Global, text: &[u8]) -> Result<Units, UnitFault>
    ensures reads { Gives units_view result (reading text.now) }

    // Ok for valid texts alone, with their units.
    ensures valid { IfOk result (λ _. IsValidText text.now) }
    ensures units { IfOk result (λ u. SaysUnits (document text.now) (units_view u)) }

    // A fault for other texts alone, their least one; want of memory aside.
    ensures invalid { IfErr result (λ f. f ≢ UnitFault.OutOfMemory → ¬ IsValidText text.now) }
    ensures least { IfErr result (λ f. f ≢ UnitFault.OutOfMemory → IsLeastFault (document text.now) f) }
{
    units_from(alloc, text)
}
