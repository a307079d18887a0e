//! Whether units are of one line, by their names (own profile).

ghost use Rattle.std.specs.Prelude.{◌≡◌, ◌≤◌, ◌++◌, ◌↔◌, map, length, IfOk, OnOk};
ghost use Rattle.ec_units.specs.Together.{names_of};
ghost use Rattle.ec_cli_files.specs.Names.{
  AreOfOtherLines,
  name_in,
  names_in as names_in_spec,
  shared as shared_spec,
  word_of as word_of_spec,
};

use ec_units::Units;
use std::alloc::{AllocError, Global};

/// How the units that stand at a path differ from those of a run.
#[derive(Clone, Copy, Debug, PartialEq, Eq)]
pub enum Others {
    /// They are of the same line, of which something was changed.
    Units,
    /// They are of another line.
    Line,
}

/// How many of the first names stand among the others.
fn shared(these: &[&[u8]], those: &[&[u8]]) -> usize
    ensures value { result ≡ shared_spec (map (λ n. n.now) these.now) (map (λ n. n.now) those.now) }
{
    let mut count = 0;
    for name in these {
        if (&*those).contains(name) {
            count += 1;
        }
    }
    count
}

/// How units with these names differ from other ones with those: they are of another line where less than half of the fewer have names
/// that both have.
pub fn others_by(these: &[&[u8]], those: &[&[u8]]) -> Others
    ensures { result ≡ Others.Line ↔ AreOfOtherLines (map (λ n. n.now) these.now) (map (λ n. n.now) those.now) }
{
    if shared(&*these, &*those).saturating_mul(2) < these.len().min(those.len()) {
        Others::Line
    } else {
        Others::Units
    }
}

/// What stands before the first blank.
fn word_of(bytes: &[u8]) -> &[u8]
    ensures { result.now ≡ word_of_spec bytes.now }
{
    for i in 0..bytes.len() {
        if bytes[i] == b' ' {
            return &bytes[..i];
        }
    }
    bytes
}

/// Adds the name of the unit that a line of a certificate is of, if it is of one.
fn push_name<'a>(names: &mut Vec<&'a [u8]>, line: &'a [u8]) -> Result<(), AllocError>
    ensures { OnOk result (map (λ n. n.now) names.new.items ≡ map (λ n. n.now) names.old.items ++ name_in line.now) }
{
    if line.starts_with(b"unit ") {
        names.push(word_of(&line[5..]))?;
    }
    Ok(())
}

/// The names of the units of a certificate that begins with these bytes; none where it doesn't begin as one.
pub fn names_in<'a>(alloc: Global, front: &'a [u8]) -> Result<Vec<&'a [u8]>, AllocError>
    ensures { IfOk result (λ names. map (λ n. n.now) names.items ≡ names_in_spec front.now) }
{
    let mut names = Vec::new(alloc);
    if !front.starts_with(b"ecplan ") {
        return Ok(names);
    }
    for line in front.split(|byte| *byte == b'\n') {
        push_name(&mut names, line)?;
    }
    Ok(names)
}

/// The names of units.
pub fn unit_names(alloc: Global, units: &Units) -> Result<Vec<&[u8]>, AllocError>
    ensures { IfOk result (λ names. map (λ n. n.now) names.items ≡ names_of units.now.units) }
{
    let mut names = Vec::new(alloc);
    for unit in units.units.as_slice() {
        names.push(unit.name.as_str().as_bytes())?;
    }
    Ok(names)
}
