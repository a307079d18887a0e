//! What the lines of a certificate say before its tree.

/// Before its tree a certificate has at most so many bytes: those of 48 units and of their places.
pub const MOST_HEAD: u64 = 8192;

/// How the line begins that says the level, a number, of a certificate without a proof.
const LEVEL: &[u8] = b"\nlevel ";

/// The line behind which the nodes stand.
const TREE: &[u8] = b"\ntree\n";

/// How the line begins behind those of the units.
const ORDER: &[u8] = b"\norder ";

/// Whether a certificate that begins with these bytes has a level, and so is no proof (own profile).
pub fn has_level(front: &[u8]) -> bool {
    front.windows(LEVEL.len() + 1).any(|words| words.starts_with(LEVEL)
        && words.last().is_some_and(|byte| byte.is_ascii_digit()))
}

/// Whether it has no level before its tree, and so is a proof (own profile).
pub fn is_proof(front: &[u8]) -> bool {
    !has_level(front) && front.windows(TREE.len()).any(|words| words == TREE)
}

/// What it says of its line: all between its first line and that of the order of the units. None where the bytes end before that.
pub(crate) fn units_said(front: &[u8]) -> Option<&[u8]> {
    let begin = front.iter().position(|byte| *byte == b'\n')?;
    let said = &front[begin..];
    let end = said.windows(ORDER.len()).position(|part| part == ORDER)?;
    Some(&said[..end])
}
