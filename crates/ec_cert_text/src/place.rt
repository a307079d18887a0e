//! Places in a text.

ghost use Rattle.std.specs.Prelude.{◌+◌, ◌^◌, ◌<◌, length};

/// A place in a text: the number of the next line, and the bytes from it on.
#[derive(Clone, Copy, Debug)]
pub(crate) struct TextPlace<'a> {
    pub(crate) line: u32,
    pub(crate) rest: &'a [u8],
    ghost fits: { line + length rest.now < 2 ^ 32 },
}
