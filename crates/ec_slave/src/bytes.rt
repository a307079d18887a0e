//! Bytes put in place of others.

ghost use Rattle.std.specs.Prelude.{◌≡◌, ◌+◌, ◌≤◌, length};
ghost use Rattle.byteorder.specs.Endian.{little_bytes};
ghost use Rattle.ec_slave.specs.Access.{put};

use byteorder::{ByteOrder, LittleEndian};

/// Puts bytes in place of those from `at` on.
pub(crate) fn put(list: &mut [u8], at: usize, bytes: &[u8])
    requires { at + length bytes.now ≤ length list.old }
    ensures { list.new ≡ put at bytes.now list.old }
{
    list[at..at + bytes.len()].copy_from_slice(bytes);
}

/// Puts a number of 16 bits, the lowest byte first, in place of the two bytes from `at` on.
pub(crate) fn put_u16(list: &mut [u8], at: usize, number: u16)
    requires { at + 2 ≤ length list.old }
    ensures { list.new ≡ put at (little_bytes 2 number) list.old }
{
    let mut bytes = [0u8; 2];
    LittleEndian::write_u16(&mut bytes, number);
    put(list, at, &bytes);
}
