//! Logical commands, through the FMMUs.

ghost use Rattle.std.specs.Prelude.{◌≡◌, ℕ, ◌+◌, ◌≤◌, ◌<◌, ◌&&◌, length, get_or, unwrap_or, if◌then◌else◌};
ghost use Rattle.ec_slave.specs.declared.fmmu.Direction.{Direction};
ghost use Rattle.ec_slave.specs.Fmmus.{place_of};
ghost use Rattle.ec_slave.specs.Logical.{byte_at, read_from, sent_to, written_to, meets, mapped_gain, mapped, mapped_by};
ghost use Rattle.ec_slave.specs.IsStretch.{maps};

use crate::bytes::put;
use crate::fmmu::{Direction, Fmmu, Fmmus, fmmus_in};
use crate::request::Request;

/// Puts into the data each byte of the memory to which one FMMU maps its logical byte, and tells whether there is one.
fn read_through(fmmu: Fmmu, field: &mut [u8], memory: &[u8], address: u32) -> bool
    requires { length field.old < 65536 }
    ensures field { (k : ℕ) → k < length field.old → get_or field.new k 0 ≡ byte_at (place_of fmmu (length memory.now) Direction.Reads (address + k)) memory.now (get_or field.old k 0) }
    ensures met { result ≡ maps fmmu (length memory.now) Direction.Reads address (length field.old) }
{
    let stretch = fmmu.stretch(memory.len(), Direction::Reads, address, field.len());
    let bytes = &memory[stretch.place..stretch.place + stretch.len];
    put(field, stretch.from, bytes);
    stretch.len != 0
}

/// Puts into the data each byte of the memory that its logical byte meets, else the byte that came, and tells whether one meets
/// the map.
fn read_from(fmmus: Fmmus, field: &mut [u8], bytes: &[u8], memory: &[u8], address: u32) -> bool
    requires same { length field.old ≡ length bytes.now }
    requires short { length bytes.now < 65536 }
    ensures field { field.new ≡ read_from fmmus memory.now address bytes.now }
    ensures met { result ≡ meets fmmus (length memory.now) Direction.Reads address (length bytes.now) }
{
    field.copy_from_slice(bytes);
    let first = read_through(fmmus.first, field, memory, address);
    let second = read_through(fmmus.second, field, memory, address);
    first | second
}

/// Puts each byte that came into the memory where one FMMU maps its logical byte, and tells whether there is one.
fn write_through(fmmu: Fmmu, memory: &mut [u8], bytes: &[u8], address: u32) -> bool
    requires { length bytes.now < 65536 }
    ensures memory { (m : ℕ) → get_or memory.new m 0 ≡ byte_at (sent_to fmmu (length memory.old) address (length bytes.now) m) bytes.now (get_or memory.old m 0) }
    ensures met { result ≡ maps fmmu (length memory.old) Direction.Writes address (length bytes.now) }
{
    let stretch = fmmu.stretch(memory.len(), Direction::Writes, address, bytes.len());
    let sent = &bytes[stretch.from..stretch.from + stretch.len];
    put(memory, stretch.place, sent);
    stretch.len != 0
}

/// Puts each byte that came into the memory where the FMMUs map its logical byte, through FMMU 1 last, and tells whether one
/// meets the map.
fn write_to(fmmus: Fmmus, memory: &mut [u8], bytes: &[u8], address: u32) -> bool
    requires { length bytes.now < 65536 }
    ensures memory { memory.new ≡ written_to fmmus memory.old address bytes.now }
    ensures met { result ≡ meets fmmus (length memory.old) Direction.Writes address (length bytes.now) }
{
    let first = write_through(fmmus.first, memory, bytes, address);
    let second = write_through(fmmus.second, memory, bytes, address);
    first | second
}

/// What the working counter gains.
fn gain_of(request: Request, met_read: bool, met_write: bool) -> u16
    ensures { result ≡ mapped_gain request met_read met_write }
{
    let read = if request.reads && met_read { 1 } else { 0 };
    let write = if request.reads { 2 } else { 1 };
    if request.writes && met_write {
        read + write
    } else {
        read
    }
}

/// Puts a reply into the field, if one is asked for, and tells whether a byte is read.
fn reply(
    fmmus: Fmmus,
    field: &mut [u8],
    bytes: &[u8],
    memory: &[u8],
    address: u32,
    reads: bool,
) -> bool
    requires same { length field.old ≡ length bytes.now }
    requires short { length bytes.now < 65536 }
    ensures field { field.new ≡ (if reads then read_from fmmus memory.now address bytes.now else field.old) }
    ensures met { result ≡ (reads && meets fmmus (length memory.now) Direction.Reads address (length bytes.now)) }
{
    if !reads {
        return false;
    }
    read_from(fmmus, field, bytes, memory, address)
}

/// Puts the bytes that came into the memory, if a write is asked for, and tells whether a byte is written.
fn store(fmmus: Fmmus, memory: &mut [u8], bytes: &[u8], address: u32, writes: bool) -> bool
    requires { length bytes.now < 65536 }
    ensures memory { memory.new ≡ (if writes then written_to fmmus memory.old address bytes.now else memory.old) }
    ensures met { result ≡ (writes && meets fmmus (length memory.old) Direction.Writes address (length bytes.now)) }
{
    if !writes {
        return false;
    }
    write_to(fmmus, memory, bytes, address)
}

/// Does what a logical command asks, with the bytes that came, by the FMMUs that the memory holds: puts a reply into the data
/// and gives what the working counter gains.
pub(crate) fn access_logical(
    memory: &mut [u8],
    field: &mut [u8],
    bytes: &[u8],
    address: u32,
    request: Request,
) -> u16
    requires size { 1568 ≤ length memory.old }
    requires same { length field.old ≡ length bytes.now }
    requires short { length bytes.now < 65536 }
    ensures memory { memory.new ≡ (mapped request memory.old address bytes.now).memory }
    ensures reply { field.new ≡ unwrap_or (mapped request memory.old address bytes.now).reply field.old }
    ensures gain { result ≡ (mapped request memory.old address bytes.now).gain }
{
    let fmmus = fmmus_in(memory);
    let read = reply(fmmus, field, bytes, memory, address, request.reads);
    let written = store(fmmus, memory, bytes, address, request.writes);
    gain_of(request, read, written)
}
