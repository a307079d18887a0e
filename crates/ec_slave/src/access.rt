//! Commands that address a slave by its position, by its station or by broadcast.

ghost use Rattle.std.specs.Prelude.{◌≡◌, ℕ, ◌+◌, ◌≤◌, ◌<◌, length, take, drop, unwrap_or, if◌then◌else◌};
ghost use Rattle.ec_slave.specs.Access.{put, merged, reading, is_within, access_gain, accessed, is_addressed, station_of};

use crate::bytes::put;
use crate::request::Request;
use byteorder::{ByteOrder, LittleEndian};
use ec_frames::AddressKind;

/// Where in the memory the number of the slave's station stands (ETG.1000.4, clause 6.1).
const STATION: usize = 0x0010;

/// The number of the slave's station, in the memory as it is now.
fn station_of(memory: &[u8]) -> u16
    requires { 18 ≤ length memory.now }
    ensures { result ≡ station_of memory.now }
{
    LittleEndian::read_u16(&memory[STATION..])
}

/// Whether a slave with this memory is addressed.
pub(crate) fn is_addressed(kind: AddressKind, memory: &[u8], address: u32) -> bool
    requires { 18 ≤ length memory.now }
    ensures { result ≡ is_addressed kind memory.now address }
{
    let low = (address % 65536) as u16;
    match kind {
        AddressKind::None => false,
        AddressKind::Position => low == 0,
        AddressKind::Station => low == station_of(memory),
        AddressKind::Broadcast => true,
        AddressKind::Logical => false,
    }
}

/// Puts into the data the bytes that came, each joined by `or` with the byte of the memory.
fn merge(field: &mut [u8], bytes: &[u8], memory: &[u8], offset: usize)
    requires same { length field.old ≡ length bytes.now }
    requires within { offset + length bytes.now ≤ length memory.now }
    ensures { field.new ≡ merged bytes.now memory.now offset }
{
    for k in 0..field.len() {
        field[k] = bytes[k] | memory[offset + k];
    }
}

/// Puts into the data what a read gives.
fn read_out(field: &mut [u8], bytes: &[u8], memory: &[u8], offset: usize, kind: AddressKind)
    requires same { length field.old ≡ length bytes.now }
    requires within { offset + length bytes.now ≤ length memory.now }
    ensures { field.new ≡ reading kind memory.now offset bytes.now }
{
    match kind {
        AddressKind::Broadcast => merge(field, bytes, memory, offset),
        _ => field.copy_from_slice(&memory[offset..offset + bytes.len()]),
    }
}

/// Puts into the data what a read gives, if one is asked for.
fn reply(field: &mut [u8], bytes: &[u8], memory: &[u8], offset: usize, request: Request)
    requires same { length field.old ≡ length bytes.now }
    requires within { offset + length bytes.now ≤ length memory.now }
    ensures { field.new ≡ (if request.reads then reading request.kind memory.now offset bytes.now else field.old) }
{
    if request.reads {
        read_out(field, bytes, memory, offset, request.kind);
    }
}

/// Puts the bytes that came into the memory, if a write is asked for.
fn store(memory: &mut [u8], offset: usize, bytes: &[u8], writes: bool)
    requires { offset + length bytes.now ≤ length memory.old }
    ensures { memory.new ≡ (if writes then put offset bytes.now memory.old else memory.old) }
{
    if writes {
        put(memory, offset, bytes);
    }
}

/// What the working counter gains.
fn gain_of(request: Request) -> u16
    ensures { result ≡ access_gain request.reads request.writes }
{
    if request.reads && request.writes {
        return 3;
    }
    if request.reads || request.writes {
        return 1;
    }
    0
}

/// Does what is asked of the memory from an offset on, with the bytes that came: puts a reply into the data and gives what
/// the working counter gains. Nothing is done where there is no byte, or one past the end of the memory.
pub(crate) fn access(
    memory: &mut [u8],
    field: &mut [u8],
    bytes: &[u8],
    offset: u16,
    request: Request,
) -> u16
    requires { length field.old ≡ length bytes.now }
    ensures memory { memory.new ≡ (accessed request memory.old offset bytes.now).memory }
    ensures reply { field.new ≡ unwrap_or (accessed request memory.old offset bytes.now).reply field.old }
    ensures gain { result ≡ (accessed request memory.old offset bytes.now).gain }
{
    let offset = usize::from(offset);
    if bytes.is_empty() || memory.len() < offset + bytes.len() {
        return 0;
    }
    reply(field, bytes, memory, offset, request);
    store(memory, offset, bytes, request.writes);
    gain_of(request)
}
