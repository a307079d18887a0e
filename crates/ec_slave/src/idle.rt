//! Frames that pass a slave which maps no byte of them.

ghost use Rattle.std.specs.Prelude.{◌≡◌, ◌+◌, ◌≤◌, ◌<◌, ◌&&◌, true, length};
ghost use Rattle.std.specs.List.{list_all};
ghost use Rattle.ec_frames.specs.EntryViews.{entry};
ghost use Rattle.ec_slave.specs.Idle.{is_logical, is_unmet, is_idle};
ghost use Rattle.ec_slave.specs.Step.{slave_step, extent};

use crate::fmmu::{Direction, fmmus_in};
use crate::request::{Request, request_of};
use ec_frames::{AddressKind, Parsed, View, datagrams, parse};

fn is_logical(kind: AddressKind) -> bool
    ensures { result ≡ is_logical kind }
{
    match kind {
        AddressKind::Logical => true,
        _ => false,
    }
}

/// Whether no byte is read, and none written, by a logical command with so many bytes from an address on.
fn is_unmet(request: Request, memory: &[u8], address: u32, count: usize) -> bool
    requires size { 1568 ≤ length memory.now }
    requires short { count < 65536 }
    ensures { result ≡ is_unmet request memory.now address count }
{
    let fmmus = fmmus_in(memory);
    let size = memory.len();
    if request.reads && fmmus.meets(size, Direction::Reads, address, count) {
        return false;
    }
    !(request.writes && fmmus.meets(size, Direction::Writes, address, count))
}

/// Whether a datagram asks nothing, or is a logical one that meets nothing.
#[tactic(auto, unfolding(crate::specs::Idle::is_idle))]
fn is_idle(memory: &[u8], view: &View<'_>) -> bool
    requires size { 1568 ≤ length memory.now }
    requires short { length (entry view.now).bytes < 65536 }
    ensures { result ≡ is_idle memory.now (entry view.now) }
{
    match request_of(view.command) {
        Some(request) => {
            is_logical(request.kind) && is_unmet(request, memory, view.address, view.bytes.len())
        }
        None => true,
    }
}

/// Whether all datagrams of a frame are idle.
fn are_idle(memory: &[u8], parsed: &Parsed<'_>) -> bool
    requires size { 1568 ≤ length memory.now }
    requires short { extent parsed.now < 65536 }
    ensures { result ≡ list_all (is_idle memory.now) parsed.now }
{
    let mut views = datagrams(parsed);
    'datagrams: while let Some(view) = views.next() {
        if !is_idle(memory, &view) {
            return false;
        }
    }
    true
}

/// Whether a frame passes and changes nothing, as is seen without a copy of it.
pub(crate) fn leaves(memory: &[u8], frame: &[u8]) -> bool
    requires size { 1568 ≤ length memory.now }
    requires short { length frame.now < 65536 }
    ensures { result ≡ true → slave_step memory.now frame.now ≡ (memory.now, frame.now) }
{
    match parse(frame) {
        Ok(parsed) => are_idle(memory, &parsed),
        Err(_) => false,
    }
}
