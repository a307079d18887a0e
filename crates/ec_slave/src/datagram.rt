//! One datagram, and the datagrams of a frame in order.

ghost use Rattle.std.specs.Prelude.{◌≡◌, ℕ, ◌+◌, ◌≤◌, ◌<◌, ◌%◌, length, unwrap_or, drop, take};
ghost use Rattle.ec_frames.specs.EntryViews.{entry};
ghost use Rattle.ec_slave.specs.Step.{effect_of, effect_at, raised, replied, counted, after_effect, datagram_step, datagrams_step, extent};

use crate::access::{access, is_addressed};
use crate::bytes::put_u16;
use crate::logical::access_logical;
use crate::request::{Request, request_of};
use ec_frames::{AddressKind, Parsed, View, datagrams};

/// Does what a datagram asks that names a slave and an offset into its memory.
fn access_at(memory: &mut [u8], field: &mut [u8], view: &View<'_>, request: Request) -> u16
    requires size { 1568 ≤ length memory.old }
    requires same { length field.old ≡ length (entry view.now).bytes }
    ensures memory { memory.new ≡ (effect_at request memory.old (entry view.now).address (entry view.now).bytes).memory }
    ensures reply { field.new ≡ unwrap_or (effect_at request memory.old (entry view.now).address (entry view.now).bytes).reply field.old }
    ensures gain { result ≡ (effect_at request memory.old (entry view.now).address (entry view.now).bytes).gain }
{
    if !is_addressed(request.kind, memory, view.address) {
        return 0;
    }
    let offset = (view.address / 65536) as u16;
    access(memory, field, view.bytes, offset, request)
}

/// Does what a datagram asks: changes the memory, puts a reply into the data, and gives what the working counter gains.
#[tactic(auto, unfolding(crate::specs::Step::effect_of))]
fn execute(memory: &mut [u8], field: &mut [u8], view: &View<'_>, request: Request) -> u16
    requires size { 1568 ≤ length memory.old }
    requires same { length field.old ≡ length (entry view.now).bytes }
    requires short { length (entry view.now).bytes < 65536 }
    ensures memory { memory.new ≡ (effect_of request memory.old (entry view.now).address (entry view.now).bytes).memory }
    ensures reply { field.new ≡ unwrap_or (effect_of request memory.old (entry view.now).address (entry view.now).bytes).reply field.old }
    ensures gain { result ≡ (effect_of request memory.old (entry view.now).address (entry view.now).bytes).gain }
{
    match request.kind {
        AddressKind::Logical => access_logical(memory, field, view.bytes, view.address, request),
        _ => access_at(memory, field, view, request),
    }
}

/// Counts up the position of a datagram that begins at `at`, if this kind of address has one.
fn raise(frame: &mut [u8], at: usize, kind: AddressKind, address: u32)
    requires { at + 12 ≤ length frame.old }
    ensures { frame.new ≡ raised kind at address frame.old }
{
    let position = (address % 65536) as u16;
    match kind {
        AddressKind::Position | AddressKind::Broadcast => put_u16(
            frame,
            at + 2,
            position.wrapping_add(1),
        ),
        _ => {}
    }
}

/// Adds to the working counter, which stands at `at` and is `counter` now.
fn count(frame: &mut [u8], at: usize, counter: u16, gain: u16)
    requires { at + 2 ≤ length frame.old }
    ensures { frame.new ≡ counted at counter gain frame.old }
{
    if gain != 0 {
        put_u16(frame, at, counter.wrapping_add(gain));
    }
}

/// Does a datagram, whose bytes begin at `at`, to the memory and the frame.
fn answer(memory: &mut [u8], frame: &mut [u8], at: usize, view: &View<'_>, request: Request)
    requires size { 1568 ≤ length memory.old }
    requires room { at + length (entry view.now).bytes + 12 ≤ length frame.old }
    requires short { length (entry view.now).bytes < 65536 }
    ensures memory { memory.new ≡ (effect_of request memory.old (entry view.now).address (entry view.now).bytes).memory }
    ensures frame { frame.new ≡ (after_effect at (entry view.now) request.kind (effect_of request memory.old (entry view.now).address (entry view.now).bytes) frame.old).1 }
{
    raise(frame, at, request.kind, view.address);
    let end = at + 10 + view.bytes.len();
    let gain = execute(memory, &mut frame[at + 10..end], view, request);
    count(frame, end, view.counter, gain);
}

/// Does a datagram, whose bytes begin at `at`, to the memory and the frame, if its command asks anything.
#[tactic(auto, unfolding(crate::specs::Step::datagram_step))]
fn step_datagram(memory: &mut [u8], frame: &mut [u8], at: usize, view: &View<'_>)
    requires size { 1568 ≤ length memory.old }
    requires room { at + length (entry view.now).bytes + 12 ≤ length frame.old }
    requires short { length (entry view.now).bytes < 65536 }
    ensures memory { memory.new ≡ (datagram_step at (entry view.now) (memory.old, frame.old)).0 }
    ensures frame { frame.new ≡ (datagram_step at (entry view.now) (memory.old, frame.old)).1 }
{
    if let Some(request) = request_of(view.command) {
        answer(memory, frame, at, view, request);
    }
}

/// Does the datagrams of a frame to the memory and the frame, in order.
pub(crate) fn step_datagrams(memory: &mut [u8], frame: &mut [u8], parsed: &Parsed<'_>)
    requires size { 1568 ≤ length memory.old }
    requires room { extent parsed.now + 16 ≤ length frame.old }
    requires short { length frame.old < 65536 }
    ensures memory { memory.new ≡ (datagrams_step 16 parsed.now (memory.old, frame.old)).0 }
    ensures frame { frame.new ≡ (datagrams_step 16 parsed.now (memory.old, frame.old)).1 }
{
    let mut views = datagrams(parsed);
    let mut at = 16;
    'datagrams: while let Some(view) = views.next() {
        step_datagram(memory, frame, at, &view);
        at += view.bytes.len() + 12;
    }
}
