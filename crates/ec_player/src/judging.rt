//! A frame that came back is judged by the frame that was sent.

ghost use Rattle.std.specs.Prelude.{◌≡◌, ◌↔◌, ℕ, ◌+◌, ◌<◌, ◌≤◌, true, false, [], length, map, get_or};
ghost use Rattle.ec_frames.specs.Parsing.{frame_read};
ghost use Rattle.ec_frames.specs.EntryViews.{entry};
ghost use Rattle.ec_slave.specs.Requests.{row_of};
ghost use Rattle.ec_slave.specs.Step.{extent, is_raised};
ghost use Rattle.ec_player.specs.Sent.{Sent};
ghost use Rattle.ec_player.specs.Faults.{is_open, is_reply_of, is_reply as is_reply_in, first_wrong as first_wrong_in, wrong_fault as wrong_fault_of, fault_of};

use crate::faults::{Stage, Wrong};
use ec_frames::{
    AddressKind, Command, Frame, FrameFault, Parsed, View, address_kind, datagrams, parse,
};
use ec_outcome::PlayFault;

/// What a frame is read as.
pub(crate) fn read(frame: &[u8]) -> Result<Parsed<'_>, FrameFault>
    ensures { result ≡ frame_read frame.now }
{
    parse(frame)
}

/// Whether a slave may change the position in datagrams of this command.
fn has_position(command: Command) -> bool
    ensures { result ≡ is_raised (row_of command).kind }
{
    match address_kind(command) {
        AddressKind::Position | AddressKind::Broadcast => true,
        _ => false,
    }
}

/// Whether two frames of one length have the same bytes from one place up to another, as far as they go.
fn are_same(sent: &[u8], back: &[u8], from: usize, to: usize) -> bool
    requires { length back.now ≡ length sent.now }
    ensures { (result ≡ true) ↔ ((k : ℕ) → from ≤ k → k < to → get_or back.now k 0 ≡ get_or sent.now k 0) }
{
    let end = to.min(sent.len());
    end <= from || sent[from..end] == back[from..end]
}

/// Whether a datagram that begins at `at` came back with all that no slave may change in it.
fn is_kept(sent: &[u8], back: &[u8], at: usize, view: &View<'_>) -> bool
    requires same { length back.now ≡ length sent.now }
    requires room { at + length (entry view.now).bytes + 12 ≤ 65535 }
    ensures { (result ≡ true) ↔ ((k : ℕ) → at ≤ k → k < at + (length (entry view.now).bytes + 12) → is_open at (entry view.now) k ≡ false →
        get_or back.now k 0 ≡ get_or sent.now k 0) }
{
    let address = if has_position(view.command) { 4 } else { 2 };
    are_same(sent, back, at, at + 2) && are_same(sent, back, at + address, at + 10)
}

/// Whether what came back is a reply to a frame with these datagrams.
#[tactic(auto, unfolding(crate::specs::Faults::is_reply_of))]
fn is_reply_to(parsed: &Parsed<'_>, sent: &[u8], back: &[u8]) -> bool
    requires { extent parsed.now ≤ 2047 }
    ensures { result ≡ is_reply_of parsed.now sent.now back.now }
{
    if back.len() != sent.len() {
        return false;
    }
    if !are_same(sent, back, 0, 16) {
        return false;
    }
    let mut views = datagrams(parsed);
    let mut at = 16;
    'datagrams: while let Some(view) = views.next() {
        if !is_kept(sent, back, at, &view) {
            return false;
        }
        at += view.bytes.len() + 12;
    }
    are_same(sent, back, at, sent.len())
}

/// Whether two frames are one.
#[tactic(auto, unfolding(crate::specs::Faults::is_reply_of))]
fn is_same(sent: &[u8], back: &[u8]) -> bool
    ensures { result ≡ is_reply_of [] sent.now back.now }
{
    sent == back
}

/// Whether what came back is a reply to what was sent.
fn is_reply(sent: &Frame, back: &[u8]) -> bool
    ensures { result ≡ is_reply_in sent.now.items back.now }
{
    match read(sent.as_slice()) {
        Ok(parsed) => is_reply_to(&parsed, sent.as_slice(), back),
        Err(_) => is_same(sent.as_slice(), back),
    }
}

/// The first datagram with another working counter than the one that is wanted.
fn first_wrong(parsed: &Parsed<'_>, wants: &[u16]) -> Option<Wrong>
    ensures { result ≡ first_wrong_in 0 wants.now (map (λ d. d.counter) parsed.now) }
{
    let mut views = datagrams(parsed);
    for (datagram, want) in wants.iter().enumerate() {
        match views.next() {
            None => return None,
            Some(view) => {
                if *want != view.counter {
                    return Some(Wrong {
                        datagram,
                        want: *want,
                        got: view.counter,
                    });
                }
            }
        }
    }
    None
}

/// What a wrong counter is of the frame with this number.
fn wrong_fault(number: u32, stage: Stage, wrong: Wrong) -> PlayFault
    ensures { result ≡ wrong_fault_of number stage wrong }
{
    match stage {
        Stage::Start => PlayFault::StartCounter {
            frame: number,
            want: wrong.want,
            got: wrong.got,
        },
        Stage::Tick { tick, slot } => PlayFault::Counter {
            tick,
            slot,
            datagram: wrong.datagram,
            want: wrong.want,
            got: wrong.got,
        },
    }
}

/// What is wrong with a frame that came back, if anything is: it can't be read, it is no reply to the frame that was sent, or a
/// working counter is another one than the one that is wanted, the first of these. Frames are numbered in the order in which they
/// are sent.
#[tactic(auto, unfolding(crate::specs::Faults::fault_of))]
pub(crate) fn judge(
    stage: Stage,
    number: u32,
    sent: &Frame,
    wants: &[u16],
    back: &[u8],
) -> Option<PlayFault>
    ensures { result ≡ fault_of number (record { stage = stage; bytes = sent.now.items; wants = wants.now }) back.now }
{
    let parsed = match read(back) {
        Ok(parsed) => parsed,
        Err(fault) => return Some(PlayFault::Frame(fault)),
    };
    if !is_reply(sent, back) {
        return Some(PlayFault::Reply { frame: number });
    }
    match first_wrong(&parsed, wants) {
        Some(wrong) => Some(wrong_fault(number, stage, wrong)),
        None => None,
    }
}
