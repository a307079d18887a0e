//! The worked examples of a play.

use crate::lines::{ONE, TWO, line_of};
use crate::slaves::{Cutter, Eater, Tiring, Wire};
use ec_frames::{Command, FrameFault, datagrams, parse};
use ec_player::{PlayFault, Played, play_plain};
use ec_slave::{Pass, SlaveBox};
use std::alloc::{AllocError, Global};
use std::test::Fail;

/// Plays a line where it is one: its text is that of units, its plan is legal, and there is one slave for each of theirs.
fn play<X: Pass + Drop>(
    alloc: Global,
    text: &str,
    phases: &[u16],
    image: &[u8],
    ticks: u32,
    slaves: Vec<X>,
) -> Result<Option<Result<Played<X>, PlayFault>>, AllocError> {
    match line_of(alloc, text, phases, image.len(), ticks, slaves.len())? {
        Some((units, mapping)) => {
            Ok(Some(play_plain(alloc, &units, &mapping, image, ticks, slaves)))
        }
        None => Ok(None),
    }
}

/// Whether a play had so many ticks, in each one frame of so many wire bytes whose one datagram was counted so.
pub(crate) fn has_rows(played: &Played<SlaveBox>, ticks: usize, bytes: u64, counter: u16) -> bool {
    let rows = played.ticks.as_slice();
    for row in rows {
        if row.frames != 1
            || row.bytes != bytes
            || row.counters.as_slice() != [counter].as_slice()
        {
            return false;
        }
    }
    rows.len() == ticks
}

/// Whether a byte of each slave's memory is so after a play.
pub(crate) fn all_have(played: &Played<SlaveBox>, at: u16, byte: u8) -> bool {
    for slave in played.slaves.as_slice() {
        if slave.peek(at) != byte {
            return false;
        }
    }
    true
}

/// Whether a play of two units that take turns is as it should be: 100 outputs of 7 go to each.
fn two_are_right(alloc: Global) -> Result<bool, AllocError> {
    let mut slaves = Vec::new(alloc);
    slaves.push(SlaveBox::new(alloc)?)?;
    slaves.push(SlaveBox::new(alloc)?)?;
    match play(alloc, TWO, &[0, 1], &[7; 200], 2, slaves)? {
        Some(Ok(played)) => {
            Ok(
                played.start == 5
                    && has_rows(&played, 2, 152, 2)
                    && all_have(&played, 4096, 7)
                    && all_have(&played, 4195, 7)
                    && all_have(&played, 4196, 0),
            )
        }
        _ => Ok(false),
    }
}

#[test]
fn two_units(rt: HostRuntime) -> Result<(), Fail> {
    assert!(rt; two_are_right(rt.alloc())?);
    Ok(())
}

/// The fault of a play of one tick of one unit through this slave, if it has one.
fn fault_of<X: Pass + Drop>(alloc: Global, slave: X) -> Result<Option<PlayFault>, AllocError> {
    let mut slaves = Vec::new(alloc);
    slaves.push(slave)?;
    match play(alloc, ONE, &[0], &[0; 6], 1, slaves)? {
        Some(Ok(_)) => Ok(None),
        Some(Err(fault)) => Ok(Some(fault)),
        None => Ok(Some(PlayFault::OutOfMemory)),
    }
}

#[test]
fn nothing_counted(rt: HostRuntime) -> Result<(), Fail> {
    let wanted = PlayFault::StartCounter {
        frame: 0,
        want: 1,
        got: 0,
    };
    assert!(rt; fault_of(rt.alloc(), Wire { number: 0 })? == Some(wanted));
    Ok(())
}

#[test]
fn tired_after_three_frames(rt: HostRuntime) -> Result<(), Fail> {
    let tired = Tiring {
        slave: SlaveBox::new(rt.alloc())?,
        left: 3,
    };
    let wanted = PlayFault::Counter {
        tick: 0,
        slot: 0,
        datagram: 0,
        want: 3,
        got: 0,
    };
    assert!(rt; fault_of(rt.alloc(), tired)? == Some(wanted));
    Ok(())
}

#[test]
fn nothing_comes_back(rt: HostRuntime) -> Result<(), Fail> {
    let wanted = PlayFault::Frame(FrameFault::Short);
    assert!(rt; fault_of(rt.alloc(), Eater { number: 0 })? == Some(wanted));
    Ok(())
}

#[test]
fn a_byte_is_cut_off(rt: HostRuntime) -> Result<(), Fail> {
    let wanted = PlayFault::Reply { frame: 0 };
    assert!(rt; fault_of(rt.alloc(), Cutter { number: 0 })? == Some(wanted));
    Ok(())
}

/// The frame of one LRW of six zero bytes at 0x00010000, by hand. 26 zeros fill up to 60 bytes.
const SIX_BYTES: [u8; 60] = [
    0xFF, 0xFF, 0xFF, 0xFF, 0xFF, 0xFF, 0x02, 0x00, 0x00, 0x00, 0x00, 0x01, 0x88, 0xA4, 0x12, 0x10,
    0x0C, 0x00, 0x00, 0x00, 0x01, 0x00, 0x06, 0x00, 0x00, 0x00, 0, 0, 0, 0, 0, 0, 0, 0, 0, 0, 0, 0,
    0, 0, 0, 0, 0, 0, 0, 0, 0, 0, 0, 0, 0, 0, 0, 0, 0, 0, 0, 0, 0, 0,
];

/// Whether the frame has one datagram, and that the fields that it should have.
fn has_six_bytes(frame: &[u8]) -> bool {
    let Ok(parsed) = parse(frame) else {
        return false;
    };
    let mut views = datagrams(&parsed);
    let Some(view) = views.next() else {
        return false;
    };
    views.next().is_none()
        && view.command == Command::Lrw
        && view.address == 0x0001_0000
        && (view.index, view.event, view.counter) == (0, 0, 0)
        && !view.circulating
        && view.bytes == [0, 0, 0, 0, 0, 0].as_slice()
}

#[test]
fn fields_of_a_frame_of_six_bytes(rt: HostRuntime) -> Result<(), Fail> {
    assert!(rt; has_six_bytes(SIX_BYTES.as_slice()));
    Ok(())
}
