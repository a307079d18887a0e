//! Plays by both calls, in one thread and with a thread for each slave. The answers are worked out by hand.

use crate::harm::Harm;
use crate::hostile::Hostile;
use crate::lines::{ONE, TWO, line_of};
use crate::meeting::Meeter;
use crate::slaves::{Tiring, Wire};
use crate::tests::{all_have, has_rows};
use ec_frames::FrameFault;
use ec_player::{PlayFault, Played, play_plain};
use ec_player_threads::play_threads;
use ec_slave::{Pass, SlaveBox};
use std::alloc::{AllocError, Global};
use std::fmt::Write;
use std::sync::Wait;
use std::sync::atomic::{AtomicU64, Ordering};
use std::test::Fail;
use std::thread::Threads;

/// A call that plays: with a thread for each slave, or in one.
const CALLS: [bool; 2] = [true, false];

/// Plays a line where it is one of at most 16 slaves.
fn play_by<X: Pass + Send + Drop, R: Threads + Wait + Sync>(
    rt: &R,
    alloc: Global,
    threads: bool,
    text: &str,
    phases: &[u16],
    image: &[u8],
    ticks: u32,
    slaves: Vec<X>,
) -> Result<Option<Result<Played<X>, PlayFault>>, AllocError> {
    if slaves.len() > 16 {
        return Ok(None);
    }
    match line_of(alloc, text, phases, image.len(), ticks, slaves.len())? {
        Some((units, mapping)) if threads => {
            Ok(Some(play_threads(rt, alloc, &units, &mapping, image, ticks, slaves)))
        }
        Some((units, mapping)) => {
            Ok(Some(play_plain(alloc, &units, &mapping, image, ticks, slaves)))
        }
        None => Ok(None),
    }
}

/// Whether a play of one unit for a tick is as it should be: outputs AA BB go out, inputs 0A 0B 0C 0D come in.
fn one_is_right<R: Threads + Wait + Sync>(
    rt: &R,
    alloc: Global,
    threads: bool,
) -> Result<bool, AllocError> {
    let mut slave = SlaveBox::new(alloc)?;
    slave.poke(8192, 0x0A);
    slave.poke(8193, 0x0B);
    slave.poke(8194, 0x0C);
    slave.poke(8195, 0x0D);
    let mut slaves = Vec::new(alloc);
    slaves.push(slave)?;
    match play_by(
        rt,
        alloc,
        threads,
        ONE,
        &[0],
        &[0xAA, 0xBB, 0, 0, 0, 0],
        1,
        slaves,
    )? {
        Some(Ok(played)) => {
            Ok(
                played.start == 3
                    && played.image.as_slice() == [0xAA, 0xBB, 0x0A, 0x0B, 0x0C, 0x0D].as_slice()
                    && has_rows(&played, 1, 84, 3)
                    && all_have(&played, 4096, 0xAA)
                    && all_have(&played, 4097, 0xBB),
            )
        }
        _ => Ok(false),
    }
}

#[test]
fn one_unit_by_both_calls(rt: HostRuntime) -> Result<(), Fail> {
    for threads in CALLS.as_slice() {
        assert!(rt; one_is_right(&rt, rt.alloc(), *threads)?);
    }
    Ok(())
}

/// Whether a play of no tick leaves the image but for its inputs, of which none came.
fn none_is_right<R: Threads + Wait + Sync>(
    rt: &R,
    alloc: Global,
    threads: bool,
) -> Result<bool, AllocError> {
    let mut slaves = Vec::new(alloc);
    slaves.push(SlaveBox::new(alloc)?)?;
    match play_by(
        rt,
        alloc,
        threads,
        ONE,
        &[0],
        &[1, 2, 3, 4, 5, 6],
        0,
        slaves,
    )? {
        Some(Ok(played)) => {
            Ok(
                played.image.as_slice() == [1, 2, 0, 0, 0, 0].as_slice()
                    && played.ticks.as_slice().is_empty(),
            )
        }
        _ => Ok(false),
    }
}

#[test]
fn no_tick_by_both_calls(rt: HostRuntime) -> Result<(), Fail> {
    for threads in CALLS.as_slice() {
        assert!(rt; none_is_right(&rt, rt.alloc(), *threads)?);
    }
    Ok(())
}

/// The fault of a play of one tick of one unit through this slave, if it has one.
fn fault_of<X: Pass + Send + Drop, R: Threads + Wait + Sync>(
    rt: &R,
    alloc: Global,
    threads: bool,
    slave: X,
) -> Result<Option<PlayFault>, AllocError> {
    let mut slaves = Vec::new(alloc);
    slaves.push(slave)?;
    match play_by(rt, alloc, threads, ONE, &[0], &[0; 6], 1, slaves)? {
        Some(Ok(_)) => Ok(None),
        Some(Err(fault)) => Ok(Some(fault)),
        None => Ok(Some(PlayFault::OutOfMemory)),
    }
}

/// What is done to each frame, and the fault that it leads to.
const HARMS: [(Harm, Option<PlayFault>); 8] = [
    (Harm::Cut(20), Some(PlayFault::Frame(FrameFault::Length))),
    (Harm::Cut(0), Some(PlayFault::Frame(FrameFault::Short))),
    (
        Harm::Put {
            at: 16,
            byte: 15,
            from: 0,
        },
        Some(PlayFault::Frame(FrameFault::UnknownCommand(15))),
    ),
    (
        Harm::Count(27),
        Some(PlayFault::StartCounter {
            frame: 0,
            want: 1,
            got: 2,
        }),
    ),
    (
        Harm::Put {
            at: 59,
            byte: 1,
            from: 0,
        },
        Some(PlayFault::Reply { frame: 0 }),
    ),
    (Harm::Longer, Some(PlayFault::Reply { frame: 0 })),
    (
        Harm::Put {
            at: 6,
            byte: 3,
            from: 3,
        },
        Some(PlayFault::Reply { frame: 3 }),
    ),
    (
        Harm::Put {
            at: 26,
            byte: 77,
            from: 3,
        },
        None,
    ),
];

/// The first row of the table in which this call answers otherwise.
fn first_unlike<R: Threads + Wait + Sync>(
    rt: &R,
    alloc: Global,
    threads: bool,
) -> Result<Option<usize>, AllocError> {
    for i in 0..HARMS.len() {
        let (what, wanted) = HARMS[i];
        let slave = Hostile {
            slave: SlaveBox::new(alloc)?,
            what,
            passed: 0,
        };
        if fault_of(rt, alloc, threads, slave)? != wanted {
            return Ok(Some(i));
        }
    }
    Ok(None)
}

#[test]
fn hostile_slaves(rt: HostRuntime) -> Result<(), Fail> {
    for threads in CALLS.as_slice() {
        assert_eq!(rt; first_unlike(&rt, rt.alloc(), *threads)?, None);
    }
    Ok(())
}

#[test]
fn slaves_that_do_not_count(rt: HostRuntime) -> Result<(), Fail> {
    let alloc = rt.alloc();
    let idle = fault_of(&rt, alloc, true, Wire { number: 0 })?;
    assert!(rt;
        idle == Some(PlayFault::StartCounter {
            frame: 0,
            want: 1,
            got: 0
        })
    );
    let tired = Tiring {
        slave: SlaveBox::new(alloc)?,
        left: 3,
    };
    let wanted = PlayFault::Counter {
        tick: 0,
        slot: 0,
        datagram: 0,
        want: 3,
        got: 0,
    };
    assert!(rt; fault_of(&rt, alloc, true, tired)? == Some(wanted));
    Ok(())
}

/// Two units of eight slaves each, one every fourth and one every fifth tick.
fn sixteen_slaves(alloc: Global) -> Result<String, AllocError> {
    let mut text = String::from_str(alloc, "tick_ns = 1000000\nslots = 1\n")?;
    for unit in 0..2u16 {
        let period = unit + 4;
        write!(text, "[[unit]]\nname = \"u{unit}\"\nperiod = {period}\n")?;
        for slave in 0..8u16 {
            let station = 1001 + 8 * unit + slave;
            write!(
                text,
                "[[unit.slave]]\nstation = {station}\nout_bytes = 3\nin_bytes = 2\n"
            )?;
        }
    }
    Ok(text)
}

/// Whether a play of them for 20 ticks, slave k with the inputs k and k + 100, is as it should be.
fn sixteen_right<R: Threads + Wait + Sync>(
    rt: &R,
    alloc: Global,
    threads: bool,
) -> Result<bool, AllocError> {
    let text = sixteen_slaves(alloc)?;
    let mut slaves = Vec::new(alloc);
    for k in 0..16u8 {
        let mut slave = SlaveBox::new(alloc)?;
        slave.poke(8192, k);
        slave.poke(8193, k + 100);
        slaves.push(slave)?;
    }
    match play_by(
        rt,
        alloc,
        threads,
        text.as_str(),
        &[0, 0],
        &[7; 80],
        20,
        slaves,
    )? {
        Some(Ok(played)) => Ok(is_right(&played)),
        _ => Ok(false),
    }
}

/// Whether a play of the sixteen slaves is as it should be: 33 start frames; a frame in tick 0 with both groups and one in each other tick
/// that 4 or 5 divides, of 144 and 92 wire bytes, each group counted 24 times; each slave's outputs 7 and its inputs in the image.
fn is_right(played: &Played<SlaveBox>) -> bool {
    let rows = played.ticks.as_slice();
    for tick in 0..rows.len() {
        let (frames, bytes, groups) = match (tick % 4 == 0, tick % 5 == 0) {
            (true, true) => (1, 144, 2),
            (false, false) => (0, 0, 0),
            _ => (1, 92, 1),
        };
        let counters = rows[tick].counters.as_slice();
        if rows[tick].frames != frames || rows[tick].bytes != bytes || counters.len() != groups {
            return false;
        }
        for counter in counters {
            if *counter != 24 {
                return false;
            }
        }
    }
    let image = played.image.as_slice();
    let slaves = played.slaves.as_slice();
    if played.start != 33 || rows.len() != 20 || image.len() != 80 || slaves.len() != 16 {
        return false;
    }
    for k in 0..16 {
        let own = &image[5 * k..5 * k + 5];
        if own[0] != 7 || own[3] as usize != k || own[4] as usize != k + 100 {
            return false;
        }
        let slave = &slaves[k];
        if slave.peek(4096) != 7 || slave.peek(4098) != 7 || slave.peek(4099) != 0 {
            return false;
        }
    }
    true
}

#[test]
fn sixteen_slaves_by_both_calls(rt: HostRuntime) -> Result<(), Fail> {
    for threads in CALLS.as_slice() {
        assert!(rt; sixteen_right(&rt, rt.alloc(), *threads)?);
    }
    Ok(())
}

/// Two slaves that wait for each other: the second in its first pass until the first one has begun one, and that in its second until
/// the second one has begun two.
fn meeters<'a>(
    alloc: Global,
    one: &'a AtomicU64,
    two: &'a AtomicU64,
    missed: &'a AtomicU64,
) -> Result<Vec<Meeter<'a>>, AllocError> {
    let mut slaves = Vec::new(alloc);
    for number in 0..2u64 {
        let is_first = number == 0;
        slaves.push(Meeter {
            slave: SlaveBox::new(alloc)?,
            mine: if is_first { one } else { two },
            theirs: if is_first { two } else { one },
            missed,
            wait_at: 1 - number,
            wanted: 1 + number,
        })?;
    }
    Ok(slaves)
}

/// Whether two slaves meet in a play with a thread for each.
fn have_met<R: Threads + Wait + Sync>(rt: &R, alloc: Global) -> Result<bool, AllocError> {
    let (one, two, missed) = (AtomicU64::new(0), AtomicU64::new(0), AtomicU64::new(0));
    let slaves = meeters(alloc, &one, &two, &missed)?;
    let started = match play_by(rt, alloc, true, TWO, &[0, 1], &[7; 200], 2, slaves)? {
        Some(Ok(played)) => played.start,
        _ => 0,
    };
    Ok(started == 5 && missed.load(Ordering::SeqCst) == 0)
}

#[test]
fn meet(rt: HostRuntime) -> Result<(), Fail> {
    assert!(rt; have_met(&rt, rt.alloc())?);
    Ok(())
}
