//! Frames of a few datagrams at a new slave. The bytes are worked out by hand.

use super::byte_of;
use ec_frames::Frame;
use ec_slave::*;
use std::alloc::{AllocError, Global};

/// Rows parted by an empty line, in hex: what a row is about, a place of the memory with its bytes, the datagrams that are
/// sent, those that come back, and a place of the memory with its bytes then.
const ROWS: &str = "position 65535: it rises to 0, and nothing is written
0000:
02 00 FF FF 00 10 01 00 00 00 01 00 00
02 00 00 00 00 10 01 00 00 00 01 00 00
1000: 00

position 0
0000:
02 00 00 00 00 10 01 00 00 00 01 00 00
02 00 01 00 00 10 01 00 00 00 01 01 00
1000: 01

a broadcast past the end of the memory
FFFF: 03
07 00 00 00 FF FF 02 00 00 00 08 09 00 00
07 00 01 00 FF FF 02 00 00 00 08 09 00 00
FFFF: 03

a broadcast of the last byte joins it with what came
FFFF: 03
07 00 FF FF FF FF 01 00 00 00 08 FF FF
07 00 00 00 FF FF 01 00 00 00 0B 00 00
FFFF: 03

station 0 gives what was there, and the counter rises by 3
0000:
06 00 00 00 00 10 01 00 00 00 07 00 00
06 00 00 00 00 10 01 00 00 00 00 03 00
1000: 07

the first of two datagrams gives the slave its station, by which the second one reads it
0000:
05 00 00 00 10 00 02 80 00 00 05 01 00 00 04 01 05 01 10 00 02 00 00 00 00 00 00 00
05 00 00 00 10 00 02 80 00 00 05 01 01 00 04 01 05 01 10 00 02 00 00 00 05 01 01 00
0010: 05 01

BRW
0000:
09 00 00 00 00 10 01 00 00 00 07 00 00
09 00 00 00 00 10 01 00 00 00 07 00 00
1000: 00

ARMW
0000:
0D 00 00 00 00 10 01 00 00 00 07 00 00
0D 00 00 00 00 10 01 00 00 00 07 00 00
1000: 00

FRMW
0000:
0E 00 00 00 00 10 01 00 00 00 07 00 00
0E 00 00 00 00 10 01 00 00 00 07 00 00
1000: 00

the counter of the second datagram lacks a byte, so the first isn't done either
0000:
02 00 00 00 00 10 01 80 00 00 07 00 00 00 00 00 00 00 00 00 00 00 00 00
02 00 00 00 00 10 01 80 00 00 07 00 00 00 00 00 00 00 00 00 00 00 00 00
1000: 00

two bytes at the end of the logical addresses: FMMU 1 maps 4 bytes from 0xFFFFFFFE on to the first bytes, for reading
0610: FE FF FF FF 04 00 00 07 00 00 00 01 01 00 00 00
0A 00 FE FF FF FF 02 00 00 00 05 05 00 00
0A 00 FE FF FF FF 02 00 00 00 00 00 01 00
0000: 00 00

four bytes, of which the last two have no place: FMMU 0 maps 4 bytes from 0x00010000 on to the last two, for writing
0600: 00 00 01 00 04 00 00 07 FE FF 00 02 01 00 00 00
0B 00 00 00 01 00 04 00 00 00 01 02 03 04 00 00
0B 00 00 00 01 00 04 00 00 00 01 02 03 04 01 00
FFFE: 01 02 00 00

outputs and inputs in one datagram: FMMU 0 for 2 bytes at 0x1000, FMMU 1 for 4 at 0x0600, where FMMU 0 itself stands
0600: 00 00 01 00 02 00 00 07 00 10 00 02 01 00 00 00 02 00 01 00 04 00 00 07 00 06 00 01 01 00 00 00
0C 00 00 00 01 00 06 00 00 00 AA BB 09 09 09 09 00 00
0C 00 00 00 01 00 06 00 00 00 AA BB 00 00 01 00 03 00
1000: AA BB 00";

/// Destination, source, EtherType, and an EtherCAT header of type 1 with the length of the datagrams, which is below 256.
fn framed(datagrams: &str) -> Frame {
    let len = (datagrams.split_whitespace().count() % 256) as u8;
    let head = [
        255, 255, 255, 255, 255, 255, 2, 0, 0, 0, 0, 1, 0x88, 0xA4, len, 0x10,
    ];
    let mut frame = Frame::new();
    let _head = frame.try_extend_from_slice(&head);
    for word in datagrams.split_whitespace() {
        let _byte = frame.try_push(byte_of(word));
    }
    frame
}

/// A place of the memory, and its bytes.
fn place_of(line: &str) -> (u16, &str) {
    let (at, bytes) = line.split_once(':').unwrap_or(("", ""));
    (u16::from_str_radix(at, 16).unwrap_or(0), bytes)
}

fn poke_all(slave: &mut SlaveBox, line: &str) {
    let (mut at, bytes) = place_of(line);
    for word in bytes.split_whitespace() {
        slave.poke(at, byte_of(word));
        at = at.wrapping_add(1);
    }
}

fn holds(slave: &SlaveBox, line: &str) -> bool {
    let (mut at, bytes) = place_of(line);
    for word in bytes.split_whitespace() {
        if slave.peek(at) != byte_of(word) {
            return false;
        }
        at = at.wrapping_add(1);
    }
    true
}

/// A line of a row.
fn line_of(row: &str, at: usize) -> &str {
    row.lines().nth(at).unwrap_or("")
}

/// Whether the datagrams of a row come back from a new slave as they are to, and the memory is then as it is to be.
fn comes_back(alloc: Global, row: &str) -> Result<bool, AllocError> {
    let mut slave = SlaveBox::new(alloc)?;
    poke_all(&mut slave, line_of(row, 1));
    let mut frame = framed(line_of(row, 2));
    slave.pass(&mut frame);
    let wanted = framed(line_of(row, 3));
    Ok(frame.as_slice() == wanted.as_slice() && holds(&slave, line_of(row, 4)))
}

#[test]
fn each_row(rt: HostRuntime) -> Result<(), AllocError> {
    for row in ROWS.split("\n\n") {
        assert!(rt; comes_back(rt.alloc(), row)?, "{row}");
    }
    Ok(())
}
