ghost use Rattle.std.specs.Prelude.{◌≡◌, length, sum_by};

use super::byte_of;
use ec_frames::*;
use std::alloc::{AllocError, Global};
use std::fmt::Write;

/// The table of the standard by hand: code, name, kind of address, reads, writes. A code stands at its own place.
const TABLE: [(u8, &str, AddressKind, bool, bool); 15] = [
    (0, "NOP", AddressKind::None, false, false),
    (1, "APRD", AddressKind::Position, true, false),
    (2, "APWR", AddressKind::Position, false, true),
    (3, "APRW", AddressKind::Position, true, true),
    (4, "FPRD", AddressKind::Station, true, false),
    (5, "FPWR", AddressKind::Station, false, true),
    (6, "FPRW", AddressKind::Station, true, true),
    (7, "BRD", AddressKind::Broadcast, true, false),
    (8, "BWR", AddressKind::Broadcast, false, true),
    (9, "BRW", AddressKind::Broadcast, true, true),
    (10, "LRD", AddressKind::Logical, true, false),
    (11, "LWR", AddressKind::Logical, false, true),
    (12, "LRW", AddressKind::Logical, true, true),
    (13, "ARMW", AddressKind::Position, true, true),
    (14, "FRMW", AddressKind::Station, true, true),
];

/// The frame of one LRW of six zero bytes at 0x00010000, by hand. 26 zeros fill up to 60 bytes.
const SIX_BYTES: [u8; 60] = [
    0xFF, 0xFF, 0xFF, 0xFF, 0xFF, 0xFF, 0x02, 0x00, 0x00, 0x00, 0x00, 0x01, 0x88, 0xA4, 0x12, 0x10,
    0x0C, 0x00, 0x00, 0x00, 0x01, 0x00, 0x06, 0x00, 0x00, 0x00, 0, 0, 0, 0, 0, 0, 0, 0, 0, 0, 0, 0,
    0, 0, 0, 0, 0, 0, 0, 0, 0, 0, 0, 0, 0, 0, 0, 0, 0, 0, 0, 0, 0, 0,
];

/// Bytes of `SIX_BYTES` that are changed, each its place and in hex what it becomes, and what is read then: the fault or
/// the datagrams. Words without an equals sign are remarks.
const CHANGES: &str = "\
nothing => View { command: Lrw, index: 0, address: 65536, circulating: false, event: 0, counter: 0, bytes: [0, 0, 0, 0, 0, 0] }
12=08 13=00 => F5 NotEtherCat
13=00 => F5 NotEtherCat
15=40 => F6 FrameType 4
14=FF 15=17 => F7 Length
16=0F => F8 UnknownCommand 15
14=11 => F9 DataPastEnd
23=80 => F10 MoreAtEnd
14=13 => F11 RestAfterLast
no datagram at all: 14=00 => F9 DataPastEnd
of two faults the first: 13=00 15=40 => F5 NotEtherCat
of two faults the first: 14=FF 15=47 => F6 FrameType 4
of two faults the first: 14=FF 15=17 16=0F => F7 Length
of two faults the first: 14=09 16=0F => F9 DataPastEnd
of two faults the first: 14=0A 16=0F => F8 UnknownCommand 15
addresses aren't looked at: 00=01 06=03 => View { command: Lrw, index: 0, address: 65536, circulating: false, event: 0, counter: 0, bytes: [0, 0, 0, 0, 0, 0] }
nor reserved bits: 15=18 23=38 => View { command: Lrw, index: 0, address: 65536, circulating: false, event: 0, counter: 0, bytes: [0, 0, 0, 0, 0, 0] }
nor what follows the length: 34=AA 59=01 => View { command: Lrw, index: 0, address: 65536, circulating: false, event: 0, counter: 0, bytes: [0, 0, 0, 0, 0, 0] }
each field: 17=09 19=01 23=78 24=34 25=12 26=07 31=08 32=01 33=02 => View { command: Lrw, index: 9, address: 65792, circulating: true, event: 4660, counter: 513, bytes: [7, 0, 0, 0, 0, 8] }";

/// The datagrams of a frame of three.
const THREE: &str = "\
View { command: Brd, index: 0, address: 19922944, circulating: false, event: 0, counter: 0, bytes: [1, 2] }\
View { command: Nop, index: 1, address: 0, circulating: false, event: 0, counter: 0, bytes: [] }\
View { command: Fpwr, index: 2, address: 4294902761, circulating: false, event: 0, counter: 0, bytes: [3, 4, 5] }";

fn lrw(len: u16) -> Datagram
    ensures { result.len ≡ len }
{
    Datagram {
        command: Command::Lrw,
        address: 0x0001_0000,
        len,
    }
}

/// `SIX_BYTES` with the bytes of a row changed.
fn changed(row: &str) -> [u8; 60] {
    let mut bytes = SIX_BYTES;
    for word in row.split_whitespace() {
        let (at, byte) = word.split_once('=').unwrap_or(("", ""));
        let at = at.parse::<usize>().unwrap_or(60);
        if at < 60 {
            bytes[at] = byte_of(byte);
        }
    }
    bytes
}

/// The datagrams of a frame, one after the other.
fn views_of(alloc: Global, parsed: &Parsed<'_>) -> Result<String, AllocError> {
    let mut text = String::new(alloc);
    for view in datagrams(parsed) {
        write!(text, "{view:?}")?;
    }
    Ok(text)
}

/// What is read of a frame: the fault, or the datagrams.
fn reading(alloc: Global, frame: &[u8]) -> Result<String, AllocError> {
    match parse(frame) {
        Ok(parsed) => views_of(alloc, &parsed),
        Err(fault) => fault.to_string(alloc),
    }
}

/// What is told of the command of a code, in the order of the table.
fn row_of(code: u8) -> Option<(u8, &'static str, AddressKind, bool, bool)> {
    let command = command_of(code)?;
    Some((
        code_of(command),
        name_of(command),
        address_kind(command),
        reads(command),
        writes(command),
    ))
}

#[test]
fn each_code(rt: HostRuntime) {
    for code in 0..=255u8 {
        let row = TABLE.get(usize::from(code)).copied();
        assert_eq!(rt; row_of(code), row, "{code}");
    }
}

/// How long the frame of these datagrams is, or why there is none.
fn length_of(list: &[Datagram], bytes: &[u8]) -> Result<usize, BuildFault>
    requires { sum_by (λ d. d.len) list.now ≡ length bytes.now }
{
    Ok(build(list, bytes)?.len())
}

#[test]
fn limits_of_build(rt: HostRuntime) -> Result<(), AllocError> {
    let lengths = [
        length_of(&[], &[]),
        length_of(&[lrw(1486)], &[0; 1486]),
        length_of(&[lrw(1487)], &[0; 1487]),
        length_of(&[lrw(737), lrw(737)], &[0; 1474]),
        length_of(&[lrw(737), lrw(738)], &[0; 1475]),
    ];
    let wanted = [
        Err(BuildFault::NoDatagram),
        Ok(1514),
        Err(BuildFault::DataLength),
        Ok(1514),
        Err(BuildFault::FrameFull),
    ];
    let text = BuildFault::FrameFull.to_string(rt.alloc())?;
    assert_eq!(rt; (lengths, text.as_str()), (wanted, "F3 FrameFull"));
    Ok(())
}

#[test]
fn changed_frames(rt: HostRuntime) -> Result<(), AllocError> {
    for row in CHANGES.lines() {
        let (changes, wanted) = row.split_once(" => ").unwrap_or((row, ""));
        let answer = reading(rt.alloc(), &changed(changes))?;
        assert_eq!(rt; answer.as_str(), wanted, "{changes}");
    }
    Ok(())
}

#[test]
fn cut_frames(rt: HostRuntime) {
    for cut in 0..61usize {
        let fault = match cut {
            0..=15 => Some(FrameFault::Short),
            16..=33 => Some(FrameFault::Length),
            _ => None,
        };
        assert!(rt; parse(&SIX_BYTES[..cut]).err() == fault, "{cut} bytes");
    }
}

#[test]
fn six_bytes_on_the_wire(rt: HostRuntime) -> Result<(), BuildFault> {
    let frame = build(&[lrw(6)], &[0; 6])?;
    assert_eq!(rt; frame.as_slice(), SIX_BYTES.as_slice());
    Ok(())
}

/// What is read of the frame of these datagrams, or why there is none.
fn read_back(alloc: Global, list: &[Datagram], bytes: &[u8]) -> Result<String, AllocError>
    requires { sum_by (λ d. d.len) list.now ≡ length bytes.now }
{
    match build(list, bytes) {
        Ok(frame) => reading(alloc, frame.as_slice()),
        Err(fault) => fault.to_string(alloc),
    }
}

#[test]
fn datagrams_in_order(rt: HostRuntime) -> Result<(), AllocError> {
    let list = [
        Datagram {
            command: Command::Brd,
            address: 0x0130_0000,
            len: 2,
        },
        Datagram {
            command: Command::Nop,
            address: 0,
            len: 0,
        },
        Datagram {
            command: Command::Fpwr,
            address: 0xFFFF_03E9,
            len: 3,
        },
    ];
    let bytes = [1, 2, 3, 4, 5];
    let answer = read_back(rt.alloc(), &list, &bytes)?;
    assert_eq!(rt;
        (length_of(&list, &bytes), answer.as_str()),
        (Ok(60), THREE)
    );
    Ok(())
}

#[test]
fn laws() {
    law_written_is_read();
    law_one_reading();
}
