ghost use Rattle.std.specs.Prelude.{◌≡◌, ◌+◌, ◌≤◌, ◌++◌, ◌↔◌, length, min, max, nat_lt, sum_by, false, IfOk, IfNone, IsOk, OnOk, OnErr, Some};
ghost use Rattle.std.specs.List.{list_any};
ghost use Rattle.std.specs.Result.{result_err};
ghost use Rattle.byteorder.specs.Endian.{little_bytes};
ghost use Rattle.ec_frames.specs.declared.writing.BuildFault.{BuildFault};
ghost use Rattle.ec_frames.specs.FaultTexts.{build_fault_text};
ghost use Rattle.ec_frames.specs.Written.{datagram_bytes, total_of, build_fault, datagrams_bytes, padded, written, HasBuildFault, AreBuildable};

use crate::command::{Command, code_of};
use arrayvec::ArrayVec;
use byteorder::{ByteOrder, LittleEndian};
use std::error::Error;
use std::fmt;

/// An Ethernet frame without preamble and frame check sequence, at most 1514 bytes (IEEE 802.3, clause 3.2).
pub type Frame = ArrayVec<u8, 1514>;

/// A datagram to be written: its command, its address as one 32 bit number, and how many bytes of data it has
/// (ETG.1000.4, clause 5.4).
#[derive(Clone, Copy, Debug, PartialEq, Eq)]
pub struct Datagram {
    pub command: Command,
    pub address: u32,
    pub len: u16,
}

/// Why datagrams make no frame. The first that applies is answered.
#[derive(Clone, Copy, Debug, PartialEq, Eq)]
pub enum BuildFault {
    /// F1: there is no datagram.
    NoDatagram,
    /// F2: a datagram has more than 1486 bytes of data.
    DataLength,
    /// F3: the datagrams take more than 1498 bytes, 12 and its data each.
    FrameFull,
}

impl fmt::Display for BuildFault {
    ghost output = { λ fault. Some (build_fault_text fault) };

    fn fmt<W: fmt::Write>(&self, f: &mut fmt::Formatter<W>) -> fmt::Result {
        match self {
            BuildFault::NoDatagram => write!(f, "F1 NoDatagram"),
            BuildFault::DataLength => write!(f, "F2 DataLength"),
            BuildFault::FrameFull => write!(f, "F3 FrameFull"),
        }
    }
}

impl Error for BuildFault {}

/// Destination (broadcast), source and EtherType of each frame (IEEE 802.3, clause 3.2; ETG.1000.4, clause 5.3).
const ETHERNET_HEADER: [u8; 14] = [255, 255, 255, 255, 255, 255, 2, 0, 0, 0, 0, 1, 0x88, 0xA4];

/// Type 1 in bits 12 to 15 of the EtherCAT header.
const TYPE_DATAGRAMS: u16 = 4096;

/// Bit 15 of a datagram's length word.
const MORE_FOLLOW: u16 = 32768;

fn put(frame: &mut Frame, bytes: &[u8])
    requires { length frame.old.items + length bytes.now ≤ 1514 }
    ensures { frame.new.items ≡ frame.old.items ++ bytes.now }
{
    let done = frame.try_extend_from_slice(bytes);
    prove!(done.is_ok());
}

fn put_u16(frame: &mut Frame, number: u16)
    requires { length frame.old.items + 2 ≤ 1514 }
    ensures { frame.new.items ≡ frame.old.items ++ little_bytes 2 number }
{
    let mut bytes = [0u8; 2];
    LittleEndian::write_u16(&mut bytes, number);
    put(frame, &bytes);
}

fn put_u32(frame: &mut Frame, number: u32)
    requires { length frame.old.items + 4 ≤ 1514 }
    ensures { frame.new.items ≡ frame.old.items ++ little_bytes 4 number }
{
    let mut bytes = [0u8; 4];
    LittleEndian::write_u32(&mut bytes, number);
    put(frame, &bytes);
}

/// Writes one datagram; `more` says whether another follows.
#[tactic(auto, unfolding(crate::specs::Written::datagram_bytes))]
fn put_datagram(frame: &mut Frame, datagram: &Datagram, index: u8, more: bool, bytes: &[u8])
    requires room { length frame.old.items + length bytes.now + 12 ≤ 1514 }
    requires len { length bytes.now ≡ datagram.now.len }
    requires small { datagram.now.len ≤ 1486 }
    ensures bytes { frame.new.items ≡ frame.old.items ++ datagram_bytes datagram.now index more bytes.now }
    ensures len { length frame.new.items ≡ length frame.old.items + length bytes.now + 12 }
{
    put(frame, &[code_of(datagram.command), index]);
    put_u32(frame, datagram.address);
    put_u16(
        frame,
        if more {
            datagram.len + MORE_FOLLOW
        } else {
            datagram.len
        },
    );
    put(frame, &[0, 0]);
    put(frame, bytes);
    put(frame, &[0, 0]);
}

fn has_long(list: &[Datagram]) -> bool
    ensures { result ≡ list_any (λ d. nat_lt 1486 d.len) list.now }
{
    list.iter().any(|d| d.len > 1486)
}

/// The bytes of all datagrams, or 2000 where there are more.
fn total_to_2000(list: &[Datagram]) -> u16
    ensures { result ≡ min (total_of list.now) 2000 }
{
    let mut total = 0u32;
    for datagram in list {
        total = (total + u32::from(datagram.len) + 12).min(2000);
    }
    total as u16
}

#[tactic(auto, unfolding(crate::specs::Written::build_fault))]
fn fault_of(list: &[Datagram]) -> Option<BuildFault>
    ensures fault { result ≡ build_fault list.now }
    ensures short { IfNone result (list_any (λ d. nat_lt 1486 d.len) list.now ≡ false) }
    ensures room { IfNone result (total_of list.now ≤ 1498) }
{
    if list.is_empty() {
        return Some(BuildFault::NoDatagram);
    }
    if has_long(list) {
        return Some(BuildFault::DataLength);
    }
    if total_to_2000(list) > 1498 {
        return Some(BuildFault::FrameFull);
    }
    None
}

/// Writes the datagrams with indexes from 0 on, their data one after the other.
fn put_datagrams(frame: &mut Frame, list: &[Datagram], bytes: &[u8])
    requires given { sum_by (λ d. d.len) list.now ≡ length bytes.now }
    requires room { length frame.old.items + total_of list.now ≤ 1514 }
    requires short { list_any (λ d. nat_lt 1486 d.len) list.now ≡ false }
    ensures { frame.new.items ≡ frame.old.items ++ datagrams_bytes 0 list.now bytes.now }
{
    let mut at = 0;
    for (index, datagram) in list.iter().enumerate() {
        let len = usize::from(datagram.len);
        let more = index + 1 < list.len();
        put_datagram(frame, datagram, index as u8, more, &bytes[at..at + len]);
        at += len;
    }
}

/// Zeros until the frame has 60 bytes, the least without check sequence (IEEE 802.3, clause 4.4.2).
fn pad(frame: &mut Frame)
    ensures { frame.new.items ≡ padded frame.old.items }
{
    while frame.len() < 60 {
        frame.push(0);
    }
}

/// Writes the frame of these datagrams in place of what is there.
#[tactic(auto, unfolding(crate::specs::Written::written))]
fn write(frame: &mut Frame, list: &[Datagram], bytes: &[u8])
    requires given { sum_by (λ d. d.len) list.now ≡ length bytes.now }
    requires room { total_of list.now ≤ 1498 }
    requires short { list_any (λ d. nat_lt 1486 d.len) list.now ≡ false }
    ensures { frame.new.items ≡ written list.now bytes.now }
{
    frame.clear();
    put(frame, &ETHERNET_HEADER);
    put_u16(frame, total_to_2000(list) + TYPE_DATAGRAMS);
    put_datagrams(frame, list, bytes);
    pad(frame);
}

/// Writes the frame of these datagrams, which is that of [`build`], in place of what is there.
///
/// # Errors
///
/// Those of [`build`]. The frame is left as it is.
pub fn rebuild(frame: &mut Frame, list: &[Datagram], bytes: &[u8]) -> Result<(), BuildFault>
    requires { sum_by (λ d. d.len) list.now ≡ length bytes.now }
    ensures ok { OnOk result (frame.new.items ≡ written list.now bytes.now) }
    ensures len { OnOk result (length frame.new.items ≡ max 60 (total_of list.now + 16)) }
    ensures fault { (f : BuildFault) → (result ≡ Err f) ↔ HasBuildFault f list.now }
    ensures same { OnErr result (frame.new ≡ frame.old) }
    ensures built { AreBuildable list.now → IsOk result }
{
    match fault_of(list) {
        Some(fault) => Err(fault),
        None => {
            write(frame, list, bytes);
            Ok(())
        }
    }
}

/// The frame of these datagrams (ETG.1000.4, clauses 5.3 and 5.4), with `bytes` as
/// their data, one after the other: indexes from 0 on, the more bit on each but the last, reserved
/// bits, circulating bit, event bits and working counters 0, zeros until it has 60 bytes.
///
/// # Errors
///
/// `NoDatagram` (F1), `DataLength` (F2) and `FrameFull` (F3), the first that applies.
pub fn build(list: &[Datagram], bytes: &[u8]) -> Result<Frame, BuildFault>
    requires { sum_by (λ d. d.len) list.now ≡ length bytes.now }
    ensures ok { IfOk result (λ frame. frame.items ≡ written list.now bytes.now) }
    ensures len { IfOk result (λ frame. length frame.items ≡ max 60 (total_of list.now + 16)) }
    ensures fault { (f : BuildFault) → (result ≡ Err f) ↔ HasBuildFault f list.now }
    ensures built { AreBuildable list.now → IsOk result }
{
    let mut frame = Frame::new();
    match rebuild(&mut frame, list, bytes) {
        Ok(()) => Ok(frame),
        Err(fault) => Err(fault),
    }
}
