ghost use Rattle.std.specs.Prelude.{◌≡◌, ◌+◌, ◌≤◌, ◌↔◌, List, length, IfOk, Ok, Some};
ghost use Rattle.std.specs.Result.{result_err};
ghost use Rattle.std.specs.Iterator.{YieldsFirstBy, item_count};
ghost use Rattle.ec_frames.specs.declared.reading.FrameFault.{FrameFault};
ghost use Rattle.ec_frames.specs.FaultTexts.{frame_fault_text};
ghost use Rattle.ec_frames.specs.Reading.{Entry, word_at, size_at, header_at, type_at, length_at, ReadsAs, HasFault};
ghost use Rattle.ec_frames.specs.Parsing.{ok_map, entry_at, ended, known_at, datagram_at, payload_read, is_ether_cat, counted_in, payload_in, frame_read, void, entries};
ghost use Rattle.ec_frames.specs.EntryViews.{entry};

use crate::command::{Command, command_of};
use byteorder::{ByteOrder, LittleEndian};
use std::error::Error;
use std::fmt;
use std::marker::Model;

/// Why bytes are no frame of datagrams. The first that applies is answered; the last four are judged
/// datagram by datagram.
#[derive(Clone, Copy, Debug, PartialEq, Eq)]
pub enum FrameFault {
    /// F4: fewer than 16 bytes, those of the Ethernet and the EtherCAT header.
    Short,
    /// F5: the EtherType isn't 88 A4.
    NotEtherCat,
    /// F6: the type in the EtherCAT header, which is given, isn't 1.
    FrameType(u8),
    /// F7: the length in the EtherCAT header goes beyond the bytes.
    Length,
    /// F8: a datagram's command, which is given, isn't in the table.
    UnknownCommand(u8),
    /// F9: a datagram's header, data or counter goes beyond the length.
    DataPastEnd,
    /// F10: a datagram says that more follow, and nothing is left.
    MoreAtEnd,
    /// F11: a datagram says that none follows, and something is left.
    RestAfterLast,
}

impl fmt::Display for FrameFault {
    ghost output = { λ fault. Some (frame_fault_text fault) };

    fn fmt<W: fmt::Write>(&self, f: &mut fmt::Formatter<W>) -> fmt::Result {
        match self {
            FrameFault::Short => write!(f, "F4 Short"),
            FrameFault::NotEtherCat => write!(f, "F5 NotEtherCat"),
            FrameFault::FrameType(kind) => write!(f, "F6 FrameType {kind}"),
            FrameFault::Length => write!(f, "F7 Length"),
            FrameFault::UnknownCommand(code) => write!(f, "F8 UnknownCommand {code}"),
            FrameFault::DataPastEnd => write!(f, "F9 DataPastEnd"),
            FrameFault::MoreAtEnd => write!(f, "F10 MoreAtEnd"),
            FrameFault::RestAfterLast => write!(f, "F11 RestAfterLast"),
        }
    }
}

impl Error for FrameFault {}

/// A datagram of a frame (ETG.1000.4, clause 5.4): `index` is the number that its sender gave
/// it, `circulating` the bit that a slave sets, `address` is one 32 bit number, `event` the
/// 16 event bits, `counter` the working counter, `bytes` the data, a slice of the frame itself.
#[derive(Clone, Copy, Debug)]
pub struct View<'a> {
    pub command: Command,
    pub index: u8,
    pub address: u32,
    pub circulating: bool,
    pub event: u16,
    pub counter: u16,
    pub bytes: &'a [u8],
}

/// The 16 bits of a datagram's header that have the length of its data, its circulating bit and its more bit.
fn word_of(source: &[u8]) -> u16
    requires { 10 ≤ length source.now }
    ensures { result ≡ word_at source.now }
{
    LittleEndian::read_u16(&source[6..])
}

/// How many bytes of data a datagram has.
fn size_of(source: &[u8]) -> usize
    requires { 10 ≤ length source.now }
    ensures { result ≡ size_at source.now }
{
    usize::from(word_of(source) % 2048)
}

/// The datagram at the front, all of which is there.
fn view_of(command: Command, source: &[u8]) -> View<'_>
    requires header { 10 ≤ length source.now }
    requires whole { size_at source.now + 12 ≤ length source.now }
    ensures { entry result ≡ entry_at command source.now }
{
    let size = size_of(source);
    View {
        command,
        index: source[1],
        address: LittleEndian::read_u32(&source[2..]),
        circulating: word_of(source) / 16384 % 2 == 1,
        event: LittleEndian::read_u16(&source[8..]),
        counter: LittleEndian::read_u16(&source[10 + size..]),
        bytes: &source[10..10 + size],
    }
}

/// A datagram and what follows it, which its more bit has to say.
fn ended<'a>(more: bool, view: View<'a>, rest: &'a [u8]) -> Result<(View<'a>, &'a [u8]), FrameFault>
    ensures read { ok_map (λ x. (entry x.0, x.1.now)) result ≡ ended more (entry view.entry) rest.now }
    ensures same { IfOk result (λ x. x.1.now ≡ rest.now) }
{
    if more && rest.is_empty() {
        return Err(FrameFault::MoreAtEnd);
    }
    if !more && !rest.is_empty() {
        return Err(FrameFault::RestAfterLast);
    }
    Ok((view, rest))
}

/// The datagram at the front, whose command is known, and what follows it.
fn known_datagram(command: Command, source: &[u8]) -> Result<(View<'_>, &[u8]), FrameFault>
    requires { 10 ≤ length source.now }
    ensures read { ok_map (λ x. (entry x.0, x.1.now)) result ≡ known_at (Some command) source.now }
    ensures shorter { IfOk result (λ x. length x.1.now + 12 ≤ length source.now) }
{
    let size = size_of(source);
    if source.len() < size + 12 {
        return Err(FrameFault::DataPastEnd);
    }
    let more = word_of(source) / 32768 % 2 == 1;
    ended(more, view_of(command, source), &source[size + 12..])
}

#[tactic(auto, unfolding(crate::specs::Parsing::datagram_at))]
fn datagram_of(source: &[u8]) -> Result<(View<'_>, &[u8]), FrameFault>
    ensures read { ok_map (λ x. (entry x.0, x.1.now)) result ≡ datagram_at source.now }
    ensures shorter { IfOk result (λ x. length x.1.now + 12 ≤ length source.now) }
{
    if source.len() < 10 {
        return Err(FrameFault::DataPastEnd);
    }
    match command_of(source[0]) {
        Some(command) => known_datagram(command, source),
        None => Err(FrameFault::UnknownCommand(source[0])),
    }
}

/// Whether all of the bytes are datagrams, and the first fault where they are not.
#[tactic(auto, unfolding(crate::specs::Parsing::payload_read))]
fn check(payload: &[u8]) -> Result<(), FrameFault>
    ensures { result ≡ void (payload_read payload.now) }
{
    let mut rest = payload;
    'datagrams: loop {
        let (_, after) = datagram_of(rest)?;
        if after.is_empty() {
            return Ok(());
        }
        rest = after;
    }
}

/// Whether the EtherType is 88 A4.
fn is_ether_cat(frame: &[u8]) -> bool
    requires { 16 ≤ length frame.now }
    ensures { result ≡ is_ether_cat frame.now }
{
    frame[12] == 0x88 && frame[13] == 0xA4
}

/// The EtherCAT header, which has the length and the type.
fn header_of(frame: &[u8]) -> u16
    requires { 16 ≤ length frame.now }
    ensures { result ≡ header_at frame.now }
{
    LittleEndian::read_u16(&frame[14..])
}

/// The type in the EtherCAT header, 0 to 15.
fn type_of(frame: &[u8]) -> u8
    requires { 16 ≤ length frame.now }
    ensures { result ≡ type_at frame.now }
{
    (header_of(frame) / 4096) as u8
}

/// The length in the EtherCAT header, in bytes.
fn length_of(frame: &[u8]) -> usize
    requires { 16 ≤ length frame.now }
    ensures { result ≡ length_at frame.now }
{
    usize::from(header_of(frame) % 2048)
}

/// The bytes that the length in the EtherCAT header counts, where they are there.
fn counted_in(frame: &[u8]) -> Result<&[u8], FrameFault>
    requires { 16 ≤ length frame.now }
    ensures { ok_map (λ payload. payload.now) result ≡ counted_in frame.now }
{
    let size = length_of(frame);
    if frame.len() < size + 16 {
        return Err(FrameFault::Length);
    }
    Ok(&frame[16..16 + size])
}

/// The bytes that the length in the EtherCAT header counts.
#[tactic(auto, unfolding(crate::specs::Parsing::payload_in))]
fn payload_of(frame: &[u8]) -> Result<&[u8], FrameFault>
    ensures { ok_map (λ payload. payload.now) result ≡ payload_in frame.now }
{
    if frame.len() < 16 {
        return Err(FrameFault::Short);
    }
    if !is_ether_cat(frame) {
        return Err(FrameFault::NotEtherCat);
    }
    let kind = type_of(frame);
    if kind != 1 {
        return Err(FrameFault::FrameType(kind));
    }
    counted_in(frame)
}

/// A frame that was read: a contract sees the list of its datagrams.
#[derive(Drop)]
pub struct Parsed<'a> {
    payload: &'a [u8],
}

impl<'a> Model for Parsed<'a> {
    ghost Value = { List Entry };

    ghost view = { λ p. entries p.payload.now };
}

fn read(frame: &[u8]) -> Result<Parsed<'_>, FrameFault>
    ensures { result ≡ frame_read frame.now }
{
    let payload = payload_of(frame)?;
    check(payload)?;
    Ok(Parsed { payload })
}

/// Reads a frame (ETG.1000.4, clauses 5.3 and 5.4). Destination, source, reserved
/// bits and whatever follows the stated length are not looked at.
///
/// # Errors
///
/// `Short` (F4) to `RestAfterLast` (F11): the first that applies, in the order F4 to F7 and then, for each
/// datagram, F9 for its 10 header bytes, F8, F9 for its data and counter, F10, F11.
pub fn parse(frame: &[u8]) -> Result<Parsed<'_>, FrameFault>
    ensures ok { (ds : List Entry) → (result ≡ Ok ds) ↔ ReadsAs frame.now ds }
    ensures fault { (f : FrameFault) → (result ≡ Err f) ↔ HasFault f frame.now }
{
    read(frame)
}

/// The datagrams of a frame that are still to come.
#[derive(Drop)]
pub struct Views<'a> {
    rest: &'a [u8],
}

impl<'a> Model for Views<'a> {
    ghost Value = { List Entry };

    ghost view = { λ v. entries v.rest.now };
}

/// The datagrams of a frame, in order.
pub fn datagrams<'a>(parsed: &Parsed<'a>) -> Views<'a>
    ensures { result ≡ parsed.now }
{
    Views {
        rest: parsed.payload,
    }
}

impl<'a> Iterator for Views<'a> {
    type Item = View<'a>;

    ghost next_gives = { YieldsFirstBy entry (λ views. views) };

    ghost remaining = { item_count (λ views. views) };

    fn next(&mut self) -> Option<View<'a>> {
        match datagram_of(self.rest) {
            Ok((view, rest)) => {
                self.rest = rest;
                Some(view)
            }
            Err(_) => {
                self.rest = &[];
                None
            }
        }
    }
}
