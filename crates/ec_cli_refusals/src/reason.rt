//! The line that refuses, made on the stack.

ghost use Rattle.std.specs.Prelude.{◌≡◌, ◌+◌, ◌<◌, ◌≤◌, ◌++◌, length, codes};
ghost use Rattle.std.specs.Fmt.{decimal};
ghost use Rattle.ec_unit_text.specs.FaultText.{key_text, index_text, spot_text};
ghost use Rattle.ec_frames.specs.FaultTexts.{frame_fault_text};
ghost use Rattle.ec_cli_refusals.specs.Refusals.{fault_text, illegal_text, cert_text, check_text, solve_text, play_fault_text, reason_text, refusal_line as refusal_spec};

use crate::refusal::Refusal;
use ec_cert_text::CertFault;
use ec_checker::CheckFault;
use ec_frames::FrameFault;
use ec_loads::Illegal;
use ec_outcome::{PlayFault, SolveFault};
use ec_text_line::{LineText, push_bytes, push_number};
use ec_unit_text::{Key, Spot, UnitFault};

/// A number, or `-` for none.
fn push_index(line: &mut LineText, index: Option<usize>)
    requires { length line.old.items ≤ 76 }
    ensures items { line.new.items ≡ line.old.items ++ index_text index }
    ensures len { length line.new.items ≤ length line.old.items + 20 }
{
    match index {
        Some(number) => push_number(line, number),
        None => push_bytes(line, b"-"),
    }
}

/// A name and a place in a unit text.
fn push_spot(line: &mut LineText, name: &[u8], spot: Spot)
    requires { length line.old.items + length name.now ≤ 40 }
    ensures items { line.new.items ≡ line.old.items ++ (name.now ++ spot_text spot) }
    ensures len { length line.new.items ≤ length line.old.items + length name.now + 41 }
{
    push_bytes(line, name);
    push_index(line, spot.unit);
    push_bytes(line, b" ");
    push_index(line, spot.slave);
}

/// A name, a place in a unit text, and a key.
#[tactic(auto, using(crate::proofs::KeyLemmas::key_fits))]
fn push_key(line: &mut LineText, name: &[u8], spot: Spot, key: Key)
    requires { length line.old.items + length name.now ≤ 40 }
    ensures items { line.new.items ≡ line.old.items ++ (name.now ++ (spot_text spot ++ (codes " " ++ key_text key))) }
    ensures len { length line.new.items ≤ length line.old.items + length name.now + 51 }
{
    push_spot(line, name, spot);
    push_bytes(line, b" ");
    push_bytes(line, key.as_str().as_bytes());
}

/// A name and a number.
fn push_one(line: &mut LineText, name: &[u8], number: usize)
    requires { length line.old.items + length name.now ≤ 76 }
    ensures items { line.new.items ≡ line.old.items ++ (name.now ++ decimal number) }
    ensures len { length line.new.items ≤ length line.old.items + length name.now + 20 }
{
    push_bytes(line, name);
    push_number(line, number);
}

/// A name and two numbers.
fn push_two(line: &mut LineText, name: &[u8], first: usize, second: usize)
    requires { length line.old.items + length name.now ≤ 55 }
    ensures items { line.new.items ≡ line.old.items ++ (name.now ++ (decimal first ++ (codes " " ++ decimal second))) }
    ensures len { length line.new.items ≤ length line.old.items + length name.now + 41 }
{
    push_one(line, name, first);
    push_one(line, b" ", second);
}

/// A name and three numbers.
fn push_three(line: &mut LineText, name: &[u8], first: usize, second: usize, third: usize)
    requires { length line.old.items + length name.now ≤ 33 }
    ensures items { line.new.items ≡ line.old.items ++ (name.now ++ (decimal first ++ (codes " " ++ (decimal second ++ (codes " " ++ decimal third))))) }
    ensures len { length line.new.items ≤ length line.old.items + length name.now + 62 }
{
    push_two(line, name, first, second);
    push_one(line, b" ", third);
}

/// A space and a number of 16 bits.
fn push_short(line: &mut LineText, number: u16)
    requires { length line.old.items ≤ 75 }
    ensures items { line.new.items ≡ line.old.items ++ (codes " " ++ decimal number) }
    ensures len { length line.new.items ≤ length line.old.items + 6 }
{
    push_bytes(line, b" ");
    push_number(line, usize::from(number));
}

/// A fault of a unit text: code, name and fields.
fn push_fault(line: &mut LineText, fault: UnitFault)
    requires { length line.old.items ≤ 12 }
    ensures items { line.new.items ≡ line.old.items ++ fault_text fault }
    ensures len { length line.new.items ≤ 95 }
{
    match fault {
        UnitFault::OutOfMemory => push_bytes(line, b"U1 OutOfMemory"),
        UnitFault::NotToml => push_bytes(line, b"U2 NotToml"),
        UnitFault::Missing(spot, key) => push_key(line, b"U3 Missing ", spot, key),
        UnitFault::WrongType(spot, key) => push_key(line, b"U4 WrongType ", spot, key),
        UnitFault::UnknownKey(spot) => push_spot(line, b"U5 UnknownKey ", spot),
        UnitFault::NoUnits => push_bytes(line, b"U6 NoUnits"),
        UnitFault::TooManyUnits => push_bytes(line, b"U7 TooManyUnits"),
        UnitFault::BadName(spot) => push_spot(line, b"U8 BadName ", spot),
        UnitFault::DuplicateName(spot) => push_spot(line, b"U9 DuplicateName ", spot),
        UnitFault::PeriodRange(spot) => push_spot(line, b"U10 PeriodRange ", spot),
        UnitFault::SlaveCount(spot) => push_spot(line, b"U11 SlaveCount ", spot),
        UnitFault::SlaveBytes(spot) => push_spot(line, b"U12 SlaveBytes ", spot),
        UnitFault::UnitTooBig(spot) => push_spot(line, b"U13 UnitTooBig ", spot),
        UnitFault::StationRange(spot) => push_spot(line, b"U14 StationRange ", spot),
        UnitFault::DuplicateStation(spot) => push_spot(line, b"U15 DuplicateStation ", spot),
        UnitFault::AreaRange(spot) => push_spot(line, b"U16 AreaRange ", spot),
        UnitFault::HyperTooLong => push_bytes(line, b"U17 HyperTooLong"),
        UnitFault::SlotsRange => push_bytes(line, b"U18 SlotsRange"),
        UnitFault::TickRange => push_bytes(line, b"U19 TickRange"),
        UnitFault::PlaceRange(spot) => push_spot(line, b"U20 PlaceRange ", spot),
        UnitFault::PlaceHalf(spot) => push_spot(line, b"U21 PlaceHalf ", spot),
    }
}

/// Why a plan is not legal: code, name and fields.
fn push_illegal(line: &mut LineText, illegal: Illegal)
    requires { length line.old.items ≤ 20 }
    ensures items { line.new.items ≡ line.old.items ++ illegal_text illegal }
    ensures len { length line.new.items ≤ 95 }
{
    match illegal {
        Illegal::WrongCount => push_bytes(line, b"I1 WrongCount"),
        Illegal::PhaseRange(unit) => push_one(line, b"I2 PhaseRange ", unit),
        Illegal::SlotRange(unit) => push_one(line, b"I3 SlotRange ", unit),
        Illegal::Full { tick, slot, bytes } => {
            push_three(
                line,
                b"I4 Full ",
                tick as usize,
                usize::from(slot),
                bytes as usize,
            )
        }
    }
}

/// A fault of a certificate's text: code, name and the line.
fn push_cert(line: &mut LineText, fault: CertFault)
    requires { length line.old.items ≤ 12 }
    ensures items { line.new.items ≡ line.old.items ++ cert_text fault }
    ensures len { length line.new.items ≤ 95 }
{
    match fault {
        CertFault::OutOfMemory => push_bytes(line, b"C1 OutOfMemory"),
        CertFault::NotText => push_bytes(line, b"C2 NotText"),
        CertFault::Version => push_bytes(line, b"C3 Version"),
        CertFault::BadLine(at) => push_one(line, b"C4 BadLine ", at as usize),
        CertFault::Number(at) => push_one(line, b"C5 Number ", at as usize),
        CertFault::Early(at) => push_one(line, b"C6 Early ", at as usize),
        CertFault::Late(at) => push_one(line, b"C7 Late ", at as usize),
        CertFault::TooDeep(at) => push_one(line, b"C8 TooDeep ", at as usize),
        CertFault::TooLarge => push_bytes(line, b"C9 TooLarge"),
    }
}

/// Why a certificate shows nothing: code, name and fields.
fn push_check(line: &mut LineText, fault: CheckFault)
    requires { length line.old.items ≤ 9 }
    ensures items { line.new.items ≡ line.old.items ++ check_text fault }
    ensures len { length line.new.items ≤ 95 }
{
    match fault {
        CheckFault::OutOfMemory => push_bytes(line, b"K1 OutOfMemory"),
        CheckFault::OtherUnits => push_bytes(line, b"K2 OtherUnits"),
        CheckFault::Order => push_bytes(line, b"K3 Order"),
        CheckFault::Plan(illegal) => {
            push_bytes(line, b"K4 Plan ");
            push_illegal(line, illegal);
        }
        CheckFault::Value(stated, found) => {
            push_two(line, b"K5 Value ", stated as usize, found as usize)
        }
        CheckFault::Children(node, want, got) => {
            push_three(line, b"K6 Children ", node, want, got)
        }
        CheckFault::Leaf(node) => push_one(line, b"K7 Leaf ", node),
        CheckFault::Depth(node) => push_one(line, b"K8 Depth ", node),
        CheckFault::Level(level, value) => {
            push_two(line, b"K9 Level ", level as usize, value as usize)
        }
    }
}

/// Why a search has no outcome: code and name.
fn push_solve(line: &mut LineText, fault: SolveFault)
    requires { length line.old.items ≤ 12 }
    ensures items { line.new.items ≡ line.old.items ++ solve_text fault }
    ensures len { length line.new.items ≤ 95 }
{
    match fault {
        SolveFault::OutOfMemory => push_bytes(line, b"S1 OutOfMemory"),
        SolveFault::Spawn => push_bytes(line, b"S2 Spawn"),
    }
}

/// What a frame that came back is no frame for: code, name and field.
fn push_frame_fault(line: &mut LineText, fault: FrameFault)
    requires { length line.old.items ≤ 20 }
    ensures items { line.new.items ≡ line.old.items ++ frame_fault_text fault }
    ensures len { length line.new.items ≤ 95 }
{
    match fault {
        FrameFault::Short => push_bytes(line, b"F4 Short"),
        FrameFault::NotEtherCat => push_bytes(line, b"F5 NotEtherCat"),
        FrameFault::FrameType(kind) => push_one(line, b"F6 FrameType ", usize::from(kind)),
        FrameFault::Length => push_bytes(line, b"F7 Length"),
        FrameFault::UnknownCommand(code) => push_one(
            line,
            b"F8 UnknownCommand ",
            usize::from(code),
        ),
        FrameFault::DataPastEnd => push_bytes(line, b"F9 DataPastEnd"),
        FrameFault::MoreAtEnd => push_bytes(line, b"F10 MoreAtEnd"),
        FrameFault::RestAfterLast => push_bytes(line, b"F11 RestAfterLast"),
    }
}

/// The counter that is wanted of a datagram, and the one with which it came back.
fn push_pair(line: &mut LineText, want: u16, got: u16)
    requires { length line.old.items ≤ 69 }
    ensures items { line.new.items ≡ line.old.items ++ (codes " " ++ (decimal want ++ (codes " " ++ decimal got))) }
    ensures len { length line.new.items ≤ length line.old.items + 12 }
{
    push_short(line, want);
    push_short(line, got);
}

/// The datagram of a frame in a tick, with the code and the name of a wrong counter.
fn push_datagram(line: &mut LineText, tick: u32, slot: u8, datagram: usize)
    requires { length line.old.items ≤ 8 }
    ensures items { line.new.items ≡ line.old.items ++ (codes "P2 Counter " ++ (decimal tick ++ (codes " " ++ (decimal slot ++ (codes " " ++ decimal datagram))))) }
    ensures len { length line.new.items ≤ 66 }
{
    push_one(line, b"P2 Counter ", tick as usize);
    push_short(line, u16::from(slot));
    push_one(line, b" ", datagram);
}

/// Why a plan isn't played to its end: code, name and fields.
fn push_play(line: &mut LineText, fault: PlayFault)
    requires { length line.old.items ≤ 8 }
    ensures items { line.new.items ≡ line.old.items ++ play_fault_text fault }
    ensures len { length line.new.items ≤ 95 }
{
    match fault {
        PlayFault::OutOfMemory => push_bytes(line, b"P1 OutOfMemory"),
        PlayFault::Counter {
            tick,
            slot,
            datagram,
            want,
            got,
        } => {
            push_datagram(line, tick, slot, datagram);
            push_pair(line, want, got);
        }
        PlayFault::Frame(fault) => {
            push_bytes(line, b"P3 Frame ");
            push_frame_fault(line, fault);
        }
        PlayFault::Ring => push_bytes(line, b"P4 Ring"),
        PlayFault::Spawn => push_bytes(line, b"P5 Spawn"),
        PlayFault::StartCounter { frame, want, got } => {
            push_one(line, b"P6 StartCounter ", frame as usize);
            push_pair(line, want, got);
        }
        PlayFault::Reply { frame } => push_one(line, b"P7 Reply ", frame as usize),
    }
}

/// What is refused: code, name and fields.
fn push_reason(line: &mut LineText, refusal: Refusal)
    requires { length line.old.items ≤ 8 }
    ensures items { line.new.items ≡ line.old.items ++ reason_text refusal }
    ensures len { length line.new.items ≤ 95 }
{
    match refusal {
        Refusal::Unit(fault) => push_fault(line, fault),
        Refusal::Illegal(illegal) => push_illegal(line, illegal),
        Refusal::TooLarge => push_bytes(line, b"E1 TooLarge"),
        Refusal::NoPlace(unit) => push_one(line, b"E2 NoPlace ", unit),
        Refusal::Read => push_bytes(line, b"E3 Read"),
        Refusal::Cert(fault) => push_cert(line, fault),
        Refusal::Check(fault) => push_check(line, fault),
        Refusal::Solve(fault) => push_solve(line, fault),
        Refusal::Write => push_bytes(line, b"E4 Write"),
        Refusal::CertHasNoPlan => push_bytes(line, b"E5 CertHasNoPlan"),
        Refusal::Play(fault) => push_play(line, fault),
    }
}

/// The line that refuses; takes no memory.
pub fn refusal_line(refusal: Refusal) -> LineText
    ensures { result.items ≡ refusal_spec refusal }
{
    let mut line = LineText::new();
    push_bytes(&mut line, b"refused ");
    push_reason(&mut line, refusal);
    line.push(b'\n');
    line
}
