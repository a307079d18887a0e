//! The refusal that a line tells.

use crate::words::Words;
use ec_cert_text::CertFault;
use ec_checker::CheckFault;
use ec_cli_refusals::{Refusal, refusal_line};
use ec_frames::FrameFault;
use ec_loads::Illegal;
use ec_outcome::{PlayFault, SolveFault};
use ec_unit_text::UnitFault;

/// The fault of a unit text.
fn unit_fault(line: Words<'_>) -> Option<UnitFault> {
    let spot = line.spot();
    let fault = match line.word(1) {
        "U1" => UnitFault::OutOfMemory,
        "U2" => UnitFault::NotToml,
        "U3" => UnitFault::Missing(spot, line.key()),
        "U4" => UnitFault::WrongType(spot, line.key()),
        "U5" => UnitFault::UnknownKey(spot),
        "U6" => UnitFault::NoUnits,
        "U7" => UnitFault::TooManyUnits,
        "U8" => UnitFault::BadName(spot),
        "U9" => UnitFault::DuplicateName(spot),
        "U10" => UnitFault::PeriodRange(spot),
        "U11" => UnitFault::SlaveCount(spot),
        "U12" => UnitFault::SlaveBytes(spot),
        "U13" => UnitFault::UnitTooBig(spot),
        "U14" => UnitFault::StationRange(spot),
        "U15" => UnitFault::DuplicateStation(spot),
        "U16" => UnitFault::AreaRange(spot),
        "U17" => UnitFault::HyperTooLong,
        "U18" => UnitFault::SlotsRange,
        "U19" => UnitFault::TickRange,
        "U20" => UnitFault::PlaceRange(spot),
        "U21" => UnitFault::PlaceHalf(spot),
        _ => return None,
    };
    Some(fault)
}

/// Why a plan is not legal, from a word of the line on.
fn illegal_at(line: Words<'_>, at: usize) -> Option<Illegal> {
    let field = at.saturating_add(2);
    let fault = match line.word(at) {
        "I1" => Illegal::WrongCount,
        "I2" => Illegal::PhaseRange(line.number(field)),
        "I3" => Illegal::SlotRange(line.number(field)),
        "I4" => Illegal::Full {
            tick: line.long(field),
            slot: line.byte(field.saturating_add(1)),
            bytes: line.long(field.saturating_add(2)),
        },
        _ => return None,
    };
    Some(fault)
}

/// The fault of a certificate's text.
fn cert_fault(line: Words<'_>) -> Option<CertFault> {
    let number = line.long(3);
    let fault = match line.word(1) {
        "C1" => CertFault::OutOfMemory,
        "C2" => CertFault::NotText,
        "C3" => CertFault::Version,
        "C4" => CertFault::BadLine(number),
        "C5" => CertFault::Number(number),
        "C6" => CertFault::Early(number),
        "C7" => CertFault::Late(number),
        "C8" => CertFault::TooDeep(number),
        "C9" => CertFault::TooLarge,
        _ => return None,
    };
    Some(fault)
}

/// Why a certificate shows nothing.
fn check_fault(line: Words<'_>) -> Option<CheckFault> {
    let first = line.number(3);
    let second = line.number(4);
    let fault = match line.word(1) {
        "K1" => CheckFault::OutOfMemory,
        "K2" => CheckFault::OtherUnits,
        "K3" => CheckFault::Order,
        "K4" => CheckFault::Plan(illegal_at(line, 3)?),
        "K5" => CheckFault::Value(first as u64, second as u64),
        "K6" => CheckFault::Children(first, second, line.number(5)),
        "K7" => CheckFault::Leaf(first),
        "K8" => CheckFault::Depth(first),
        "K9" => CheckFault::Level(first as u64, second as u64),
        _ => return None,
    };
    Some(fault)
}

/// Why bytes are no frame.
fn frame_fault(line: Words<'_>) -> Option<FrameFault> {
    let fault = match line.word(3) {
        "F4" => FrameFault::Short,
        "F5" => FrameFault::NotEtherCat,
        "F6" => FrameFault::FrameType(line.byte(5)),
        "F7" => FrameFault::Length,
        "F8" => FrameFault::UnknownCommand(line.byte(5)),
        "F9" => FrameFault::DataPastEnd,
        "F10" => FrameFault::MoreAtEnd,
        "F11" => FrameFault::RestAfterLast,
        _ => return None,
    };
    Some(fault)
}

/// Why a plan isn't played to its end.
fn play_fault(line: Words<'_>) -> Option<PlayFault> {
    let fault = match line.word(1) {
        "P1" => PlayFault::OutOfMemory,
        "P2" => PlayFault::Counter {
            tick: line.long(3),
            slot: line.byte(4),
            datagram: line.number(5),
            want: line.short(6),
            got: line.short(7),
        },
        "P3" => PlayFault::Frame(frame_fault(line)?),
        "P4" => PlayFault::Ring,
        "P5" => PlayFault::Spawn,
        "P6" => PlayFault::StartCounter {
            frame: line.long(3),
            want: line.short(4),
            got: line.short(5),
        },
        "P7" => PlayFault::Reply {
            frame: line.long(3),
        },
        _ => return None,
    };
    Some(fault)
}

/// Why a search has no outcome.
fn solve_fault(line: Words<'_>) -> Option<SolveFault> {
    match line.word(1) {
        "S1" => Some(SolveFault::OutOfMemory),
        "S2" => Some(SolveFault::Spawn),
        _ => None,
    }
}

/// What is refused of the units, a path or a certificate, and is no fault of a kind.
fn plain_refusal(line: Words<'_>) -> Option<Refusal> {
    match line.word(1) {
        "E1" => Some(Refusal::TooLarge),
        "E2" => Some(Refusal::NoPlace(line.number(3))),
        "E3" => Some(Refusal::Read),
        "E4" => Some(Refusal::Write),
        "E5" => Some(Refusal::CertHasNoPlan),
        _ => None,
    }
}

/// The refusal with the code of a line.
fn refusal_coded(line: Words<'_>) -> Option<Refusal> {
    if let Some(fault) = unit_fault(line) {
        return Some(Refusal::Unit(fault));
    }
    if let Some(illegal) = illegal_at(line, 1) {
        return Some(Refusal::Illegal(illegal));
    }
    if let Some(fault) = cert_fault(line) {
        return Some(Refusal::Cert(fault));
    }
    if let Some(fault) = check_fault(line) {
        return Some(Refusal::Check(fault));
    }
    if let Some(fault) = solve_fault(line) {
        return Some(Refusal::Solve(fault));
    }
    if let Some(fault) = play_fault(line) {
        return Some(Refusal::Play(fault));
    }
    plain_refusal(line)
}

/// The refusal of which this is the line, without its line feed.
pub(crate) fn refusal_of(line: &str) -> Option<Refusal> {
    let refusal = refusal_coded(Words { line })?;
    let told = refusal_line(refusal);
    if told.as_slice().trim_ascii_end() == line.as_bytes() {
        Some(refusal)
    } else {
        None
    }
}
