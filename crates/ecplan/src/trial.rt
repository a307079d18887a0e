//! A play that loses slaves, or whose frames are written as a capture file.

ghost use Rattle.std.specs.Prelude.{◌≡◌};
ghost use Rattle.ec_cli_command.specs.Words.{JobFits, job_of};

use crate::output::{Output, refuse_line, refuse_text};
use crate::progress::{Progress, Telling};
use crate::units::Recorder;
use ec_cli_answers::Told;
use ec_cli_endings::{FAILED, tell_given, tell_refusal, tell_untold};
use ec_cli_explain::misread;
use ec_cli_files::{FileFault, write_whole};
use ec_cli_paths::{Host, Target, tell, tell_fault, tell_whole};
use ec_cli_refusals::Refusal;
use ec_cli_run::do_line;
use ec_cli_words::Words;
use ec_fmmu::layout;
use ec_frame_text::stations_of;
use ec_loads::{Plan, is_legal};
use ec_outcome::PlayFault;
use ec_play_trial::{trial_capture, trial_text, try_plan};
use ec_unit_text::UnitFault;
use ec_units::Units;
use ec_wire::Io;
use std::alloc::{AllocError, Global};
use std::fmt::Write as _;
use std::io;
use std::io::{ErrorKind, Read};
use std::rt::Clock;
use std::sync::Wait;
use std::thread::Threads;

/// Why nothing is told of such a play.
#[derive(Drop)]
enum TrialFault {
    /// Its job was refused, or memory ran out.
    Refused(Refusal),
    /// No slave has a station that is to be lost; the text says which.
    Station(String),
}

impl From<AllocError> for TrialFault {
    fn from(_error: AllocError) -> TrialFault {
        TrialFault::Refused(Refusal::Play(PlayFault::OutOfMemory))
    }
}

/// What is told and written of such a play.
#[derive(Drop)]
struct Played {
    /// Its lines; where no slave is lost they are those of any play.
    text: String,
    /// The capture file, if one is to be written.
    capture: Option<Vec<u8>>,
    plan: Plan,
}

/// Whether a play is told or written otherwise than by its job.
pub(crate) fn is_trial(words: &Words) -> bool {
    !words.trial.lost.is_empty() || words.trial.pcap.is_some()
}

/// What is told of a station that no slave has, with those that there are.
fn station_words(alloc: Global, unknown: u16, stations: &[u16]) -> Result<String, AllocError> {
    let mut text = format!(in alloc;
        "error: no slave has the station {unknown} of --lose\n\nThe stations are"
    )?;
    for station in stations {
        write!(text, " {station}")?;
    }
    text.push_str("\n")?;
    Ok(text)
}

/// That each station that is to be lost is one of a slave.
fn know_stations(alloc: Global, units: &Units, lost: &[u16]) -> Result<(), TrialFault> {
    let stations = stations_of(alloc, units.units.as_slice())?;
    match lost.iter().find(|station| !stations.contains(*station)) {
        Some(unknown) => {
            let text = station_words(alloc, *unknown, stations.as_slice())?;
            Err(TrialFault::Station(text))
        }
        None => Ok(()),
    }
}

/// Plays a plan of units that were found right once more, as the words say; its job told these lines.
fn try_words(
    alloc: Global,
    words: &Words,
    units: &Units,
    plan: Plan,
    lines: String,
) -> Result<Played, TrialFault> {
    let lost = words.trial.lost.as_slice();
    know_stations(alloc, units, lost)?;
    let Ok(()) = is_legal(units, &plan) else {
        return Err(TrialFault::from(AllocError));
    };
    let mapping = layout(alloc, units, &plan)?;
    let trial = try_plan(alloc, units, &mapping, lost)?;
    let text = if lost.is_empty() {
        lines
    } else {
        trial_text(alloc, &trial)?
    };
    let capture = match words.trial.pcap {
        Some(_) => Some(trial_capture(alloc, units, &trial)?),
        None => None,
    };
    Ok(Played {
        text,
        capture,
        plan,
    })
}

/// Plays the plan of which a job told once more, as the words say. Of units and plan, which were found right, only memory may be
/// wanting.
fn try_told(
    alloc: Global,
    words: &Words,
    units: Option<&Units>,
    told: Result<Told, Refusal>,
) -> Result<Played, TrialFault> {
    let Told { answer, plan, .. } = told.map_err(|refusal| TrialFault::Refused(refusal))?;
    let (Some(units), Some(plan)) = (units, plan) else {
        return Err(TrialFault::from(AllocError));
    };
    try_words(alloc, words, units, plan, answer.text)
}

/// The refusal of a capture file that isn't at its path.
fn refusal_of(fault: &FileFault) -> Refusal {
    match fault {
        FileFault::Unwritten { why } if why.kind() == ErrorKind::OutOfMemory => {
            Refusal::Unit(UnitFault::OutOfMemory)
        }
        _ => Refusal::Write,
    }
}

/// Writes the capture file of a play. The refusal where it can't; tells why.
fn write_capture(rt: &impl Host, target: Target<'_>, bytes: &[u8]) -> Result<(), Refusal> {
    let written = write_whole(rt, rt.alloc(), target.path, target.content, bytes);
    written.map_err(|fault| {
        tell_fault(rt, target, &fault);
        refusal_of(&fault)
    })
}

/// Writes the lines of a play; tells why, where it can't, and where the capture file lies. The status.
fn write_text<H: Host + Print>(rt: &H, target: Option<Target<'_>>, text: &str) -> u8 {
    let mut output = Output::new(rt, false);
    let written = Io::new(&mut output).write_whole(text.as_bytes());
    let untold = output.fault();
    tell_untold(rt, untold);
    if let (Some(target), Some(_)) = (target, untold) {
        tell_whole(rt, target);
    }
    if written.is_ok() { 0 } else { FAILED }
}

/// Writes what comes of a play, its capture file first. The status.
fn write_played<H: Host + Print>(rt: &H, target: Option<Target<'_>>, played: &Played) -> u8 {
    if let (Some(target), Some(bytes)) = (target, &played.capture)
        && let Err(refusal) = write_capture(rt, target, bytes.as_slice())
    {
        return refuse_line(rt, refusal);
    }
    write_text(rt, target, played.text.as_str())
}

/// Does the job of a play on its units, and tells and writes what comes of it as the words say. The status.
pub(crate) fn do_trial<H: Host + Print + Clock + Threads + Wait + Sync, R: Read>(
    rt: &H,
    words: &Words,
    target: Option<Target<'_>>,
    recorder: &mut Recorder<'_, R>,
) -> u8
    requires { JobFits (job_of words.now.line) }
{
    let line = &words.line;
    let progress = Progress::new(rt, line, Telling::Nothing);
    let report = do_line(
        rt,
        rt,
        rt.alloc(),
        line,
        &mut Io::new(&mut *recorder),
        &mut Io::new(io::sink()),
        &progress,
    );
    let record = recorder.record();
    let units = record.units(rt.alloc());
    match try_told(rt.alloc(), words, units.as_ref(), report.told) {
        Ok(played) => {
            let code = write_played(rt, target, &played);
            tell(rt, misread(rt.alloc(), record.text));
            if let Some(units) = &units {
                tell_given(rt, line, &played.plan, units);
            }
            code
        }
        Err(TrialFault::Station(text)) => {
            let code = refuse_text(rt, text.as_str());
            tell(rt, misread(rt.alloc(), record.text));
            code
        }
        Err(TrialFault::Refused(refusal)) => {
            let code = refuse_line(rt, refusal);
            tell_refusal(rt, &refusal, line.cert(), record);
            code
        }
    }
}
