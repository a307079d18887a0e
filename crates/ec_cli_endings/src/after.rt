//! What is written after the text of a job: the picture of costs, the units with the places of a plan, and what is handed over
//! with frames.

use crate::ending::{Done, file_bytes};
use crate::others::{gone_at, stale_at, tell_old};
use crate::own::{Rewritten, tell_former};
use ec_checker::Verdict;
use ec_cli_answers::Told;
use ec_cli_explain::Cycle;
use ec_cli_files::{
    Content, Fate, FileFault, KeepReason, Whole, is_no_file, make_whole, read_file,
};
use ec_cli_paths::{Host, Target, tell, tell_fault, tell_path, tell_whole};
use ec_cli_places::{
    PlacedFault, Placing, loses_lines, placed_text, reason_to_keep_text, standing_text,
};
use ec_cost_picture::picture;
use ec_loads::is_legal;
use ec_master_files::{Claim, header_of, map_of, report_of};
use ec_unit_text::read_units;
use ec_units::Units;
use std::alloc::{AllocError, Global};

/// What is told before a path to which the places are not written.
const UNPLACED: &str = "The places are not written to";

/// What is told where no plan gives places to fill in.
const NO_PLAN: &str = "No plan was found";

/// Why what is written after the job isn't at its path.
#[derive(Drop)]
enum AfterFault {
    File(FileFault),
    /// The places aren't written, since what stands there is kept for this reason; where it has places that are as good, or better,
    /// nothing is missing.
    Unplaced(KeepReason),
    /// The units' text can't have places, for this reason.
    Unfit(&'static str),
    /// No plan was found, so nothing is missing.
    NoPlan,
}

impl From<FileFault> for AfterFault {
    fn from(fault: FileFault) -> AfterFault {
        AfterFault::File(fault)
    }
}

impl From<AllocError> for AfterFault {
    fn from(error: AllocError) -> AfterFault {
        AfterFault::File(FileFault::from(error))
    }
}

impl From<PlacedFault> for AfterFault {
    fn from(fault: PlacedFault) -> AfterFault {
        match fault {
            PlacedFault::OutOfMemory => AfterFault::from(AllocError),
            PlacedFault::Unfit(why) => AfterFault::Unfit(why),
        }
    }
}

/// What a verdict on the certificate of a plan for these units, and their bytes alone, prove of the plan; nothing where there is none.
fn claim_of(units: &Units, verdict: Option<Verdict>) -> Claim {
    match verdict {
        Some(Verdict::Least(_)) => Claim::Optimal,
        Some(Verdict::AtLeast(level)) => Claim::AtLeast {
            level: level.max(Cycle::of(units).mean.cost),
        },
        Some(Verdict::NoPlan) | None => Claim::Nothing,
    }
}

/// The picture, the header, the map or the report of units and of their plan of which was told.
fn handed_of(
    alloc: Global,
    content: Content,
    units: &Units,
    told: &Told,
) -> Result<String, AllocError> {
    let plan = told.plan().ok_or(AllocError)?;
    let Ok(()) = is_legal(units, plan) else {
        return Err(AllocError);
    };
    match content {
        Content::Picture => picture(alloc, units, plan),
        Content::Header => header_of(alloc, units, plan),
        Content::Map => map_of(alloc, units, plan),
        Content::Report => report_of(alloc, units, plan, claim_of(units, told.verdict)),
        Content::Certificate | Content::Capture | Content::Units => Err(AllocError),
    }
}

/// Why what is written after the job isn't at its path. What would be of no use beside it is nowhere.
fn after_fault(fault: FileFault) -> AfterFault {
    match fault {
        FileFault::Kept { why, .. } if why.leaves_nothing() => AfterFault::Unplaced(why),
        fault => AfterFault::File(fault),
    }
}

/// A path to which something is written after the text of a job, beside what was told and what is there.
#[derive(Drop)]
struct After<'a, R> {
    rt: &'a R,
    target: Target<'a>,
    told: &'a Told,
    done: Done<'a>,
}

impl<R: Host> After<'_, R> {
    /// A unit text with the places of the plan that was found.
    fn placed(&self) -> Result<String, AfterFault> {
        let plan = self.told.plan().ok_or(AfterFault::NoPlan)?;
        let (units, places) = (self.done.record.text, plan.places.as_slice());
        Ok(placed_text(self.rt.alloc(), units, places)?)
    }

    /// What is written of units that were found right and of what was told of them. Only memory may be wanting: then the units are
    /// left out.
    fn text(&self) -> Result<String, AfterFault> {
        let Target { content, .. } = self.target;
        if content == Content::Units {
            return self.placed();
        }
        let units = self.done.units.ok_or(AllocError)?;
        Ok(handed_of(self.rt.alloc(), content, units, self.told)?)
    }

    /// Whether the file at the path still holds the units.
    fn holds_still(&self) -> bool {
        let units = self.done.record.text;
        let most = (units.len() as u64).saturating_add(1);
        match read_file(self.rt, self.rt.alloc(), self.target.path, most) {
            Ok(Some(held)) => held.as_slice() == units,
            _ => false,
        }
    }

    /// Whether a certificate that stands at its path was left as it is, since the new one didn't take its place.
    fn is_cert_kept(&self) -> bool {
        match (self.done.target, self.done.fault) {
            (None, _) | (_, None | Some(FileFault::Unsynced { .. })) => false,
            (Some(cert), Some(_)) => file_bytes(self.rt, cert.path).is_some_and(|bytes| bytes > 0),
        }
    }

    /// Why places aren't written over the unit text that stands at the path.
    fn standing_reason(&self) -> Option<KeepReason> {
        if self.target.content != Content::Units {
            return None;
        }
        let placing = Placing {
            text: self.done.record.text,
            units: self.done.units,
            plan: self.told.plan()?,
            has_cert: self.done.target.is_some(),
            is_cert_kept: self.is_cert_kept(),
        };
        reason_to_keep_text(self.rt, self.rt.alloc(), self.target.path, placing)
    }

    /// Why what stands at the path is kept: it is the units' own file, and doesn't hold their text any more; or it is a unit text over
    /// which no places are written.
    fn reason_here(&self) -> Option<KeepReason> {
        if self.target.is_own && !self.holds_still() {
            return Some(KeepReason::Changed);
        }
        self.standing_reason()
    }

    /// Whether it is a unit text with places beside that of the units.
    fn is_other_text(&self) -> bool {
        self.target.content == Content::Units && !self.target.is_own
    }

    /// What becomes of what stands at the path where the new file is whole: a unit text with lines that the units' text hasn't lies beside
    /// it.
    fn fate(&self) -> Fate {
        let (rt, path, units) = (self.rt, self.target.path, self.done.record.text);
        match self.reason_here() {
            Some(why) => Fate::Kept(why),
            None if self.is_other_text() && loses_lines(rt, rt.alloc(), path, units) => Fate::Old,
            None => Fate::Replaced,
        }
    }

    /// The units with the places that stand at the path, where those of a plan are to be written over them.
    fn former(&self) -> Option<Units> {
        if self.target.content != Content::Units {
            return None;
        }
        let text = standing_text(self.rt, self.rt.alloc(), self.target.path)?;
        read_units(self.rt.alloc(), text.as_slice()).ok()
    }

    /// Whether the text of the units stands nowhere else: it stood at the path, or came from what is no file, as a pipe.
    fn is_text_gone(&self) -> bool {
        self.target.is_own || is_no_file(self.rt, self.done.record.path.unwrap_or("/dev/stdin"))
    }

    /// Tells the places that stood at the path, where the file that had them is gone.
    fn tell_gone_places(&self, former: &Option<Units>) {
        let (units, plan) = (self.done.units, self.told.plan());
        if let (Some(former), Some(units), Some(plan)) = (former, units, plan) {
            let rewritten = Rewritten {
                path: self.target.path,
                units,
                plan,
                is_gone: self.is_text_gone(),
            };
            tell_former(self.rt, rewritten, former);
        }
    }

    /// Lets a file take its place at the path, and tells which lines of the one that stood there are gone, and where that lies; of one that
    /// lies nowhere, the places that it had.
    fn settle(&self, whole: Whole<'_, R>) -> Result<(), AfterFault> {
        let (rt, path) = (self.rt, self.target.path);
        let former = self.former();
        let gone = if self.is_other_text() {
            gone_at(rt, path, self.done.record.text)
        } else {
            None
        };
        let settled = whole.settle(|_| self.fate());
        if let (Some(gone), Ok(_) | Err(FileFault::Unsynced { .. })) = (gone, &settled) {
            tell(rt, Ok(gone));
        }
        if let Ok(None) | Err(FileFault::Unsynced { .. }) = &settled {
            self.tell_gone_places(&former);
        }
        match settled {
            Ok(Some(old)) => tell_old(rt, path, old.as_str()),
            Ok(None) => {}
            Err(fault) => return Err(after_fault(fault)),
        }
        Ok(())
    }

    /// Writes what is to be at the path, unless what stands there is kept. That is judged once more when the new file, which is whole by
    /// then, takes its place. The units' own file isn't written where it has these very bytes: it would be newer than what was made of it.
    fn write(&self) -> Result<(), AfterFault> {
        let Target { path, content, .. } = self.target;
        let text = self.text()?;
        if let Some(why) = self.reason_here() {
            return Err(AfterFault::Unplaced(why));
        }
        if self.target.is_own && text.as_bytes() == self.done.record.text {
            return Ok(());
        }
        match make_whole(self.rt, self.rt.alloc(), path, content, text.as_bytes())? {
            Some(whole) => self.settle(whole),
            None => Ok(()),
        }
    }

    /// Tells why the places aren't written to the path, and how the unit text there differs from the units', where its cheaper ones stay.
    fn tell_unplaced(&self, why: KeepReason) {
        let (rt, path, units) = (self.rt, self.target.path, self.done.record.text);
        tell_path(rt, UNPLACED, path, why.as_str());
        if why == KeepReason::Cheaper
            && let Some(text) = stale_at(rt, path, units)
        {
            tell(rt, Ok(text));
        }
    }

    /// Tells why what is written after the job isn't at the path. Whether nothing is missing.
    fn tell_why(&self, fault: &AfterFault) -> bool {
        let (rt, path) = (self.rt, self.target.path);
        match fault {
            AfterFault::File(fault) => tell_fault(rt, self.target, fault),
            AfterFault::Unplaced(why) => self.tell_unplaced(*why),
            AfterFault::Unfit(why) => tell_path(rt, UNPLACED, path, *why),
            AfterFault::NoPlan => tell_path(rt, UNPLACED, path, NO_PLAN),
        }
        matches!(
            fault,
            AfterFault::Unplaced(KeepReason::Better | KeepReason::AsGood) | AfterFault::NoPlan
        )
    }
}

/// Writes what is to be at some paths after the text of a job, each whole before the next one. Whether nothing is missing; tells
/// what is, and where standard output hasn't got the text, or says that the job's file isn't at its path, where each whole file lies.
pub fn write_after<R: Host>(
    rt: &R,
    targets: &[Option<Target<'_>>],
    told: &Told,
    done: Done<'_>,
) -> bool {
    let mut is_whole = true;
    for target in targets.iter().flatten() {
        let after = After {
            rt,
            target: *target,
            told,
            done,
        };
        match after.write() {
            Ok(()) if done.untold.is_some() || done.fault.is_some() => tell_whole(rt, *target),
            Ok(()) => {}
            Err(fault) => is_whole = after.tell_why(&fault) && is_whole,
        }
    }
    is_whole
}
