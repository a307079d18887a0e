//! What is told of the places that the units have themselves, beside the plan that was found.

use ec_branch::kept_plan;
use ec_cli_answers::Told;
use ec_cli_explain::Cycle;
use ec_cli_paths::{Host, tell};
use ec_cli_places::{has_place, lacks_place, legal_cost, placed_cost};
use ec_cli_spots::{PathPiece, Quoted};
use ec_loads::{Loads, Plan, busiest};
use ec_text_builder::Amount;
use ec_units::{Place, Unit, Units};
use std::alloc::{AllocError, Global};
use std::fmt::Write as _;

/// What is told where the places of the units are another plan than that of the certificate.
const OTHER_PLAN: &str =
    "The places in the unit text are another plan: this is the one of the certificate.\n";

/// What helps where the places of the units are as good as those that a search found, or better.
const KEEP_OWN: &str =
    "With --keep a search begins at them, and they stay where no plan costs less.\n";

/// What is told of a search that kept places, and ended without a proof.
const KEEP_AGAIN: &str =
    "A search that begins anew, as by other rules, has to be given --keep again.\n";

/// The units' own places, where they are another legal plan than the one that a search or a merge found, and cost no more, or where that
/// found none: only a search with `--keep` begins at them.
#[derive(Clone, Copy)]
pub(crate) struct Own {
    /// What the busiest tick of their plan costs, in wire bytes.
    pub(crate) cost: u64,
    /// The same of the plan that was found.
    found: Option<u64>,
    /// How many units have another place in that.
    moved: usize,
    /// Whether they cost less, and no plan costs less than they do: by the level that was shown, or by the units alone.
    pub(crate) is_least: bool,
}

/// How many units that have a place have another one in a plan.
fn moved_in(units: &Units, plan: &Plan) -> usize {
    let mut count = 0usize;
    for (unit, place) in units.units.as_slice().iter().zip(plan.places.as_slice()) {
        let is_moved = unit.place.is_some_and(|own| own != *place);
        count = count.saturating_add(usize::from(is_moved));
    }
    count
}

/// So many units.
fn amount_of(units: usize) -> Amount<'static> {
    Amount(units as u64, "unit")
}

/// That a plan moves units with a place, where others have none, and what helps; nothing where it moves none.
fn moved_text(alloc: Global, units: &Units, plan: &Plan) -> Result<String, AllocError> {
    let moved = moved_in(units, plan);
    if moved == 0 || !lacks_place(units) {
        return Ok(String::new(alloc));
    }
    let moved = amount_of(moved);
    format!(in alloc;
        "This plan moves {moved} with a place. With --keep a search begins at their places.\n"
    )
}

/// Adds a line with a place of a unit.
fn push_place(text: &mut String, unit: &Unit, place: Place) -> Result<(), AllocError> {
    let (name, Place { phase, slot }) = (Quoted(unit.name.as_str()), place);
    write!(text, "    unit {name}: phase = {phase}, slot = {slot}\n")?;
    Ok(())
}

/// The units of a text and a plan for them, and what the text is to a path where the plan's places were written over others.
#[derive(Clone, Copy)]
pub(crate) struct Rewritten<'a> {
    pub(crate) path: &'a str,
    pub(crate) units: &'a Units,
    pub(crate) plan: &'a Plan,
    /// Whether the text stands nowhere else; else it still has its places.
    pub(crate) is_gone: bool,
}

/// The place that a unit of the text which stood at a path had, where the plan gives it another one and no text has it any more.
fn former_place(rewritten: Rewritten<'_>, former: &Unit) -> Option<Place> {
    let Rewritten {
        units,
        plan,
        is_gone,
        ..
    } = rewritten;
    let mut pairs = units.units.as_slice().iter().zip(plan.places.as_slice());
    let (unit, place) = pairs.find(|(unit, _)| unit.name.as_str() == former.name.as_str())?;
    let own = former.place?;
    Some(own).filter(|own| own != place && (is_gone || unit.place != Some(*own)))
}

/// The places of a unit text that stood at a path which are gone; nothing where none is.
fn former_text(
    alloc: Global,
    rewritten: Rewritten<'_>,
    former: &Units,
) -> Result<String, AllocError> {
    let mut text = String::new(alloc);
    for unit in former.units.as_slice() {
        if let Some(place) = former_place(rewritten, unit) {
            if text.is_empty() {
                write!(
                    text,
                    "These places stood in {} before:\n",
                    PathPiece(rewritten.path)
                )?;
            }
            push_place(&mut text, unit, place)?;
        }
    }
    Ok(text)
}

/// Tells which places stood in the unit text at a path before those of a plan were written there, of the units that have others now.
pub(crate) fn tell_former(rt: &impl Host, rewritten: Rewritten<'_>, former: &Units) {
    tell(rt, former_text(rt.alloc(), rewritten, former));
}

/// That a plan that keeps the places of the units costs so many wire bytes, where another one moves so many, and where it puts the others.
fn kept_text(
    alloc: Global,
    units: &Units,
    kept: &Plan,
    cost: u64,
    moved: Amount<'_>,
) -> Result<String, AllocError> {
    let mut text = format!(in alloc;
        "A plan that keeps the places in the unit text costs {cost} bytes in its busiest tick: this one costs less, and moves {moved}.\n"
    )?;
    if lacks_place(units) {
        text.push_str("That plan has the units without a place here:\n")?;
    }
    for (unit, place) in units.units.as_slice().iter().zip(kept.places.as_slice()) {
        if unit.place.is_none() {
            push_place(&mut text, unit, *place)?;
        }
    }
    Ok(text)
}

/// Why no plan keeps the places of the units, where another one moves so many: they carry too many bytes by themselves, or leave the
/// other units no room.
fn unkeepable_text(alloc: Global, units: &Units, moved: Amount<'_>) -> Result<String, AllocError> {
    match Loads::placed(alloc, units)?.full() {
        Some((tick, slot)) => format!(in alloc;
            "The places in the unit text are no legal plan: in tick {tick} slot {slot} has too many bytes for one frame. This plan moves {moved}.\n"
        ),
        None => format!(in alloc;
            "No room was found for the other units beside the places in the unit text: this plan moves {moved}.\n"
        ),
    }
}

/// Why a plan doesn't keep the places that it was to keep: there are none, or it moves units; nothing where it keeps them.
fn unkept_text(alloc: Global, units: &Units, plan: &Plan) -> Result<String, AllocError> {
    let moved = moved_in(units, plan);
    if !has_place(units) {
        return String::from_str(alloc, "No unit has a place, so none was kept.\n");
    }
    if moved == 0 {
        return Ok(String::new(alloc));
    }
    let moved = amount_of(moved);
    match kept_plan(alloc, units)? {
        None => unkeepable_text(alloc, units, moved),
        Some(kept) => {
            let (cost, _tick) = busiest(units, &kept);
            kept_text(alloc, units, &kept, cost, moved)
        }
    }
}

/// That the places of the units cost so many bytes in their busiest tick, and those of another plan more.
fn better_text(alloc: Global, own: u64, found: u64) -> Result<String, AllocError> {
    format!(in alloc;
        "The places in the unit text are better: their busiest tick costs {own} bytes, and that of this plan {found}.\n"
    )
}

impl Own {
    /// Those of the units, beside what is told.
    pub(crate) fn of(alloc: Global, told: &Told, units: &Units) -> Option<Own> {
        let (_plan, cost) = placed_cost(alloc, units)?;
        let (found, moved) = match told.plan() {
            Some(other) => (legal_cost(units, other), moved_in(units, other)),
            None => (None, 0),
        };
        let is_better = found.is_none_or(|found| cost < found);
        let is_least = is_better
            && told.ending.is_some_and(|ending| cost <= ending.level.max(Cycle::of(units).least()));
        let own = Own {
            cost,
            found,
            moved,
            is_least,
        };
        Some(own).filter(|_| is_better || (found == Some(cost) && moved > 0))
    }

    /// What is told of them.
    fn text(self, alloc: Global) -> Result<String, AllocError> {
        let Own {
            cost,
            found,
            moved,
            is_least,
        } = self;
        let moved = amount_of(moved);
        match found {
            _ if is_least => format!(in alloc;
                "The places in the unit text are the best: their busiest tick costs {cost} bytes, and that of no plan costs less.\nNo longer search is needed.\n"
            ),
            Some(found) if found == cost => format!(in alloc;
                "The places in the unit text are as good: their busiest tick costs {cost} bytes, too.\nThis plan moves {moved}: addresses and FMMU records may change.\n"
            ),
            Some(found) => better_text(alloc, cost, found),
            None => format!(in alloc;
                "The places in the unit text are a legal plan: its busiest tick costs {cost} bytes.\n"
            ),
        }
    }
}

/// Tells that the places of the units are another plan than that of a certificate, which costs so many wire bytes, if they are a legal
/// one.
pub(crate) fn tell_other(rt: &impl Host, units: &Units, plan: &Plan, cost: u64) {
    match placed_cost(rt.alloc(), units) {
        Some((_, own)) if own < cost => tell(rt, better_text(rt.alloc(), own, cost)),
        Some((own, _)) if own.places.as_slice() != plan.places.as_slice() => {
            let _ = rt.eprint(OTHER_PLAN);
        }
        _ => {}
    }
}

/// Tells of the units' own places, beside those that were found; `keep` says whether a search was to keep them, if it could have.
pub(crate) fn tell_own(
    rt: &impl Host,
    told: &Told,
    units: &Units,
    own: Option<Own>,
    keep: Option<bool>,
) {
    if let Some(own) = own {
        tell(rt, own.text(rt.alloc()));
    }
    match (keep, own, told.plan()) {
        (Some(false), Some(own), _) if !own.is_least => {
            let _ = rt.eprint(KEEP_OWN);
        }
        (Some(false), None, Some(plan)) => tell(rt, moved_text(rt.alloc(), units, plan)),
        (Some(true), _, Some(plan)) => {
            if told.ending.is_some() {
                let _ = rt.eprint(KEEP_AGAIN);
            }
            tell(rt, unkept_text(rt.alloc(), units, plan));
        }
        _ => {}
    }
}
