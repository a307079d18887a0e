//! The whole page.

ghost use Rattle.ec_units.specs.Load.{loads_of};
ghost use Rattle.ec_loads.specs.Legal.{IsLegal};

use crate::claim::Claim;
use crate::facts::{add_claim, add_facts};
use crate::frame_rows::add_ticks;
use crate::laid::{Laid, laid_of};
use crate::slave_rows::add_slaves;
use crate::style::{CLAIM, END, FACTS, FRAMES, GROUPS, HEAD, PICTURE, SLAVES, UNITS};
use crate::unit_rows::{add_groups, add_units};
use ec_cost_picture::picture;
use ec_fmmu::layout;
use ec_loads::Plan;
use ec_text_builder::Draft;
use ec_units::Units;
use std::alloc::{AllocError, Global};

/// Adds the tables of units, groups, slaves and frames.
fn add_tables(page: &mut Draft, units: &Units, plan: &Plan, laid: &Laid<'_>) {
    let groups = laid.mapping.groups.as_slice();
    page.add(UNITS);
    add_units(page, groups, units.units.as_slice(), plan.places.as_slice());
    page.add(GROUPS);
    add_groups(page, groups);
    page.add(SLAVES);
    add_slaves(page, laid.seats.as_slice());
    page.add(FRAMES);
    add_ticks(page, &laid.sends);
}

/// A legal plan as a page for who brings the line into service: one HTML document without scripts and without anything from
/// outside. It tells the identity of the plan, the limits, the busiest tick and whether it fits, what is proved of the plan, what
/// each tick costs as a picture, and in tables the units with their places, the groups, the slaves with their addresses, FMMU
/// records and expected working counters, and the frames of each tick. Times are ns, lengths bytes. Only want of memory is an error
/// (own profile).
pub fn report_of(
    alloc: Global,
    units: &Units,
    plan: &Plan,
    claim: Claim,
) -> Result<String, AllocError>
    requires { IsLegal (loads_of units.now.units) units.now.slots plan.now.places }
{
    let mapping = layout(alloc, units, plan)?;
    let laid = laid_of(alloc, units, plan, mapping)?;
    let drawn = picture(alloc, units, plan)?;
    let mut page = Draft::new(alloc);
    page.add(HEAD);
    page.add(FACTS);
    add_facts(&mut page, units, &laid);
    page.add(CLAIM);
    add_claim(&mut page, &laid, claim);
    page.add(PICTURE);
    page.add(drawn.as_str());
    add_tables(&mut page, units, plan, &laid);
    page.add(END);
    page.finish()
}
