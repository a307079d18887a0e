//! What the page tells of the plan as a whole.

use crate::cells::time_of;
use crate::claim::Claim;
use crate::laid::Laid;
use ec_fmmu::FIRST_ADDRESS;
use ec_loads::MOST_PAYLOAD;
use ec_text_builder::{Amount, Draft};
use ec_units::Units;
use ec_wire::{BYTE_NS, fits};

/// Adds what the busiest tick costs, and whether it fits.
fn add_busiest(page: &mut Draft, units: &Units, laid: &Laid<'_>) {
    let (most, tick) = laid.loads.top();
    let (ns, tick_ns) = (time_of(most), units.tick_ns);
    page.add(format_args!(
        "<tr><th scope=\"row\">Busiest tick</th><td>tick {tick}: {most} bytes on the wire, {ns} ns</td></tr>
<tr><th scope=\"row\">Does it fit?</th><td>"
    ));
    if fits(most, tick_ns) {
        page.add(format_args!("yes: {ns} of {tick_ns} ns</td></tr>\n"));
    } else {
        page.add(format_args!("NO: it takes {ns} ns, and a tick has {tick_ns} ns</td></tr>\n"));
    }
}

/// Adds the limits: how long a tick is, how many frames it may have, and how much a frame may carry.
fn add_limits(page: &mut Draft, units: &Units, laid: &Laid<'_>) {
    let (tick_ns, slots) = (units.tick_ns, units.slots);
    let room = Amount(u64::from(tick_ns) / BYTE_NS, "byte");
    let ticks = Amount(u64::from(laid.loads.ticks()), "tick");
    page.add(format_args!(
        "<tr><th scope=\"row\">Length of a tick</th><td>{tick_ns} ns, which is room for {room}</td></tr>
<tr><th scope=\"row\">Hyperperiod</th><td>{ticks}, after which all repeats</td></tr>
<tr><th scope=\"row\">Slots</th><td>{slots}, the most frames in a tick</td></tr>
<tr><th scope=\"row\">A frame carries at most</th><td>{MOST_PAYLOAD} bytes of datagrams, each its data and 12 bytes</td></tr>
"
    ));
}

/// Adds how many units, slaves, bytes, groups and frames there are.
fn add_counts(page: &mut Draft, units: &Units, laid: &Laid<'_>) {
    let (count, slaves) = (units.units.as_slice().len(), laid.seats.len());
    let total = Amount(u64::from(laid.mapping.total), "byte");
    let groups = laid.mapping.groups.as_slice().len();
    let frames = laid.sends.frames.len();
    page.add(format_args!(
        "<tr><th scope=\"row\">Units</th><td>{count}</td></tr>
<tr><th scope=\"row\">Slaves</th><td>{slaves}</td></tr>
<tr><th scope=\"row\">Process image</th><td>{total}, from the logical address 0x{FIRST_ADDRESS:08x} on</td></tr>
<tr><th scope=\"row\">Groups</th><td>{groups}</td></tr>
<tr><th scope=\"row\">Frames in a hyperperiod</th><td>{frames}</td></tr>
"
    ));
}

/// Adds the table of the plan's numbers, the identity of the plan first.
pub(crate) fn add_facts(page: &mut Draft, units: &Units, laid: &Laid<'_>) {
    let identity = laid.identity;
    page.add(format_args!(
        "<tr><th scope=\"row\">Identity</th><td>{identity:016x}: ECPLAN_ID of its header, the first digits of the SHA-256 of its map</td></tr>\n"
    ));
    add_busiest(page, units, laid);
    add_limits(page, units, laid);
    add_counts(page, units, laid);
}

/// Adds what is proved where a search ended without a proof.
fn add_level(page: &mut Draft, most: u64, level: u64) {
    page.add(format_args!(
        "<p><strong>At least {level}: every legal plan for these units has a tick that costs at least {level} bytes.
The busiest tick of this plan costs {most} bytes.</strong>\n"
    ));
    page.add(if level < most {
        "Whether there is a better plan is not known."
    } else {
        "So no plan is better."
    });
    page.add(
        " The checker of ecplan did not refuse the certificate of this plan. Where that shows less, the level is
by the bytes of the units alone.</p>\n",
    );
}

/// Adds what is proved of the plan.
pub(crate) fn add_claim(page: &mut Draft, laid: &Laid<'_>, claim: Claim) {
    let (most, _tick) = laid.loads.top();
    page.add(
        "<p>The plan is legal: in each tick each slot has at most as many bytes as a frame carries.</p>\n",
    );
    match claim {
        Claim::Nothing => page.add(
            "<p><strong>Not proved: whether there is a better plan.</strong> The places are those of the unit text, and no
certificate was given.</p>\n",
        ),
        Claim::Optimal => page.add(format_args!(
            "<p><strong>Optimal {most}: the busiest tick of this plan costs {most} bytes, and every legal plan for these
units has a tick that costs at least {most} bytes.</strong>
The checker of ecplan said yes to the certificate of this plan.</p>\n"
        )),
        Claim::AtLeast { level } => add_level(page, most, level),
    }
}
