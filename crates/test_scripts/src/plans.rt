//! Plans of a line, and the places that units may take.

use crate::call::{Call, note};
use crate::samples::{add_place, add_places};
use ec_loads::{Places, Plan, busiest, is_legal};
use ec_symmetry::{Children, canonical, choices, used_slots};
use ec_text_builder::Draft;
use ec_units::Units;
use std::alloc::Global;

/// The places of a unit, which a call names by period, slot count and used slots.
fn children_of(call: Call<'_>) -> Children {
    let period = call.count(1).min(60) as u16;
    choices(
        period,
        call.small(2),
        call.small(3),
        call.word(4) == "turned",
    )
}

/// Adds the places that are left, in their order.
pub(crate) fn add_children(out: &mut Draft, children: Children) {
    let mut is_first = true;
    for place in children {
        add_place(out, place, is_first);
        is_first = false;
    }
}

/// Adds the plan that the children reach, in turned time or not, where the plan is legal and the order has units of the
/// line alone.
fn rename(out: &mut Draft, alloc: Global, units: &Units, plan: &Plan, order: &[u8], turned: bool) {
    let count = units.units.as_slice().len();
    if !order.iter().all(|unit| usize::from(*unit) < count) {
        return out.add("no order");
    }
    match is_legal(units, plan) {
        Ok(()) => match canonical(alloc, plan, units, order, turned) {
            Ok(other) => add_places(out, other.places.as_slice()),
            Err(_) => out.give_up(),
        },
        Err(_) => out.add("not legal"),
    }
}

/// The unit numbers in a word, each one digit. Want of memory is noted in the answer.
fn order_of(alloc: Global, word: &str, out: &mut Draft) -> Vec<u8> {
    let mut order = Vec::new(alloc);
    for digit in word.as_bytes() {
        note(order.push(digit.saturating_sub(b'0')).is_ok(), out);
    }
    order
}

/// Adds the plan that the children reach from the one of a call, in the order that its first word is, in turned time or
/// not.
fn rename_by(out: &mut Draft, alloc: Global, units: &Units, call: Call<'_>, turned: bool) {
    let plan = Plan {
        places: Places::new(call.places(alloc, 2, out)),
    };
    let order = order_of(alloc, call.word(1), out);
    rename(out, alloc, units, &plan, order.as_slice(), turned);
}

/// Adds what a call about this plan answers.
fn judge(out: &mut Draft, units: &Units, plan: &Plan, call: Call<'_>) {
    match call.name() {
        "legal" => out.add(format_args!("{:?}", is_legal(units, plan))),
        "busiest" => match is_legal(units, plan) {
            Ok(()) => out.add(format_args!("{:?}", busiest(units, plan))),
            Err(_) => out.add("not legal"),
        },
        "used" if plan.places.as_slice().len() <= 48 => {
            out.add(used_slots(plan.places.as_slice()));
        }
        _ => out.add("no call"),
    }
}

/// Adds what a call about the plan that its words are answers.
fn judge_by(out: &mut Draft, alloc: Global, units: &Units, call: Call<'_>) {
    let plan = Plan {
        places: Places::new(call.places(alloc, 1, out)),
    };
    judge(out, units, &plan, call);
}

/// Adds what a call about plans of these units, or about places, answers.
pub(crate) fn answer(alloc: Global, units: &Units, call: Call<'_>, out: &mut Draft) {
    match call.name() {
        "canonical" => rename_by(out, alloc, units, call, false),
        "turned" => rename_by(out, alloc, units, call, true),
        "choices" => add_children(out, children_of(call)),
        // counted one by one, and without a walk
        "count" => {
            let children = children_of(call);
            let count = children.len();
            out.add(format_args!("{} {count}", children.count()));
        }
        _ => judge_by(out, alloc, units, call),
    }
}
