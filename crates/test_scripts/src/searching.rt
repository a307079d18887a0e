//! The orders of the units, the greedy plan, the first one, trees below a prefix, and what a search of one worker finds and writes.

ghost use Rattle.std.specs.Prelude.{length};
ghost use Rattle.ec_symmetry.specs.Orders.{IsOrder};

use crate::call::Call;
use crate::crews::{Crew, Shown, Told, crewed, crewed_again, met, search};
use crate::guide::{Heard, Wish, found_below, is_reached};
use crate::onward;
use crate::samples::add_places;
use ec_branch::{first_plan, greedy, search_order, strong_order};
use ec_cert::Subtree;
use ec_loads::{Plan, busiest, is_legal};
use ec_symmetry::Rules;
use ec_text_builder::Draft;
use ec_units::Units;
use std::alloc::Global;
use std::sync::Wait;
use std::sync::atomic::Ordering;
use std::thread::Threads;

/// Adds what one worker finds within so many nodes, and before how many of them its gate was told, and of how many
/// others than worker 0 with piece 0.
fn solved(
    rt: &(impl Threads + Wait + Sync),
    alloc: Global,
    units: &Units,
    call: Call<'_>,
    out: &mut Draft,
) {
    let shown = if call.word(2) == "whole" {
        Shown::Tree
    } else {
        Shown::Plan
    };
    let gate = Told::new();
    let crew = Crew {
        workers: 1,
        nodes: call.count(1),
        strong: call.is_strong(),
    };
    search(rt, alloc, units, crew, &gate, shown, out);
    let calls = gate.calls.load(Ordering::SeqCst);
    let others = gate.others.load(Ordering::SeqCst);
    out.add(format_args!(" told {calls} {others}"));
    gate.add_nodes(out);
}

/// Adds the certificate that a search writes, or what the checker answers of it.
fn certify(
    rt: &(impl Threads + Wait + Sync),
    alloc: Global,
    units: &Units,
    strong: bool,
    shown: Shown,
    out: &mut Draft,
) {
    let crew = Crew {
        workers: 1,
        nodes: 1_000_000,
        strong,
    };
    search(rt, alloc, units, crew, &Told::new(), shown, out);
}

/// Adds how many lines of that certificate are this one.
fn add_count(
    rt: &(impl Threads + Wait + Sync),
    alloc: Global,
    units: &Units,
    call: Call<'_>,
    out: &mut Draft,
) {
    let mut text = Draft::new(alloc);
    certify(rt, alloc, units, call.is_strong(), Shown::Cert, &mut text);
    match text.finish() {
        Ok(text) => out.add(count_of(text.as_str(), call.after(1))),
        Err(_) => out.give_up(),
    }
}

/// Adds the lines of the tree of that certificate, with bars.
fn add_tree_lines(
    rt: &(impl Threads + Wait + Sync),
    alloc: Global,
    units: &Units,
    call: Call<'_>,
    out: &mut Draft,
) {
    let mut text = Draft::new(alloc);
    certify(rt, alloc, units, call.is_strong(), Shown::Cert, &mut text);
    match text.finish() {
        Ok(text) => {
            let (_, tree) = text.as_str().split_once("|tree|").unwrap_or(("", ""));
            out.add(tree.strip_suffix("end|").unwrap_or(""));
        }
        Err(_) => out.give_up(),
    }
}

/// How many lines of a text, each with a bar behind it, are this one; of no text, how many there are.
fn count_of(text: &str, wanted: &str) -> u32 {
    let mut count = 0u32;
    for line in text.split_terminator('|') {
        if line == wanted || wanted.is_empty() {
            count = count.saturating_add(1);
        }
    }
    count
}

/// Adds the order in which a search gives units their places, a strong one or another one.
fn add_order(out: &mut Draft, alloc: Global, units: &Units, strong: bool) {
    let order = if strong {
        strong_order(alloc, units)
    } else {
        search_order(alloc, units)
    };
    match order {
        Ok(order) => out.add(format_args!("{order:?}")),
        Err(_) => out.give_up(),
    }
}

/// Adds the places of a plan and its greatest cost.
fn add_plan(out: &mut Draft, units: &Units, plan: &Plan) {
    match is_legal(units, plan) {
        Ok(()) => {
            add_places(out, plan.places.as_slice());
            out.add(format_args!(" {}", busiest(units, plan).0));
        }
        Err(illegal) => out.add(format_args!("{illegal:?}")),
    }
}

/// Adds the places of the greedy plan or the first one, and its greatest cost, where there is one.
fn add_found(out: &mut Draft, alloc: Global, units: &Units, first: bool) {
    let found = if first {
        first_plan(alloc, units)
    } else {
        greedy(alloc, units)
    };
    match found {
        Ok(Some(plan)) => add_plan(out, units, &plan),
        Ok(None) => out.add("none"),
        Err(_) => out.give_up(),
    }
}

/// Adds a tree, its threshold, and how often the guide was asked, told, and told a plan that wasn't cheaper.
fn add_tree(out: &mut Draft, sub: &Subtree, heard: Heard) {
    out.add(format_args!("{:?} {:?}", sub.tree, sub.threshold));
    out.add(format_args!(" asked {} told {}", heard.asked, heard.told));
    out.add(format_args!(" dearer {}", heard.dearer));
}

/// Adds what a search below these places finds, in this order of the units.
fn explore_in(out: &mut Draft, alloc: Global, units: &Units, order: &[u8], call: Call<'_>)
    requires { IsOrder (length units.now.units) order.now }
{
    let wish = Wish {
        value: call.number(1),
        floor: call.number(2).unwrap_or(0),
        grant: call.count(3),
        stops: call.word(4) == "stops",
    };
    let prefix = call.places(alloc, 5, out);
    if wish.grant == 0 || !is_reached(units, order, Rules::Turned, prefix.as_slice()) {
        return out.add("no node, or a place that is not reached");
    }
    match found_below(alloc, units, order, Rules::Turned, prefix.as_slice(), wish) {
        Ok((sub, heard)) => {
            add_tree(out, &sub, heard);
            drop(sub);
        }
        Err(_) => out.give_up(),
    }
}

/// Adds what a search below these places finds: `explore VALUE FLOOR GRANT stops|goes PLACE..`.
fn explored(out: &mut Draft, alloc: Global, units: &Units, call: Call<'_>) {
    match search_order(alloc, units) {
        Ok(order) => explore_in(out, alloc, units, order.as_slice(), call),
        Err(_) => out.give_up(),
    }
}

/// Adds what a call about searches of these units answers.
pub(crate) fn answer(
    rt: &(impl Threads + Wait + Sync),
    alloc: Global,
    units: &Units,
    call: Call<'_>,
    out: &mut Draft,
) {
    match call.name() {
        "order" => add_order(out, alloc, units, call.is_strong()),
        "greedy" => add_found(out, alloc, units, false),
        "first" => add_found(out, alloc, units, true),
        "explore" => explored(out, alloc, units, call),
        "solve" => solved(rt, alloc, units, call, out),
        "crew" => crewed(rt, alloc, units, call, out),
        "again" => crewed_again(rt, alloc, units, call, out),
        "meet" => met(rt, alloc, units, call, out),
        "checked" => certify(rt, alloc, units, call.is_strong(), Shown::Verdict, out),
        "lines" => add_count(rt, alloc, units, call, out),
        "tree" => add_tree_lines(rt, alloc, units, call, out),
        "certificate" => certify(rt, alloc, units, call.is_strong(), Shown::Cert, out),
        _ => onward::answer(rt, alloc, units, call, out),
    }
}
