//! Certificates that are texts, but show nothing of the units.

use crate::certs::add_line;
use crate::due::CertText;
use crate::leaves::add_leaf_fault;
use crate::others::add_differences;
use ec_checker::CheckFault;
use ec_cli_search_hints::Cycle;
use ec_cli_spots::{CertName, Doc, Inputs, add_illegal};
use ec_text_builder::Draft;
use ec_unit_text::read_units;
use std::alloc::Global;
use std::fmt::Display;

/// The number, from 0, of the first line of a certificate that begins so.
fn line_of(inputs: &Inputs<'_>, front: &[u8]) -> Option<usize> {
    let mut lines = inputs.cert?.split(|byte| *byte == b'\n');
    lines.position(|line| line.starts_with(front))
}

/// Tells that a certificate is of other units, and what differs.
fn tell_others(out: &mut Draft, inputs: &Inputs<'_>, doc: Doc<'_>) {
    out.add(format_args!("{} is not for these units.\n", CertName(inputs.cert_path)));
    if let (Some(cert), Ok(_)) = (CertText::of(inputs), doc.top) {
        add_differences(out, doc, cert);
    }
    out.add("Have plan make a new certificate, or give the units that it was made for.\n");
}

/// Ends a sentence with the number of a line of a certificate, from 0, if it is known, and adds the line.
fn add_line_of(out: &mut Draft, inputs: &Inputs<'_>, line: Option<usize>) {
    let (Some(cert), Some(line)) = (inputs.cert, line) else {
        return out.add(".\n");
    };
    out.add(format_args!(": line {}.\n", line.saturating_add(1)));
    add_line(out, cert, line);
}

/// The line, from 0, that is this node of a certificate's tree, from 0.
fn node_line(inputs: &Inputs<'_>, node: usize) -> Option<usize> {
    let tree = CertText::of(inputs)?.tree_line();
    Some(tree.saturating_add(1).saturating_add(node))
}

/// Tells what is wrong with a node of a certificate's tree, from 0, and its line.
fn tell_node<D: Display + Drop>(out: &mut Draft, inputs: &Inputs<'_>, node: usize, fault: D) {
    let name = CertName(inputs.cert_path);
    let line = node_line(inputs, node);
    out.add(format_args!(
        "{name} does not show what it says: node {node} of its tree, from 0, {fault}"
    ));
    add_line_of(out, inputs, line);
}

/// Tells that a node of a certificate's tree, from 0, is a leaf that doesn't hold, and why.
fn tell_leaf(out: &mut Draft, inputs: &Inputs<'_>, doc: Doc<'_>, node: usize) {
    tell_node(out, inputs, node, "is a leaf whose reason does not hold");
    if let (Some(cert), Some(line)) = (CertText::of(inputs), node_line(inputs, node)) {
        add_leaf_fault(out, doc, cert, line);
    }
}

/// Adds whether a search that found no plan so far may find one.
fn add_outlook(out: &mut Draft, alloc: Global, units: &[u8]) {
    let units = read_units(alloc, units);
    match units.as_ref().map(|units| Cycle::of(units)) {
        Ok(cycle) if cycle.is_overfull() => cycle.add_none(out),
        _ => out.add("The command resume goes on with that search, and may find one.\n"),
    }
}

/// Tells that a certificate holds no plan.
pub fn tell_no_plan(out: &mut Draft, alloc: Global, inputs: &Inputs<'_>) {
    let is_open = line_of(inputs, b"O").is_some();
    let why = match inputs.cert {
        Some(_) if is_open => "is that of a search that has found no plan so far",
        Some(_) => "shows that there is no plan",
        None => "holds no plan",
    };
    let name = CertName(inputs.cert_path);
    out.add(format_args!("{name} is right, and {why}: there is nothing to tell.\n"));
    if is_open {
        add_outlook(out, alloc, inputs.units);
    }
}

/// Tells that memory ran out over a check, or over what a search without a proof has proved.
fn tell_memory(out: &mut Draft, inputs: &Inputs<'_>) {
    out.add(match inputs.cert_path {
        Some(_) =>
            "Memory ran out over the check of the certificate, or over what a search that goes on with it has proved: nothing is said of it.\nRun it with more memory.\n",
        None =>
            "Memory ran out over what the search has proved: nothing is said of it. Run it with more memory, or with fewer nodes.\n",
    });
}

/// Tells why a certificate shows nothing of the units. Values and levels are in wire bytes.
pub fn tell_check(out: &mut Draft, inputs: &Inputs<'_>, doc: Doc<'_>, fault: CheckFault) {
    let name = CertName(inputs.cert_path);
    match fault {
        CheckFault::OutOfMemory => tell_memory(out, inputs),
        CheckFault::OtherUnits => tell_others(out, inputs, doc),
        CheckFault::Order => {
            out.add(format_args!("{name} does not name each unit once in its line order"));
            add_line_of(out, inputs, line_of(inputs, b"order"));
        }
        CheckFault::Plan(illegal) => {
            out.add(format_args!("{name} has a plan that is not legal.\n"));
            add_illegal(out, doc, illegal);
        }
        CheckFault::Value(stated, found) => {
            out.add(format_args!(
                "{name} states the value {stated}, and the busiest tick of its plan costs {found} bytes"
            ));
            add_line_of(out, inputs, line_of(inputs, b"value"));
        }
        CheckFault::Level(level, value) => {
            out.add(format_args!(
                "{name} states the level {level}, and the busiest tick of its plan costs {value} bytes"
            ));
            add_line_of(out, inputs, line_of(inputs, b"level"));
            out.add(
                "A level is what the busiest tick of each plan costs at least, so it is at most that.\n",
            );
        }
        CheckFault::Children(node, want, got) => {
            let fault = format_args!("has {got} children, where there are {want} places to try");
            tell_node(out, inputs, node, fault);
        }
        CheckFault::Depth(node) => {
            tell_node(out, inputs, node, "is a split where every unit has a place");
        }
        CheckFault::Leaf(node) => tell_leaf(out, inputs, doc, node),
    }
}
