//! Leaves of a certificate's tree that don't hold, and why.

use crate::due::CertText;
use ec_cli_spots::{Doc, ticks_of};
use ec_text_builder::Draft;

/// Adds why a leaf with these weights doesn't hold.
fn add_weights(out: &mut Draft, doc: Doc<'_>, weights: &str) {
    let count = weights.split(' ').count() as u64;
    // Without units, or where 64 bits don't hold it, the hyperperiod isn't known.
    let units = Some(doc.units()).filter(|units| !units.is_empty());
    let ticks = units.and_then(ticks_of).unwrap_or(count);
    if count != ticks {
        out.add(format_args!(
            "It has {count} weights, and the hyperperiod has {ticks} ticks: each tick has a weight.\n"
        ));
    } else if weights.split(' ').all(|weight| weight == "0") {
        out.add("All its weights are 0.\n");
    } else {
        out.add("By its weights a tick has too few bytes on average to show the value.\n");
    }
}

/// Adds why the leaf on a line of a certificate doesn't hold, where the line says it, or when such leaves hold.
pub(crate) fn add_leaf_fault(out: &mut Draft, doc: Doc<'_>, cert: CertText<'_>, line: usize) {
    let leaf = cert.line(line).unwrap_or("");
    let (kind, fields) = leaf.split_once(' ').unwrap_or((leaf, ""));
    let needs_value = kind != "F" && cert.has_no_value();
    out.add(match kind {
        "O" =>
            "At an open leaf some tick, or the average of all ticks, has to cost at least the level: here none does.\n",
        _ if needs_value && cert.is_partial() => "Without a value only leaves F and O can hold.\n",
        _ if needs_value => "Without a value only a leaf F can hold.\n",
        "T" =>
            "A leaf T holds where this tick costs at least the value, by the units that have a place.\n",
        "F" =>
            "A leaf F holds where more than 1498 bytes of payload are in this slot in this tick, by the units that have a place.\n",
        "A" =>
            "A leaf A holds where the average of all ticks is too great for a cost below the value.\n",
        "W" => return add_weights(out, doc, fields),
        "M" => "A leaf M holds where the value is at most 1579 and some unit has a slot above 0.\n",
        "N" =>
            "A leaf N holds where more units of its period and of at least its bytes have no place than find room.\n",
        "G" =>
            "A leaf G holds where each period of units without a place needs as many new groups as its pair says, and the average of all ticks with them is too great.\n",
        _ => "",
    });
}
