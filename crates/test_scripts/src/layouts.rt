//! Layouts of plans in logical memory, and the frames that carry them.

ghost use Rattle.ec_frame_builder.specs.Frames.{HasLayout};

use crate::call::Call;
use ec_fmmu::{Fmmu, Mapping, fmmu_bytes, layout};
use ec_frame_builder::tick_frames;
use ec_frames::Frame;
use ec_loads::{Loads, Places, Plan, is_legal};
use ec_text_builder::Draft;
use ec_units::Units;
use ec_wire::frame_wire;
use std::alloc::Global;

/// Adds bytes with two hexadecimal digits each, and a space before them.
fn add_hex(out: &mut Draft, bytes: &[u8]) {
    out.add(' ');
    for byte in bytes {
        out.add(format_args!("{byte:02x}"));
    }
}

/// Adds the bytes of a slave's records.
fn add_slave(out: &mut Draft, records: &[Fmmu]) {
    for record in records {
        add_hex(out, &fmmu_bytes(record));
    }
}

/// Adds the number of bytes in all, and the bytes of all records.
fn add_records(out: &mut Draft, mapping: &Mapping) {
    out.add(format_args!("{} bytes", mapping.total));
    for records in mapping.fmmus.as_slice() {
        add_slave(out, records);
    }
}

/// Adds how many frames there are, and the bytes of each.
fn add_frames(out: &mut Draft, frames: &[Frame]) {
    out.add(format_args!("{} frames", frames.len()));
    for frame in frames {
        add_hex(out, frame.as_slice());
    }
}

/// Adds what frames take on the wire, in bytes.
fn add_wire(out: &mut Draft, frames: &[Frame]) {
    let mut sum = 0u32;
    for frame in frames {
        let payload = (frame.len().clamp(16, 1514) - 14) as u32;
        sum = sum.saturating_add(frame_wire(payload));
    }
    out.add(format_args!(" {sum}"));
}

/// Adds the frames of a tick with an image of zeros, or what they take on the wire.
fn add_tick(
    out: &mut Draft,
    alloc: Global,
    units: &Units,
    mapping: &Mapping,
    tick: u32,
    whole: bool,
)
    requires { HasLayout units.now mapping.now }
{
    let Ok(image) = Vec::from_elem(alloc, 0u8, mapping.total as usize) else {
        return out.give_up();
    };
    match tick_frames(alloc, units, mapping, image.as_slice(), tick) {
        Ok(frames) => if whole {
            add_frames(out, frames.as_slice());
        } else {
            add_wire(out, frames.as_slice());
        },
        Err(_) => out.give_up(),
    }
}

/// Adds what the frames of each tick take on the wire, in bytes.
fn add_ticks(out: &mut Draft, alloc: Global, units: &Units, mapping: &Mapping)
    requires { HasLayout units.now mapping.now }
{
    out.add("wire");
    for tick in 0..units.hyper().ticks() {
        add_tick(out, alloc, units, mapping, tick, false);
    }
}

/// Gives the first units the places of a plan.
fn put_all(loads: &mut Loads, plan: &Plan) {
    for (unit, place) in plan.places.as_slice().iter().enumerate() {
        if unit < loads.places().len() {
            loads.place(unit, *place);
        }
    }
}

/// Adds the cost of each tick in bytes.
fn add_costs(out: &mut Draft, loads: &Loads) {
    out.add("costs");
    for tick in 0..loads.ticks() {
        out.add(format_args!(" {}", loads.cost(tick)));
    }
}

/// Adds the costs of a plan's ticks.
fn add_plan(out: &mut Draft, alloc: Global, units: &Units, plan: &Plan) {
    match Loads::new(alloc, units) {
        Ok(mut loads) => {
            put_all(&mut loads, plan);
            add_costs(out, &loads);
        }
        Err(_) => out.give_up(),
    }
}

/// Adds what a call about a layout of these units answers.
fn tell(out: &mut Draft, alloc: Global, units: &Units, mapping: &Mapping, call: Call<'_>)
    requires { HasLayout units.now mapping.now }
{
    match call.name() {
        "groups" => out.add(format_args!("{:?}", mapping.groups.as_slice())),
        "records" => add_records(out, mapping),
        "frames" => add_tick(out, alloc, units, mapping, call.count(1), true),
        "wire" => add_ticks(out, alloc, units, mapping),
        _ => out.add("no call"),
    }
}

/// Adds what a call about the layout of a plan answers, where it is legal.
fn judge(out: &mut Draft, alloc: Global, units: &Units, plan: &Plan, call: Call<'_>) {
    match is_legal(units, plan) {
        Ok(()) => match layout(alloc, units, plan) {
            Ok(mapping) => tell(out, alloc, units, &mapping, call),
            Err(_) => out.give_up(),
        },
        Err(_) => out.add("not legal"),
    }
}

/// Adds what a call about a plan of these units answers: `groups PLACE..`, `records PLACE..`, `frames TICK PLACE..` and
/// `wire PLACE..` of a legal plan's layout, and `costs PLACE..` of its loads.
pub(crate) fn answer(alloc: Global, units: &Units, call: Call<'_>, out: &mut Draft) {
    let from = if call.name() == "frames" { 2 } else { 1 };
    let plan = Plan {
        places: Places::new(call.places(alloc, from, out)),
    };
    match call.name() {
        "costs" => add_plan(out, alloc, units, &plan),
        _ => judge(out, alloc, units, &plan, call),
    }
}
