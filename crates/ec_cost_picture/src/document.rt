//! The whole picture.

use crate::axes::{add_grid, add_names, add_numbers, add_room};
use crate::bars::{add_bars, add_busiest};
use crate::legend::{add_heading, add_legend};
use crate::placed::Placed;
use crate::scale::{ABOVE, BELOW, HEIGHT, Scale, near_room};
use ec_loads::{Loads, Plan};
use ec_text_builder::Draft;
use ec_units::Units;
use std::alloc::{AllocError, Global};

/// The colours, which differ in lightness and not in red and green alone, and the hatching of padding.
const STYLE: &str = "<style>\
text{font:120px sans-serif;fill:#222}\
.b{font-weight:bold}.r{text-anchor:end}.m{text-anchor:middle}\
.d{fill:#0072b2}.o{fill:#e69f00}.p{fill:url(#h)}\
.e{stroke:#fff;stroke-width:16}\
.g{stroke:#ccc;stroke-width:5}.t{stroke:#222;stroke-width:8}\
.k{stroke:#d55e00;stroke-width:20;stroke-dasharray:80 50}\
</style>\n\
<pattern id=\"h\" width=\"50\" height=\"50\" patternUnits=\"userSpaceOnUse\" patternTransform=\"rotate(45)\">\
<path fill=\"#eee\" d=\"M0 0h50v50h-50z\"/><path fill=\"#888\" d=\"M0 0h15v50h-15z\"/></pattern>\n";

/// Adds the begin of the picture: its size, its colours, and a white ground.
fn open_picture(page: &mut Draft, scale: &Scale) {
    let width = scale.width();
    let height = ABOVE + HEIGHT + BELOW;
    let (wide, high) = (width / 10, height / 10);
    page.add(format_args!(
        "<svg xmlns=\"http://www.w3.org/2000/svg\" role=\"img\" width=\"{wide}\" height=\"{high}\" viewBox=\"0 0 {width} {height}\">
<title>What each tick costs on the wire</title>
{STYLE}<path fill=\"#fff\" d=\"M0 0h{width}v{height}h-{width}z\"/>
"
    ));
}

/// Adds the picture of loads.
fn draw(page: &mut Draft, loads: &Loads, placed: Placed<'_>, tick_ns: u32) {
    let room = near_room(loads, tick_ns);
    let (most, _tick) = loads.top();
    let scale = Scale::new(loads.ticks(), most.max(room.unwrap_or(0)));
    open_picture(page, &scale);
    add_heading(page, loads, tick_ns);
    add_legend(page, loads, tick_ns, room.is_some());
    add_grid(page, &scale);
    add_bars(page, &scale, loads, placed);
    add_room(page, &scale, room);
    add_busiest(page, &scale, loads);
    add_numbers(page, &scale);
    add_names(page, &scale);
    page.add("</svg>\n");
}

/// A picture, as an SVG document, of what each tick below the hyperperiod costs on the wire at the places of a plan: a
/// bar for each tick, in it the frames of its slots from below, and of each its overhead, process data and padding apart.
/// The first of the busiest ticks is marked, and the tick length is a line where it is at most twice what that costs. What
/// a frame carries is told where the pointer rests on it. A unit without a place, or with one that isn't below its period
/// and the slot count, isn't drawn. Only want of memory is an error (own profile).
pub fn picture(alloc: Global, units: &Units, plan: &Plan) -> Result<String, AllocError> {
    let loads = Loads::at(alloc, units, plan)?;
    let placed = Placed {
        units: units.units.as_slice(),
        places: plan.places.as_slice(),
    };
    let mut page = Draft::new(alloc);
    draw(&mut page, &loads, placed, units.tick_ns);
    page.finish()
}
