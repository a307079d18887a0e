//! The page's table of slaves.

use crate::cells::{add_number, add_tall_number};
use crate::seats::{Seat, Side};
use ec_fmmu::fmmu_bytes;
use ec_text_builder::Draft;

/// Adds two hex digits for each byte, in lower case.
fn add_hex(page: &mut Draft, bytes: &[u8]) {
    for byte in bytes {
        page.add(format_args!("{byte:02x}"));
    }
}

/// Adds the cell of a record, which may be broken in its middle.
fn add_record(page: &mut Draft, bytes: [u8; 16]) {
    page.add("<td class=\"hex\">");
    add_hex(page, &bytes[..8]);
    page.add("<wbr>");
    add_hex(page, &bytes[8..]);
    page.add("</td>");
}

/// Adds the cells of the bytes of a direction; of no bytes there are no addresses.
fn add_side(page: &mut Draft, direction: &str, side: &Side) {
    page.add(format_args!("<td>{direction}</td>"));
    add_number(page, side.bytes);
    if side.bytes == 0 {
        page.add("<td>none</td><td>none</td><td>none</td>");
    } else {
        let (logical, offset, at) = (side.fmmu.logical, side.offset(), side.at);
        page.add(format_args!(
            "<td class=\"hex\">0x{logical:08x}</td><td class=\"number\">{offset}</td><td class=\"hex\">0x{at:04x}</td>"
        ));
    }
    add_record(page, fmmu_bytes(&side.fmmu));
}

/// Adds the two rows of a slave.
fn add_seat(page: &mut Draft, number: usize, seat: &Seat<'_>) {
    let name = seat.home.unit.name.as_str();
    page.add("<tbody><tr>");
    add_tall_number(page, 2, number);
    page.add(format_args!("<td class=\"name\" rowspan=\"2\">{name}</td>"));
    add_tall_number(page, 2, seat.station);
    add_side(page, "outputs", &seat.outputs);
    add_tall_number(page, 2, seat.home.group);
    add_tall_number(page, 2, seat.home.counter);
    page.add("</tr>\n<tr>");
    add_side(page, "inputs", &seat.inputs);
    page.add("</tr></tbody>\n");
}

/// Adds the rows of the slaves.
pub(crate) fn add_slaves(page: &mut Draft, seats: &[Seat<'_>]) {
    for (number, seat) in seats.iter().enumerate() {
        add_seat(page, number, seat);
    }
}
