//! Lines of units that scripts name, and places as words.

use ec_text_builder::Draft;
use ec_unit_text::read_units;
use ec_units::{Place, Units};
use std::alloc::Global;

/// So many units alike: the output and input bytes of each one's slave, and its period in ticks.
#[derive(Clone, Copy)]
struct Sizes {
    out_bytes: u32,
    in_bytes: u32,
    period: u32,
    count: u32,
}

/// Adds these units, numbered on, each with one slave.
fn add_units(text: &mut Draft, from: u32, sizes: Sizes) {
    let Sizes {
        out_bytes,
        in_bytes,
        period,
        count,
    } = sizes;
    for number in from..from.saturating_add(count) {
        let letter = char::from(b'a' + (number % 26) as u8);
        let station = number.saturating_add(1001);
        let suffix = if number < 26 { "" } else { "_" };
        text.add(format_args!("[[unit]]\nname = \"{letter}{suffix}\"\nperiod = {period}\n"));
        text.add(format_args!(
            "[[unit.slave]]\nstation = {station}\nout_bytes = {out_bytes}\nin_bytes = {in_bytes}\n"
        ));
    }
}

/// The units that a word is: `200/2`, `200/2/5` for five, or `2+4/1` for one with 4 input bytes too.
fn sizes_of(word: &str) -> Option<Sizes> {
    let (bytes, rest) = word.split_once('/')?;
    let (out_bytes, in_bytes) = bytes.split_once('+').unwrap_or((bytes, "0"));
    let (period, count) = rest.split_once('/').unwrap_or((rest, "1"));
    let (Ok(out_bytes), Ok(in_bytes)) = (out_bytes.parse::<u32>(), in_bytes.parse::<u32>()) else {
        return None;
    };
    let (Ok(period), Ok(count)) = (period.parse::<u32>(), count.parse::<u32>()) else {
        return None;
    };
    Some(Sizes {
        out_bytes,
        in_bytes,
        period,
        count,
    })
}

/// Adds the text of the units a, b, c and so on that these words are, and says whether each word is some.
pub(crate) fn add_line(text: &mut Draft, slots: u8, words: &str) -> bool {
    text.add(format_args!("tick_ns = 1000000\nslots = {slots}\n"));
    let mut number = 0u32;
    for word in words.split_whitespace() {
        let Some(sizes) = sizes_of(word) else {
            return false;
        };
        add_units(text, number, sizes);
        number = number.saturating_add(sizes.count);
    }
    true
}

/// The same units, where they make a line and memory doesn't run out.
pub(crate) fn line_of(alloc: Global, slots: u8, words: &str) -> Option<Units> {
    let mut text = Draft::new(alloc);
    if !add_line(&mut text, slots, words) {
        return None;
    }
    let text = text.finish().ok()?;
    read_units(alloc, text.as_bytes()).ok()
}

/// Adds a place as a word, with a space before it where it isn't the first.
pub(crate) fn add_place(out: &mut Draft, place: Place, is_first: bool) {
    if !is_first {
        out.add(' ');
    }
    out.add(format_args!("{},{}", place.phase, place.slot));
}

/// Adds places as words, with a space between them.
pub(crate) fn add_places(out: &mut Draft, places: &[Place]) {
    for (i, place) in places.iter().enumerate() {
        add_place(out, *place, i == 0);
    }
}
