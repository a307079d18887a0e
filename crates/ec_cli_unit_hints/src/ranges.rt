//! Values out of their range, a hyperperiod that is too long, and areas of a slave's memory that lie wrong.

use ec_cli_spots::{Doc, Fields, In, Pair, has_period, ticks_of};
use ec_text_builder::Draft;
use ec_unit_text::{Key, Spot};

/// What is told of values out of their range: their keys, and the range.
#[derive(Clone, Copy)]
pub(crate) struct Rule(&'static [Key], &'static str);

const PERIOD: Rule = Rule(&[Key::Period], "a period is 1 to 60 ticks");

pub(crate) const STATION: Rule = Rule(&[Key::Station], "a station address is 1 to 65535");

pub(crate) const SLAVE_BYTES: Rule = Rule(
    &[Key::OutBytes, Key::InBytes],
    "neither may be negative, and not both may be 0.\nA device without process data is left out",
);

pub(crate) const SLOTS: Rule = Rule(&[Key::Slots], "there are 1 to 8 slots");

pub(crate) const TICK: Rule = Rule(
    &[Key::TickNs],
    "a tick is 80 to 1000000000 ns, and 1 ms is 1000000",
);

/// Tells values out of their range: `In unit "a" (line 3): period = 90, but a period is 1 to 60 ticks.`
pub(crate) fn tell_range(out: &mut Draft, doc: Doc<'_>, spot: Spot, rule: Rule) {
    let Rule(keys, words) = rule;
    let table = doc.table(spot);
    out.add(In(doc, spot));
    if table.0.is_some() {
        for key in keys {
            out.add(format_args!("{}, ", Pair(table, *key)));
        }
        out.add("but ");
    }
    out.add(format_args!("{words}.\n"));
}

/// Tells a period out of its range; where it looks like ns also how many ticks it is.
pub(crate) fn tell_period(out: &mut Draft, doc: Doc<'_>, spot: Spot) {
    tell_range(out, doc, spot, PERIOD);
    let period = doc.table(spot).number(Key::Period).unwrap_or(0);
    let tick = doc.top().number(Key::TickNs).unwrap_or(0);
    if let (Some(ticks @ 1..=60), Some(0)) = (period.checked_div(tick), period.checked_rem(tick)) {
        out.add(format_args!("A period is in ticks: {period} ns are period = {ticks}.\n"));
    }
}

/// Tells the periods, each once, the least first, and the ticks after which all units stand as they did.
pub(crate) fn tell_hyper(out: &mut Draft, doc: Doc<'_>) {
    let units = doc.units();
    out.add("The hyperperiod is too long: the least common multiple of these periods ");
    match ticks_of(units) {
        Some(ticks) => out.add(format_args!("is {ticks} ticks")),
        None => out.add("has more than 19 digits"),
    }
    out.add(", and at most 1024 can be planned.\n   ");
    for period in (1..61i64).filter(|period| has_period(units, *period)) {
        out.add(format_args!(" {period}"));
    }
    out.add("\nTake periods that divide one another, as 2, 4 and 8.\n");
}

/// The number that digits of base 16 say, if they say one that isn't too great; `_` may stand between them.
fn hex_value(digits: &str) -> Option<i64> {
    let mut sum = 0i64;
    for letter in digits.chars().filter(|letter| *letter != '_') {
        let digit = i64::from(letter.to_digit(16)?);
        sum = sum.checked_mul(16)?.checked_add(digit)?;
    }
    Some(sum)
}

/// Whether a number stands in a text with its base, 16.
fn is_hex_in(text: &str, number: i64) -> bool {
    text.split(|letter: char| !letter.is_ascii_alphanumeric() && letter != '_')
        .filter_map(|word| word.strip_prefix("0x"))
        .any(|digits| hex_value(digits) == Some(number))
}

/// An area: what it has, the key of its address, where it begins, and its bytes.
#[derive(Clone, Copy)]
struct Area {
    name: &'static str,
    key: Key,
    at: i64,
    bytes: i64,
}

impl Area {
    /// The outputs of a slave, or its inputs; where their address isn't given they begin at 4096, or at 8192.
    fn of(slave: Fields<'_>, is_input: bool) -> Area {
        let (name, bytes, usual) = if is_input {
            ("inputs", Key::InBytes, 8192)
        } else {
            ("outputs", Key::OutBytes, 4096)
        };
        let key = Key::Area(is_input);
        Area {
            name,
            key,
            at: slave.number(key).unwrap_or(usual),
            bytes: slave.number(bytes).unwrap_or(0),
        }
    }

    /// The address after it.
    fn end(self) -> i64 {
        self.at.saturating_add(self.bytes)
    }

    /// Adds that it lies where registers are. One of four digits may be meant in base 16, unless it stands so in the text, and one that is a
    /// base, as 16, may be read of a number behind `16#`.
    fn add_registers(self, out: &mut Draft, text: &str) {
        let Area { key, at, bytes, .. } = self;
        let is_hex = is_hex_in(text, at);
        // Digital outputs are at 3840, which is 0x0F00: that isn't asked for its base.
        let is_asked = !is_hex && bytes > 0 && (1000..3840).contains(&at);
        if is_hex {
            out.add(format_args!(
                "{key} is {at}, below 4096 (0x1000), where a slave has registers.\n"
            ));
        } else {
            out.add(format_args!("{key} = {at} is below 4096, where a slave has registers.\n"));
        }
        if is_asked {
            out.add(format_args!("Is {at} of base 16? Then write {key} = 0x{at}.\n"));
        } else if bytes > 0 && !matches!(at, 2 | 8 | 16) {
            out.add(
                "A slave that has its data there, as digital outputs at 3840, can't be planned: leave it out, and let your master write it.\n",
            );
        }
    }

    /// Adds what is wrong with it, and says whether something is.
    fn add_fault(self, out: &mut Draft, text: &str) -> bool {
        let Area {
            name,
            key,
            at,
            bytes,
        } = self;
        if at < 0 {
            out.add(format_args!("{key} = {at}, but an address is 4096 to 65535.\n"));
        } else if at < 4096 {
            self.add_registers(out, text);
        } else if at > 65535 {
            out.add(format_args!("{key} = {at} is above 65535, the last address.\n"));
        } else if self.end() > 65536 {
            out.add(format_args!(
                "{key} = {at} with {bytes} bytes ends above 65535, the last address.\n"
            ));
        } else {
            return false;
        }
        if bytes == 0 {
            out.add(format_args!("The slave has no {name}: take {key} out.\n"));
        }
        true
    }
}

/// Adds that two areas overlap, and where each lies; of one that isn't given also why.
fn add_overlap(out: &mut Draft, slave: Fields<'_>, outputs: Area, inputs: Area) {
    let (out_at, out_last) = (outputs.at, outputs.end().saturating_sub(1));
    let (in_at, in_last) = (inputs.at, inputs.end().saturating_sub(1));
    out.add(format_args!(
        "The two overlap: outputs at {out_at} to {out_last} (0x{out_at:04x} to 0x{out_last:04x}), inputs at {in_at} to {in_last} (0x{in_at:04x} to 0x{in_last:04x}).\n"
    ));
    for Area { key, at, .. } in [outputs, inputs] {
        if !slave.has(key) {
            out.add(format_args!("{key} is not given, so it is {at}.\n"));
        }
    }
}

/// Tells which cause an area has to be refused.
pub(crate) fn tell_area(out: &mut Draft, doc: Doc<'_>, spot: Spot) {
    let slave = doc.table(spot);
    out.add(format_args!(
        "{}its outputs or its inputs lie where none can be planned.\n",
        In(doc, spot)
    ));
    if slave.0.is_none() {
        return;
    }
    let (outputs, inputs) = (Area::of(slave, false), Area::of(slave, true));
    let first = outputs.add_fault(out, doc.text);
    let second = inputs.add_fault(out, doc.text);
    if !first && !second && outputs.bytes > 0 && inputs.bytes > 0 {
        add_overlap(out, slave, outputs, inputs);
    }
}
