//! Where things stand in the picture. Lengths are tenths of a pixel, heights of bars bytes on the wire.

use ec_loads::Loads;
use ec_wire::BYTE_NS;

/// What is left of the first tick, for the numbers of bytes.
pub(crate) const LEFT: u64 = 800;

/// What is right of the last tick, for the times.
pub(crate) const RIGHT: u64 = 900;

/// What is above the upper end of the axis, for the heading and the legend.
pub(crate) const ABOVE: u64 = 700;

/// The height of the axis.
pub(crate) const HEIGHT: u64 = 3200;

/// What is below the axis, for the numbers of the ticks.
pub(crate) const BELOW: u64 = 600;

/// The least width of the whole picture, which the legend needs.
const LEAST_WIDTH: u64 = 7200;

/// What may lie between two lines of the grid, in bytes.
const STEPS: [u64; 15] = [
    10, 20, 50, 100, 200, 500, 1000, 2000, 5000, 10_000, 20_000, 50_000, 100_000, 200_000, 500_000,
];

/// What may lie between two numbers of ticks.
const STRIDES: [u64; 9] = [1, 2, 5, 10, 20, 50, 100, 200, 500];

/// How many tenths of a pixel a tick and a byte take.
#[derive(Clone, Copy)]
pub(crate) struct Scale {
    /// The ticks below the hyperperiod.
    pub ticks: u64,
    /// The width of a tick, its gap included.
    pub pitch: u64,
    /// The bytes between two lines of the grid.
    pub step: u64,
    /// The bytes at the upper end of the axis.
    pub top: u64,
}

/// The least step with which six lines of the grid reach so many bytes.
fn step_to(most: u64) -> u64 {
    for step in &STEPS {
        if step.saturating_mul(6) >= most {
            return *step;
        }
    }
    1_000_000
}

/// The least multiple of a step that is at least `most`, and above 0.
fn round_up(most: u64, step: u64) -> u64 {
    let rest = most.checked_rem(step).unwrap_or(0);
    if rest == 0 && most > 0 {
        most
    } else {
        most.saturating_sub(rest).saturating_add(step)
    }
}

impl Scale {
    /// The scale of a picture of these ticks up to so many bytes.
    pub(crate) fn new(ticks: u32, most: u64) -> Scale {
        let ticks = u64::from(ticks);
        let step = step_to(most);
        Scale {
            ticks,
            pitch: 9600u64.checked_div(ticks).unwrap_or(800).clamp(10, 800),
            step,
            top: round_up(most, step),
        }
    }

    /// Where a tick begins, its gap included.
    pub(crate) fn x(&self, tick: u64) -> u64 {
        self.pitch.saturating_mul(tick).saturating_add(LEFT)
    }

    /// Where the last tick ends.
    pub(crate) fn right(&self) -> u64 {
        self.x(self.ticks)
    }

    /// The gap on each side of a bar: none where bars are narrow.
    fn gap(&self) -> u64 {
        if self.pitch < 40 { 0 } else { self.pitch / 10 }
    }

    /// Where the bar of a tick begins.
    pub(crate) fn bar(&self, tick: u64) -> u64 {
        self.x(tick).saturating_add(self.gap())
    }

    /// The width of a bar.
    pub(crate) fn bar_width(&self) -> u64 {
        self.pitch
            .saturating_sub(self.gap())
            .saturating_sub(self.gap())
    }

    /// The middle of a tick.
    pub(crate) fn middle(&self, tick: u64) -> u64 {
        self.x(tick).saturating_add(self.pitch / 2)
    }

    /// How high so many bytes reach, counted from above.
    pub(crate) fn y(&self, bytes: u64) -> u64 {
        let height = bytes
            .saturating_mul(HEIGHT)
            .checked_div(self.top)
            .unwrap_or(0);
        ABOVE.saturating_add(HEIGHT).saturating_sub(height)
    }

    /// The width of the whole picture.
    pub(crate) fn width(&self) -> u64 {
        self.right().saturating_add(RIGHT).max(LEAST_WIDTH)
    }

    /// How many ticks lie between two that are numbered, so that the numbers don't touch.
    pub(crate) fn stride(&self) -> u64 {
        for stride in &STRIDES {
            if stride.saturating_mul(self.pitch) >= 350 {
                return *stride;
            }
        }
        1000
    }
}

/// The bytes that fit into a tick of so many ns, where that is at most twice what the busiest tick costs.
pub(crate) fn near_room(loads: &Loads, tick_ns: u32) -> Option<u64> {
    let (most, _at) = loads.top();
    let room = u64::from(tick_ns) / BYTE_NS;
    if room <= most.saturating_mul(2) {
        Some(room)
    } else {
        None
    }
}
