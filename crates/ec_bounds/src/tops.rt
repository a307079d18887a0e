//! The tops of classes. The class of a period and a phase is the ticks in which what has them travels; its top is the
//! greatest of 40 bytes and of what its ticks cost without padding.

ghost use Rattle.std.specs.Prelude.{◌≡◌, ℕ, ◌<◌, ◌≤◌};
ghost use Rattle.ec_hyper.specs.Lcm.{lcm_of};
ghost use Rattle.ec_units.specs.Load.{periods_of};
ghost use Rattle.ec_loads.specs.Held.{items_of};
ghost use Rattle.ec_loads.specs.Rooms.{top as top_of};
ghost use Rattle.ec_bounds.specs.Shown.{tick_top as tick_top_of, shown_tops};

use ec_loads::Loads;

/// What a frame costs beside its groups, without padding, in bytes.
const FRAME_BYTES: u64 = 40;

/// A table of ticks, one for each class, by its period and phase in ticks. Any number may stand there.
pub trait Ticks {
    ghost ticks: { Self → ℕ → ℕ → ℕ };

    /// The tick of a class.
    fn tick(&self, period: u16, phase: u16) -> u32
        ensures { result ≡ ticks self.now period phase };
}

/// A table of tops, by period and phase.
pub(crate) trait Tops {
    ghost tops: { Self → ℕ → ℕ → ℕ };

    /// The top of a class, in bytes.
    fn top(&self, period: u16, phase: u16) -> u64
        requires { phase < period }
        ensures value { result ≡ tops self.now period phase }
        ensures bound { result ≤ 575552 };
}

/// The tops themselves: the ticks of a class are looked at once for each.
#[derive(Clone, Copy)]
pub(crate) struct Walked<'a> {
    pub loads: &'a Loads,
}

/// What the ticks of a table show of the tops: one tick of a class is looked at for each.
#[derive(Clone, Copy)]
pub(crate) struct Shown<'a, T: Ticks> {
    pub loads: &'a Loads,
    pub table: &'a T,
}

/// The greatest of 40 bytes and of what the ticks of a class cost without padding.
fn top(loads: &Loads, period: u16, phase: u16) -> u64
    requires { phase < period }
    ensures value { result ≡ top_of (items_of loads.now) loads.now.slots (lcm_of (periods_of loads.now.loads)) period phase }
    ensures bound { result ≤ 575552 }
{
    let ticks = loads.ticks();
    let mut most = FRAME_BYTES;
    let mut tick = u32::from(phase);
    while tick < ticks {
        most = most.max(loads.raw(tick));
        tick += u32::from(period);
    }
    most
}

/// What one tick shows of the top of a class: what it costs without padding, at least 40 bytes; 40 where it isn't one of
/// the class.
fn tick_top(loads: &Loads, period: u16, phase: u16, tick: u32) -> u64
    requires { phase < period }
    ensures value { result ≡ tick_top_of (items_of loads.now) loads.now.slots (lcm_of (periods_of loads.now.loads)) period phase tick }
    ensures bound { result ≤ 575552 }
{
    if tick < loads.ticks() && tick % u32::from(period) == u32::from(phase) {
        return loads.raw(tick).max(FRAME_BYTES);
    }
    FRAME_BYTES
}

impl<'a> Tops for Walked<'a> {
    ghost tops = { λ w. top_of (items_of w.loads.now) w.loads.now.slots (lcm_of (periods_of w.loads.now.loads)) };

    fn top(&self, period: u16, phase: u16) -> u64 {
        top(self.loads, period, phase)
    }
}

impl<'a, T: Ticks> Tops for Shown<'a, T> {
    ghost tops = { λ s. shown_tops (items_of s.loads.now) s.loads.now.slots (lcm_of (periods_of s.loads.now.loads)) (T.ticks s.table.now) };

    fn top(&self, period: u16, phase: u16) -> u64 {
        tick_top(self.loads, period, phase, self.table.tick(period, phase))
    }
}
