//! The rooms of classes. The class of a period and a phase is the ticks in which what has them travels; it is open where
//! a unit has them.

ghost use Rattle.std.specs.Prelude.{◌≡◌, ℕ, ◌<◌, ◌||◌, false, get_or};
ghost use Rattle.ec_loads.specs.Held.{items_of};
ghost use Rattle.ec_loads.specs.Rooms.{is_open as open_in, room_by, room_beside_by};
ghost use Rattle.ec_bounds.specs.Left.{is_placed_in as placed_in};

use crate::tops::Tops;
use ec_loads::{GROUP_BYTES, Loads};
use ec_units::{Load, Place};

/// Whether a unit has a place, and this period and phase.
fn is_placed_in(load: Load, place: Option<Place>, period: u16, phase: u16) -> bool
    ensures { result ≡ placed_in period phase load place }
{
    match place {
        Some(place) => period == load.period && phase == place.phase,
        None => false,
    }
}

/// The greatest period, in ticks.
pub(crate) const MOST_PERIOD: usize = 60;

/// Notes that the class of a unit is open, where it has a place and this period.
fn open_at(opens: &mut [bool; MOST_PERIOD], load: Load, place: Option<Place>, period: u16)
    ensures { (f : ℕ) → f < 60 → get_or opens.new f false ≡ (get_or opens.old f false || placed_in period f load place) }
{
    let Some(place) = place else {
        return;
    };
    if period != load.period {
        return;
    }
    let phase = usize::from(place.phase);
    if phase < MOST_PERIOD {
        opens[phase] = true;
    }
}

/// Which classes of a period are open, by phase.
pub(crate) fn open_classes(loads: &Loads, period: u16) -> [bool; MOST_PERIOD]
    ensures { (f : ℕ) → f < 60 → get_or result f false ≡ open_in (items_of loads.now) period f }
{
    let all = loads.loads();
    let places = loads.places();
    let mut opens = [false; MOST_PERIOD];
    for i in 0..all.len() {
        open_at(&mut opens, all[i], places[i], period);
    }
    opens
}

/// Whether a class is open, of which a table tells it below 60.
fn is_open_in(loads: &Loads, opens: &[bool; MOST_PERIOD], period: u16, phase: u16) -> bool
    requires { (f : ℕ) → f < 60 → get_or opens.now f false ≡ open_in (items_of loads.now) period f }
    ensures { result ≡ open_in (items_of loads.now) period phase }
{
    let at = usize::from(phase);
    if at < MOST_PERIOD {
        return opens[at];
    }
    is_open(loads, period, phase)
}

/// Whether a class is open.
fn is_open(loads: &Loads, period: u16, phase: u16) -> bool
    ensures { result ≡ open_in (items_of loads.now) period phase }
{
    let all = loads.loads();
    let places = loads.places();
    for i in 0..all.len() {
        if is_placed_in(all[i], places[i], period, phase) {
            return true;
        }
    }
    false
}

/// The room of a class at a value, in bytes: how far its top is below one less than the value; of a closed class 12
/// less, for its group. One table tells the tops, the other which classes of the period are open, below phase 60.
pub(crate) fn room<T: Tops>(
    loads: &Loads,
    tops: &T,
    opens: &[bool; MOST_PERIOD],
    period: u16,
    phase: u16,
    value: u64,
) -> u64
    requires phase { phase < period }
    requires opens { (f : ℕ) → f < 60 → get_or opens.now f false ≡ open_in (items_of loads.now) period f }
    ensures { result ≡ room_by (items_of loads.now) (T.tops tops.now) value period phase }
{
    let limit = value.saturating_sub(1);
    let most = tops.top(period, phase);
    if is_open_in(loads, opens, period, phase) {
        return limit.saturating_sub(most);
    }
    limit.saturating_sub(most + u64::from(GROUP_BYTES))
}

/// What a class has room for beside a group of so many bytes: all of its room where it is open, else what is above them.
pub(crate) fn room_beside<T: Tops>(
    loads: &Loads,
    tops: &T,
    opens: &[bool; MOST_PERIOD],
    period: u16,
    phase: u16,
    bytes: u16,
    value: u64,
) -> u64
    requires phase { phase < period }
    requires opens { (f : ℕ) → f < 60 → get_or opens.now f false ≡ open_in (items_of loads.now) period f }
    ensures { result ≡ room_beside_by (items_of loads.now) (T.tops tops.now) value period bytes phase }
{
    let all = room(loads, tops, opens, period, phase, value);
    if is_open_in(loads, opens, period, phase) {
        return all;
    }
    all.saturating_sub(u64::from(bytes))
}
