//! The slots that places use.

ghost use Rattle.std.specs.Prelude.{◌≡◌, ℕ, ◌<◌, ◌≤◌, length, map};
ghost use Rattle.ec_loads.specs.Search.{different_numbers, used};

use ec_units::Place;

/// How many slots a place can name.
const SLOTS: usize = 256;

/// The number of different slots of these places, of at most 48 units. Takes no memory.
pub fn used_slots(places: &[Place]) -> u8
    requires { length places.now ≤ 48 }
    ensures value { result ≡ different_numbers (map (λ p. p.slot) places.now) }
    ensures bound { result ≤ length places.now }
{
    let mut seen = [false; SLOTS];
    let mut count = 0u8;
    for i in 0..places.len() {
        let slot = usize::from(places[i].slot);
        if !seen[slot] {
            seen[slot] = true;
            count += 1;
        }
    }
    count
}

/// The number of a place's slot.
fn number_of(place: Place) -> usize
    ensures value { result ≡ place.slot }
    ensures bound { result < 256 }
{
    usize::from(place.slot)
}

/// The number of different slots of the places that are given, of at most 48 units. Takes no memory.
pub(crate) fn used_among(places: &[Option<Place>]) -> u8
    requires { length places.now ≤ 48 }
    ensures { result ≡ used places.now }
{
    let mut taken = [false; SLOTS];
    let mut count = 0u8;
    for i in 0..places.len() {
        if let Some(place) = places[i] {
            let slot = number_of(place);
            if !taken[slot] {
                taken[slot] = true;
                count += 1;
            }
        }
    }
    count
}
