//! A place that is taken back.

ghost use Rattle.std.specs.Prelude.{◌≡◌, ◌<◌, length, slice_set, true, None};

use ec_bounds::Rest;
use ec_loads::Loads;

/// Takes the place of a unit away again.
pub(crate) fn take_back(loads: &mut Loads, rest: &mut Rest, unit: usize)
    requires unit { unit < length loads.old.places }
    requires flag { unit < length rest.old.unplaced }
    ensures loads { loads.new ≡ record loads.old { places = slice_set loads.old.places unit None } }
    ensures rest { rest.new ≡ record rest.old { unplaced = slice_set rest.old.unplaced unit true } }
{
    loads.remove(unit);
    rest.unplaced(unit);
}
