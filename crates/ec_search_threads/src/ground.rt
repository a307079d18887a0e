//! The loads in which a worker explores.

ghost use Rattle.std.specs.Prelude.{◌≡◌, length};
ghost use Rattle.ec_symmetry.specs.Orders.{IsOrder};
ghost use Rattle.ec_book_shared.specs.Seats.{AreOf};

use ec_book_shared::Search;
use ec_branch::Ground;
use ec_units::Units;
use std::alloc::{AllocError, Global};
use std::marker::PhantomData;

/// The loads and the order of a search.
#[derive(Drop)]
pub(crate) struct OwnGround<'o, S: Search> {
    pub(crate) ground: Ground,
    pub(crate) order: &'o [u8],
    pub(crate) search: PhantomData<S>,
    pub ghost loads_is: { ground.loads.loads ≡ S.loads },
    pub ghost slots_is: { ground.loads.slots ≡ S.slots },
    pub ghost order_is: { order.now ≡ S.order },
    pub ghost each: { IsOrder (length S.loads) order.now },
}

/// The loads of a search, none with a place.
pub(crate) fn ground_of<'o, S: Search>(
    alloc: Global,
    units: &Units,
    order: &'o [u8],
) -> Result<OwnGround<'o, S>, AllocError>
    requires order { IsOrder (length S.loads) order.now }
    requires search { AreOf S.loads S.slots S.order units.now.units units.now.slots order.now }
{
    Ok(OwnGround {
        ground: Ground::new(alloc, units)?,
        order,
        search: PhantomData,
    })
}
