//! What a leaf that holds means.

ghost use Rattle.ec_bounds.specs.Laws.{LeavesBound, LeavesFall, RawAtMostCost};
ghost use Rattle.ec_bounds.specs.RoomLaws.{RoomsBound, CountsBound, GroupsBound, MergesFall, CountsFall, GroupsFall};

/// Every legal plan that extends a prefix at which a leaf holds has a tick that costs at least the value; at no
/// value, no plan that extends it is legal. A slot that is too full holds at every value, and at none, too. Of a merge
/// this is said of plans that have all units in slot 0: it closes a prefix because such a plan stands for the others.
pub fn law_leaves_bound()
    ensures { LeavesBound }
{}

/// A leaf that holds at a value holds at every smaller one. None is above every number.
pub fn law_leaves_fall()
    ensures { LeavesFall }
{}

/// What a tick costs without the padding is at most what it costs.
pub fn law_raw_at_most_cost()
    ensures { RawAtMostCost }
{}

/// What a legal plan whose ticks all cost less than a value gives a class of ticks beyond a prefix has room there: the
/// bytes of its units without a place of that period and phase are at most the room of the class at that value.
pub fn law_room_suffices()
    ensures { RoomsBound }
{}

/// Every legal plan that extends a prefix has a tick that costs at least the value, where more units of a period and of
/// so many bytes are without a place than the classes of the period have room for.
pub fn law_counted_units_bound()
    ensures { CountsBound }
{}

/// The same where the units without a place need so many new groups that the average of all ticks is too great.
pub fn law_new_groups_bound()
    ensures { GroupsBound }
{}

/// What shows at a value that two slots can be one, that units don't find room or that new groups cost too much, shows
/// it at every smaller one. None is above every number.
pub fn law_rooms_fall()
    ensures merges { MergesFall }
    ensures counts { CountsFall }
    ensures groups { GroupsFall }
{}
