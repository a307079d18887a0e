//! Laws of how many children there are, and of what a check finds in a tree.

ghost use Rattle.ec_search_laws.specs.Children.{ChildrenAreFew};
ghost use Rattle.ec_search_laws.specs.Nodes.{FirstWrongIsFound};

/// By any rules, a prefix that the children reach has at least one child and at most 480, where a unit is left: no more than 60 phases
/// and 8 slots. So no search gets stuck above its leaves, and a certificate writes the count of a split in three digits (own profile).
pub fn law_children_are_few()
    ensures { ChildrenAreFew }
{}

/// Where a check finds a fault in a certificate's tree, it is that of the first node, each before its children, with which something is
/// wrong: no unit is left for a split, or it has another count of children than its prefix, or a leaf doesn't hold. Its number is how
/// many nodes stand before it, up to 2^64 - 1. Where none is found, nothing is wrong with any node (own profile).
pub fn law_first_wrong_is_found()
    ensures { FirstWrongIsFound }
{}
