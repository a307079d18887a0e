//! Laws of merged trees.

ghost use Rattle.ec_cert_merge.specs.Laws.{MergesAreOne, MergedTreesHold, OpenInAll, PartsMerge, PartsClose};

/// Two trees have at most one merge.
pub fn law_merges_are_one()
    ensures { MergesAreOne }
{}

/// The merge of two partial trees for a prefix, each at a value of its own, is one at each value that isn't above these
/// two.
pub fn law_merged_trees_hold()
    ensures { MergedTreesHold }
{}

/// Each open leaf of a merge lies at or below an open leaf of each of the two: what is left open was left open by both.
pub fn law_open_in_all()
    ensures { OpenInAll }
{}

/// Where two trees grow from one given tree, so does their merge: in place of each open leaf it has the merge of what
/// they have there.
pub fn law_parts_merge()
    ensures { PartsMerge }
{}

/// Where some trees grow from one given tree, and each of its open leaves is closed in one of them, no leaf is open once
/// all are merged.
pub fn law_parts_close()
    ensures { PartsClose }
{}
