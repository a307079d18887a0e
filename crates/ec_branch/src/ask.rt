//! The guide is asked before a node.

ghost use Rattle.std.specs.Prelude.{◌≡◌, MatchBool, true};
ghost use Rattle.ec_branch.specs.Frames.{Frame};
ghost use Rattle.ec_branch.specs.Stacks.{IsAsked, IsSpent, state_of};

use crate::guide::Guide;
use crate::value::{Search, lesser};

/// Asks the guide before a node; false where no node is left or the guide stops, so that the node stays open.
pub(crate) fn ask<G: Guide>(guide: &mut G, search: &mut Search) -> bool
    ensures frame { G.frame guide.new ≡ G.frame guide.old }
    ensures stays { G.halted guide.new ≡ G.halted guide.old }
    ensures left { search.new.left ≡ search.old.left }
    ensures asked { MatchBool result
        (IsAsked (G.frame guide.old).floor (state_of search.old (G.halted guide.old) (G.known guide.old)) (state_of search.new (G.halted guide.new) (G.known guide.new)))
        (IsSpent (state_of search.old (G.halted guide.old) (G.known guide.old)) × (state_of search.new (G.halted guide.new) (G.known guide.new) ≡ state_of search.old (G.halted guide.old) (G.known guide.old))) }
{
    if search.left == 0 || guide.stopped() {
        return false;
    }
    search.value = lesser(search.value, guide.bound());
    true
}
