//! Subtrees that are counted before they are reported.

ghost use Rattle.std.specs.Prelude.{◌≡◌, min, length, None};
ghost use Rattle.ec_loads.specs.Line.{line_of};
ghost use Rattle.ec_loads.specs.Search.{node_count as node_count_of};
ghost use Rattle.ec_cert.specs.Shapes.{shape_of};
ghost use Rattle.ec_symmetry.specs.Orders.{IsOrder};
ghost use Rattle.ec_symmetry.specs.Ruled.{line_rules};
ghost use Rattle.ec_book.specs.Open.{AreOpened};

use crate::open::{Opened, opened_by};
use crate::prefixes::Prefixes;
use ec_cert::{Subtree, node_count};
use ec_loads::Loads;
use ec_symmetry::Rules;
use ec_units::Place;
use std::alloc::Global;

/// A subtree with what takes time in proportion to it, worked out before its report: its nodes (or the greatest number,
/// where that is smaller), and the prefixes of its open leaves, in preorder. None where these aren't known, as where memory
/// was refused.
#[derive(Drop)]
pub struct Counted {
    pub sub: Subtree,
    pub nodes: u64,
    pub opened: Option<Prefixes>,
    pub ghost nodes_is: { nodes ≡ min (node_count_of (shape_of sub.tree)) 18446744073709551615 },
}

impl Counted {
    /// Counts a subtree by these rules, to which `prefix` leads. Its time and memory are in proportion to the subtree and what it leaves
    /// open; where memory is refused, the prefixes aren't known.
    pub fn of(
        alloc: Global,
        loads: &Loads,
        order: &[u8],
        rules: Rules,
        prefix: &[Place],
        sub: Subtree,
    ) -> Counted
        requires order { IsOrder (length loads.now.loads) order.now }
        ensures sub { result.sub ≡ sub }
        ensures opened { AreOpened (line_of (line_rules rules) loads.now) order.now (shape_of sub.tree) prefix.now result.opened }
    {
        if prefix.len() > order.len() {
            return Counted::unopened(sub);
        }
        match opened_by(alloc, loads, order, rules, prefix, &sub.tree) {
            Ok(Opened { nodes, prefixes }) => Counted {
                sub,
                nodes,
                opened: Some(prefixes),
            },
            Err(_) => Counted::unopened(sub),
        }
    }

    /// Counts the nodes alone. Takes no memory; the report is judged, and then refused for want of memory.
    pub fn unopened(sub: Subtree) -> Counted
        ensures sub { result.sub ≡ sub }
        ensures opened { result.opened ≡ None }
    {
        let nodes = node_count(&sub.tree);
        Counted {
            sub,
            nodes,
            opened: None,
        }
    }

    /// The subtree again.
    pub fn into_sub(self) -> Subtree
        ensures { result ≡ self.sub }
    {
        let Counted { sub, .. } = self;
        sub
    }
}
