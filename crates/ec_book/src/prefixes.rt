//! Prefixes as nodes with parents.

ghost use Rattle.std.specs.Prelude.{◌≡◌, ◌<◌, ◌≤◌, ◌+◌, ◌-◌, ◌++◌, ◌∷◌, ◌↔◌, [], All, IfOk, OnOk, OnErr, IsTrue, Some, length, map, slice_get, take, vec_len, vec_capacity};
ghost use Rattle.ec_book.specs.Prefixes.{moved as moved_spec, moved_node, walk_view};

use ec_units::Place;
use std::alloc::{AllocError, Global};
use std::marker::Model;

/// A place behind the prefix of another node. Nodes go by their numbers: 0 has no place, and the others count from 1.
#[derive(Clone, Copy, Debug, PartialEq, Eq)]
pub(crate) struct Node {
    pub parent: usize,
    pub place: Place,
}

/// Prefixes, each with a number from 0, as nodes of a prefix tree. Those that one walk marked share the nodes that they begin with;
/// those of another walk have nodes of their own. A contract sees them as their list.
#[derive(Debug, Drop)]
pub struct Prefixes {
    nodes: Vec<Node>,
    /// The nodes at which the prefixes end.
    ends: Vec<usize>,
}

impl Model for Prefixes {
    ghost use Rattle.std.specs.Prelude.{List};
    ghost use Rattle.ec_units.specs.declared.slave.Place.{Place};
    ghost use Rattle.ec_book.specs.Prefixes.{prefixes_at, IsPrefixTree};

    ghost Value = { List (List Place) };

    ghost view = { λ p. prefixes_at p.nodes.items p.ends.items };

    ghost invariant = { λ p. IsPrefixTree p.nodes.items p.ends.items };
}

/// Whether two places are one.
fn is_same(one: Place, other: Place) -> bool
    ensures { IsTrue result ↔ (one ≡ other) }
{
    one == other
}

/// The number of a node where as many other nodes stand before it; node 0 is one and the same.
fn moved(base: usize, node: usize) -> usize
    requires { base + node ≤ 18446744073709551615 }
    ensures { result ≡ moved_spec base node }
{
    if node == 0 { 0 } else { node + base }
}

/// Adds nodes that are numbered by themselves behind others; there is room for them.
fn add_nodes(nodes: &mut Vec<Node>, others: &[Node])
    requires room { vec_len nodes.old + length others.now ≤ vec_capacity nodes.old }
    requires parents { All (λ n. n.parent ≤ length others.now) others.now }
    ensures { nodes.new.items ≡ nodes.old.items ++ map (moved_node (length nodes.old.items)) others.now }
{
    let base = nodes.len();
    for node in others {
        nodes.push_reserved(Node {
            parent: moved(base, node.parent),
            place: node.place,
        });
    }
}

/// Adds the ends of prefixes in a tree behind as many other nodes; there is room for them.
fn add_ends(ends: &mut Vec<usize>, others: &[usize], base: usize)
    requires room { vec_len ends.old + length others.now ≤ vec_capacity ends.old }
    requires few { All (λ k. base + k ≤ 18446744073709551615) others.now }
    ensures { ends.new.items ≡ ends.old.items ++ map (moved_spec base) others.now }
{
    for end in others {
        ends.push_reserved(moved(base, *end));
    }
}

impl Prefixes {
    /// The empty prefix alone.
    pub(crate) fn root(alloc: Global) -> Result<Prefixes, AllocError>
        ensures { IfOk result (λ p. p ≡ [] ∷ []) }
    {
        let mut ends = Vec::new(alloc);
        ends.push(0)?;
        Ok(Prefixes {
            nodes: Vec::new(alloc),
            ends,
        })
    }

    /// How many prefixes there are.
    pub(crate) fn len(&self) -> usize
        ensures { result ≡ length self.now }
    {
        self.ends.len()
    }

    /// The places of a prefix, in time that is in proportion to them. `AllocError` where memory ran out.
    pub(crate) fn places(&self, alloc: Global, number: usize) -> Result<Vec<Place>, AllocError>
        requires { number < length self.now }
        ensures { IfOk result (λ v. slice_get self.now number ≡ Some v.items) }
    {
        let mut places = Vec::new(alloc);
        let mut node = self.ends[number];
        while node > 0 {
            let Node { parent, place } = self.nodes[node - 1];
            places.push(place)?;
            node = parent;
        }
        places.reverse();
        Ok(places)
    }

    /// Whether a prefix has these places.
    pub(crate) fn has_places(&self, number: usize, places: &[Place]) -> bool
        requires { number < length self.now }
        ensures { IsTrue result ↔ (slice_get self.now number ≡ Some places.now) }
    {
        let mut left = places;
        let mut node = self.ends[number];
        while node > 0 {
            let Node { parent, place } = self.nodes[node - 1];
            match left.split_last() {
                Some((last, rest)) if is_same(*last, place) => {
                    left = rest;
                    node = parent;
                }
                _ => return false,
            }
        }
        left.is_empty()
    }

    /// Adds other prefixes, in their order, behind those that are there. On `AllocError` nothing is added.
    pub(crate) fn append(&mut self, others: &Prefixes) -> Result<(), AllocError>
        ensures ok { OnOk result (self.new ≡ self.old ++ others.now) }
        ensures err { OnErr result (self.new ≡ self.old) }
    {
        self.nodes.reserve(others.nodes.len())?;
        self.ends.reserve(others.ends.len())?;
        let base = self.nodes.len();
        add_nodes(&mut self.nodes, others.nodes.as_slice());
        add_ends(&mut self.ends, others.ends.as_slice(), base);
        Ok(())
    }
}

/// A walk through a search tree: where it is, and the prefixes that it marked. A contract sees the places that lead to where it is, and
/// the list of the marked prefixes.
#[derive(Drop)]
pub(crate) struct Walk {
    nodes: Vec<Node>,
    ends: Vec<usize>,
    node: usize,
    path: Vec<Place>,
}

impl Model for Walk {
    ghost use Rattle.std.specs.Prelude.{◌≡◌, ◌≤◌, length};
    ghost use Rattle.ec_book.specs.Prefixes.{WalkView, walk_view, prefix_at, prefixes_at, IsPrefixTree};

    ghost Value = { WalkView };

    ghost view = { λ w. walk_view w.path.items (prefixes_at w.nodes.items w.ends.items) };

    ghost invariant = { λ w. IsPrefixTree w.nodes.items w.ends.items × (w.node ≤ length w.nodes.items) × (w.path.items ≡ prefix_at w.nodes.items w.node) };
}

impl Walk {
    /// A walk that is where these places lead, and has marked nothing.
    pub fn new(alloc: Global, places: &[Place]) -> Result<Walk, AllocError>
        ensures { IfOk result (λ w. w ≡ walk_view places.now []) }
    {
        let mut walk = Walk {
            nodes: Vec::new(alloc),
            ends: Vec::new(alloc),
            node: 0,
            path: Vec::new(alloc),
        };
        for place in places {
            walk.go_on(*place)?;
        }
        Ok(walk)
    }

    /// The places that lead to where it is.
    pub fn path(&self) -> &[Place]
        ensures { result.now ≡ self.now.path }
    {
        self.path.as_slice()
    }

    /// Goes on to the child at a place. On `AllocError` it is where it was, and has marked what it had.
    pub fn go_on(&mut self, place: Place) -> Result<(), AllocError>
        ensures ok { OnOk result (self.new ≡ walk_view (self.old.path ++ place ∷ []) self.old.marked) }
        ensures err { OnErr result (self.new ≡ self.old) }
    {
        self.nodes.reserve(1)?;
        self.path.reserve(1)?;
        self.nodes.push_reserved(Node {
            parent: self.node,
            place,
        });
        self.path.push_reserved(place);
        self.node = self.nodes.len();
        Ok(())
    }

    /// Goes back to the parent, if it isn't at the root.
    pub fn go_back(&mut self)
        ensures { self.new ≡ walk_view (take (length self.old.path - 1) self.old.path) self.old.marked }
    {
        if self.node > 0 {
            self.node = self.nodes[self.node - 1].parent;
            self.path.pop();
        }
    }

    /// Marks the prefix of where it is. On `AllocError` nothing more is marked.
    pub fn mark(&mut self) -> Result<(), AllocError>
        ensures ok { OnOk result (self.new ≡ walk_view self.old.path (self.old.marked ++ self.old.path ∷ [])) }
        ensures err { OnErr result (self.new ≡ self.old) }
    {
        self.ends.push(self.node)?;
        Ok(())
    }

    /// The prefixes that it marked.
    pub fn into_marked(self) -> Prefixes
        ensures { result ≡ self.marked }
    {
        let Walk { nodes, ends, .. } = self;
        Prefixes { nodes, ends }
    }
}
