//! The lines of a tree.

ghost use Rattle.std.specs.Prelude.{◌≡◌, ℕ, ◌<◌, Ok, OnOk, IfSome};
ghost use Rattle.ec_loads.specs.Shape.{leaf, tick};
ghost use Rattle.ec_cert.specs.declared.kinds.Kinds.{Kinds as LeafKinds};
ghost use Rattle.ec_cert_text.specs.Reading.{Gives, node_in as node_in_spec, room_in as room_in_spec, kind_in as kind_in_spec, node_on as node_on_spec, node_at, tree_at, many_from};
ghost use Rattle.ec_cert.specs.Shapes.{shape_of};
ghost use Rattle.ec_cert_text.specs.Views.{at_view, tree_views};

use crate::fault::CertFault;
use crate::groups::pairs_on;
use crate::lines::{fault_on, line_of};
use crate::place::TextPlace;
use crate::spelled::{spelled_node, spelled_tick};
use crate::weights::weights_on;
use crate::words::{Wrong, number, pair};
use ec_cert::{Kinds, Pairs, Tree, Weights, split_of};
use std::alloc::Global;

/// What a line of a node says.
#[derive(Debug, Drop)]
pub(crate) enum Node {
    /// A split with so many children.
    Split(u32),
    TickLeaf(u32),
    FullLeaf(u32, u8),
    Average,
    Weights(Weights),
    OpenLeaf,
    Merge,
    Count(u16, u16),
    Groups(Pairs),
}

/// What a line says, of a node of a kind that every version has.
#[tactic(auto, unfolding(crate::specs::Reading::node_in))]
fn node_in(line: &[u8]) -> Result<Node, Wrong>
    ensures { result ≡ node_in_spec line.now }
{
    if line.starts_with(b"S ") {
        return Ok(Node::Split(number(1, 480, &line[2..])?));
    }
    if line.starts_with(b"T ") {
        return Ok(Node::TickLeaf(number(0, 1023, &line[2..])?));
    }
    if line.starts_with(b"F ") {
        let (tick, slot) = pair(0, (1023, 7), &line[2..])?;
        return Ok(Node::FullLeaf(tick, slot as u8));
    }
    if line == b"A".as_slice() {
        return Ok(Node::Average);
    }
    Err(Wrong::Words)
}

/// What a line says, of a node of a kind that every version has, or of one that the strong rules have.
#[tactic(auto, unfolding(crate::specs::Reading::room_in))]
fn room_in(line: &[u8]) -> Result<Node, Wrong>
    ensures { result ≡ room_in_spec line.now }
{
    if line.starts_with(b"N ") {
        let (period, bytes) = pair(1, (60, 1486), &line[2..])?;
        return Ok(Node::Count(period as u16, bytes as u16));
    }
    if line == b"M".as_slice() {
        return Ok(Node::Merge);
    }
    node_in(line)
}

/// The same by the strong rules, or not.
fn kind_in(rooms: bool, line: &[u8]) -> Result<Node, Wrong>
    ensures { result ≡ kind_in_spec rooms line.now }
{
    if rooms {
        return room_in(line);
    }
    node_in(line)
}

/// What a line of a node says in a text that has leaves of these kinds.
#[tactic(auto, unfolding(crate::specs::Reading::node_on))]
fn node_on(alloc: Global, kinds: Kinds, number: u32, line: &[u8]) -> Result<Node, CertFault>
    ensures { Gives (λ x. x) result (node_on_spec kinds number line.now) }
{
    if line.starts_with(b"W ") && kinds.weights {
        let weights = weights_on(alloc, number, &line[2..])?;
        return Ok(Node::Weights(Weights::new(alloc, weights)?));
    }
    if line.starts_with(b"G ") && kinds.rooms {
        let pairs = pairs_on(alloc, number, &line[2..])?;
        return Ok(Node::Groups(Pairs::new(alloc, pairs)?));
    }
    if line == b"O".as_slice() && kinds.left_open {
        return Ok(Node::OpenLeaf);
    }
    match kind_in(kinds.rooms, line) {
        Ok(node) => Ok(node),
        Err(wrong) => Err(fault_on(number, wrong)),
    }
}

/// The node of the next line, or what is wrong with that line.
#[tactic(auto, unfolding(crate::specs::Reading::node_at))]
fn judged_node(
    alloc: Global,
    kinds: Kinds,
    levels: u8,
    place: TextPlace<'_>,
) -> Result<(Node, TextPlace<'_>), CertFault>
    ensures exact { Gives (λ x. (x.0, at_view x.1)) result (node_at kinds levels (at_view place.entry)) }
    ensures deep { OnOk result (0 < levels) }
{
    let (line, rest) = line_of(place)?;
    if line == b"end".as_slice() {
        return Err(CertFault::Early(place.line));
    }
    let node = node_on(alloc, kinds, place.line, line)?;
    if levels == 0 {
        return Err(CertFault::TooDeep(place.line));
    }
    Ok((node, rest))
}

/// The node of the next line, where the tree may have so many levels from it on.
fn node_of(
    alloc: Global,
    kinds: Kinds,
    levels: u8,
    place: TextPlace<'_>,
) -> Result<(Node, TextPlace<'_>), CertFault>
    ensures exact { Gives (λ x. (x.0, at_view x.1)) result (node_at kinds levels (at_view place.entry)) }
    ensures deep { OnOk result (0 < levels) }
{
    match spelled_node(place.rest) {
        Some((node, rest)) if 0 < levels => {
            let next = TextPlace {
                line: place.line + 1,
                rest,
            };
            Ok((node, next))
        }
        _ => judged_node(alloc, kinds, levels, place),
    }
}

/// The tick of a leaf on the next line, where that is written as certificates are and the tree may have so many levels from
/// it on.
#[inline(always)]
fn tick_of(levels: u8, place: TextPlace<'_>) -> Option<(u32, TextPlace<'_>)>
    ensures { IfSome result (λ x. (kinds : LeafKinds) → tree_at kinds levels (at_view place.entry) ≡ Ok (leaf (tick x.0), at_view x.1)) }
{
    if levels == 0 {
        return None;
    }
    let (tick, rest) = spelled_tick(place.rest)?;
    let next = TextPlace {
        line: place.line + 1,
        rest,
    };
    Some((tick, next))
}

/// A tree of so many levels at most; no recursion is deeper than they are.
#[cycle(tree)]
#[tactic(auto, unfolding(crate::specs::Reading::tree_at))]
pub(crate) fn tree_of(
    alloc: Global,
    kinds: Kinds,
    levels: u8,
    place: TextPlace<'_>,
) -> Result<(Tree, TextPlace<'_>), CertFault>
    ensures { Gives (λ x. (shape_of x.0, at_view x.1)) result (tree_at kinds levels (at_view place.entry)) }
{
    let (node, rest) = node_of(alloc, kinds, levels, place)?;
    match node {
        Node::Split(count) => {
            let (trees, rest) = trees_of(alloc, kinds, levels - 1, count, rest)?;
            Ok((split_of(alloc, trees)?, rest))
        }
        Node::TickLeaf(tick) => Ok((Tree::TickLeaf(tick), rest)),
        Node::FullLeaf(tick, slot) => Ok((Tree::FullLeaf(tick, slot), rest)),
        Node::Average => Ok((Tree::Average, rest)),
        Node::Weights(weights) => Ok((Tree::Weights(weights), rest)),
        Node::OpenLeaf => Ok((Tree::OpenLeaf, rest)),
        Node::Merge => Ok((Tree::Merge, rest)),
        Node::Count(period, bytes) => Ok((Tree::Count { period, bytes }, rest)),
        Node::Groups(pairs) => Ok((Tree::Groups(pairs), rest)),
    }
}

#[cycle(tree)]
fn trees_of(
    alloc: Global,
    kinds: Kinds,
    levels: u8,
    count: u32,
    place: TextPlace<'_>,
) -> Result<(Vec<Tree>, TextPlace<'_>), CertFault>
    ensures { Gives (λ x. (tree_views x.0.items, at_view x.1)) result (many_from (tree_at kinds levels) count (at_view place.entry)) }
{
    let mut trees = Vec::with_capacity(alloc, count as usize)?;
    let mut rest = place;
    'children: for _ in 0..count {
        if let Some((tick, after)) = tick_of(levels, rest) {
            trees.push(Tree::TickLeaf(tick))?;
            rest = after;
            continue;
        }
        let (tree, after) = tree_of(alloc, kinds, levels, rest)?;
        trees.push(tree)?;
        rest = after;
    }
    Ok((trees, rest))
}
