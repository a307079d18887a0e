//! The text of a certificate, written without taking memory.

ghost use Rattle.std.specs.Prelude.{◌≡◌, ℕ, ◌++◌, ◌<◌, ◌≤◌, false, true, length, codes, None, OnOk, OnErr};
ghost use Rattle.std.specs.Fmt.{decimal};
ghost use Rattle.std.specs.List.{All, flat_map};
ghost use Rattle.std.specs.Io.KnownBytes.{Appends};
ghost use Rattle.ec_wire.specs.Stream.{stream, has_failed, WritesFront};
ghost use Rattle.ec_cert_text.specs.Gathers.{Gathers, GathersFront};
ghost use Rattle.ec_cert.specs.Shapes.{shape_of, shapes_of, cert_view};
ghost use Rattle.ec_cert.specs.WellFormed.{IsUnitLine, IsWellFormed};
ghost use Rattle.ec_cert_text.specs.Text.{unit_line as unit_line_spec, index_word, order_line, place_line, best_lines, level_line, weights_line, pair_words as pair_words_spec, groups_line, node_lines, row_lines, tree_lines, certificate_text};

use crate::buffer::Waiting;
use crate::digits::{number_line, number_word, pair_line, pair_words, unit_line};
use ec_cert::{Best, Cert, Tree, UnitLine};
use ec_loads::Pair;
use ec_units::Place;
use ec_wire::{Io, WriteFault};
use std::io::Write;

fn write_units<W: Write>(
    units: &[UnitLine],
    io: &mut Io<W>,
    waiting: &mut Waiting,
) -> Result<(), WriteFault>
    requires { All IsUnitLine units.now }
    ensures all { OnOk result (Gathers (W.contents (stream io.old)) waiting.old.bytes.items (W.contents (stream io.new)) waiting.new.bytes.items (flat_map unit_line_spec units.now)) }
    ensures front { GathersFront (W.contents (stream io.old)) waiting.old.bytes.items (W.contents (stream io.new)) (flat_map unit_line_spec units.now) }
    ensures ok { OnOk result (has_failed io.new ≡ has_failed io.old) }
    ensures err { OnErr result (has_failed io.new ≡ true) }
{
    'units: for unit in units {
        waiting.write(io, unit_line(unit).as_slice())?;
    }
    Ok(())
}

fn write_order<W: Write>(
    order: &[u8],
    io: &mut Io<W>,
    waiting: &mut Waiting,
) -> Result<(), WriteFault>
    ensures all { OnOk result (Gathers (W.contents (stream io.old)) waiting.old.bytes.items (W.contents (stream io.new)) waiting.new.bytes.items (order_line order.now)) }
    ensures front { GathersFront (W.contents (stream io.old)) waiting.old.bytes.items (W.contents (stream io.new)) (order_line order.now) }
    ensures ok { OnOk result (has_failed io.new ≡ has_failed io.old) }
    ensures err { OnErr result (has_failed io.new ≡ true) }
{
    waiting.write(io, b"order")?;
    write_words(order, io, waiting)?;
    waiting.write(io, b"\n")
}

fn write_words<W: Write>(
    order: &[u8],
    io: &mut Io<W>,
    waiting: &mut Waiting,
) -> Result<(), WriteFault>
    ensures all { OnOk result (Gathers (W.contents (stream io.old)) waiting.old.bytes.items (W.contents (stream io.new)) waiting.new.bytes.items (flat_map index_word order.now)) }
    ensures front { GathersFront (W.contents (stream io.old)) waiting.old.bytes.items (W.contents (stream io.new)) (flat_map index_word order.now) }
    ensures ok { OnOk result (has_failed io.new ≡ has_failed io.old) }
    ensures err { OnErr result (has_failed io.new ≡ true) }
{
    'words: for unit in order {
        waiting.write(io, number_word(usize::from(*unit)).as_slice())?;
    }
    Ok(())
}

fn write_places<W: Write>(
    places: &[Place],
    io: &mut Io<W>,
    waiting: &mut Waiting,
) -> Result<(), WriteFault>
    ensures all { OnOk result (Gathers (W.contents (stream io.old)) waiting.old.bytes.items (W.contents (stream io.new)) waiting.new.bytes.items (flat_map place_line places.now)) }
    ensures front { GathersFront (W.contents (stream io.old)) waiting.old.bytes.items (W.contents (stream io.new)) (flat_map place_line places.now) }
    ensures ok { OnOk result (has_failed io.new ≡ has_failed io.old) }
    ensures err { OnErr result (has_failed io.new ≡ true) }
{
    'places: for place in places {
        let line = pair_line(b"place ", usize::from(place.phase), usize::from(place.slot));
        waiting.write(io, line.as_slice())?;
    }
    Ok(())
}

fn write_best<W: Write>(
    best: &Option<Best>,
    io: &mut Io<W>,
    waiting: &mut Waiting,
) -> Result<(), WriteFault>
    ensures all { OnOk result (Gathers (W.contents (stream io.old)) waiting.old.bytes.items (W.contents (stream io.new)) waiting.new.bytes.items (best_lines best.now)) }
    ensures front { GathersFront (W.contents (stream io.old)) waiting.old.bytes.items (W.contents (stream io.new)) (best_lines best.now) }
    ensures ok { OnOk result (has_failed io.new ≡ has_failed io.old) }
    ensures err { OnErr result (has_failed io.new ≡ true) }
{
    match best {
        None => waiting.write(io, b"value none\n"),
        Some(best) => {
            let line = number_line(b"value ", best.busiest as usize);
            let places = best.plan.places.as_slice();
            waiting.write(io, line.as_slice())?;
            write_places(places, io, waiting)
        }
    }
}

/// Writes that there is no level, where texts of this version say so.
fn write_no_level<W: Write>(
    version: u8,
    io: &mut Io<W>,
    waiting: &mut Waiting,
) -> Result<(), WriteFault>
    ensures all { OnOk result (Gathers (W.contents (stream io.old)) waiting.old.bytes.items (W.contents (stream io.new)) waiting.new.bytes.items (level_line version None)) }
    ensures front { GathersFront (W.contents (stream io.old)) waiting.old.bytes.items (W.contents (stream io.new)) (level_line version None) }
    ensures ok { OnOk result (has_failed io.new ≡ has_failed io.old) }
    ensures err { OnErr result (has_failed io.new ≡ true) }
{
    if 4 <= version {
        return waiting.write(io, b"level none\n");
    }
    Ok(())
}

fn write_level<W: Write>(
    version: u8,
    level: Option<u64>,
    io: &mut Io<W>,
    waiting: &mut Waiting,
) -> Result<(), WriteFault>
    ensures all { OnOk result (Gathers (W.contents (stream io.old)) waiting.old.bytes.items (W.contents (stream io.new)) waiting.new.bytes.items (level_line version level)) }
    ensures front { GathersFront (W.contents (stream io.old)) waiting.old.bytes.items (W.contents (stream io.new)) (level_line version level) }
    ensures ok { OnOk result (has_failed io.new ≡ has_failed io.old) }
    ensures err { OnErr result (has_failed io.new ≡ true) }
{
    match level {
        None => write_no_level(version, io, waiting),
        Some(level) => waiting.write(io, number_line(b"level ", level as usize).as_slice()),
    }
}

fn write_weights<W: Write>(
    weights: &[u16],
    io: &mut Io<W>,
    waiting: &mut Waiting,
) -> Result<(), WriteFault>
    ensures all { OnOk result (Gathers (W.contents (stream io.old)) waiting.old.bytes.items (W.contents (stream io.new)) waiting.new.bytes.items (weights_line weights.now)) }
    ensures front { GathersFront (W.contents (stream io.old)) waiting.old.bytes.items (W.contents (stream io.new)) (weights_line weights.now) }
    ensures ok { OnOk result (has_failed io.new ≡ has_failed io.old) }
    ensures err { OnErr result (has_failed io.new ≡ true) }
{
    waiting.write(io, b"W")?;
    write_weight_words(weights, io, waiting)?;
    waiting.write(io, b"\n")
}

fn write_weight_words<W: Write>(
    weights: &[u16],
    io: &mut Io<W>,
    waiting: &mut Waiting,
) -> Result<(), WriteFault>
    ensures all { OnOk result (Gathers (W.contents (stream io.old)) waiting.old.bytes.items (W.contents (stream io.new)) waiting.new.bytes.items (flat_map index_word weights.now)) }
    ensures front { GathersFront (W.contents (stream io.old)) waiting.old.bytes.items (W.contents (stream io.new)) (flat_map index_word weights.now) }
    ensures ok { OnOk result (has_failed io.new ≡ has_failed io.old) }
    ensures err { OnErr result (has_failed io.new ≡ true) }
{
    'words: for weight in weights {
        waiting.write(io, number_word(usize::from(*weight)).as_slice())?;
    }
    Ok(())
}

fn write_groups<W: Write>(
    pairs: &[Pair],
    io: &mut Io<W>,
    waiting: &mut Waiting,
) -> Result<(), WriteFault>
    ensures all { OnOk result (Gathers (W.contents (stream io.old)) waiting.old.bytes.items (W.contents (stream io.new)) waiting.new.bytes.items (groups_line pairs.now)) }
    ensures front { GathersFront (W.contents (stream io.old)) waiting.old.bytes.items (W.contents (stream io.new)) (groups_line pairs.now) }
    ensures ok { OnOk result (has_failed io.new ≡ has_failed io.old) }
    ensures err { OnErr result (has_failed io.new ≡ true) }
{
    waiting.write(io, b"G")?;
    write_pair_words(pairs, io, waiting)?;
    waiting.write(io, b"\n")
}

fn write_pair_words<W: Write>(
    pairs: &[Pair],
    io: &mut Io<W>,
    waiting: &mut Waiting,
) -> Result<(), WriteFault>
    ensures all { OnOk result (Gathers (W.contents (stream io.old)) waiting.old.bytes.items (W.contents (stream io.new)) waiting.new.bytes.items (flat_map pair_words_spec pairs.now)) }
    ensures front { GathersFront (W.contents (stream io.old)) waiting.old.bytes.items (W.contents (stream io.new)) (flat_map pair_words_spec pairs.now) }
    ensures ok { OnOk result (has_failed io.new ≡ has_failed io.old) }
    ensures err { OnErr result (has_failed io.new ≡ true) }
{
    'words: for pair in pairs {
        waiting.write(io, pair_words(*pair).as_slice())?;
    }
    Ok(())
}

/// Writes a word, a number and a line feed. It has a place of its own on the stack, which a walk over a tree pays for at
/// these lines alone.
#[inline(never)]
fn write_number<W: Write>(
    word: &[u8],
    number: usize,
    io: &mut Io<W>,
    waiting: &mut Waiting,
) -> Result<(), WriteFault>
    requires { length word.now ≤ 32 }
    ensures all { OnOk result (Gathers (W.contents (stream io.old)) waiting.old.bytes.items (W.contents (stream io.new)) waiting.new.bytes.items (word.now ++ (decimal number ++ codes "\n"))) }
    ensures front { GathersFront (W.contents (stream io.old)) waiting.old.bytes.items (W.contents (stream io.new)) (word.now ++ (decimal number ++ codes "\n")) }
    ensures ok { OnOk result (has_failed io.new ≡ has_failed io.old) }
    ensures err { OnErr result (has_failed io.new ≡ true) }
{
    waiting.write(io, number_line(word, number).as_slice())
}

/// Writes a word, two numbers with a space between them, and a line feed, as `write_number` does.
#[inline(never)]
fn write_pair<W: Write>(
    word: &[u8],
    first: usize,
    second: usize,
    io: &mut Io<W>,
    waiting: &mut Waiting,
) -> Result<(), WriteFault>
    requires { length word.now ≤ 32 }
    ensures all { OnOk result (Gathers (W.contents (stream io.old)) waiting.old.bytes.items (W.contents (stream io.new)) waiting.new.bytes.items (word.now ++ (decimal first ++ (codes " " ++ (decimal second ++ codes "\n"))))) }
    ensures front { GathersFront (W.contents (stream io.old)) waiting.old.bytes.items (W.contents (stream io.new)) (word.now ++ (decimal first ++ (codes " " ++ (decimal second ++ codes "\n")))) }
    ensures ok { OnOk result (has_failed io.new ≡ has_failed io.old) }
    ensures err { OnErr result (has_failed io.new ≡ true) }
{
    waiting.write(io, pair_line(word, first, second).as_slice())
}

#[cycle(nodes)]
fn write_node<W: Write>(
    tree: &Tree,
    io: &mut Io<W>,
    waiting: &mut Waiting,
) -> Result<(), WriteFault>
    ensures all { OnOk result (Gathers (W.contents (stream io.old)) waiting.old.bytes.items (W.contents (stream io.new)) waiting.new.bytes.items (node_lines (shape_of tree.now))) }
    ensures front { GathersFront (W.contents (stream io.old)) waiting.old.bytes.items (W.contents (stream io.new)) (node_lines (shape_of tree.now)) }
    ensures ok { OnOk result (has_failed io.new ≡ has_failed io.old) }
    ensures err { OnErr result (has_failed io.new ≡ true) }
{
    match tree {
        Tree::Split(trees) => {
            let trees = trees.as_ref();
            write_number(b"S ", trees.len(), io, waiting)?;
            write_nodes(trees, io, waiting)
        }
        Tree::TickLeaf(tick) => write_number(b"T ", *tick as usize, io, waiting),
        Tree::FullLeaf(tick, slot) => {
            write_pair(b"F ", *tick as usize, usize::from(*slot), io, waiting)
        }
        Tree::Average => waiting.write(io, b"A\n"),
        Tree::Weights(weights) => write_weights(weights.as_slice(), io, waiting),
        Tree::OpenLeaf => waiting.write(io, b"O\n"),
        Tree::Merge => waiting.write(io, b"M\n"),
        Tree::Count { period, bytes } => {
            write_pair(
                b"N ",
                usize::from(*period),
                usize::from(*bytes),
                io,
                waiting,
            )
        }
        Tree::Groups(pairs) => write_groups(pairs.as_slice(), io, waiting),
    }
}

#[cycle(nodes)]
fn write_nodes<W: Write>(
    trees: &Vec<Tree>,
    io: &mut Io<W>,
    waiting: &mut Waiting,
) -> Result<(), WriteFault>
    ensures all { OnOk result (Gathers (W.contents (stream io.old)) waiting.old.bytes.items (W.contents (stream io.new)) waiting.new.bytes.items (row_lines (shapes_of trees.now.items))) }
    ensures front { GathersFront (W.contents (stream io.old)) waiting.old.bytes.items (W.contents (stream io.new)) (row_lines (shapes_of trees.now.items)) }
    ensures ok { OnOk result (has_failed io.new ≡ has_failed io.old) }
    ensures err { OnErr result (has_failed io.new ≡ true) }
{
    'children: for tree in trees {
        write_node(tree, io, waiting)?;
    }
    Ok(())
}

fn write_tree<W: Write>(
    tree: &Tree,
    io: &mut Io<W>,
    waiting: &mut Waiting,
) -> Result<(), WriteFault>
    ensures all { OnOk result (Gathers (W.contents (stream io.old)) waiting.old.bytes.items (W.contents (stream io.new)) waiting.new.bytes.items (tree_lines (shape_of tree.now))) }
    ensures front { GathersFront (W.contents (stream io.old)) waiting.old.bytes.items (W.contents (stream io.new)) (tree_lines (shape_of tree.now)) }
    ensures ok { OnOk result (has_failed io.new ≡ has_failed io.old) }
    ensures err { OnErr result (has_failed io.new ≡ true) }
{
    waiting.write(io, b"tree\n")?;
    write_node(tree, io, waiting)?;
    waiting.write(io, b"end\n")
}

/// Writes the lines of a certificate.
fn write_lines<W: Write>(
    cert: &Cert,
    io: &mut Io<W>,
    waiting: &mut Waiting,
) -> Result<(), WriteFault>
    requires well_formed { IsWellFormed (cert_view cert.now) }
    ensures all { OnOk result (Gathers (W.contents (stream io.old)) waiting.old.bytes.items (W.contents (stream io.new)) waiting.new.bytes.items (certificate_text (cert_view cert.now))) }
    ensures front { GathersFront (W.contents (stream io.old)) waiting.old.bytes.items (W.contents (stream io.new)) (certificate_text (cert_view cert.now)) }
    ensures ok { OnOk result (has_failed io.new ≡ has_failed io.old) }
    ensures err { OnErr result (has_failed io.new ≡ true) }
{
    let version = number_line(b"ecplan ", usize::from(cert.version));
    let slots = number_line(b"slots ", usize::from(cert.slots));
    let version = version.as_slice();
    let slots = slots.as_slice();
    let units = cert.units.as_slice();
    let order = cert.order.as_slice();
    waiting.write(io, version)?;
    waiting.write(io, slots)?;
    write_units(units, io, waiting)?;
    write_order(order, io, waiting)?;
    write_best(&cert.best, io, waiting)?;
    write_level(cert.version, cert.level, io, waiting)?;
    write_tree(&cert.tree, io, waiting)
}

/// Writes the text of a certificate; takes no memory. Its lines are gathered to some
/// thousand bytes for each call of the writer. After a fault a front of the text is written.
pub fn write_cert<W: Write>(cert: &Cert, io: &mut Io<W>) -> Result<(), WriteFault>
    requires well_formed { IsWellFormed (cert_view cert.now) }
    requires fresh { has_failed io.old ≡ false }
    ensures all { OnOk result (Appends (W.contents (stream io.old)) (W.contents (stream io.new)) (certificate_text (cert_view cert.now))) }
    ensures front { WritesFront (W.contents (stream io.old)) (W.contents (stream io.new)) (certificate_text (cert_view cert.now)) }
    ensures ok { OnOk result (has_failed io.new ≡ false) }
    ensures err { OnErr result (has_failed io.new ≡ true) }
{
    let mut waiting = Waiting::new();
    write_lines(cert, io, &mut waiting)?;
    waiting.flush(io)
}
