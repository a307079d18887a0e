//! Which certificates are well formed. They are made by hand, since most of them have no text.

use ec_cert::{
    Best, Cert, Order, Pairs, Tree, UnitLine, UnitLines, Weights, split_of, well_formed,
};
use ec_loads::{Pair, Places, Plan};
use ec_units::Name;
use std::alloc::{AllocError, Global};

/// Certificates of one unit: the version, the level if any, the value of a plan for no unit if any, the tree and how many
/// things it has, and whether it is well formed.
const ROWS: &str = "\
1 - - full leaf => right
1 - - open leaf => wrong
1 - - tick 1024 => wrong
1 - - split 0 => wrong
1 - - weights 1 => wrong
2 - - weights 1 => right
2 - - weights 1024 => right
2 - - weights 0 => wrong
2 - - weights 1025 => wrong
3 0 - weights 1 => right
4 0 - weights 1 => right
5 0 - weights 1 => wrong
0 - - full leaf => wrong
4 - - weights 1 => right
4 12304 - open leaf => right
4 12305 - open leaf => wrong
4 - - open leaf => wrong
4 - - merge leaf => right
4 0 - merge leaf => right
3 0 - merge leaf => wrong
4 - - count 1 => right
4 - - count 1486 => right
4 - - count 0 => wrong
4 - - count 1487 => wrong
3 0 - count 1 => wrong
4 - - pairs 1 => right
4 - - pairs 48 => right
4 - - pairs 0 => wrong
4 - - pairs 49 => wrong
2 - - pairs 1 => wrong
4 - - room 12304 => right
4 - - room 12305 => wrong
3 0 - open leaf => right
3 12304 - open leaf => right
3 12305 - open leaf => wrong
3 - - open leaf => wrong
2 - - open leaf => wrong
2 0 - open leaf => wrong
1 - - average leaf => right
1 - 84 average leaf => wrong";

/// So many weights, from 65,535 down.
fn weights(alloc: Global, count: u16) -> Result<Tree, AllocError> {
    let mut weights = Vec::new(alloc);
    for weight in 0..count {
        weights.push(65_535 - weight)?;
    }
    Ok(Tree::Weights(Weights::new(alloc, weights)?))
}

/// So many pairs, each of 65,535 groups with this room.
fn pairs(alloc: Global, count: u16, room: u16) -> Result<Tree, AllocError> {
    let mut pairs = Vec::new(alloc);
    for _ in 0..count {
        pairs.push(Pair {
            count: 65_535,
            room,
        })?;
    }
    Ok(Tree::Groups(Pairs::new(alloc, pairs)?))
}

/// So many splits of one child above one another, and a leaf.
fn tower(alloc: Global, splits: u16) -> Result<Tree, AllocError> {
    let mut tree = Tree::FullLeaf(0, 0);
    for _ in 0..splits {
        let mut children = Vec::new(alloc);
        children.push(tree)?;
        tree = split_of(alloc, children)?;
    }
    Ok(tree)
}

/// A tree of this kind, which has so many of what it has.
fn tree_of(alloc: Global, kind: &str, count: u16) -> Result<Tree, AllocError> {
    match kind {
        "full" => Ok(Tree::FullLeaf(1023, 7)),
        "tick" => Ok(Tree::TickLeaf(u32::from(count))),
        "average" => Ok(Tree::Average),
        "weights" => weights(alloc, count),
        "merge" => Ok(Tree::Merge),
        "count" => Ok(Tree::Count {
            period: 60,
            bytes: count,
        }),
        "pairs" => pairs(alloc, count, 12_304),
        "room" => pairs(alloc, 1, count),
        "split" => split_of(alloc, Vec::new(alloc)),
        "tower" => tower(alloc, count),
        _ => Ok(Tree::OpenLeaf),
    }
}

/// A certificate of one unit without a plan, with an open leaf.
fn open_cert(alloc: Global) -> Result<Cert, AllocError> {
    let mut units = Vec::new(alloc);
    units.push(UnitLine {
        name: Name::new(String::from_str(alloc, "a")?),
        bytes: 4,
        period: 1,
    })?;
    let mut order = Vec::new(alloc);
    order.push(0)?;
    Ok(Cert {
        version: 1,
        slots: 1,
        units: UnitLines::new(units),
        order: Order::new(order),
        best: None,
        level: None,
        tree: Tree::OpenLeaf,
    })
}

/// A plan for no unit, of this value.
fn best_of(alloc: Global, value: Option<u64>) -> Option<Best> {
    let plan = Plan {
        places: Places::new(Vec::new(alloc)),
    };
    Some(Best {
        busiest: value?,
        plan,
    })
}

/// The number that a word is, if it is one.
fn number_of(row: &str, at: usize) -> Option<u64> {
    row.split_whitespace().nth(at)?.parse::<u64>().ok()
}

/// Whether a certificate is well formed, of which the row gives version, level and plan, with such a tree.
fn stands_with(
    alloc: Global,
    cert: &mut Cert,
    row: &str,
    kind: &str,
    count: u16,
) -> Result<bool, AllocError> {
    cert.tree = tree_of(alloc, kind, count)?;
    cert.version = (number_of(row, 0).unwrap_or(0) % 256) as u8;
    cert.level = number_of(row, 1);
    cert.best = best_of(alloc, number_of(row, 2));
    Ok(well_formed(cert))
}

/// The same of a certificate of one unit.
fn stands(alloc: Global, row: &str, kind: &str, count: u16) -> Result<bool, AllocError> {
    let mut cert = open_cert(alloc)?;
    stands_with(alloc, &mut cert, row, kind, count)
}

/// The first row that isn't answered as it says.
fn first_wrong(alloc: Global) -> Result<&'static str, AllocError> {
    for row in ROWS.lines() {
        let (given, wanted) = row.split_once(" => ").unwrap_or((row, ""));
        let kind = given.split_whitespace().nth(3).unwrap_or("");
        let count = (number_of(given, 4).unwrap_or(0) % 65_536) as u16;
        if stands(alloc, given, kind, count)? != (wanted == "right") {
            return Ok(row);
        }
    }
    Ok("none")
}

/// The least count of splits above one another with which a certificate isn't well formed.
fn first_too_deep(alloc: Global) -> Result<u16, AllocError> {
    for splits in 1..60u16 {
        if !stands(alloc, "1 - -", "tower", splits)? {
            return Ok(splits);
        }
    }
    Ok(0)
}

#[test]
fn which_certificates_are_well_formed(rt: HostRuntime) -> Result<(), AllocError> {
    let wrong = first_wrong(rt.alloc())?;
    let deep = first_too_deep(rt.alloc())?;
    assert_eq!(rt; (wrong, deep), ("none", 49));
    Ok(())
}
