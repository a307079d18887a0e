//! Which search a book and its seats are of.

ghost use Rattle.std.specs.Prelude.{ℕ, List, [], Option, None};
ghost use Rattle.ec_units.specs.declared.unit.Load.{Load};
ghost use Rattle.ec_loads.specs.Line.{Rules, slots_alone};
ghost use Rattle.ec_loads.specs.Shape.{Shape, open_leaf};
ghost use Rattle.ec_cert.specs.Parts.{whole};
ghost use Rattle.ec_cert.specs.declared.part.Part.{Part};

use std::marker::Brand;
use std::sync::ledger::Ledger;

/// The search that a ledger counts the nodes of: the bytes and periods of its units, its slot count, the order in
/// which the units get their places, the rules by which its trees are made, the tree and the value that it was given,
/// how many nodes it may split or close, and which of that tree's open leaves it goes on with. Only contracts see it.
pub trait Search: Ledger {
    ghost loads: { List Load };

    ghost slots: { ℕ };

    ghost order: { List ℕ };

    ghost rules: { Rules };

    ghost given: { Shape };

    ghost given_value: { Option ℕ };

    ghost nodes: { ℕ };

    ghost part: { Part };
}

impl Search for Brand {
    ghost loads = { [] };

    ghost slots = { 0 };

    ghost order = { [] };

    ghost rules = { slots_alone };

    ghost given = { open_leaf };

    ghost given_value = { None };

    ghost nodes = { 0 };

    ghost part = { whole };
}
