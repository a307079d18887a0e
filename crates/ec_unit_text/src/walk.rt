//! The first fault of a document: rule by rule, and for each rule table by table.

ghost use Rattle.std.specs.Prelude.{◌≡◌, ◌≤◌, ◌∷◌, [], Some, length, map, nat_lt};
ghost use Rattle.std.specs.List.{flat_map};
ghost use Rattle.toml.specs.Data.{no_items, as_table};
ghost use Rattle.toml.specs.View.{view, items_view, table_view};
ghost use Rattle.ec_hyper.specs.Lcm.{lcm_of};
ghost use Rattle.ec_unit_text.specs.AtKey.{table_list};
ghost use Rattle.ec_unit_text.specs.Fits.{PeriodFits, PeriodsFit};
ghost use Rattle.ec_unit_text.specs.UnitText.{first, period_at, periods_in, faults_of_slave_item, slave_faults_from, faults_of_unit_item, unit_faults_from, faults_by, early_rules, late_rules, hyper_faults, unit_faults};

use crate::fault::{Key, UnitFault};
use crate::judge::{MOST_UNITS, slave_fault, top_fault, unit_fault};
use crate::rule::Rule;
use crate::table::{integer_at, values_at};
use ec_hyper::Hyper;
use toml::{Table, Value};

const EARLY_RULES: [Rule; 14] = [
    Rule::Missing,
    Rule::WrongType,
    Rule::UnknownKey,
    Rule::NoUnits,
    Rule::TooManyUnits,
    Rule::BadName,
    Rule::DuplicateName,
    Rule::PeriodRange,
    Rule::SlaveCount,
    Rule::SlaveBytes,
    Rule::UnitTooBig,
    Rule::StationRange,
    Rule::DuplicateStation,
    Rule::AreaRange,
];

const LATE_RULES: [Rule; 4] = [
    Rule::SlotsRange,
    Rule::TickRange,
    Rule::PlaceRange,
    Rule::PlaceHalf,
];

fn slave_item_fault(
    rule: Rule,
    units: &[Value],
    slaves: &[Value],
    unit: usize,
    index: usize,
    value: &Value,
) -> Option<UnitFault>
    ensures { result ≡ first (faults_of_slave_item rule (items_view units.now) (items_view slaves.now) unit index (as_table (view value.now))) }
{
    match value.as_table() {
        Some(slave) => slave_fault(rule, units, slaves, unit, index, slave),
        None => None,
    }
}

/// What a rule finds in the slaves of a unit, after the units before it.
fn slaves_fault(rule: Rule, units: &[Value], unit: usize, slaves: &[Value]) -> Option<UnitFault>
    ensures { result ≡ first (slave_faults_from rule (items_view units.now) no_items unit 0 (items_view slaves.now)) }
{
    for (index, slave) in slaves.iter().enumerate() {
        if let Some(fault) = slave_item_fault(rule, units, &slaves[..index], unit, index, slave) {
            return Some(fault);
        }
    }
    None
}

/// What a rule finds in a unit and then in its slaves.
#[tactic(auto, using(crate::proofs::Beside::first_step))]
fn unit_and_slaves_fault(
    rule: Rule,
    top: &Table,
    earlier: &[Value],
    index: usize,
    unit: &Table,
) -> Option<UnitFault>
    ensures { result ≡ first (faults_of_unit_item rule (table_view top.now) (items_view earlier.now) index (Some (table_view unit.now))) }
{
    if let Some(fault) = unit_fault(rule, top, earlier, index, unit) {
        return Some(fault);
    }
    slaves_fault(rule, earlier, index, values_at(unit, Key::Slave))
}

fn unit_item_fault(
    rule: Rule,
    top: &Table,
    earlier: &[Value],
    index: usize,
    value: &Value,
) -> Option<UnitFault>
    ensures { result ≡ first (faults_of_unit_item rule (table_view top.now) (items_view earlier.now) index (as_table (view value.now))) }
{
    match value.as_table() {
        Some(unit) => unit_and_slaves_fault(rule, top, earlier, index, unit),
        None => None,
    }
}

/// What a rule finds in units, each followed by its slaves.
fn units_fault(rule: Rule, top: &Table, units: &[Value]) -> Option<UnitFault>
    ensures { result ≡ first (unit_faults_from rule (table_view top.now) no_items 0 (items_view units.now)) }
{
    for (index, unit) in units.iter().enumerate() {
        if let Some(fault) = unit_item_fault(rule, top, &units[..index], index, unit) {
            return Some(fault);
        }
    }
    None
}

/// What a rule finds in a document.
#[tactic(auto, using(crate::proofs::Beside::first_step))]
fn fault_by(rule: Rule, top: &Table) -> Option<UnitFault>
    ensures { result ≡ first (faults_by (table_view top.now) rule) }
{
    if let Some(fault) = top_fault(rule, top) {
        return Some(fault);
    }
    units_fault(rule, top, values_at(top, Key::Unit))
}

fn fault_among(rules: &[Rule], top: &Table) -> Option<UnitFault>
    ensures { result ≡ first (flat_map (faults_by (table_view top.now)) rules.now) }
{
    for rule in rules {
        if let Some(fault) = fault_by(*rule, top) {
            return Some(fault);
        }
    }
    None
}

fn period_of(value: &Value) -> u16
    requires { PeriodFits (as_table (view value.now)) }
    ensures value { result ∷ [] ≡ map period_at (table_list (as_table (view value.now))) }
    ensures range { (1 ≤ result) × (result ≤ 60) }
{
    match value.as_table() {
        Some(unit) => integer_at(unit, Key::Period) as u16,
        None => unreachable!(),
    }
}

/// Whether the hyperperiod of units whose periods are in range is too long.
fn is_too_long(units: &[Value]) -> bool
    requires fit { PeriodsFit (items_view units.now) }
    requires few { length units.now ≤ 48 }
    ensures { result ≡ nat_lt 1024 (lcm_of (periods_in (items_view units.now))) }
{
    let mut periods = [1u16; MOST_UNITS];
    for (index, unit) in units.iter().enumerate() {
        periods[index] = period_of(unit);
    }
    Hyper::of(&periods[..units.len()]).is_err()
}

/// The first fault of a document.
#[tactic(auto, using(crate::proofs::Beside::first_step), unfolding(crate::specs::UnitText::unit_faults))]
pub fn first_fault(top: &Table) -> Option<UnitFault>
    ensures { result ≡ first (unit_faults (table_view top.now)) }
{
    if let Some(fault) = fault_among(&EARLY_RULES, top) {
        return Some(fault);
    }
    if is_too_long(values_at(top, Key::Unit)) {
        return Some(UnitFault::HyperTooLong);
    }
    fault_among(&LATE_RULES, top)
}
