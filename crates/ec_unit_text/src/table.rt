//! What a TOML table holds at a key.

ghost use Rattle.std.specs.Prelude.{◌≡◌, option_map};
ghost use Rattle.toml.specs.Data.{get_member};
ghost use Rattle.toml.specs.View.{view, items_view, table_view};
ghost use Rattle.ec_unit_text.specs.FaultText.{key_text};
ghost use Rattle.ec_unit_text.specs.AtKey.{integer_given, integer_or, integer_at, text_at, items_at, is_missing, item_count, all_tables, is_of_type, has_wrong, is_one_of, has_other_key};

use crate::fault::Key;
use toml::{Table, Value};

fn value_at<'a>(table: &'a Table, key: Key) -> Option<&'a Value>
    ensures { option_map (λ v. view v.now) result ≡ get_member (key_text key) (table_view table.now) }
{
    table.get(key.as_str())
}

pub fn is_missing(table: &Table, key: Key) -> bool
    ensures { result ≡ is_missing key (table_view table.now) }
{
    value_at(table, key).is_none()
}

pub fn integer_given(table: &Table, key: Key) -> Option<i64>
    ensures { result ≡ integer_given key (table_view table.now) }
{
    match value_at(table, key) {
        Some(value) => value.as_integer(),
        None => None,
    }
}

pub fn integer_or(table: &Table, key: Key, default: i64) -> i64
    ensures { result ≡ integer_or default key (table_view table.now) }
{
    match value_at(table, key) {
        Some(value) => value.as_integer().unwrap_or(default),
        None => default,
    }
}

pub fn integer_at(table: &Table, key: Key) -> i64
    ensures { result ≡ integer_at key (table_view table.now) }
{
    integer_or(table, key, 0)
}

pub fn text_at<'a>(table: &'a Table, key: Key) -> &'a str
    ensures { result.now ≡ text_at key (table_view table.now) }
{
    match value_at(table, key) {
        Some(value) => value.as_str().unwrap_or(""),
        None => "",
    }
}

pub fn values_at<'a>(table: &'a Table, key: Key) -> &'a [Value]
    ensures { items_view result.now ≡ items_at key (table_view table.now) }
{
    match value_at(table, key) {
        Some(value) => match value.as_array() {
            Some(values) => values.as_slice(),
            None => &[],
        },
        None => &[],
    }
}

/// The number of items at the key, tables or not; 0 where there is no array.
pub fn count_at(table: &Table, key: Key) -> usize
    ensures { result ≡ item_count (items_at key (table_view table.now)) }
{
    values_at(table, key).len()
}

fn are_all_tables(values: &[Value]) -> bool
    ensures { result ≡ all_tables (items_view values.now) }
{
    for value in values {
        if !value.is_table() {
            return false;
        }
    }
    true
}

fn is_array_of_tables(value: &Value) -> bool
    ensures { result ≡ is_of_type Key.Unit (view value.now) }
{
    match value.as_array() {
        Some(values) => are_all_tables(values),
        None => false,
    }
}

fn is_of_type(key: Key, value: &Value) -> bool
    ensures { result ≡ is_of_type key (view value.now) }
{
    match key {
        Key::Name => value.is_str(),
        Key::Unit | Key::Slave => is_array_of_tables(value),
        _ => value.is_integer(),
    }
}

/// Whether the value at the key is there and has a type that the key doesn't take.
pub fn has_wrong(table: &Table, key: Key) -> bool
    ensures { result ≡ has_wrong key (table_view table.now) }
{
    match value_at(table, key) {
        Some(value) => !is_of_type(key, value),
        None => false,
    }
}

fn is_one_of(keys: &[Key], text: &str) -> bool
    ensures { result ≡ is_one_of keys.now text.now }
{
    keys.iter().any(|key| text == key.as_str())
}

/// Whether some key of the table is none of these.
pub fn has_other_key(table: &Table, keys: &[Key]) -> bool
    ensures { result ≡ has_other_key keys.now (table_view table.now) }
{
    for key in table.keys() {
        if !is_one_of(keys, key.as_str()) {
            return true;
        }
    }
    false
}
