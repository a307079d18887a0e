//! Sixteen threads that call one book many thousand times.

use crate::contention::crowd;
use crate::replay::{replayed, workers};
use ec_book::Book;
use ec_branch::search_order;
use ec_symmetry::Rules;
use ec_unit_text::read_units;
use std::alloc::{AllocError, Global};
use std::test::Fail;

/// How many turns each thread makes, of two to four calls each.
const TURNS: u32 = 200;

/// The text of 16 units, whose tree has far more nodes than the turns can spend.
fn units_text(alloc: Global) -> Result<String, AllocError> {
    let mut text = String::from_str(alloc, "tick_ns = 1000000\nslots = 2\n")?;
    for number in 0..16u32 {
        let letter = char::from(b'a' + (number % 26) as u8);
        let period = match number % 3 {
            0 => 5,
            1 => 10,
            _ => 20,
        };
        let station = number + 1001;
        let bytes = number * 25 + 30;
        write!(
            text,
            "[[unit]]\nname = \"{letter}\"\nperiod = {period}\n[[unit.slave]]\nstation = {station}\nout_bytes = {bytes}\nin_bytes = 0\n"
        )?;
    }
    Ok(text)
}

#[test]
fn a_crowd_keeps_the_book(rt: HostRuntime) -> Result<(), Fail> {
    let alloc = rt.alloc();
    let text = units_text(alloc)?;
    let Ok(units) = read_units(alloc, text.as_bytes()) else {
        assert!(rt; false);
        return Ok(());
    };
    let order = search_order(alloc, &units)?;
    let book = Book::new(alloc, &units, order.as_slice(), Rules::Turned, 1000000)?;
    let Some((finished, started)) = crowd(&rt, alloc, book, &units, order.as_slice(), TURNS) else {
        assert!(rt; false);
        return Ok(());
    };
    let log = finished.log.as_slice();
    assert_eq!(rt; replayed(alloc, log)?, Some(finished.spent));
    assert!(rt; started > 1);
    assert!(rt; workers(log) <= started);
    assert!(rt; log.len() > 2000);
    Ok(())
}
