//! Tests of what no contract says: that each call succeeds where there is memory, and that natives,
//! bodies, hosts and files other than those of `rhd_kit` and `rhd_files` may be handed in. The program
//! of rows runs texts.

mod foreign;
mod sessions;
mod values;

use rhd_hash::Seeds;
use rhd_value::{Dynamic, Text, Value, Values};
use std::alloc::Global;
use std::process::Abort;

/// Seeds under which no two keys of a test clash.
const SEEDS: Seeds = Seeds {
    seed0: 0,
    seed1: 0,
    mask: u64::MAX,
};

/// Stops the test where something doesn't hold.
fn holds(rt: &impl Abort, fact: bool, what: &str) {
    assert!(rt; fact, "{what}");
}

/// A text; empty where memory ran out.
fn text_of(alloc: Global, text: &str) -> Text {
    let mut made = Text::new(alloc);
    let _ = made.push(text);
    made
}

fn int(number: i64) -> Dynamic {
    Dynamic::from(Value::Int(number))
}

/// One value; none where memory ran out.
fn one(alloc: Global, value: Dynamic) -> Values {
    let mut values = Values::new(alloc);
    let _ = values.push(value);
    values
}
