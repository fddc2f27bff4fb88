//! Entries put into a map, and taken back.

use crate::given::text;
use crate::must::{holds, must};
use rhd_map::{put_all, take_back};
use rhd_value::Text;
use std::alloc::Global;
use std::collections::BTreeMap;
use std::process::Abort;

/// What stands under a name.
fn at(alloc: Global, map: &BTreeMap<Text, u8>, name: &str) -> Option<u8> {
    map.get(&text(alloc, name)).copied()
}

#[test]
fn entries_are_taken_back(rt: HostRuntime) {
    let alloc = rt.alloc();
    let mut map = BTreeMap::new(alloc);
    let first = map.insert(text(alloc, "a"), 1u8);
    holds(&rt, first.is_ok(), "put in");
    let mut entries = Vec::new(alloc);
    for (name, value) in [("b", 2u8), ("a", 3), ("b", 4)] {
        let pushed = entries.push((text(alloc, name), value));
        holds(&rt, pushed.is_ok(), "an entry");
    }
    let replaced = must(&rt, put_all(alloc, &mut map, entries), "memory");
    holds(&rt, replaced.len() == 3, "three noted");
    holds(&rt, at(alloc, &map, "a") == Some(3), "in the place of 1");
    holds(&rt, at(alloc, &map, "b") == Some(4), "the later one");
    take_back(&mut map, replaced);
    holds(&rt, at(alloc, &map, "a") == Some(1), "as before");
    holds(&rt, map.len() == 1, "and nothing else");
}
