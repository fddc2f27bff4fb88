//! Tables of declarations: what is found in them.

use crate::decl::declaration;
use crate::given::{SEEDS, native_key, script_key, text, texts};
use crate::must::{holds, must, shared_script};
use rhd_decl::script_declaration;
use rhd_hash::{BloomFilterU64, HashedKey, Key, SharedKey};
use rhd_table::{
    Copies, Declarations, TreeIndex, copies_that, mark_dynamic, mark_pairs, mark_parts,
    split_copies,
};
use rhd_value::{Texts, TypeTag};
use std::alloc::Global;
use std::process::Abort;

/// A table with a script `s` without parameters.
fn with_script(rt: &impl Abort, alloc: Global) -> Declarations {
    let mut table = Declarations::new(alloc, SEEDS);
    let shared = shared_script(rt, alloc, "s");
    let made = script_declaration(alloc, SEEDS, shared, None);
    let made = must(rt, made, "a declaration");
    let key = SharedKey::new(alloc, script_key(alloc, "s"), SEEDS);
    let put = table.put(alloc, must(rt, key, "a key"), made);
    holds(rt, !must(rt, put, "put in"), "nothing stood there");
    table
}

#[test]
fn scripts_are_found(rt: HostRuntime) {
    let alloc = rt.alloc();
    let table = with_script(&rt, alloc);
    let s = text(alloc, "s");
    holds(&rt, table.get_script(&s, 0).is_some(), "get_script");
    holds(&rt, table.get_script(&s, 1).is_none(), "no other");
    drop(table);
}

#[test]
fn comments_are_set(rt: HostRuntime) {
    let alloc = rt.alloc();
    let mut table = with_script(&rt, alloc);
    let key = script_key(alloc, "s");
    let found = table.set_comments(alloc, &key, texts(alloc, "c"));
    drop(key);
    holds(&rt, must(&rt, found, "memory"), "set_comments");
    for (_key, declaration) in table.iter() {
        let comments = &declaration.metadata().comments;
        holds(&rt, comments.len() == 1, "one comment");
    }
    drop(table);
}

#[test]
fn natives_are_matched(rt: HostRuntime) {
    let alloc = rt.alloc();
    let mut table = Declarations::new(alloc, SEEDS);
    for (name, tag) in [("f", TypeTag::Dynamic), ("g", TypeTag::Int)] {
        let key = SharedKey::new(alloc, native_key(alloc, name, tag), SEEDS);
        let put = table.put(alloc, must(&rt, key, "a key"), declaration(&rt, alloc));
        holds(&rt, !must(&rt, put, "put in"), "nothing stood there");
    }
    let (f, g) = (text(alloc, "f"), text(alloc, "g"));
    holds(&rt, table.may_match(0, &f, &[TypeTag::Int]), "of any type");
    let matches = table.may_match(1, &f, &[TypeTag::Int]);
    holds(&rt, !matches, "and not where the type is exact");
    let matches = table.may_match(0, &g, &[TypeTag::Int]);
    holds(&rt, !matches, "nor one of that type alone");
    drop(g);
    drop(f);
    drop(table);
}

#[test]
fn copies_are_made_of_what_passes(rt: HostRuntime) {
    let alloc = rt.alloc();
    let table = with_script(&rt, alloc);
    let scripts = copies_that(alloc, &table, &|key: &SharedKey| key.key().is_script());
    let scripts = must(&rt, scripts, "copies");
    holds(&rt, scripts.len() == 1, "the script");
    let natives = copies_that(alloc, &table, &|key: &SharedKey| !key.key().is_script());
    let natives = must(&rt, natives, "copies");
    holds(&rt, natives.is_empty(), "no native");
    drop(natives);
    drop(scripts);
    drop(table);
}

#[test]
fn copies_are_split_by_what_others_have(rt: HostRuntime) {
    let alloc = rt.alloc();
    let table = with_script(&rt, alloc);
    let none = Declarations::new(alloc, SEEDS);
    let split = split_copies(alloc, &table, &none);
    let Copies { there, new } = must(&rt, split, "copies");
    holds(&rt, there.is_empty() && new.len() == 1, "all are new");
    drop(new);
    drop(there);
    let split = split_copies(alloc, &table, &table);
    let Copies { there, new } = must(&rt, split, "copies");
    holds(&rt, there.len() == 1 && new.is_empty(), "all are there");
    drop(new);
    drop(there);
    drop(none);
    drop(table);
}

#[test]
fn declarations_have_their_hashes(rt: HostRuntime) {
    let alloc = rt.alloc();
    let table = with_script(&rt, alloc);
    let copy = must(&rt, table.dup(alloc), "a copy");
    for (key, _declaration) in copy.iter() {
        let hash = key.hashed().hash_under(SEEDS);
        holds(&rt, hash == key.key().mixed(SEEDS), "of its key");
    }
    holds(&rt, copy.len() == 1, "one declaration");
    drop(copy);
    drop(table);
}

/// The key of a script `s` without parameters below a path.
fn key_below(alloc: Global, path: Texts) -> Key {
    Key::Script {
        path: Some(path),
        name: text(alloc, "s"),
        params: 0,
    }
}

#[test]
fn a_tree_is_indexed(rt: HostRuntime) {
    let alloc = rt.alloc();
    let mut index = TreeIndex::new(alloc, SEEDS);
    holds(&rt, index.seeds() == SEEDS, "its seeds");
    let table = with_script(&rt, alloc);
    let path = texts(alloc, "a");
    must(&rt, index.put_all(alloc, &path, &table), "put_all");
    must(
        &rt,
        index.put_listed(alloc, &path, &table, &[]),
        "put_listed",
    );
    let (below, own) = (key_below(alloc, path), script_key(alloc, "s"));
    let found = index.get_hashed(&HashedKey::new(&below, SEEDS)).is_some();
    holds(&rt, found, "below its path");
    let found = index.get_hashed(&HashedKey::new(&own, SEEDS)).is_some();
    holds(&rt, !found && !index.has_global(), "and not without it");
    drop(own);
    drop(below);
    drop(table);
    drop(index);
}

#[test]
fn a_tree_is_marked(rt: HostRuntime) {
    let alloc = rt.alloc();
    let mut index = TreeIndex::new(alloc, SEEDS);
    let table = with_script(&rt, alloc);
    index.mark_all(&table);
    index.mark_listed(&[]);
    holds(&rt, !index.may_contain(5), "nothing takes any type");
    let mut filter = BloomFilterU64::new();
    filter.mark(5);
    index.join(&filter);
    holds(&rt, index.may_contain(5), "joined");
    holds(&rt, !index.may_contain(6), "and nothing else");
    drop(table);
    drop(index);
}

#[test]
fn marks_are_made(rt: HostRuntime) {
    let mut filter = BloomFilterU64::new();
    mark_dynamic(&mut filter, None);
    mark_pairs(&mut filter, SEEDS, &[]);
    mark_parts(&mut filter, SEEDS, &[]);
    holds(&rt, filter.is_absent(5), "nothing is marked");
    mark_dynamic(&mut filter, Some(5));
    holds(
        &rt,
        !filter.is_absent(5) && filter.is_absent(6),
        "one hash is",
    );
}

#[test]
fn a_table_grows_by_nothing(rt: HostRuntime) {
    let alloc = rt.alloc();
    let mut table = with_script(&rt, alloc);
    let done = table.grow(alloc, Vec::new(alloc), Vec::new(alloc));
    holds(&rt, done.is_ok() && table.len() == 1, "as before");
    drop(done);
    drop(table);
}
