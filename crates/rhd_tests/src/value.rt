//! Values, lists and maps of them, pointers to functions, and types.

use crate::given::{int, is_int, is_text, one, text};
use crate::must::{holds, must};
use rhd_value::{
    Dynamic, Entries, FnPtr, FnPtrType, Text, TypeTag, Types, Value, Values, map_type,
};
use std::alloc::Global;
use std::collections::BTreeMap;
use std::process::Abort;

#[test]
fn values_are_read(rt: HostRuntime) {
    let truth = Dynamic::from(Value::Bool(true));
    holds(&rt, truth.as_bool() == Some(true), "a truth value");
    holds(&rt, !truth.is_read_only(), "no constant");
    holds(&rt, !truth.is_shared() && !truth.is_locked(), "no mark");
    drop(truth);
    let word = Dynamic::from(Value::Text(text(rt.alloc(), "a")));
    holds(&rt, is_text(word.as_text(), "a"), "a text");
    drop(word);
}

/// Whether a text and a copy of it to which a letter is put are this word, without and with the letter.
fn grows(rt: &impl Abort, alloc: Global, made: Text, word: &str, longer: &str) {
    holds(rt, made.as_str() == word && made.len() == word.len(), word);
    let mut copy = must(rt, made.dup(alloc), "a text is copied");
    must(rt, copy.push("z"), "a letter is put");
    holds(rt, copy.as_str() == longer && copy > made, longer);
    holds(rt, made.as_str() == word, "the other is as before");
    drop(copy);
    drop(made);
}

#[test]
fn texts_of_any_length_are_told_apart(rt: HostRuntime) {
    let alloc = rt.alloc();
    let words = [
        ("", "z"),
        ("abcdefg", "abcdefgz"),
        ("abcdefgh", "abcdefghz"),
        ("abcdefghi", "abcdefghiz"),
    ];
    for (word, longer) in words {
        let made = must(&rt, Text::from_str(alloc, word), "from_str");
        grows(&rt, alloc, made, word, longer);
        let string = must(&rt, String::from_str(alloc, word), "a string");
        let made = must(&rt, Text::from_string(alloc, string), "from_string");
        grows(&rt, alloc, made, word, longer);
    }
}

#[test]
fn lists_of_types_are_changed(rt: HostRuntime) {
    let alloc = rt.alloc();
    let tags = [TypeTag::Int; 5];
    let mut types = must(&rt, Types::from_slice(alloc, &tags), "five types");
    types.set(4, TypeTag::Bool);
    types.set(5, TypeTag::Char);
    holds(&rt, types.len() == 5, "none is put in");
    holds(&rt, types.get(3) == Some(TypeTag::Int), "as before");
    holds(&rt, types.get(4) == Some(TypeTag::Bool), "changed");
    drop(types);
}

#[test]
fn values_are_taken_out(rt: HostRuntime) {
    let value = int(7).into_value();
    holds(&rt, matches!(&value, Value::Int(7)), "the number");
    drop(value);
}

#[test]
fn types_are_mapped(rt: HostRuntime) {
    let shown = TypeTag::Text.type_text(rt.alloc());
    let shown = must(&rt, shown, "memory");
    holds(&rt, shown.as_str() == "ImmutableString", "type_text");
    let (mapped, kept) = (map_type(true, TypeTag::Str), map_type(false, TypeTag::Str));
    holds(&rt, mapped == TypeTag::Text, "a text");
    holds(&rt, kept == TypeTag::Str, "as it is");
}

/// A pointer to `f` that puts 1 before the arguments of a call.
fn pointer(rt: &impl Abort, alloc: Global) -> FnPtr {
    let curry = one(alloc, int(1));
    let made = FnPtr::from_parts(alloc, text(alloc, "f"), curry, FnPtrType::Normal);
    must(rt, made, "a pointer")
}

#[test]
fn pointers_are_read(rt: HostRuntime) {
    let ptr = pointer(&rt, rt.alloc());
    holds(&rt, ptr.fn_name().as_str() == "f", "fn_name");
    holds(&rt, ptr.typ() == FnPtrType::Normal, "typ");
    holds(&rt, !ptr.is_anonymous(), "a name of its own");
    assert!(&rt; ptr.is_curried(), "is_curried");
    holds(&rt, is_int(Some(ptr.at(0)), 1), "at");
    for value in ptr.iter_curry() {
        holds(&rt, is_int(Some(value), 1), "iter_curry");
    }
    drop(ptr);
}

#[test]
fn pointers_are_changed(rt: HostRuntime) {
    let alloc = rt.alloc();
    let mut ptr = pointer(&rt, alloc);
    for value in ptr.iter_curry_mut() {
        *value = int(2);
    }
    assert!(&rt; ptr.is_curried(), "as many values");
    holds(&rt, is_int(Some(ptr.at(0)), 2), "iter_curry_mut");
    *ptr.at_mut(0) = int(3);
    holds(&rt, is_int(ptr.curry().get(0), 3), "at_mut");
    ptr.set_curry(Values::new(alloc));
    holds(&rt, !ptr.is_curried(), "set_curry");
    drop(ptr);
}

#[test]
fn lists_are_changed(rt: HostRuntime) {
    let mut values = one(rt.alloc(), int(1));
    for value in values.iter_mut() {
        *value = int(2);
    }
    holds(&rt, is_int(values.get(0), 2), "iter_mut");
    if let Some(value) = values.get_mut(0) {
        *value = int(3);
    }
    holds(&rt, is_int(values.get(0), 3), "get_mut");
    let (first, rest) = values.split_first();
    holds(&rt, is_int(first.as_ref(), 3), "split_first");
    holds(&rt, rest.len() == 0, "no other");
    drop(first);
    drop(rest);
}

/// A map of a value under the name `a`.
fn map(rt: &impl Abort, alloc: Global) -> BTreeMap<Text, Dynamic> {
    let mut map = BTreeMap::new(alloc);
    let put = map.insert(text(alloc, "a"), int(1));
    holds(rt, put.is_ok(), "put in");
    map
}

#[test]
fn maps_become_entries(rt: HostRuntime) {
    let alloc = rt.alloc();
    let entries = Entries::from_map(map(&rt, alloc));
    let a = text(alloc, "a");
    holds(&rt, is_int(entries.get(&a), 1), "from_map");
    let map = entries.into_map();
    holds(&rt, is_int(map.get(&a), 1), "into_map");
    drop(map);
}
