//! Values, and how the fault of a text is shown.

use crate::tests::{holds, int, one, text_of};
use rhd_text::{TextFault, print_value, read_value};
use rhd_value::{
    Dynamic, Entries, EvalAltResult, FnPtr, FnPtrType, Text, Texts, TypeTag, Types, Value, Values,
};
use std::alloc::Global;
use std::process::Abort;
use std::test::Fail;

#[test]
fn texts_and_types_are_made(rt: HostRuntime) {
    let alloc = rt.alloc();
    let mut text = Text::new(alloc);
    holds(&rt, text.push("ab").is_ok(), "a text gets longer");
    holds(&rt, text.dup(alloc).is_ok(), "a text is copied");
    let mut texts = Texts::new(alloc);
    holds(&rt, texts.push(text).is_ok(), "a list of texts gets longer");
    holds(&rt, texts.dup(alloc).is_ok(), "a list of texts is copied");
    let mut types = Types::new(alloc);
    holds(&rt, types.push(TypeTag::Int).is_ok(), "types get longer");
    holds(&rt, types.dup(alloc).is_ok(), "types are copied");
    let tags = [TypeTag::Unit];
    holds(&rt, Types::from_slice(alloc, &tags).is_ok(), "types");
}

/// Calls on a list of values.
fn check_list(rt: &impl Abort, alloc: Global) {
    let mut values = Values::new(alloc);
    holds(rt, values.push(int(1)).is_ok(), "a list gets longer");
    holds(rt, values.push_first(int(0)).is_ok(), "a value goes first");
    holds(rt, values.dup(alloc).is_ok(), "a list is copied");
    let more = one(alloc, int(2));
    holds(rt, values.append(more).is_ok(), "a list goes last");
    holds(rt, Values::with_capacity(alloc, 3).is_ok(), "room");
}

/// Calls on a map.
fn check_map(rt: &impl Abort, alloc: Global) {
    let mut entries = Entries::new(alloc);
    let name = text_of(alloc, "a");
    holds(rt, entries.insert(name, int(1)).is_ok(), "an entry");
    holds(rt, entries.dup(alloc).is_ok(), "a map is copied");
}

/// Calls on a pointer.
fn check_pointer(rt: &impl Abort, alloc: Global) {
    let name = text_of(alloc, "f");
    let Ok(made) = FnPtr::from_parts(alloc, name, Values::new(alloc), FnPtrType::Normal) else {
        panic!(rt; "a pointer");
    };
    let mut ptr = made;
    holds(rt, ptr.add_curry(alloc, int(1)).is_ok(), "a value more");
    let more = one(alloc, int(2));
    holds(rt, ptr.extend(alloc, more).is_ok(), "values more");
    holds(rt, ptr.dup(alloc).is_ok(), "a pointer is copied");
}

#[test]
fn lists_maps_and_pointers_are_made(rt: HostRuntime) {
    let alloc = rt.alloc();
    check_list(&rt, alloc);
    check_map(&rt, alloc);
    check_pointer(&rt, alloc);
}

#[test]
fn values_are_copied_named_and_printed(rt: HostRuntime) {
    let alloc = rt.alloc();
    let value = Dynamic::from(Value::Array(one(alloc, int(1))));
    holds(&rt, value.dup(alloc).is_ok(), "a value is copied");
    holds(&rt, value.copy(alloc).is_ok(), "a copy isn't read-only");
    holds(&rt, value.type_name(alloc).is_ok(), "a type's name");
    let mut out = Vec::new(alloc);
    holds(&rt, print_value(alloc, &value, &mut out).is_ok(), "printed");
    let read = read_value(alloc, b"1");
    holds(&rt, matches!(read, Ok(Some(_))), "a value is read");
    let fault = EvalAltResult::ErrorRuntime(text_of(alloc, "no"), rhd_value::Position::NONE);
    holds(&rt, fault.dup(alloc).is_ok(), "a fault is copied");
}

#[test]
fn faults_of_texts_are_shown(rt: HostRuntime) -> Result<(), Fail> {
    let alloc = rt.alloc();
    let bad = format!(in alloc; "{}", TextFault::BadLine(4294967295))?;
    assert_eq!(rt;
        bad.as_str(),
        "line 4294967295 is no line of a session text"
    );
    let full = format!(in alloc; "{}", TextFault::OutOfMemory)?;
    assert_eq!(rt; full.as_str(), "out of memory");
    Ok(())
}
