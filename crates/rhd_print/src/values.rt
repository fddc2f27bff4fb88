//! Values as they are written.

ghost use Rattle.std.specs.Prelude.{◌≡◌, ◌++◌, ◌∷◌, [], OnOk, OnErr, if◌then◌else◌, codes};
ghost use Rattle.rhd_value.specs.Tree.{custom, pointer, items_of, members_of};
ghost use Rattle.rhd_value.specs.Views.{kind_view};
ghost use Rattle.rhd_print.specs.PrintedTexts.{quoted};
ghost use Rattle.rhd_print.specs.PrintedValues.{mark_signs, pointer_head, spelled_type, spelled, spelled_kind, spelled_items, spaced_items, spelled_members};

use crate::quotes::{push_char, push_int, push_number, push_quoted};
use rhd_value::{Dynamic, Entries, FnPtr, FnPtrType, Marks, OutOfMemory, Text, Value};
use std::alloc::Global;

/// Puts a byte at the end, if something holds.
fn push_sign(holds: bool, sign: u8, out: &mut Vec<u8>) -> Result<(), OutOfMemory>
    ensures { OnOk result (out.new.items ≡ out.old.items ++ (if holds then sign ∷ [] else [])) }
{
    if holds {
        out.push(sign)?;
    }
    Ok(())
}

#[tactic(auto, unfolding(crate::specs::PrintedValues::mark_signs))]
fn push_marks(marks: &Marks, out: &mut Vec<u8>) -> Result<(), OutOfMemory>
    ensures { OnOk result (out.new.items ≡ out.old.items ++ mark_signs marks.now) }
{
    push_sign(marks.read_only, b'!', out)?;
    push_sign(marks.shared, b'%', out)?;
    push_sign(marks.locked, b'~', out)
}

fn push_bool(value: bool, out: &mut Vec<u8>) -> Result<(), OutOfMemory>
    ensures { OnOk result (out.new.items ≡ out.old.items ++ (if value then codes "true" else codes "false")) }
{
    match value {
        true => Ok(out.extend_from_slice(b"true")?),
        false => Ok(out.extend_from_slice(b"false")?),
    }
}

fn push_pointer_head(typ: FnPtrType, out: &mut Vec<u8>) -> Result<(), OutOfMemory>
    ensures { OnOk result (out.new.items ≡ out.old.items ++ pointer_head typ) }
{
    match typ {
        FnPtrType::Normal => Ok(out.extend_from_slice(b"fn(")?),
        FnPtrType::Script { .. } => Ok(out.extend_from_slice(b"fn*(")?),
        FnPtrType::Native(_) => Ok(out.extend_from_slice(b"fn#(")?),
    }
}

fn push_pointer_number(typ: FnPtrType, out: &mut Vec<u8>) -> Result<(), OutOfMemory>
    ensures { OnOk result (out.new.items ≡ out.old.items ++ spelled_type typ) }
{
    match typ {
        FnPtrType::Normal => Ok(()),
        FnPtrType::Script { num_params } => {
            out.push(b' ')?;
            push_number(num_params, out)
        }
        FnPtrType::Native(id) => {
            out.push(b' ')?;
            push_number(u64::from(id.0), out)
        }
    }
}

fn push_custom(number: u32, payload: i64, out: &mut Vec<u8>) -> Result<(), OutOfMemory>
    ensures { OnOk result (out.new.items ≡ out.old.items ++ spelled_kind (custom number payload)) }
{
    out.extend_from_slice(b"custom(")?;
    push_number(u64::from(number), out)?;
    out.push(b' ')?;
    push_int(payload, out)?;
    Ok(out.push(b')')?)
}

/// Puts a value with its marks at the end.
#[cycle(push_value)]
pub fn push_value(alloc: Global, value: &Dynamic, out: &mut Vec<u8>) -> Result<(), OutOfMemory>
    ensures { OnOk result (out.new.items ≡ out.old.items ++ spelled value.now) }
{
    push_marks(&value.marks, out)?;
    push_kind(alloc, &value.value, out)
}

/// Puts a value without its marks at the end.
#[cycle(push_value)]
fn push_kind(alloc: Global, value: &Value, out: &mut Vec<u8>) -> Result<(), OutOfMemory>
    ensures { OnOk result (out.new.items ≡ out.old.items ++ spelled_kind (kind_view value.now)) }
{
    match value {
        Value::Unit => Ok(out.extend_from_slice(b"()")?),
        Value::Bool(value) => push_bool(*value, out),
        Value::Int(value) => push_int(*value, out),
        Value::Char(value) => push_char(alloc, *value, out),
        Value::Text(text) => push_quoted(text.as_str(), out),
        Value::Array(values) => {
            out.push(b'[')?;
            push_values(alloc, values.as_slice(), out)?;
            Ok(out.push(b']')?)
        }
        Value::Map(entries) => {
            out.push(b'{')?;
            push_entries(alloc, entries, out)?;
            Ok(out.push(b'}')?)
        }
        Value::FnPtr(ptr) => push_pointer(alloc, ptr, out),
        Value::Custom(number, payload) => push_custom(*number, *payload, out),
    }
}

#[cycle(push_value)]
fn push_pointer(alloc: Global, ptr: &FnPtr, out: &mut Vec<u8>) -> Result<(), OutOfMemory>
    ensures { OnOk result (out.new.items ≡ out.old.items ++ spelled_kind (pointer ptr.now.name (items_of ptr.now.curry) ptr.now.typ)) }
{
    push_pointer_head(ptr.typ(), out)?;
    push_quoted(ptr.fn_name().as_str(), out)?;
    push_pointer_number(ptr.typ(), out)?;
    push_spaced(alloc, ptr.curry().as_slice(), out)?;
    Ok(out.push(b')')?)
}

/// Puts values at the end, with a space between two.
#[cycle(push_value)]
#[tactic(auto, using(crate::proofs::PrintingWeights::weight_item))]
fn push_values(alloc: Global, values: &[Dynamic], out: &mut Vec<u8>) -> Result<(), OutOfMemory>
    ensures { OnOk result (out.new.items ≡ out.old.items ++ spelled_items (items_of values.now)) }
{
    match values {
        [] => Ok(()),
        [first, more @ ..] => {
            push_value(alloc, first, out)?;
            push_spaced(alloc, more, out)
        }
    }
}

/// Puts values at the end, with a space before each.
#[cycle(push_value)]
#[tactic(auto, using(crate::proofs::PrintingWeights::weight_item))]
fn push_spaced(alloc: Global, values: &[Dynamic], out: &mut Vec<u8>) -> Result<(), OutOfMemory>
    ensures { OnOk result (out.new.items ≡ out.old.items ++ spaced_items (items_of values.now)) }
{
    for value in values {
        out.push(b' ')?;
        push_value(alloc, value, out)?;
    }
    Ok(())
}

/// Puts names with their values at the end, with a space between two.
#[cycle(push_value)]
#[tactic(auto, using(crate::proofs::PrintingWeights::weight_entry))]
fn push_entries(alloc: Global, entries: &Entries, out: &mut Vec<u8>) -> Result<(), OutOfMemory>
    ensures { OnOk result (out.new.items ≡ out.old.items ++ spelled_members (members_of entries.now)) }
{
    let mut later = false;
    for (name, value) in entries.iter() {
        push_sign(later, b' ', out)?;
        push_entry(alloc, name, value, out)?;
        later = true;
    }
    Ok(())
}

/// Puts a name with its value at the end.
#[cycle(push_value)]
fn push_entry(
    alloc: Global,
    name: &Text,
    value: &Dynamic,
    out: &mut Vec<u8>,
) -> Result<(), OutOfMemory>
    ensures { OnOk result (out.new.items ≡ out.old.items ++ (quoted name.now ++ codes " " ++ spelled value.now)) }
{
    push_quoted(name.as_str(), out)?;
    out.push(b' ')?;
    push_value(alloc, value, out)
}

/// Puts a value at the end, as it is written: its marks, and then its kind in one line.
pub fn print_value(alloc: Global, value: &Dynamic, out: &mut Vec<u8>) -> Result<(), OutOfMemory>
    ensures ok { OnOk result (out.new.items ≡ out.old.items ++ spelled value.now) }
    ensures err { OnErr result (out.new.items ≡ out.old.items) }
{
    let mut text = Vec::new(alloc);
    push_value(alloc, value, &mut text)?;
    Ok(out.extend_from_slice(&text)?)
}
