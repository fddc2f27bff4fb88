//! Keys of functions.

ghost use Rattle.std.specs.Prelude.{◌++◌, ◌≡◌, OnOk, codes};
ghost use Rattle.std.specs.List.{flat_map};
ghost use Rattle.std.specs.Fmt.{decimal};
ghost use Rattle.rhd_value.specs.Kinds.{type_text};
ghost use Rattle.rhd_print.specs.PrintedKeys.{later_type, types_text, path_name, path_text, key_text};

use crate::quotes::push_number;
use rhd_hash::Key;
use rhd_value::{OutOfMemory, Text, Texts, TypeTag};
use std::alloc::Global;

fn push_type(alloc: Global, tag: TypeTag, out: &mut Vec<u8>) -> Result<(), OutOfMemory>
    ensures { OnOk result (out.new.items ≡ out.old.items ++ type_text tag) }
{
    let text = tag.type_text(alloc)?;
    Ok(out.extend_from_slice(text.as_str().as_bytes())?)
}

/// A type after another one.
fn push_later_type(alloc: Global, tag: TypeTag, out: &mut Vec<u8>) -> Result<(), OutOfMemory>
    ensures { OnOk result (out.new.items ≡ out.old.items ++ later_type tag) }
{
    out.extend_from_slice(b", ")?;
    push_type(alloc, tag, out)
}

fn push_later_types(alloc: Global, tags: &[TypeTag], out: &mut Vec<u8>) -> Result<(), OutOfMemory>
    ensures { OnOk result (out.new.items ≡ out.old.items ++ flat_map later_type tags.now) }
{
    for tag in tags {
        push_later_type(alloc, *tag, out)?;
    }
    Ok(())
}

/// Types, with a comma and a space between two.
#[tactic(auto, unfolding(crate::specs::PrintedKeys::types_text))]
fn push_types(alloc: Global, tags: &[TypeTag], out: &mut Vec<u8>) -> Result<(), OutOfMemory>
    ensures { OnOk result (out.new.items ≡ out.old.items ++ types_text tags.now) }
{
    match tags {
        [] => Ok(()),
        [first, more @ ..] => {
            push_type(alloc, *first, out)?;
            push_later_types(alloc, more, out)
        }
    }
}

#[inline(always)]
fn push_path_name(name: &Text, out: &mut Vec<u8>) -> Result<(), OutOfMemory>
    ensures { OnOk result (out.new.items ≡ out.old.items ++ path_name name.now) }
{
    out.extend_from_slice(name.as_str().as_bytes())?;
    Ok(out.extend_from_slice(b"::")?)
}

#[inline(always)]
pub fn push_path_names(names: &[Text], out: &mut Vec<u8>) -> Result<(), OutOfMemory>
    ensures { OnOk result (out.new.items ≡ out.old.items ++ flat_map path_name names.now) }
{
    for name in names {
        push_path_name(name, out)?;
    }
    Ok(())
}

/// The names of a path after the first, which may be any.
#[tactic(auto, unfolding(crate::specs::PrintedKeys::path_text))]
fn push_path(path: &Option<Texts>, out: &mut Vec<u8>) -> Result<(), OutOfMemory>
    ensures { OnOk result (out.new.items ≡ out.old.items ++ path_text path.now) }
{
    match path {
        None => Ok(()),
        Some(names) => {
            out.extend_from_slice(b"*::")?;
            push_path_names(names.as_slice(), out)
        }
    }
}

/// A name and a number of parameters.
fn push_counted(name: &Text, params: u64, out: &mut Vec<u8>) -> Result<(), OutOfMemory>
    ensures { OnOk result (out.new.items ≡ out.old.items ++ (name.now ++ codes "/" ++ decimal params)) }
{
    out.extend_from_slice(name.as_str().as_bytes())?;
    out.push(b'/')?;
    push_number(params, out)
}

/// A name and the types of the parameters.
fn push_signature(
    alloc: Global,
    name: &Text,
    types: &[TypeTag],
    out: &mut Vec<u8>,
) -> Result<(), OutOfMemory>
    ensures { OnOk result (out.new.items ≡ out.old.items ++ (name.now ++ codes "(" ++ types_text types.now ++ codes ")")) }
{
    out.extend_from_slice(name.as_str().as_bytes())?;
    out.push(b'(')?;
    push_types(alloc, types, out)?;
    Ok(out.push(b')')?)
}

/// Puts a key at the end: a name with the number of parameters, or with their types.
#[tactic(auto, unfolding(crate::specs::PrintedKeys::key_text))]
pub fn push_key(alloc: Global, key: &Key, out: &mut Vec<u8>) -> Result<(), OutOfMemory>
    ensures { OnOk result (out.new.items ≡ out.old.items ++ key_text key.now) }
{
    match key {
        Key::Script { path, name, params } => {
            push_path(path, out)?;
            push_counted(name, *params, out)
        }
        Key::Typed {
            path,
            name,
            params,
            this_type,
        } => {
            push_path(path, out)?;
            out.extend_from_slice(this_type.as_str().as_bytes())?;
            out.push(b'.')?;
            push_counted(name, *params, out)
        }
        Key::Native { path, name, types } => {
            push_path(path, out)?;
            push_signature(alloc, name, types.as_slice(), out)
        }
    }
}
