//! Values with their marks.

ghost use Rattle.std.specs.Prelude.{◌≡◌, ◌<◌, [], length, drop, Some, None, if◌then◌else◌};
ghost use Rattle.rhd_syntax.specs.Bytes.{begins};
ghost use Rattle.rhd_value.specs.Views.{kind_view};
ghost use Rattle.rhd_syntax.specs.Maps.{put_new};
ghost use Rattle.rhd_syntax.specs.Reading.{comes, mark_at, marks_at, many, only_character, character_at, unit_at, custom_at, inside, entries_at, members_at, items_at, pointer_at, headed_at, kind_at, tree_at, value_at};
ghost use Rattle.rhd_syntax.specs.Answers.{Gives, StepGives};
ghost use Rattle.std.specs.Str.{chars};

use crate::brackets::{after_bracket, after_first, begins, comes};
use crate::fault::Stop;
use crate::heads::{Head, Sort, head_at, integer_at, type_at};
use crate::numbers::num_at;
use crate::quoted::{quoted_at, wording_at};
use crate::words::skip_blanks;
use rhd_value::{Dynamic, Entries, FnPtr, Marks, Text, Value, Values};
use std::alloc::Global;

/// Whether a mark comes next, and the bytes after it.
fn mark_at(bytes: &[u8], mark: u8) -> (bool, &[u8])
    requires { 0 < mark }
    ensures { (result.0, result.1.now) ≡ mark_at mark bytes.now }
{
    if begins(bytes, mark) {
        (true, after_first(bytes))
    } else {
        (false, bytes)
    }
}

/// The marks of a value, and the bytes after them.
#[tactic(auto, unfolding(crate::specs::Reading::marks_at))]
fn marks_at(bytes: &[u8]) -> (Marks, &[u8])
    ensures { (result.0, result.1.now) ≡ marks_at bytes.now }
{
    let (read_only, rest) = mark_at(bytes, b'!');
    let (shared, rest) = mark_at(rest, b'%');
    let (locked, rest) = mark_at(rest, b'~');
    let marks = Marks {
        read_only,
        shared,
        locked,
    };
    (marks, rest)
}

/// The only character of a text.
fn only_character(text: &str) -> Option<char>
    ensures { result ≡ only_character (chars text.now) }
{
    let mut chars = text.chars();
    let first = chars.next()?;
    match chars.next() {
        Some(_) => None,
        None => Some(first),
    }
}

/// The rest of a quoted character, after its first byte, and the bytes after it.
#[tactic(auto, unfolding(crate::specs::Reading::character_at))]
fn character_at(alloc: Global, bytes: &[u8]) -> Result<(char, &[u8]), Stop>
    ensures { Gives (λ x. (x.0, x.1.now)) result (character_at bytes.now) }
{
    let (text, rest) = quoted_at(alloc, bytes, b'\'')?;
    let Some(c) = only_character(text.as_str()) else {
        return Err(Stop::Bad);
    };
    Ok((c, rest))
}

/// The rest of `()`, after its first byte, and the bytes after it.
fn unit_at(bytes: &[u8]) -> Result<(Value, &[u8]), Stop>
    ensures { Gives (λ x. (kind_view x.0, x.1.now)) result (unit_at bytes.now) }
{
    if !comes(bytes, b')') {
        return Err(Stop::Bad);
    }
    Ok((Value::Unit, after_bracket(bytes)))
}

/// What stands in the round bracket that comes next.
fn bracketed(bytes: &[u8]) -> Result<&[u8], Stop>
    ensures { Gives (λ rest. rest.now) result (if begins 40 bytes.now then Some (drop 1 bytes.now) else None) }
{
    if !begins(bytes, b'(') {
        return Err(Stop::Bad);
    }
    Ok(after_first(bytes))
}

/// The rest of a custom value, after its first bracket, and the bytes after it.
#[tactic(auto, unfolding(crate::specs::Reading::custom_at))]
fn custom_at(bytes: &[u8]) -> Result<(Value, &[u8]), Stop>
    ensures { Gives (λ x. (kind_view x.0, x.1.now)) result (custom_at bytes.now) }
{
    let (number, rest) = num_at(bytes)?;
    let (payload, rest) = integer_at(rest)?;
    if !comes(rest, b')') {
        return Err(Stop::Bad);
    }
    Ok((Value::Custom(number, payload), after_bracket(rest)))
}

/// Puts an entry into a map, unless its name stands there already.
fn put_new(entries: &mut Entries, name: Text, value: Dynamic) -> Result<(), Stop>
    ensures { StepGives result entries.old entries.new (put_new (name, value) entries.old) }
{
    if entries.get(&name).is_some() {
        return Err(Stop::Bad);
    }
    Ok(entries.insert(name, value)?)
}

/// The next value, at most `depth` deep, and the bytes after it.
#[cycle(values)]
#[tactic(auto, unfolding(crate::specs::Reading::tree_at))]
fn tree_at(alloc: Global, bytes: &[u8], depth: u32) -> Result<(Dynamic, &[u8]), Stop>
    ensures { Gives (λ x. (x.0, x.1.now)) result (tree_at depth bytes.now) }
{
    if depth == 0 {
        return Err(Stop::Bad);
    }
    let (marks, rest) = marks_at(skip_blanks(bytes));
    let (value, rest) = kind_at(alloc, rest, depth - 1)?;
    Ok((Dynamic { value, marks }, rest))
}

/// A value whose marks are read, with values at most `depth` deep inside it, and the bytes after it.
#[cycle(values)]
#[tactic(auto, unfolding(crate::specs::Reading::kind_at))]
fn kind_at(alloc: Global, bytes: &[u8], depth: u32) -> Result<(Value, &[u8]), Stop>
    ensures { Gives (λ x. (kind_view x.0, x.1.now)) result (kind_at (tree_at depth) bytes.now) }
{
    if begins(bytes, b'(') {
        return unit_at(after_first(bytes));
    }
    if begins(bytes, b'"') {
        let (text, rest) = quoted_at(alloc, after_first(bytes), b'"')?;
        return Ok((Value::Text(text), rest));
    }
    if begins(bytes, b'\'') {
        let (c, rest) = character_at(alloc, after_first(bytes))?;
        return Ok((Value::Char(c), rest));
    }
    if begins(bytes, b'[') {
        let (items, rest) = items_at(alloc, after_first(bytes), depth, b']')?;
        return Ok((Value::Array(items), rest));
    }
    if begins(bytes, b'{') {
        let (entries, rest) = members_at(alloc, after_first(bytes), depth)?;
        return Ok((Value::Map(entries), rest));
    }
    let (head, rest) = head_at(bytes)?;
    headed_at(alloc, rest, depth, head)
}

/// The rest of a value that begins with a word, and the bytes after it.
#[cycle(values)]
#[tactic(auto, unfolding(crate::specs::Reading::headed_at))]
fn headed_at(alloc: Global, bytes: &[u8], depth: u32, head: Head) -> Result<(Value, &[u8]), Stop>
    ensures { Gives (λ x. (kind_view x.0, x.1.now)) result (headed_at (tree_at depth) head bytes.now) }
{
    match head {
        Head::Truth(value) => Ok((Value::Bool(value), bytes)),
        Head::Int(value) => Ok((Value::Int(value), bytes)),
        Head::Pointer(sort) => pointer_at(alloc, bracketed(bytes)?, depth, sort),
        Head::Custom => custom_at(bracketed(bytes)?),
    }
}

/// The rest of a pointer, after its first bracket, and the bytes after it.
#[cycle(values)]
#[tactic(auto, unfolding(crate::specs::Reading::pointer_at))]
fn pointer_at(alloc: Global, bytes: &[u8], depth: u32, sort: Sort) -> Result<(Value, &[u8]), Stop>
    ensures { Gives (λ x. (kind_view x.0, x.1.now)) result (pointer_at (tree_at depth) sort bytes.now) }
{
    let (name, rest) = wording_at(alloc, bytes)?;
    let (typ, rest) = type_at(rest, sort)?;
    let (curry, rest) = items_at(alloc, rest, depth, b')')?;
    Ok((
        Value::FnPtr(FnPtr::from_parts(alloc, name, curry, typ)?),
        rest,
    ))
}

/// Values and the bracket that ends them, and the bytes after it.
#[cycle(values)]
#[tactic(auto, unfolding(crate::specs::Reading::items_at))]
#[inline(always)]
fn items_at(alloc: Global, bytes: &[u8], depth: u32, close: u8) -> Result<(Values, &[u8]), Stop>
    requires { 0 < close }
    ensures { Gives (λ x. (x.0, x.1.now)) result (items_at close (tree_at depth) bytes.now) }
{
    let (items, rest) = items_to(alloc, bytes, depth, close)?;
    Ok((items, after_bracket(rest)))
}

/// Values up to the bracket that ends them, and the bytes from there.
#[cycle(values)]
#[tactic(auto, unfolding(crate::specs::Reading::many))]
fn items_to(alloc: Global, bytes: &[u8], depth: u32, close: u8) -> Result<(Values, &[u8]), Stop>
    requires { 0 < close }
    ensures { Gives (λ x. (x.0, x.1.now)) result (many (comes close) (tree_at depth) [] (length bytes.now) bytes.now) }
{
    let mut items = Values::new(alloc);
    let mut rest = bytes;
    let mut most = bytes.len();
    while most > 0 {
        if comes(rest, close) {
            return Ok((items, rest));
        }
        let (x, after) = tree_at(alloc, rest, depth)?;
        items.push(x)?;
        rest = after;
        most -= 1;
    }
    if comes(rest, close) {
        Ok((items, rest))
    } else {
        Err(Stop::Bad)
    }
}

/// The rest of a map, after its first bracket, and the bytes after it.
#[cycle(values)]
#[tactic(auto, unfolding(crate::specs::Reading::members_at))]
fn members_at(alloc: Global, bytes: &[u8], depth: u32) -> Result<(Entries, &[u8]), Stop>
    ensures { Gives (λ x. (x.0, x.1.now)) result (members_at (tree_at depth) bytes.now) }
{
    let (entries, rest) = entries_to(alloc, bytes, depth)?;
    Ok((entries, after_bracket(rest)))
}

/// Entries up to the bracket that ends them, and the bytes from there.
#[cycle(values)]
#[tactic(auto, unfolding(crate::specs::Reading::entries_at))]
fn entries_to(alloc: Global, bytes: &[u8], depth: u32) -> Result<(Entries, &[u8]), Stop>
    ensures { Gives (λ x. (x.0, x.1.now)) result (entries_at (tree_at depth) [] (length bytes.now) bytes.now) }
{
    let mut entries = Entries::new(alloc);
    let mut rest = bytes;
    let mut most = bytes.len();
    while most > 0 {
        if comes(rest, b'}') {
            return Ok((entries, rest));
        }
        let (name, after) = wording_at(alloc, rest)?;
        let (value, after) = tree_at(alloc, after, depth)?;
        put_new(&mut entries, name, value)?;
        rest = after;
        most -= 1;
    }
    if comes(rest, b'}') {
        Ok((entries, rest))
    } else {
        Err(Stop::Bad)
    }
}

/// The next value, and the bytes after it.
pub fn value_at(alloc: Global, bytes: &[u8]) -> Result<(Dynamic, &[u8]), Stop>
    ensures { Gives (λ x. (x.0, x.1.now)) result (value_at bytes.now) }
{
    tree_at(alloc, bytes, 64)
}
