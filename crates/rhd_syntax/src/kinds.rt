//! Kinds of parameters.

ghost use Rattle.std.specs.Prelude.{◌≡◌, [], length};
ghost use Rattle.rhd_syntax.specs.Bytes.{param_kind_of};
ghost use Rattle.rhd_syntax.specs.Reading.{comes, many, param_kind_at, kinds_at};
ghost use Rattle.rhd_syntax.specs.Answers.{Gives};

use crate::brackets::{after_bracket, comes};
use crate::fault::Stop;
use crate::wants::kind_of;
use crate::words::word_at;
use rhd_value::{TypeTag, Types};
use std::alloc::Global;

/// The kind of parameters that a word says.
#[tactic(auto, unfolding(crate::specs::Bytes::param_kind_of))]
fn param_kind_of(word: &[u8]) -> Option<TypeTag>
    ensures { result ≡ param_kind_of word.now }
{
    if word == b"str".as_slice() {
        return Some(TypeTag::Str);
    }
    if word == b"string".as_slice() {
        return Some(TypeTag::StdString);
    }
    kind_of(word)
}

/// A kind of parameters, and the bytes after its word.
#[tactic(auto, unfolding(crate::specs::Reading::param_kind_at))]
fn param_kind_at(bytes: &[u8]) -> Result<(TypeTag, &[u8]), Stop>
    ensures { Gives (λ x. (x.0, x.1.now)) result (param_kind_at bytes.now) }
{
    let (word, rest) = word_at(bytes)?;
    let Some(kind) = param_kind_of(word) else {
        return Err(Stop::Bad);
    };
    Ok((kind, rest))
}

/// Kinds up to the bracket that ends them, and the bytes from there.
#[tactic(auto, unfolding(crate::specs::Reading::many))]
fn kinds_to_bracket(alloc: Global, bytes: &[u8]) -> Result<(Types, &[u8]), Stop>
    ensures { Gives (λ x. (x.0, x.1.now)) result (many (comes 41) param_kind_at [] (length bytes.now) bytes.now) }
{
    let mut kinds = Types::new(alloc);
    let mut rest = bytes;
    let mut most = bytes.len();
    while most > 0 {
        if comes(rest, b')') {
            return Ok((kinds, rest));
        }
        let (x, after) = param_kind_at(rest)?;
        kinds.push(x)?;
        rest = after;
        most -= 1;
    }
    if comes(rest, b')') {
        Ok((kinds, rest))
    } else {
        Err(Stop::Bad)
    }
}

/// Kinds of parameters between round brackets, and the bytes after them.
#[tactic(auto, unfolding(crate::specs::Reading::kinds_at))]
pub fn kinds_at(alloc: Global, bytes: &[u8]) -> Result<(Types, &[u8]), Stop>
    ensures { Gives (λ x. (x.0, x.1.now)) result (kinds_at bytes.now) }
{
    if !comes(bytes, b'(') {
        return Err(Stop::Bad);
    }
    let (kinds, rest) = kinds_to_bracket(alloc, after_bracket(bytes))?;
    Ok((kinds, after_bracket(rest)))
}
