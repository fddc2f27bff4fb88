//! Kinds: of values, and of the answer that a call wants.

ghost use Rattle.std.specs.Prelude.{◌≡◌, drop};
ghost use Rattle.rhd_syntax.specs.Bytes.{custom_of, value_kind_of, kind_of};
ghost use Rattle.rhd_syntax.specs.Reading.{value_kind_at, want_at};
ghost use Rattle.rhd_syntax.specs.Answers.{Gives};

use crate::brackets::comes;
use crate::fault::Stop;
use crate::numbers::num_of;
use crate::words::word_at;
use rhd_value::TypeTag;

/// The custom kind of `custom` and a number.
#[tactic(auto, unfolding(crate::specs::Bytes::custom_of))]
fn custom_of(word: &[u8]) -> Option<TypeTag>
    ensures { result ≡ custom_of word.now }
{
    let digits = word.strip_prefix(b"custom".as_slice())?;
    Some(TypeTag::Custom(num_of(digits)?))
}

/// The kind of values that a word says.
#[tactic(auto, unfolding(crate::specs::Bytes::value_kind_of))]
fn value_kind_of(word: &[u8]) -> Option<TypeTag>
    ensures { result ≡ value_kind_of word.now }
{
    if word == b"unit".as_slice() {
        return Some(TypeTag::Unit);
    }
    if word == b"bool".as_slice() {
        return Some(TypeTag::Bool);
    }
    if word == b"int".as_slice() {
        return Some(TypeTag::Int);
    }
    if word == b"char".as_slice() {
        return Some(TypeTag::Char);
    }
    if word == b"text".as_slice() {
        return Some(TypeTag::Text);
    }
    if word == b"array".as_slice() {
        return Some(TypeTag::Array);
    }
    if word == b"map".as_slice() {
        return Some(TypeTag::Map);
    }
    if word == b"fn".as_slice() {
        return Some(TypeTag::FnPtr);
    }
    custom_of(word)
}

/// The kind of values that a word says, or any.
#[tactic(auto, unfolding(crate::specs::Bytes::kind_of))]
pub fn kind_of(word: &[u8]) -> Option<TypeTag>
    ensures { result ≡ kind_of word.now }
{
    if word == b"dynamic".as_slice() {
        return Some(TypeTag::Dynamic);
    }
    value_kind_of(word)
}

/// A kind of values, and the bytes after its word.
#[tactic(auto, unfolding(crate::specs::Reading::value_kind_at))]
pub fn value_kind_at(bytes: &[u8]) -> Result<(TypeTag, &[u8]), Stop>
    ensures { Gives (λ x. (x.0, x.1.now)) result (value_kind_at bytes.now) }
{
    let (word, rest) = word_at(bytes)?;
    let Some(kind) = value_kind_of(word) else {
        return Err(Stop::Bad);
    };
    Ok((kind, rest))
}

/// What stands after the first byte of a word.
fn after_colon(word: &[u8]) -> &[u8]
    ensures { result.now ≡ drop 1 word.now }
{
    match word {
        [] => word,
        [_, rest @ ..] => rest,
    }
}

/// The kind that is wanted, where a `:` comes next, and the bytes after it.
#[tactic(auto, unfolding(crate::specs::Reading::want_at))]
pub fn want_at(bytes: &[u8]) -> Result<(Option<TypeTag>, &[u8]), Stop>
    ensures { Gives (λ x. (x.0, x.1.now)) result (want_at bytes.now) }
{
    if !comes(bytes, b':') {
        return Ok((None, bytes));
    }
    let (word, rest) = word_at(bytes)?;
    let Some(kind) = kind_of(after_colon(word)) else {
        return Err(Stop::Bad);
    };
    Ok((Some(kind), rest))
}
