//! Words that begin values.

ghost use Rattle.std.specs.Prelude.{◌≡◌};
ghost use Rattle.rhd_syntax.specs.Reading.{head_of, head_at, integer_at, type_at};
ghost use Rattle.rhd_syntax.specs.Answers.{Gives};

use crate::fault::Stop;
use crate::numbers::{int_of, long_at, num_at};
use crate::words::{run_at, word_at};
use rhd_value::{FnId, FnPtrType};

/// The sorts of pointers to functions.
#[derive(Clone, Copy)]
pub enum Sort {
    /// `fn`.
    Normal,
    /// `fn*`, with a number of parameters.
    Script,
    /// `fn#`, with the number of a native.
    Native,
}

/// What a word begins, where a value begins with it.
#[derive(Clone, Copy)]
pub enum Head {
    /// This truth value, with nothing after the word.
    Truth(bool),
    /// This integer, with nothing after the word.
    Int(i64),
    /// A pointer, with the rest in a bracket.
    Pointer(Sort),
    /// A custom value, with the rest in a bracket.
    Custom,
}

/// What a word begins.
#[tactic(auto, unfolding(crate::specs::Reading::head_of))]
fn head_of(word: &[u8]) -> Option<Head>
    ensures { result ≡ head_of word.now }
{
    if word == b"true".as_slice() {
        return Some(Head::Truth(true));
    }
    if word == b"false".as_slice() {
        return Some(Head::Truth(false));
    }
    if word == b"fn".as_slice() {
        return Some(Head::Pointer(Sort::Normal));
    }
    if word == b"fn*".as_slice() {
        return Some(Head::Pointer(Sort::Script));
    }
    if word == b"fn#".as_slice() {
        return Some(Head::Pointer(Sort::Native));
    }
    if word == b"custom".as_slice() {
        return Some(Head::Custom);
    }
    Some(Head::Int(int_of(word)?))
}

/// A word that begins a value, and the bytes after it.
#[tactic(auto, unfolding(crate::specs::Reading::head_at))]
pub fn head_at(bytes: &[u8]) -> Result<(Head, &[u8]), Stop>
    ensures { Gives (λ x. (x.0, x.1.now)) result (head_at bytes.now) }
{
    let (word, rest) = run_at(bytes)?;
    let Some(head) = head_of(word) else {
        return Err(Stop::Bad);
    };
    Ok((head, rest))
}

/// The next integer, and the bytes after it.
#[tactic(auto, unfolding(crate::specs::Reading::integer_at))]
pub fn integer_at(bytes: &[u8]) -> Result<(i64, &[u8]), Stop>
    ensures { Gives (λ x. (x.0, x.1.now)) result (integer_at bytes.now) }
{
    let (word, rest) = word_at(bytes)?;
    let Some(number) = int_of(word) else {
        return Err(Stop::Bad);
    };
    Ok((number, rest))
}

/// The type of a pointer of a sort, and the bytes after its number.
#[tactic(auto, unfolding(crate::specs::Reading::type_at))]
pub fn type_at(bytes: &[u8], sort: Sort) -> Result<(FnPtrType, &[u8]), Stop>
    ensures { Gives (λ x. (x.0, x.1.now)) result (type_at sort bytes.now) }
{
    match sort {
        Sort::Normal => Ok((FnPtrType::Normal, bytes)),
        Sort::Script => {
            let (num_params, rest) = long_at(bytes)?;
            Ok((FnPtrType::Script { num_params }, rest))
        }
        Sort::Native => {
            let (number, rest) = num_at(bytes)?;
            Ok((FnPtrType::Native(FnId(number)), rest))
        }
    }
}
