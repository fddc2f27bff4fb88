//! Names of calls, lists of texts, the type of an object, and whether a native may be called on a constant.

ghost use Rattle.std.specs.Prelude.{◌≡◌, [], length};
ghost use Rattle.rhd_syntax.specs.Reading.{name_at, comes, wording_at, many, texts_at, this_at, purity_at};
ghost use Rattle.rhd_syntax.specs.Answers.{Gives};

use crate::brackets::{after_bracket, comes};
use crate::fault::Stop;
use crate::quoted::wording_at;
use crate::words::flag_at;
use rhd_value::{Text, Texts};
use std::alloc::Global;

/// The name of a call, and the bytes after it. One that begins with `:` is quoted.
#[tactic(auto, unfolding(crate::specs::Reading::name_at))]
pub fn name_at(alloc: Global, bytes: &[u8]) -> Result<(Text, &[u8]), Stop>
    ensures { Gives (λ x. (x.0, x.1.now)) result (name_at bytes.now) }
{
    if comes(bytes, b':') {
        return Err(Stop::Bad);
    }
    wording_at(alloc, bytes)
}

/// Texts up to the bracket that ends them, and the bytes from there.
#[tactic(auto, unfolding(crate::specs::Reading::many))]
fn texts_to_bracket(alloc: Global, bytes: &[u8]) -> Result<(Texts, &[u8]), Stop>
    ensures { Gives (λ x. (x.0, x.1.now)) result (many (comes 41) wording_at [] (length bytes.now) bytes.now) }
{
    let mut texts = Texts::new(alloc);
    let mut rest = bytes;
    let mut most = bytes.len();
    while most > 0 {
        if comes(rest, b')') {
            return Ok((texts, rest));
        }
        let (x, after) = wording_at(alloc, rest)?;
        texts.push(x)?;
        rest = after;
        most -= 1;
    }
    if comes(rest, b')') {
        Ok((texts, rest))
    } else {
        Err(Stop::Bad)
    }
}

/// Texts between round brackets, and the bytes after them.
#[tactic(auto, unfolding(crate::specs::Reading::texts_at))]
pub fn texts_at(alloc: Global, bytes: &[u8]) -> Result<(Texts, &[u8]), Stop>
    ensures { Gives (λ x. (x.0, x.1.now)) result (texts_at bytes.now) }
{
    if !comes(bytes, b'(') {
        return Err(Stop::Bad);
    }
    let (texts, rest) = texts_to_bracket(alloc, after_bracket(bytes))?;
    Ok((texts, after_bracket(rest)))
}

/// The text after `this`, where that is the next word, and the bytes after it.
#[tactic(auto, unfolding(crate::specs::Reading::this_at))]
pub fn this_at(alloc: Global, bytes: &[u8]) -> Result<(Option<Text>, &[u8]), Stop>
    ensures { Gives (λ x. (x.0, x.1.now)) result (this_at bytes.now) }
{
    let (found, rest) = flag_at(bytes, b"this");
    if !found {
        return Ok((None, bytes));
    }
    let (text, rest) = wording_at(alloc, rest)?;
    Ok((Some(text), rest))
}

/// Whether `pure` or `impure` is the next word, and the bytes after it if one is.
#[tactic(auto, unfolding(crate::specs::Reading::purity_at))]
pub fn purity_at(bytes: &[u8]) -> (Option<bool>, &[u8])
    ensures { (result.0, result.1.now) ≡ purity_at bytes.now }
{
    let (pure, rest) = flag_at(bytes, b"pure");
    if pure {
        return (Some(true), rest);
    }
    let (impure, rest) = flag_at(bytes, b"impure");
    if impure {
        return (Some(false), rest);
    }
    (None, bytes)
}
