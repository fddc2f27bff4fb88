//! Texts, quoted or not.

ghost use Rattle.std.specs.Prelude.{◌≡◌, ◌≤◌, false, length, IfOk};
ghost use Rattle.std.specs.List.{prefix_len};
ghost use Rattle.rhd_syntax.specs.Runs.{is_letter, with_text};
ghost use Rattle.rhd_syntax.specs.Bytes.{begins, unescaped};
ghost use Rattle.rhd_syntax.specs.Reading.{text_at, text_of, quoted_at, plain_text_at, text_here, wording_at};
ghost use Rattle.rhd_syntax.specs.Answers.{Gives};

use crate::brackets::{after_first, begins};
use crate::fault::Stop;
use crate::words::{may_end, run_at, skip_blanks};
use rhd_value::{OutOfMemory, Text};
use std::alloc::Global;

/// The text that these bytes are, where they are UTF-8, lent.
fn str_of(word: &[u8]) -> Result<&str, Stop>
    ensures { Gives (λ x. x.now) result (text_of word.now) }
{
    match str::from_utf8(word) {
        Ok(text) => Ok(text),
        Err(_) => Err(Stop::Bad),
    }
}

/// The text of these bytes, where they are UTF-8.
pub fn text_of(alloc: Global, word: &[u8]) -> Result<Text, Stop>
    ensures { Gives (λ x. x) result (text_of word.now) }
{
    match str_of(word) {
        Ok(text) => Ok(Text::from_str(alloc, text)?),
        Err(stop) => Err(stop),
    }
}

/// The text that these bytes are, where they are UTF-8.
fn text_from(alloc: Global, bytes: Vec<u8>) -> Result<Text, Stop>
    ensures { Gives (λ x. x) result (text_of bytes.items) }
{
    match String::from_utf8(bytes) {
        Ok(text) => Ok(Text::from_string(alloc, text)?),
        Err(_) => Err(Stop::Bad),
    }
}

/// The byte that a backslash and this byte stand for.
fn unescaped(b: u8) -> Option<u8>
    ensures { result ≡ unescaped b }
{
    match b {
        b'\\' => Some(b'\\'),
        b'"' => Some(b'"'),
        b'\'' => Some(b'\''),
        b'n' => Some(b'\n'),
        b't' => Some(b'\t'),
        b'r' => Some(b'\r'),
        _ => None,
    }
}

/// Whether a byte between two of these quotation marks stands for itself.
fn is_letter(quote: u8, b: u8) -> bool
    ensures { result ≡ is_letter quote b }
{
    b != quote && b != b'\\'
}

fn letters_len(bytes: &[u8], quote: u8) -> usize
    ensures length { result ≡ prefix_len (is_letter quote) bytes.now }
    ensures within { result ≤ length bytes.now }
{
    bytes.iter().take_while(|b| is_letter(quote, **b)).count()
}

/// Puts the bytes at the front that stand for themselves at the end of a text, and gives the
/// others.
#[inline(always)]
fn push_letters<'a>(bytes: &'a [u8], quote: u8, text: &mut Vec<u8>) -> Result<&'a [u8], OutOfMemory>
    ensures same { IfOk result (λ rest. with_text text.new.items (text_at quote false rest.now) ≡ with_text text.old.items (text_at quote false bytes.now)) }
    ensures within { IfOk result (λ rest. length rest.now ≤ length bytes.now) }
{
    let (letters, rest) = bytes.split_at(letters_len(bytes, quote));
    text.extend_from_slice(letters)?;
    Ok(rest)
}

/// The bytes of a text up to the quotation mark that ends it, and the bytes after that.
fn text_at(alloc: Global, bytes: &[u8], quote: u8) -> Result<(Vec<u8>, &[u8]), Stop>
    ensures { Gives (λ x. (x.0.items, x.1.now)) result (text_at quote false bytes.now) }
{
    let mut out = Vec::new(alloc);
    let mut escaped = false;
    let mut rest = push_letters(bytes, quote, &mut out)?;
    while let [b, after @ ..] = rest {
        if escaped {
            let Some(c) = unescaped(*b) else {
                return Err(Stop::Bad);
            };
            out.push(c)?;
            escaped = false;
            rest = push_letters(after, quote, &mut out)?;
        } else if *b == quote {
            return Ok((out, after));
        } else if *b == b'\\' {
            escaped = true;
            rest = after;
        } else {
            out.push(*b)?;
            rest = after;
        }
    }
    Err(Stop::Bad)
}

/// The rest of a text between two of these quotation marks, after the first, and the bytes after it.
#[tactic(auto, unfolding(crate::specs::Reading::quoted_at))]
pub fn quoted_at(alloc: Global, bytes: &[u8], quote: u8) -> Result<(Text, &[u8]), Stop>
    ensures { Gives (λ x. (x.0, x.1.now)) result (quoted_at quote bytes.now) }
{
    let (text, rest) = text_at(alloc, bytes, quote)?;
    if !may_end(rest) {
        return Err(Stop::Bad);
    }
    let text = text_from(alloc, text)?;
    Ok((text, rest))
}

/// An unquoted text, lent, and the bytes after it.
pub fn plain_str_at(bytes: &[u8]) -> Result<(&str, &[u8]), Stop>
    ensures { Gives (λ x. (x.0.now, x.1.now)) result (plain_text_at bytes.now) }
{
    let (word, rest) = run_at(bytes)?;
    let text = str_of(word)?;
    Ok((text, rest))
}

/// An unquoted text, and the bytes after it.
fn plain_text_at(alloc: Global, bytes: &[u8]) -> Result<(Text, &[u8]), Stop>
    ensures { Gives (λ x. (x.0, x.1.now)) result (plain_text_at bytes.now) }
{
    let (word, rest) = run_at(bytes)?;
    let text = text_of(alloc, word)?;
    Ok((text, rest))
}

/// A text, quoted or not, before which no blank is left, and the bytes after it.
#[tactic(auto, unfolding(crate::specs::Reading::text_here))]
#[inline(always)]
pub fn text_here(alloc: Global, bytes: &[u8]) -> Result<(Text, &[u8]), Stop>
    ensures { Gives (λ x. (x.0, x.1.now)) result (text_here bytes.now) }
{
    if begins(bytes, b'"') {
        return quoted_at(alloc, after_first(bytes), b'"');
    }
    plain_text_at(alloc, bytes)
}

/// The next text, quoted or not, and the bytes after it.
#[tactic(auto, unfolding(crate::specs::Reading::wording_at))]
pub fn wording_at(alloc: Global, bytes: &[u8]) -> Result<(Text, &[u8]), Stop>
    ensures { Gives (λ x. (x.0, x.1.now)) result (wording_at bytes.now) }
{
    text_here(alloc, skip_blanks(bytes))
}
