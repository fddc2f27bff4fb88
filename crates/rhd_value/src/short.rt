//! A text of few bytes.

ghost use Rattle.std.specs.Prelude.{◌≡◌, ◌↔◌, ◌++◌, ◌+◌, ◌<◌, ◌≤◌, [], length, if◌then◌else◌, IfSome, IsTrue, None, Some};

use std::marker::Model;
use std::str;

/// How many bytes a short text may have, so that it takes no more room than a pointer with its mark.
const SHORT: usize = 11;

/// A text of at most `SHORT` bytes, which lie in itself. Contracts see its bytes.
#[derive(Drop)]
pub struct ShortText {
    len: u8,
    bytes: [u8; SHORT],
}

impl Model for ShortText {
    ghost use Rattle.std.specs.Prelude.{ℕ, List, ◌≤◌, take, IsUtf8};

    ghost Value = { List ℕ };

    ghost view = { λ a. take a.len a.bytes };

    ghost invariant = { λ a. (a.len ≤ 11) × ∥ IsUtf8 (take a.len a.bytes) ∥₁ };
}

impl ShortText {
    /// The empty text.
    pub fn new() -> ShortText
        ensures { result ≡ [] }
    {
        ShortText {
            len: 0,
            bytes: [0; SHORT],
        }
    }

    /// A copy of a text, where that is short.
    pub fn from_str(text: &str) -> Option<ShortText>
        ensures copy { IfSome result (λ short. short ≡ text.now) }
        ensures room { (result ≡ None) ↔ (11 < length text.now) }
    {
        let len = text.len();
        if len > SHORT {
            return None;
        }
        let mut bytes = [0; SHORT];
        bytes[..len].copy_from_slice(text.as_bytes());
        Some(ShortText {
            len: len as u8,
            bytes,
        })
    }

    pub fn as_str(&self) -> &str
        ensures { result.now ≡ self.now }
    {
        unsafe { str::from_utf8_unchecked(&self.bytes[..self.len as usize]) }
    }

    /// An equal text.
    pub fn dup(&self) -> ShortText
        ensures { result ≡ self.now }
    {
        ShortText {
            len: self.len,
            bytes: self.bytes,
        }
    }

    /// Puts a text at the end, exactly where there is room for it.
    pub fn push(&mut self, text: &str) -> bool
        ensures grown { self.new ≡ (if result then self.old ++ text.now else self.old) }
        ensures room { IsTrue result ↔ (length self.old + length text.now ≤ 11) }
    {
        let start = self.len as usize;
        if text.len() > SHORT - start {
            return false;
        }
        let end = start + text.len();
        self.bytes[start..end].copy_from_slice(text.as_bytes());
        self.len = end as u8;
        true
    }
}
