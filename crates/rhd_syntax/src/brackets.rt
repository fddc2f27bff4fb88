//! Single bytes and brackets.

ghost use Rattle.std.specs.Prelude.{◌≡◌, ◌<◌, length, drop, IsTrue};
ghost use Rattle.rhd_syntax.specs.Bytes.{begins};
ghost use Rattle.rhd_syntax.specs.Reading.{comes, after_bracket};

use crate::words::skip_blanks;

/// Whether the bytes begin with this one.
pub fn begins(bytes: &[u8], b: u8) -> bool
    requires { 0 < b }
    ensures test { result ≡ begins b bytes.now }
    ensures some { IsTrue result → 0 < length bytes.now }
{
    match bytes {
        [] => false,
        [first, ..] => *first == b,
    }
}

/// The bytes after the first.
pub fn after_first(bytes: &[u8]) -> &[u8]
    requires { 0 < length bytes.now }
    ensures { result.now ≡ drop 1 bytes.now }
{
    &bytes[1..]
}

/// Whether this byte comes next, after any blanks.
pub fn comes(bytes: &[u8], b: u8) -> bool
    requires { 0 < b }
    ensures { result ≡ comes b bytes.now }
{
    begins(skip_blanks(bytes), b)
}

/// What stands after the next byte that is no blank.
pub fn after_bracket(bytes: &[u8]) -> &[u8]
    ensures { result.now ≡ after_bracket bytes.now }
{
    match skip_blanks(bytes) {
        [] => &bytes[bytes.len()..],
        [_, rest @ ..] => rest,
    }
}
