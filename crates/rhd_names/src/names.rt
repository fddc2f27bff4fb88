//! Names.

ghost use Rattle.std.specs.Prelude.{◌≡◌, ◌≤◌, ◌++◌, length, IfOk, string_bytes, codes};
ghost use Rattle.std.specs.List.{list_all, list_any};
ghost use Rattle.std.specs.Char.{is_ascii_alphabetic, is_ascii_digit};
ghost use Rattle.std.specs.Str.{bytes_eq};
ghost use Rattle.rhd_names.specs.Names.{is_name_byte, letters_begin, is_identifier, is_function_name, is_reserved, is_anonymous};

use crate::token::lookup_symbol_from_syntax;
use std::alloc::{AllocError, Global};

const RESERVED_WORDS: [&str; 36] = [
    "type_of",
    "is_shared",
    "is_def_fn",
    "is_def_var",
    "print",
    "debug",
    "Fn",
    "eval",
    "call",
    "curry",
    "this",
    "var",
    "static",
    "goto",
    "exit",
    "match",
    "case",
    "public",
    "protected",
    "new",
    "use",
    "with",
    "module",
    "package",
    "super",
    "spawn",
    "thread",
    "go",
    "sync",
    "async",
    "await",
    "yield",
    "void",
    "null",
    "nil",
    "default",
];

const RESERVED_SYMBOLS: [&str; 12] = [
    "===", "!==", "->", "<-", ":=", "~", "@", "$", "#", "++", "--", "?",
];

fn are_name_bytes(bytes: &[u8]) -> bool
    ensures { result ≡ list_all is_name_byte bytes.now }
{
    bytes
        .iter()
        .all(|b| b.is_ascii_alphanumeric() || *b == b'_')
}

fn has_letter(bytes: &[u8]) -> bool
    ensures { result ≡ list_any is_ascii_alphabetic bytes.now }
{
    bytes.iter().any(|b| b.is_ascii_alphabetic())
}

fn has_digit(bytes: &[u8]) -> bool
    ensures { result ≡ list_any is_ascii_digit bytes.now }
{
    bytes.iter().any(|b| b.is_ascii_digit())
}

/// The place of the first letter, or the end where there is none.
fn letters_begin(bytes: &[u8]) -> usize
    ensures start { result ≡ letters_begin bytes.now }
    ensures within { result ≤ length bytes.now }
{
    bytes
        .iter()
        .take_while(|b| !b.is_ascii_alphabetic())
        .count()
}

/// Whether the text has only `_`, ASCII letters and ASCII digits, has a letter, and has no digit
/// before its first letter.
#[tactic(auto, unfolding(crate::specs::Names::is_identifier))]
pub fn is_valid_identifier(name: &str) -> bool
    ensures { result ≡ is_identifier name.now }
{
    let bytes = name.as_bytes();
    are_name_bytes(bytes) && has_letter(bytes) && !has_digit(&bytes[..letters_begin(bytes)])
}

/// Whether a function may have this name: an identifier that is neither reserved nor a token.
pub fn is_valid_function_name(name: &str) -> bool
    ensures { result ≡ is_function_name name.now }
{
    is_valid_identifier(name)
        && !is_reserved_keyword_or_symbol(name)
        && lookup_symbol_from_syntax(name).is_none()
}

fn is_one_of(name: &str, names: &[&str]) -> bool
    ensures { result ≡ list_any (λ n. bytes_eq name.now n.now) names.now }
{
    names.contains(&name)
}

/// Whether the text is a reserved word or a reserved symbol.
#[tactic(auto, unfolding(crate::specs::Names::is_reserved))]
pub fn is_reserved_keyword_or_symbol(name: &str) -> bool
    ensures { result ≡ is_reserved name.now }
{
    is_one_of(name, &RESERVED_WORDS) || is_one_of(name, &RESERVED_SYMBOLS)
}

/// Whether a function of this name has no name of its own: it begins with `anon$`.
#[tactic(auto, unfolding(crate::specs::Names::is_anonymous))]
pub fn is_anonymous_fn(name: &str) -> bool
    ensures { result ≡ is_anonymous name.now }
{
    name.starts_with("anon$")
}

/// The name of the function that reads a property, if there is memory for it.
pub fn make_getter(alloc: Global, name: &str) -> Result<String, AllocError>
    ensures { IfOk result (λ getter. string_bytes getter ≡ codes "get$" ++ name.now) }
{
    let mut getter = String::from_str(alloc, "get$")?;
    getter.push_str(name)?;
    Ok(getter)
}

/// The name of the function that writes a property, if there is memory for it.
pub fn make_setter(alloc: Global, name: &str) -> Result<String, AllocError>
    ensures { IfOk result (λ setter. string_bytes setter ≡ codes "set$" ++ name.now) }
{
    let mut setter = String::from_str(alloc, "set$")?;
    setter.push_str(name)?;
    Ok(setter)
}
