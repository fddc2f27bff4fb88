//! What tests are made of: small values, keys and scripts.

ghost use Rattle.std.specs.Prelude.{◌≡◌, false, None};
ghost use Rattle.std.specs.Option.{option_and_then, option_copied, option_map_or};
ghost use Rattle.std.specs.Ordering.{int_eq};
ghost use Rattle.rhd_value.specs.Kinds.{int_in};
ghost use Rattle.rhd_value.specs.Same.{text_eq};
ghost use Rattle.rhd_value.specs.Tree.{integer};
ghost use Rattle.rhd_func.specs.declared.access.FnAccess.TheVariants.{Public};

use rhd_func::{BodyId, CallShape, FnAccess, ScriptFuncDef};
use rhd_hash::{Key, Seeds};
use rhd_value::{Dynamic, Text, Texts, TypeTag, Types, Value, Values};
use std::alloc::Global;

/// Seeds under which no two keys of a test clash.
pub const SEEDS: Seeds = Seeds {
    seed0: 0,
    seed1: 0,
    mask: u64::MAX,
};

/// Seeds under which all keys have one hash.
pub const CLASHING: Seeds = Seeds {
    seed0: 0,
    seed1: 0,
    mask: 0,
};

/// A text; empty where memory ran out.
pub fn text(alloc: Global, word: &str) -> Text {
    let mut text = Text::new(alloc);
    let _ = text.push(word);
    text
}

/// Whether there is a text, and which.
pub fn is_text(text: Option<&Text>, word: &str) -> bool
    ensures { result ≡ option_map_or (λ t. text_eq t word.now) (option_copied text.entry) false }
{
    match text {
        Some(text) => text.as_str() == word,
        None => false,
    }
}

/// Whether there is a value, and which number it is.
pub fn is_int(value: Option<&Dynamic>, number: i64) -> bool
    ensures { result ≡ option_map_or (λ n. int_eq n number) (option_and_then (λ v. int_in v.kind) (option_copied value.entry)) false }
{
    match value {
        Some(value) => match value.as_int() {
            Some(held) => held == number,
            None => false,
        },
        None => false,
    }
}

/// One text; none where memory ran out.
pub fn texts(alloc: Global, word: &str) -> Texts {
    let mut texts = Texts::new(alloc);
    let _ = texts.push(text(alloc, word));
    texts
}

/// One type; none where memory ran out.
pub fn types(alloc: Global, tag: TypeTag) -> Types {
    let mut types = Types::new(alloc);
    let _ = types.push(tag);
    types
}

pub fn int(number: i64) -> Dynamic
    ensures { result.kind ≡ integer number }
{
    Dynamic::from(Value::Int(number))
}

/// One value; none where memory ran out.
pub fn one(alloc: Global, value: Dynamic) -> Values {
    let mut values = Values::new(alloc);
    let _ = values.push(value);
    values
}

/// One argument by value.
pub fn plain(alloc: Global, number: i64) -> CallShape {
    CallShape::Plain(one(alloc, int(number)))
}

/// The key of a script without parameters.
pub fn script_key(alloc: Global, word: &str) -> Key {
    Key::Script {
        path: None,
        name: text(alloc, word),
        params: 0,
    }
}

/// The key of a native of one type.
pub fn native_key(alloc: Global, word: &str, tag: TypeTag) -> Key {
    Key::Native {
        path: None,
        name: text(alloc, word),
        types: types(alloc, tag),
    }
}

/// Whether two keys are equal. Both are dropped.
pub fn are_equal(key: Key, other: Key) -> bool {
    let equal = key == other;
    drop(key);
    drop(other);
    equal
}

/// The hash of the key of a script without parameters.
pub fn script_hash(alloc: Global, word: &str) -> u64 {
    let key = script_key(alloc, word);
    let hash = key.mixed(SEEDS);
    drop(key);
    hash
}

/// A script that takes nothing.
pub fn script(alloc: Global, word: &str) -> ScriptFuncDef
    ensures object { result.this_type ≡ None }
    ensures access { result.access ≡ Public }
{
    ScriptFuncDef {
        name: text(alloc, word),
        params: Texts::new(alloc),
        this_type: None,
        access: FnAccess::Public,
        body: BodyId(0),
    }
}
