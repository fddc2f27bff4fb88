//! Plain data beside the values.

ghost use Rattle.std.specs.Prelude.{◌≡◌, IfOk};
ghost use Rattle.std.specs.Cmp.{partial_equiv_from_equiv};
ghost use Rattle.rhd_value.specs.Kinds.{map_type, type_name, type_text};
ghost use Rattle.rhd_value.specs.Sums.{plus_held};
ghost use Rattle.rhd_value.specs.Same.{tag_number, tag_argument, tag_eq, tag_eq_equiv};

use crate::memory::OutOfMemory;
use crate::text::Text;
use std::alloc::Global;

/// The type of a value, or of a parameter.
///
/// The first nine are the kinds of values, where a custom type has a number. The last three are
/// types of parameters alone: any value, and a text in two of Rust's forms.
#[derive(Clone, Copy, Debug, Default)]
pub enum TypeTag {
    #[default]
    Unit,
    Bool,
    Int,
    Char,
    Text,
    Array,
    Map,
    FnPtr,
    Custom(u32),
    Dynamic,
    Str,
    StdString,
}

impl TypeTag {
    /// The place of the type in the list of types, counted from 0.
    fn number(self) -> u8
        ensures { result ≡ tag_number self }
    {
        match self {
            TypeTag::Unit => 0,
            TypeTag::Bool => 1,
            TypeTag::Int => 2,
            TypeTag::Char => 3,
            TypeTag::Text => 4,
            TypeTag::Array => 5,
            TypeTag::Map => 6,
            TypeTag::FnPtr => 7,
            TypeTag::Custom(_) => 8,
            TypeTag::Dynamic => 9,
            TypeTag::Str => 10,
            TypeTag::StdString => 11,
        }
    }

    /// The number of a custom type, and 0 of any other.
    fn argument(self) -> u32
        ensures { result ≡ tag_argument self }
    {
        match self {
            TypeTag::Custom(number) => number,
            _ => 0,
        }
    }

    /// The name of the type.
    pub fn type_name(self, alloc: Global) -> Result<Text, OutOfMemory>
        ensures { IfOk result (λ name. name ≡ type_name self) }
    {
        let mut name = Text::new(alloc);
        match self {
            TypeTag::Unit => name.push("()")?,
            TypeTag::Bool => name.push("bool")?,
            TypeTag::Int => name.push("i64")?,
            TypeTag::Char => name.push("char")?,
            TypeTag::Text => name.push("string")?,
            TypeTag::Array => name.push("array")?,
            TypeTag::Map => name.push("map")?,
            TypeTag::FnPtr => name.push("Fn")?,
            TypeTag::Custom(number) => {
                return Text::from_string(alloc, format!(in alloc; "custom{number}")?);
            }
            TypeTag::Dynamic => name.push("Dynamic")?,
            TypeTag::Str => name.push("&str")?,
            TypeTag::StdString => name.push("String")?,
        }
        Ok(name)
    }

    /// The type as keys and parameters show it: a text is an `ImmutableString` there.
    pub fn type_text(self, alloc: Global) -> Result<Text, OutOfMemory>
        ensures { IfOk result (λ text. text ≡ type_text self) }
    {
        match self {
            TypeTag::Text => {
                let mut text = Text::new(alloc);
                text.push("ImmutableString")?;
                Ok(text)
            }
            _ => self.type_name(alloc),
        }
    }
}

impl PartialEq for TypeTag {
    ghost eq = { tag_eq };

    ghost laws = { partial_equiv_from_equiv tag_eq_equiv };

    fn eq(&self, other: &TypeTag) -> bool {
        self.number() == other.number() && self.argument() == other.argument()
    }
}

impl Eq for TypeTag {
    ghost laws = { tag_eq_equiv };
}

/// The type that a parameter's type stands for in a key: where `map` is true, the text types
/// of Rust are the type of texts.
pub fn map_type(map: bool, tag: TypeTag) -> TypeTag
    ensures { result ≡ map_type map tag }
{
    match tag {
        TypeTag::Str | TypeTag::StdString if map => TypeTag::Text,
        _ => tag,
    }
}

/// What is said of a value beside its contents.
#[derive(Clone, Copy, PartialEq, Eq, Debug)]
pub struct Marks {
    /// It is a constant.
    pub read_only: bool,
    /// It is shared with other places.
    pub shared: bool,
    /// It is being used elsewhere, so that no call may receive it.
    pub locked: bool,
}

impl Marks {
    /// The marks of a value that is made anew.
    pub const NONE: Marks = Marks {
        read_only: false,
        shared: false,
        locked: false,
    };
}

/// How much a value holds in all: elements of arrays, entries of maps, bytes of texts. Each count
/// stays at the largest number of 64 bits.
#[derive(Clone, Copy, PartialEq, Eq, Debug)]
pub struct Sizes {
    pub array: u64,
    pub map: u64,
    pub text: u64,
}

impl Sizes {
    /// The sizes of a value that holds nothing.
    pub const NONE: Sizes = Sizes {
        array: 0,
        map: 0,
        text: 0,
    };

    /// The sizes of two values together.
    pub(crate) fn plus(self, other: Sizes) -> Sizes
        ensures { result ≡ plus_held self other }
    {
        Sizes {
            array: self.array.saturating_add(other.array),
            map: self.map.saturating_add(other.map),
            text: self.text.saturating_add(other.text),
        }
    }
}

/// The number of a native, counted from 0.
#[derive(Clone, Copy, PartialEq, Eq, Debug)]
pub struct FnId(pub u32);

/// Which function a pointer means.
#[derive(Clone, Copy, PartialEq, Eq, Debug, Default)]
pub enum FnPtrType {
    /// Whatever the name means where it is called.
    #[default]
    Normal,
    /// The script of that name and number of parameters in the oldest library.
    Script { num_params: u64 },
    /// A native by its number.
    Native(FnId),
}

/// A place in a text: lines and columns are counted from 1.
#[derive(Clone, Copy, PartialEq, Eq, Debug)]
pub struct Position {
    pub line: u32,
    pub column: u32,
}

impl Position {
    /// No place.
    pub const NONE: Position = Position { line: 0, column: 0 };
}
