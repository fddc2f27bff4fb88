//! Values with their marks, lists and maps of them, and pointers to functions.

ghost use Rattle.std.specs.Prelude.{◌≡◌, ◌++◌, IfOk};
ghost use Rattle.std.specs.Option.{option_copied};
ghost use Rattle.rhd_value.specs.Kinds.{tag_of, int_in, bool_in, text_in, type_name, plain};
ghost use Rattle.rhd_value.specs.Views.{kind_view};

mod copies;
mod pointer;
mod sums;
mod value_list;
mod value_map;

use crate::memory::OutOfMemory;
use crate::tag::{FnPtrType, Marks, TypeTag};
use crate::text::Text;
use std::alloc::Global;
use std::collections::BTreeMap;
use std::marker::Model;

/// A value with its marks. Contracts see it as a tree.
#[cycle(dynamic)]
pub struct Dynamic {
    pub value: Value,
    pub marks: Marks,
}

/// A function of its own, so that what drops a value doesn't ask of which kind it is.
impl Drop for Dynamic {
    #[cycle(drops)]
    fn drop(self) {
        let Dynamic { value, marks: _ } = self;
        drop(value);
    }
}

/// A value of one of the nine kinds.
#[cycle(dynamic)]
#[derive(Drop)]
pub enum Value {
    Unit,
    Bool(bool),
    Int(i64),
    Char(char),
    Text(Text),
    Array(Values),
    Map(Entries),
    FnPtr(FnPtr),
    /// A value of a custom type, by the type's number.
    Custom(u32, i64),
}

/// A pointer to a function, with the values that a call of it puts before its own arguments. Its
/// parts stand in a box, so that a value is small. Contracts see the parts.
#[cycle(dynamic)]
#[derive(Drop)]
pub struct FnPtr {
    parts: Box<FnPtrParts>,
}

#[cycle(dynamic)]
#[derive(Drop)]
struct FnPtrParts {
    name: Text,
    curry: Values,
    typ: FnPtrType,
}

/// Values in order. Contracts see the list of their trees.
#[cycle(dynamic)]
#[derive(Drop)]
pub struct Values {
    items: Vec<Dynamic>,
}

/// Values by name. Contracts see the list of names in ascending order, each with its tree.
#[cycle(dynamic)]
#[derive(Drop)]
pub struct Entries {
    entries: BTreeMap<Text, Dynamic>,
}

impl Model for Dynamic {
    ghost use Rattle.rhd_value.specs.Tree.{Tree, weight};
    ghost use Rattle.rhd_value.specs.Codes.{coded_tree};

    ghost Value = { Tree };

    ghost coded = { coded_tree };

    ghost use Rattle.rhd_value.specs.Views.{kind_view};

    ghost view = { λ a. record { kind = kind_view a.value; marks = a.marks } };

    ghost size = { weight };
}

impl Model for FnPtr {
    ghost use Rattle.rhd_value.specs.Tree.{Pointer, weight_pointer};
    ghost use Rattle.rhd_value.specs.Codes.{coded_pointer};

    ghost Value = { Pointer };

    ghost coded = { coded_pointer };

    ghost view = { λ a. record { name = a.parts.value.name; curry = a.parts.value.curry; typ = a.parts.value.typ } };

    ghost size = { weight_pointer };
}

impl Model for Values {
    ghost use Rattle.std.specs.Prelude.{List};
    ghost use Rattle.rhd_value.specs.Tree.{Tree, weight_list};
    ghost use Rattle.rhd_value.specs.Codes.{coded_trees};

    ghost Value = { List Tree };

    ghost coded = { coded_trees };

    ghost view = { λ a. a.items.items };

    ghost size = { weight_list };

    ghost use Rattle.rhd_value.specs.Falls.{most_le-weight_list};

    ghost size_decreases = { λ a h. most_le-weight_list a.items.items };
}

impl Model for Entries {
    ghost use Rattle.std.specs.Prelude.{List};
    ghost use Rattle.rhd_value.specs.Tree.{Bytes, Tree, weight_entries};
    ghost use Rattle.rhd_value.specs.Codes.{coded_entries};

    ghost Value = { List (Bytes × Tree) };

    ghost coded = { coded_entries };

    ghost view = { λ a. a.entries.entries };

    ghost size = { weight_entries };

    ghost use Rattle.rhd_value.specs.Falls.{most_le-weight_entries};

    ghost size_decreases = { λ a h. most_le-weight_entries a.entries.entries };
}

/// A value that is made anew has no marks.
impl From<Value> for Dynamic {
    ghost use Rattle.std.specs.Prelude.{◌≡◌};
    ghost use Rattle.rhd_value.specs.Kinds.{plain};
    ghost use Rattle.rhd_value.specs.Views.{kind_view};

    ghost from_gives = { λ value made. made ≡ plain (kind_view value) };

    fn from(value: Value) -> Dynamic {
        Dynamic {
            value,
            marks: Marks::NONE,
        }
    }
}

impl Dynamic {
    /// One of the nine kinds.
    pub fn kind(&self) -> TypeTag
        ensures { result ≡ tag_of self.now }
    {
        match &self.value {
            Value::Unit => TypeTag::Unit,
            Value::Bool(_) => TypeTag::Bool,
            Value::Int(_) => TypeTag::Int,
            Value::Char(_) => TypeTag::Char,
            Value::Text(_) => TypeTag::Text,
            Value::Array(_) => TypeTag::Array,
            Value::Map(_) => TypeTag::Map,
            Value::FnPtr(_) => TypeTag::FnPtr,
            Value::Custom(number, _) => TypeTag::Custom(*number),
        }
    }

    /// What the value holds, without its marks.
    pub fn into_value(self) -> Value
        ensures { kind_view result ≡ self.kind }
    {
        let Dynamic { value, marks: _ } = self;
        value
    }

    /// The integer; none for another kind.
    pub fn as_int(&self) -> Option<i64>
        ensures { result ≡ int_in self.now.kind }
    {
        match &self.value {
            Value::Int(value) => Some(*value),
            _ => None,
        }
    }

    /// The truth value; none for another kind.
    pub fn as_bool(&self) -> Option<bool>
        ensures { result ≡ bool_in self.now.kind }
    {
        match &self.value {
            Value::Bool(value) => Some(*value),
            _ => None,
        }
    }

    /// The text; none for another kind.
    pub fn as_text(&self) -> Option<&Text>
        ensures { option_copied result ≡ text_in self.now.kind }
    {
        match &self.value {
            Value::Text(text) => Some(text),
            _ => None,
        }
    }

    /// The name of the value's type.
    pub fn type_name(&self, alloc: Global) -> Result<Text, OutOfMemory>
        ensures { IfOk result (λ name. name ≡ type_name (tag_of self.now)) }
    {
        self.kind().type_name(alloc)
    }

    /// Whether the value is a constant.
    pub fn is_read_only(&self) -> bool
        ensures { result ≡ self.now.marks.read_only }
    {
        self.marks.read_only
    }

    /// Whether the value is shared with other places.
    pub fn is_shared(&self) -> bool
        ensures { result ≡ self.now.marks.shared }
    {
        self.marks.shared
    }

    /// Whether the value is being used elsewhere.
    pub fn is_locked(&self) -> bool
        ensures { result ≡ self.now.marks.locked }
    {
        self.marks.locked
    }
}
