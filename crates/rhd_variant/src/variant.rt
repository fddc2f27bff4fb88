//! Rust values of one type as values, and back.
ghost use Rattle.std.specs.Prelude.{◌≡◌, ◌↔◌, ℕ, ℤ, Bool, Option, Some, None, IsSome, refl};
ghost use Rattle.rhd_value.specs.Tree.{Tree, boolean, unit, integer, character, text, array, object, pointer, items_of, members_of};
ghost use Rattle.rhd_value.specs.Kinds.{int_in, bool_in, text_in, plain};
ghost use Rattle.rhd_variant.specs.Variant.{list_in, entries_in, char_in, unit_in, pointer_in, IsTaken};

use rhd_value::{Dynamic, Entries, FnPtr, Text, TypeTag, Value, Values};

/// A Rust type whose values are values of one kind, or of all.
pub trait Variant {
    ghost use Rattle.rhd_value.specs.declared.tag.TypeTag.{TypeTag};

    ghost TAG: { TypeTag };

    // The tree of a value.
    ghost tree_of: { Self → Tree };

    // The value that a tree holds, if it is of the type's kind.
    ghost value_of: { Tree → Option Self };

    /// The kind of the type's values; `Dynamic` where they are of all kinds.
    const TAG: TypeTag;

    /// The value as one of its kind, without marks; a `Dynamic` stays as it is.
    fn into_dynamic(self) -> Dynamic
        ensures { result ≡ tree_of self };

    /// The value back; none exactly for another kind, and so never where the type takes all kinds.
    fn from_dynamic(value: Dynamic) -> Option<Self>
    where
        Self: Sized,
        ensures value { result ≡ value_of value }
        ensures kind { IsSome result ↔ IsTaken TAG value };

    ghost round_trip: { (x : Self) → value_of (tree_of x) ≡ Some x };

    ghost takes_its_kind: { (t : Tree) → IsSome (value_of t) ↔ IsTaken TAG t };
}

/// Law: a value that was made a `Dynamic` comes back.
pub fn a_value_comes_back<T: Variant>(value: T) -> Option<T>
    ensures { result ≡ Some value }
{
    T::from_dynamic(value.into_dynamic())
}

impl Variant for i64 {
    ghost use Rattle.rhd_value.specs.declared.tag.TypeTag.TheVariants as tags;
    ghost use Rattle.rhd_variant.specs.Takes.{takes_int};

    ghost TAG = { tags.Int };

    ghost tree_of = { λ z. plain (integer z) };

    ghost value_of = { λ t. int_in t.kind };

    ghost round_trip = { λ z. refl };

    ghost takes_its_kind = { takes_int };

    const TAG: TypeTag = TypeTag::Int;

    fn into_dynamic(self) -> Dynamic {
        Dynamic::from(Value::Int(self))
    }

    fn from_dynamic(value: Dynamic) -> Option<i64> {
        value.as_int()
    }
}

impl Variant for () {
    ghost use Rattle.rhd_value.specs.declared.tag.TypeTag.TheVariants as tags;
    ghost use Rattle.rhd_variant.specs.Takes.{takes_unit};

    ghost TAG = { tags.Unit };

    ghost tree_of = { λ u. plain unit };

    ghost value_of = { λ t. unit_in t.kind };

    ghost round_trip = { λ u. refl };

    ghost takes_its_kind = { takes_unit };

    const TAG: TypeTag = TypeTag::Unit;

    fn into_dynamic(self) -> Dynamic {
        Dynamic::from(Value::Unit)
    }

    fn from_dynamic(value: Dynamic) -> Option<()> {
        match value.into_value() {
            Value::Unit => Some(()),
            _ => None,
        }
    }
}

impl Variant for bool {
    ghost use Rattle.rhd_value.specs.declared.tag.TypeTag.TheVariants as tags;
    ghost use Rattle.rhd_variant.specs.Takes.{takes_bool};

    ghost TAG = { tags.Bool };

    ghost tree_of = { λ b. plain (boolean b) };

    ghost value_of = { λ t. bool_in t.kind };

    ghost round_trip = { λ b. refl };

    ghost takes_its_kind = { takes_bool };

    const TAG: TypeTag = TypeTag::Bool;

    fn into_dynamic(self) -> Dynamic {
        Dynamic::from(Value::Bool(self))
    }

    fn from_dynamic(value: Dynamic) -> Option<bool> {
        value.as_bool()
    }
}

impl Variant for char {
    ghost use Rattle.rhd_value.specs.declared.tag.TypeTag.TheVariants as tags;
    ghost use Rattle.rhd_variant.specs.Takes.{takes_char};

    ghost TAG = { tags.Char };

    ghost tree_of = { λ c. plain (character c) };

    ghost value_of = { λ t. char_in t.kind };

    ghost round_trip = { λ c. refl };

    ghost takes_its_kind = { takes_char };

    const TAG: TypeTag = TypeTag::Char;

    fn into_dynamic(self) -> Dynamic {
        Dynamic::from(Value::Char(self))
    }

    fn from_dynamic(value: Dynamic) -> Option<char> {
        match value.into_value() {
            Value::Char(inner) => Some(inner),
            _ => None,
        }
    }
}

impl Variant for Text {
    ghost use Rattle.rhd_value.specs.declared.tag.TypeTag.TheVariants as tags;
    ghost use Rattle.rhd_variant.specs.Takes.{takes_text};

    ghost TAG = { tags.Text };

    ghost tree_of = { λ s. plain (text s) };

    ghost value_of = { λ t. text_in t.kind };

    ghost round_trip = { λ s. refl };

    ghost takes_its_kind = { takes_text };

    const TAG: TypeTag = TypeTag::Text;

    fn into_dynamic(self) -> Dynamic {
        Dynamic::from(Value::Text(self))
    }

    fn from_dynamic(value: Dynamic) -> Option<Text> {
        match value.into_value() {
            Value::Text(inner) => Some(inner),
            _ => None,
        }
    }
}

impl Variant for Values {
    ghost use Rattle.rhd_value.specs.declared.tag.TypeTag.TheVariants as tags;
    ghost use Rattle.rhd_variant.specs.Takes.{takes_list, list_returns};

    ghost TAG = { tags.Array };

    ghost tree_of = { λ ts. plain (array (items_of ts)) };

    ghost value_of = { λ t. list_in t.kind };

    ghost round_trip = { list_returns };

    ghost takes_its_kind = { takes_list };

    const TAG: TypeTag = TypeTag::Array;

    fn into_dynamic(self) -> Dynamic {
        Dynamic::from(Value::Array(self))
    }

    #[tactic(auto, using(crate::specs::Takes::list_back))]
    fn from_dynamic(value: Dynamic) -> Option<Values> {
        match value.into_value() {
            Value::Array(inner) => Some(inner),
            _ => None,
        }
    }
}

impl Variant for Entries {
    ghost use Rattle.rhd_value.specs.declared.tag.TypeTag.TheVariants as tags;
    ghost use Rattle.rhd_variant.specs.Takes.{takes_entries, entries_return};

    ghost TAG = { tags.Map };

    ghost tree_of = { λ es. plain (object (members_of es)) };

    ghost value_of = { λ t. entries_in t.kind };

    ghost round_trip = { entries_return };

    ghost takes_its_kind = { takes_entries };

    const TAG: TypeTag = TypeTag::Map;

    fn into_dynamic(self) -> Dynamic {
        Dynamic::from(Value::Map(self))
    }

    #[tactic(auto, using(crate::specs::Takes::entries_back))]
    fn from_dynamic(value: Dynamic) -> Option<Entries> {
        match value.into_value() {
            Value::Map(inner) => Some(inner),
            _ => None,
        }
    }
}

impl Variant for Dynamic {
    ghost use Rattle.rhd_value.specs.declared.tag.TypeTag.TheVariants as tags;
    ghost use Rattle.rhd_variant.specs.Takes.{takes_all};

    ghost TAG = { tags.Dynamic };

    ghost tree_of = { λ t. t };

    ghost value_of = { λ t. Some t };

    ghost round_trip = { λ t. refl };

    ghost takes_its_kind = { takes_all };

    const TAG: TypeTag = TypeTag::Dynamic;

    fn into_dynamic(self) -> Dynamic {
        self
    }

    fn from_dynamic(value: Dynamic) -> Option<Dynamic> {
        Some(value)
    }
}

impl Variant for FnPtr {
    ghost use Rattle.rhd_value.specs.declared.tag.TypeTag.TheVariants as tags;
    ghost use Rattle.rhd_variant.specs.Takes.{takes_pointer, pointer_returns};

    ghost TAG = { tags.FnPtr };

    ghost tree_of = { λ p. plain (pointer p.name (items_of p.curry) p.typ) };

    ghost value_of = { λ t. pointer_in t.kind };

    ghost round_trip = { pointer_returns };

    ghost takes_its_kind = { takes_pointer };

    const TAG: TypeTag = TypeTag::FnPtr;

    fn into_dynamic(self) -> Dynamic {
        Dynamic::from(Value::FnPtr(self))
    }

    #[tactic(auto, using(crate::specs::Takes::list_back))]
    fn from_dynamic(value: Dynamic) -> Option<FnPtr> {
        match value.into_value() {
            Value::FnPtr(inner) => Some(inner),
            _ => None,
        }
    }
}
