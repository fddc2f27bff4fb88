//! What the natives of the kit say of themselves.

ghost use Rattle.std.specs.Prelude.{◌≡◌, ◌<◌, false};
ghost use Rattle.rhd_kit.specs.Kit.{kit_info};

use rhd_value::TypeTag;

/// What a native says of itself.
#[derive(Clone, Copy)]
pub struct KitRow {
    pub types: &'static [TypeTag],
    pub is_method: bool,
    pub has_context: bool,
    pub is_pure: bool,
    pub is_volatile: bool,
}

/// The types of a native that takes sixteen integers and one more value.
const MANY: &[TypeTag] = &[
    TypeTag::Int,
    TypeTag::Int,
    TypeTag::Int,
    TypeTag::Int,
    TypeTag::Int,
    TypeTag::Int,
    TypeTag::Int,
    TypeTag::Int,
    TypeTag::Int,
    TypeTag::Int,
    TypeTag::Int,
    TypeTag::Int,
    TypeTag::Int,
    TypeTag::Int,
    TypeTag::Int,
    TypeTag::Int,
    TypeTag::Dynamic,
];

/// A native of these types that isn't volatile.
fn row(types: &'static [TypeTag], is_method: bool, is_pure: bool, has_context: bool) -> KitRow
    ensures types { result.types.now ≡ types.entry.now }
    ensures is_method { result.is_method ≡ is_method }
    ensures has_context { result.has_context ≡ has_context }
    ensures is_pure { result.is_pure ≡ is_pure }
    ensures is_volatile { result.is_volatile ≡ false }
{
    KitRow {
        types,
        is_method,
        has_context,
        is_pure,
        is_volatile: false,
    }
}

/// The row of a number in the kit's table.
#[tactic(auto, unfolding(crate::specs::Kit::kit_info))]
pub fn kit_row(number: u32) -> KitRow
    requires { number < 20 }
    ensures types { result.types.now ≡ (kit_info number).types }
    ensures is_method { result.is_method ≡ (kit_info number).is_method }
    ensures has_context { result.has_context ≡ (kit_info number).has_context }
    ensures is_pure { result.is_pure ≡ (kit_info number).is_pure }
    ensures is_volatile { result.is_volatile ≡ (kit_info number).is_volatile }
{
    use TypeTag::{Array, Char, Custom, Dynamic, FnPtr, Int, StdString, Str, Text};
    match number {
        0 => row(&[], false, true, false),
        1 | 2 => row(&[Int], false, true, false),
        3 | 10 => row(&[Dynamic], false, true, false),
        4 => row(&[Dynamic, Char], false, true, false),
        5 => row(&[Int, Dynamic], false, true, false),
        6 => row(&[Str], false, true, false),
        7 => row(&[Int, Int], true, true, false),
        8 => row(&[Array], true, false, false),
        9 => row(&[Array], false, false, false),
        11 => row(&[Text], false, true, false),
        12 => row(&[Text], false, true, true),
        13 => row(&[Text, Int], false, true, true),
        14 => row(MANY, false, true, false),
        15 => row(&[Custom(1)], true, true, false),
        16 => row(&[FnPtr], false, true, true),
        17 => row(&[Dynamic, Dynamic], false, true, false),
        18 => row(&[StdString], true, true, false),
        _ => row(&[Int, Int], true, false, false),
    }
}
