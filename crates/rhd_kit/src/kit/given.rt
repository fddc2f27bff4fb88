//! The arguments that a native is called with.

ghost use Rattle.std.specs.Prelude.{◌≡◌, ◌==◌, IfOk, length, slice_get};
ghost use Rattle.std.specs.Option.{option_copied, option_map};
ghost use Rattle.rhd_kit.specs.Kit.{arguments, takes, first_unfit, unfit_fault, int_at, text_at};
ghost use Rattle.rhd_kit.specs.Values.{argument_at};

use crate::values::{first_of, int_of, text_of};
use rhd_value::{Dynamic, EvalAltResult, OutOfMemory, Position, TypeTag, Values, map_type};
use std::alloc::Global;

/// The arguments of a native.
#[derive(Drop)]
pub struct Given {
    /// The first one by reference, where one was given.
    pub first: Option<Dynamic>,
    /// All others.
    pub args: Values,
}

/// Whether a parameter of this type takes a value.
fn takes(tag: TypeTag, value: &Dynamic) -> bool
    ensures { result ≡ takes tag value.now }
{
    tag == TypeTag::Dynamic || map_type(true, tag) == value.kind()
}

/// The first argument of another type than that at its place, with the type.
fn first_unfit<'a>(types: &'a [TypeTag], args: &'a [Dynamic]) -> Option<(TypeTag, &'a Dynamic)>
    ensures { option_map (λ p. (p.0, p.1.now)) result ≡ first_unfit types.now args.now }
{
    let [tag, types @ ..] = types else {
        return None;
    };
    let [arg, args @ ..] = args else {
        return None;
    };
    if takes(*tag, arg) {
        first_unfit(types, args)
    } else {
        Some((*tag, arg))
    }
}

/// The fault of an argument of another type than this.
fn unfit_fault(alloc: Global, tag: TypeTag, value: &Dynamic) -> Result<EvalAltResult, OutOfMemory>
    ensures { IfOk result (λ fault. fault ≡ unfit_fault (tag, value.now)) }
{
    let wanted = map_type(true, tag).type_name(alloc)?;
    let got = value.type_name(alloc)?;
    Ok(EvalAltResult::ErrorMismatchDataType(wanted, got, Position::NONE))
}

impl Given {
    /// How many there are.
    pub fn is_count(&self, count: usize) -> bool
        ensures { result ≡ (length (arguments self.now.first self.now.args) == count) }
    {
        match &self.first {
            None => self.args.len() == count,
            Some(_) => count > 0 && self.args.len() == count - 1,
        }
    }

    /// The first one of another type than that at its place, with the type.
    fn first_unfit<'a>(&'a self, types: &'a [TypeTag]) -> Option<(TypeTag, &'a Dynamic)>
        ensures { option_map (λ p. (p.0, p.1.now)) result ≡ first_unfit types.now (arguments self.now.first self.now.args) }
    {
        match (&self.first, types) {
            (None, _) => first_unfit(types, self.args.as_slice()),
            (Some(_), []) => None,
            (Some(first), [tag, _types @ ..]) if !takes(*tag, first) => Some((*tag, first)),
            (Some(_), [_tag, types @ ..]) => first_unfit(types, self.args.as_slice()),
        }
    }

    /// The fault of the first one of another type than that at its place, if there is one.
    pub fn unfit_fault(
        &self,
        alloc: Global,
        types: &[TypeTag],
    ) -> Result<Option<EvalAltResult>, OutOfMemory>
        ensures { IfOk result (λ fault. fault ≡ option_map unfit_fault (first_unfit types.now (arguments self.now.first self.now.args))) }
    {
        match self.first_unfit(types) {
            Some((tag, value)) => Ok(Some(unfit_fault(alloc, tag, value)?)),
            None => Ok(None),
        }
    }

    /// The one at a place, counted from 0; none where there is none.
    pub fn get(&self, at: usize) -> Option<&Dynamic>
        ensures { option_copied result ≡ slice_get (arguments self.now.first self.now.args) at }
    {
        match &self.first {
            None => self.args.get(at),
            Some(first) if at == 0 => Some(first),
            Some(_) => self.args.get(at - 1),
        }
    }

    /// The integer at a place; 0 where there is none.
    pub fn int(&self, at: usize) -> i64
        ensures { result ≡ int_at (arguments self.now.first self.now.args) at }
    {
        int_of(self.get(at))
    }

    /// The text at a place; empty where there is none.
    pub fn text(&self, at: usize) -> &str
        ensures { result.now ≡ text_at (arguments self.now.first self.now.args) at }
    {
        text_of(self.get(at))
    }

    /// The one at the first place, to be kept, and what was given by reference.
    pub fn into_first(self, alloc: Global) -> Result<(Dynamic, Option<Dynamic>), OutOfMemory>
        ensures { IfOk result (λ taken. (taken.0 ≡ argument_at (arguments self.first self.args) 0) × (taken.1 ≡ self.first)) }
    {
        let Given { first, args } = self;
        match first {
            Some(first) => Ok((first.dup(alloc)?, Some(first))),
            None => Ok((first_of(args), None)),
        }
    }
}
