//! Pointers to functions.

ghost use Rattle.std.specs.Prelude.{◌≡◌, ◌↔◌, ◌<◌, ◌++◌, ◌∷◌, [], length, if◌then◌else◌, is_ok, slice_get, Some, IsTrue, IfOk};
ghost use Rattle.std.specs.Slice.Iter.{iter_rest, iter_steps, iter_mut_rest, iter_mut_steps};
ghost use Rattle.std.specs.Iterator.Runs.{EveryRun, ItemsMapTo};
ghost use Rattle.rhd_value.specs.Tree.{Tree};
ghost use Rattle.rhd_value.specs.Pointers.{is_anonymous_name, shown_pointer, shown_type};

use super::{Dynamic, FnPtr, FnPtrParts, Values};
use crate::memory::OutOfMemory;
use crate::tag::FnPtrType;
use crate::text::Text;
use std::alloc::Global;
use std::fmt;
use std::slice::{Iter, IterMut};

impl FnPtr {
    ghost use Rattle.std.specs.Borrow.{sem};
    ghost use Rattle.rhd_value.specs.Lends.{LendsCurried, LendsCurry};

    /// A pointer of these parts.
    pub fn from_parts(
        alloc: Global,
        name: Text,
        curry: Values,
        typ: FnPtrType,
    ) -> Result<FnPtr, OutOfMemory>
        ensures { IfOk result (λ ptr. ptr ≡ record { name = name; curry = curry; typ = typ }) }
    {
        Ok(FnPtr {
            parts: Box::new(alloc, FnPtrParts { name, curry, typ })?,
        })
    }

    /// The name of the function.
    pub fn fn_name(&self) -> &Text
        ensures { result.now ≡ self.now.name }
    {
        &self.parts.name
    }

    /// The values that a call puts before its own arguments.
    pub fn curry(&self) -> &Values
        ensures { result.now ≡ self.now.curry }
    {
        &self.parts.curry
    }

    /// Which type of pointer it is.
    pub fn typ(&self) -> FnPtrType
        ensures { result ≡ self.now.typ }
    {
        self.parts.typ
    }

    /// The values that a call puts before its own arguments, one after the other.
    pub fn iter_curry(&self) -> Iter<'_, Dynamic>
        ensures items { iter_rest result ≡ self.now.curry }
        ensures runs { EveryRun (iter_steps {A = Tree}) (λ p. ItemsMapTo p (λ y. y.now) (iter_rest p.from)) }
    {
        self.parts.curry.as_slice().iter()
    }

    /// The same values, for writing.
    pub fn iter_curry_mut(&mut self) -> IterMut<'_, Dynamic>
        ensures* writes_back { sem 𝓛 (LendsCurry self.entry result) }
        ensures items { iter_mut_rest result ≡ self.old.curry }
        ensures runs { EveryRun (iter_mut_steps {A = Tree}) (λ p. ItemsMapTo p (λ y. y.now) (iter_mut_rest p.from)) }
    {
        self.parts.curry.iter_mut()
    }

    /// Whether a call puts values before its own arguments.
    pub fn is_curried(&self) -> bool
        ensures { IsTrue result ↔ (0 < length self.now.curry) }
    {
        self.parts.curry.len() != 0
    }

    /// Whether the function has no name of its own: its name begins with `anon$`.
    pub fn is_anonymous(&self) -> bool
        ensures { result ≡ is_anonymous_name self.now.name }
    {
        self.parts.name.as_str().as_bytes().starts_with(b"anon$")
    }

    /// Puts a value last.
    pub fn add_curry(&mut self, _alloc: Global, value: Dynamic) -> Result<(), OutOfMemory>
        ensures { self.new ≡ (if is_ok result then record self.old { curry = self.old.curry ++ value ∷ [] } else self.old) }
    {
        self.parts.curry.push(value)
    }

    /// Puts values last, in their order.
    pub fn extend(&mut self, _alloc: Global, values: Values) -> Result<(), OutOfMemory>
        ensures { self.new ≡ (if is_ok result then record self.old { curry = self.old.curry ++ values } else self.old) }
    {
        self.parts.curry.append(values)
    }

    /// Puts these values in the place of all others.
    pub fn set_curry(&mut self, values: Values)
        ensures { self.new ≡ record self.old { curry = values } }
    {
        self.parts.curry = values;
    }

    /// The value at a place, counted from 0.
    pub fn at(&self, index: usize) -> &Dynamic
        requires { index < length self.now.curry }
        ensures { slice_get self.now.curry index ≡ Some result.now }
    {
        &self.parts.curry.as_slice()[index]
    }

    /// The value at a place, counted from 0, for writing.
    pub fn at_mut(&mut self, index: usize) -> &mut Dynamic
        requires { index < length self.old.curry }
        ensures* writes_back { sem 𝓛 (LendsCurried self.entry index result) }
        ensures value { slice_get self.old.curry index ≡ Some result.now }
    {
        self.parts.curry.at_mut(index)
    }
}

/// A pointer shows as `Fn(name)`.
impl fmt::Display for FnPtr {
    ghost output = { λ ptr. Some (shown_pointer ptr.name) };

    ghost styled_output = { λ ptr _. Some (shown_pointer ptr.name) };

    fn fmt<W: fmt::Write>(&self, f: &mut fmt::Formatter<W>) -> fmt::Result {
        f.write_str("Fn(")?;
        f.write_str(self.fn_name().as_str())?;
        f.write_str(")")
    }
}

/// The same text as `Display` gives.
impl fmt::Debug for FnPtr {
    ghost debug_output = { λ ptr. Some (shown_pointer ptr.name) };

    fn fmt<W: fmt::Write>(&self, f: &mut fmt::Formatter<W>) -> fmt::Result {
        fmt::Display::fmt(self, f)
    }
}

/// The type of a pointer shows as `Fn`, `Fn*` (a script) or `Fn#` (a native).
impl fmt::Display for FnPtrType {
    ghost output = { λ typ. Some (shown_type typ) };

    ghost styled_output = { λ typ _. Some (shown_type typ) };

    fn fmt<W: fmt::Write>(&self, f: &mut fmt::Formatter<W>) -> fmt::Result {
        match self {
            FnPtrType::Normal => f.write_str("Fn"),
            FnPtrType::Script { .. } => f.write_str("Fn*"),
            FnPtrType::Native(_) => f.write_str("Fn#"),
        }
    }
}
