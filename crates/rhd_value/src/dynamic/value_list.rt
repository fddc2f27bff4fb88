//! Lists of values.

ghost use Rattle.std.specs.Prelude.{◌≡◌, ◌<◌, ◌-◌, ◌++◌, ◌∷◌, [], length, if◌then◌else◌, is_ok, slice_get, slice_set, take, Some, IfOk};
ghost use Rattle.std.specs.Option.{option_copied};
ghost use Rattle.std.specs.List.{IsItemAtMut};
ghost use Rattle.std.specs.Slice.Iter.{iter_mut_rest, iter_mut_steps};
ghost use Rattle.std.specs.Iterator.Runs.{EveryRun, ItemsMapTo};
ghost use Rattle.rhd_value.specs.Tree.{Tree};
ghost use Rattle.rhd_value.specs.Firsts.{first_and_rest};

use super::{Dynamic, Values};
use crate::memory::OutOfMemory;
use std::alloc::Global;
use std::slice::IterMut;

impl Values {
    ghost use Rattle.std.specs.Borrow.{sem};
    ghost use Rattle.rhd_value.specs.Lends.{LendsItem, LendsItemIf, LendsItems};

    pub fn new(alloc: Global) -> Values
        ensures { result ≡ [] }
    {
        Values {
            items: Vec::new(alloc),
        }
    }

    /// An empty list with room for so many values.
    pub fn with_capacity(alloc: Global, many: usize) -> Result<Values, OutOfMemory>
        ensures { IfOk result (λ values. values ≡ []) }
    {
        Ok(Values {
            items: Vec::with_capacity(alloc, many)?,
        })
    }

    /// Puts a value last.
    #[inline(always)]
    pub fn push(&mut self, value: Dynamic) -> Result<(), OutOfMemory>
        ensures { self.new ≡ (if is_ok result then self.old ++ value ∷ [] else self.old) }
    {
        self.items.push(value)?;
        Ok(())
    }

    /// Puts a value first.
    #[inline(always)]
    pub fn push_first(&mut self, value: Dynamic) -> Result<(), OutOfMemory>
        ensures { self.new ≡ (if is_ok result then value ∷ self.old else self.old) }
    {
        self.items.insert(0, value)?;
        Ok(())
    }

    /// Puts a value in the place of another, counted from 0; where there is none, the list stays.
    pub fn set(&mut self, at: usize, value: Dynamic)
        ensures { self.new ≡ slice_set self.old at value }
    {
        if at < self.items.len() {
            self.items[at] = value;
        }
    }

    pub fn len(&self) -> usize
        ensures { result ≡ length self.now }
    {
        self.items.len()
    }

    /// The value at a place, counted from 0; none where there is nothing.
    pub fn get(&self, at: usize) -> Option<&Dynamic>
        ensures { option_copied result ≡ slice_get self.now at }
    {
        self.items.get(at)
    }

    /// The value at a place, counted from 0, for writing; none where there is nothing.
    pub fn get_mut(&mut self, at: usize) -> Option<&mut Dynamic>
        ensures* writes_back { sem 𝓛 (LendsItemIf self.entry at result) }
        ensures value { IsItemAtMut self.old at result }
    {
        self.items.get_mut(at)
    }

    /// The value at a place, counted from 0, for writing.
    pub(crate) fn at_mut(&mut self, at: usize) -> &mut Dynamic
        requires { at < length self.old }
        ensures* writes_back { sem 𝓛 (LendsItem self.entry at result) }
        ensures value { slice_get self.old at ≡ Some result.now }
    {
        &mut self.items[at]
    }

    /// The values, one after the other, for writing.
    pub fn iter_mut(&mut self) -> IterMut<'_, Dynamic>
        ensures* writes_back { sem 𝓛 (LendsItems self.entry result) }
        ensures items { iter_mut_rest result ≡ self.old }
        ensures runs { EveryRun (iter_mut_steps {A = Tree}) (λ p. ItemsMapTo p (λ y. y.now) (iter_mut_rest p.from)) }
    {
        self.items.as_mut_slice().iter_mut()
    }

    /// Puts values last, in their order.
    pub fn append(&mut self, values: Values) -> Result<(), OutOfMemory>
        ensures { self.new ≡ (if is_ok result then self.old ++ values else self.old) }
    {
        let mut others = values.items;
        self.items.append(&mut others)?;
        Ok(())
    }

    pub fn as_slice(&self) -> &[Dynamic]
        ensures { result.now ≡ self.now }
    {
        self.items.as_slice()
    }

    /// Takes the first value off; none where there is nothing, and then the list stays.
    pub fn split_first(self) -> (Option<Dynamic>, Values)
        ensures { (result.0, result.1) ≡ first_and_rest self }
    {
        let mut items = self.items;
        if items.is_empty() {
            return (None, Values { items });
        }
        let first = items.remove(0);
        (Some(first), Values { items })
    }

    /// Takes the last value off; none where there is nothing.
    pub fn pop(&mut self) -> Option<Dynamic>
        ensures last { result ≡ slice_get self.old (length self.old - 1) }
        ensures rest { self.new ≡ take (length self.old - 1) self.old }
    {
        self.items.pop()
    }
}
