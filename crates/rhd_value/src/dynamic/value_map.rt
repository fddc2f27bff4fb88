//! Maps of values.

ghost use Rattle.std.specs.Prelude.{◌≡◌, [], length, if◌then◌else◌, is_ok};
ghost use Rattle.std.specs.Option.{option_copied};
ghost use Rattle.std.specs.Cmp.Lexicographic.{slice_cmp};
ghost use Rattle.std.specs.List.Sorted.{IsStrictlySortedBy};
ghost use Rattle.std.specs.Map.{keys_of};
ghost use Rattle.std.specs.Ordering.{nat_cmp};
ghost use Rattle.rhd_value.specs.Entries.{found, put};

use super::{Dynamic, Entries};
use crate::memory::OutOfMemory;
use crate::text::Text;
use std::alloc::Global;
use std::collections::BTreeMap;
use std::collections::btree_map::Iter;

impl Entries {
    pub fn new(alloc: Global) -> Entries
        ensures { result ≡ [] }
    {
        Entries {
            entries: BTreeMap::new(alloc),
        }
    }

    /// The entries of a map.
    pub fn from_map(entries: BTreeMap<Text, Dynamic>) -> Entries
        ensures { result ≡ entries.entries }
    {
        Entries { entries }
    }

    /// The map of its entries.
    pub fn into_map(self) -> BTreeMap<Text, Dynamic>
        ensures { result.entries ≡ self }
    {
        self.entries
    }

    /// Puts a value under a name, in the place of an equal name's.
    pub fn insert(&mut self, name: Text, value: Dynamic) -> Result<(), OutOfMemory>
        ensures { self.new ≡ (if is_ok result then put name value self.old else self.old) }
    {
        self.entries.insert(name, value)?;
        Ok(())
    }

    /// The value under a name; none where there is nothing.
    pub fn get(&self, name: &Text) -> Option<&Dynamic>
        ensures { option_copied result ≡ found name.now self.now }
    {
        self.entries.get(name)
    }

    pub fn len(&self) -> usize
        ensures { result ≡ length self.now }
    {
        self.entries.len()
    }

    /// The entries in ascending order of their names.
    pub fn iter(&self) -> Iter<'_, Text, Dynamic>
        ensures entries { result ≡ self.now }
        ensures sorted { IsStrictlySortedBy (slice_cmp nat_cmp) (keys_of self.now) }
    {
        self.entries.iter()
    }
}
