//! Where natives that have a parameter of any type stand among declarations.

ghost use Rattle.std.specs.Prelude.{◌≡◌, ℕ, ◌++◌, [], ◌∷◌, nat_eq, OnOk, OnErr, IfOk, if◌then◌else◌};
ghost use Rattle.rhd_table.specs.NativeIndex.{but_last, noted};

use indexmap::IndexMap;
use rhd_hash::StraightHasherBuilder;
use rhd_value::OutOfMemory;
use smallvec::SmallVec;
use std::alloc::Global;

/// How many places of natives under one hash take no memory of their own.
const FEW: usize = 2;

/// The places of natives by the hashes of their names and numbers of parameters.
#[derive(Drop)]
pub(crate) struct NativeIndex {
    places: IndexMap<u64, SmallVec<usize, FEW>, StraightHasherBuilder>,
}

impl NativeIndex {
    pub fn new(alloc: Global) -> NativeIndex
        ensures { (hash : ℕ) → noted result hash ≡ [] }
    {
        NativeIndex {
            places: IndexMap::with_hasher(alloc, StraightHasherBuilder),
        }
    }

    /// Where its memory comes from.
    pub fn allocator(&self) -> Global {
        *self.places.allocator()
    }

    /// An equal index.
    pub fn dup(&self, _alloc: Global) -> Result<NativeIndex, OutOfMemory>
        ensures { IfOk result (λ copy. (hash : ℕ) → noted copy hash ≡ noted self.now hash) }
    {
        Ok(NativeIndex {
            places: self.places.clone()?,
        })
    }

    /// The places that are noted under a hash.
    pub fn places(&self, hash: u64) -> &[usize]
        ensures { result.now ≡ noted self.now hash }
    {
        match self.places.get(&hash) {
            Some(places) => places.as_slice(),
            None => &[],
        }
    }

    /// Takes the place that was noted last under a hash out again.
    pub fn unnote(&mut self, hash: u64)
        ensures { (other : ℕ) → noted self.new other ≡ (if nat_eq other hash then but_last (noted self.old other) else noted self.old other) }
    {
        if let Some(places) = self.places.get_mut(&hash) {
            places.pop();
        }
    }

    /// Notes a place under a hash, last.
    pub fn note(&mut self, alloc: Global, hash: u64, place: usize) -> Result<(), OutOfMemory>
        ensures ok { OnOk result ((other : ℕ) → noted self.new other ≡ noted self.old other ++ (if nat_eq other hash then place ∷ [] else [])) }
        ensures err { OnErr result ((other : ℕ) → noted self.new other ≡ noted self.old other) }
    {
        match self.places.get_mut(&hash) {
            Some(places) => {
                places.push(place)?;
                Ok(())
            }
            None => self.note_first(alloc, hash, place),
        }
    }

    /// Notes a place under a hash that has none.
    fn note_first(&mut self, alloc: Global, hash: u64, place: usize) -> Result<(), OutOfMemory>
        requires { noted self.old hash ≡ [] }
        ensures ok { OnOk result ((other : ℕ) → noted self.new other ≡ noted self.old other ++ (if nat_eq other hash then place ∷ [] else [])) }
        ensures err { OnErr result ((other : ℕ) → noted self.new other ≡ noted self.old other) }
    {
        let mut places = SmallVec::new(alloc);
        places.push(place)?;
        self.places.insert(hash, places)?;
        Ok(())
    }
}
