//! The functions that one manifest lists itself.

ghost use Rattle.std.specs.Prelude.{◌≡◌, ◌++◌, ◌∷◌, [], ◌<◌, length, reverse, drop, suc, Some, IfOk, OnOk, OnErr};
ghost use Rattle.std.specs.List.{FoldsTo, list_any};
ghost use Rattle.std.specs.Fn.{CalledAt, FnReturnsAt};
ghost use Rattle.std.specs.Option.{option_copied};
ghost use Rattle.rhd_hash.specs.Keys.{key_eq};
ghost use Rattle.rhd_manifest.specs.Entry.{entry_key};
ghost use Rattle.rhd_manifest.specs.Index.{index_hash, entry_at, has_other};
ghost use Rattle.rhd_manifest.specs.Meets.{IsFirstThatMeets};
ghost use Rattle.rhd_manifest.specs.Rank.{find_entry};

use crate::entry::FnManifestEntry;
use indexmap::IndexMap;
use rhd_hash::{Key, Seeds, StraightHasherBuilder};
use rhd_value::OutOfMemory;
use std::alloc::{AllocError, Global};
use std::marker::Model;

/// Functions in the order in which they were listed, with an index of their keys. Contracts see the list
/// of them.
#[derive(Drop)]
pub struct EntryList {
    entries: Vec<FnManifestEntry>,
    /// The place of the last entry under each hash of a key.
    places: IndexMap<u64, usize, StraightHasherBuilder>,
    /// Whether two keys have one hash. Then entries are looked for one by one.
    clashes: bool,
}

impl Model for EntryList {
    ghost use Rattle.std.specs.Prelude.{List, nat_eq};
    ghost use Rattle.std.specs.Coded.{coded_list};
    ghost use Rattle.std.specs.HashMap.{get};
    ghost use Rattle.rhd_manifest.specs.Entry.{Entry, coded_entry};
    ghost use Rattle.rhd_manifest.specs.Index.{IsIndex};

    ghost Value = { List Entry };

    ghost coded = { coded_list coded_entry };

    ghost view = { λ l. l.entries.items };

    ghost invariant = { λ l. IsIndex (get nat_eq l.places) l.clashes l.entries.items };
}

/// The hash under which the place of an entry with this key is kept.
pub(crate) fn index_hash(key: &Key) -> u64
    ensures { result ≡ index_hash key.now }
{
    key.mixed(Seeds {
        seed0: 0,
        seed1: 0,
        mask: u64::MAX,
    })
}

/// The last of some entries under a key.
fn find_last<'a>(entries: &'a [FnManifestEntry], key: &Key) -> Option<&'a FnManifestEntry>
    ensures { option_copied result ≡ find_entry key.now (reverse entries.now) }
{
    for entry in entries.iter().rev() {
        if *key == *entry.key() {
            return Some(entry);
        }
    }
    None
}

/// The entry at a place, if there is one and it is under a key.
fn entry_at<'a>(
    entries: &'a [FnManifestEntry],
    key: &Key,
    place: usize,
) -> Option<&'a FnManifestEntry>
    ensures { option_copied result ≡ entry_at key.now entries.now (Some place) }
{
    match entries.get(place) {
        Some(entry) => {
            if *key == *entry.key() {
                Some(entry)
            } else {
                None
            }
        }
        None => None,
    }
}

/// Whether there is a place, and at it no entry under a key.
fn has_other(entries: &[FnManifestEntry], key: &Key, place: Option<usize>) -> bool
    ensures { result ≡ has_other key.now entries.now place }
{
    match place {
        Some(place) => entry_at(entries, key, place).is_none(),
        None => false,
    }
}

/// Calls a function on each of some entries, from the first to the last.
pub(crate) fn for_each<F: FnMut(&FnManifestEntry)>(entries: &[FnManifestEntry], f: &mut F)
    requires { F.IsAlwaysCallable f.old }
    ensures called { FoldsTo (λ p e q. CalledAt F.FnMut p e tt q) f.old entries.now f.new }
    ensures callable { F.IsAlwaysCallable f.new }
{
    for entry in entries {
        f(entry);
    }
}

/// The last of some entries that a test passes.
pub(crate) fn find_last_that<'a, F: Fn(&FnManifestEntry) -> bool>(
    entries: &'a [FnManifestEntry],
    f: &F,
) -> Option<&'a FnManifestEntry>
    requires { F.IsAlwaysCallable f.now }
    ensures { IsFirstThatMeets (λ e r. FnReturnsAt F.Fn f.now e r) (reverse entries.now) (option_copied result) }
{
    for entry in entries.iter().rev() {
        if f(entry) {
            return Some(entry);
        }
    }
    None
}

/// Whether an entry is under a key.
fn any_under(entries: &[FnManifestEntry], key: &Key) -> bool
    ensures { result ≡ list_any (λ e. key_eq key.now (entry_key e)) entries.now }
{
    for entry in entries {
        if *key == *entry.key() {
            return true;
        }
    }
    false
}

impl EntryList {
    /// No functions.
    pub(crate) fn new(alloc: Global) -> EntryList
        ensures { result ≡ [] }
    {
        EntryList {
            entries: Vec::new(alloc),
            places: IndexMap::with_hasher(alloc, StraightHasherBuilder),
            clashes: false,
        }
    }

    /// The functions, in the order in which they were listed.
    pub fn as_slice(&self) -> &[FnManifestEntry]
        ensures { result.now ≡ self.now }
    {
        self.entries.as_slice()
    }

    /// The last entry under a key, by its hash.
    #[inline(always)]
    pub(crate) fn find_key(&self, hash: u64, key: &Key) -> Option<&FnManifestEntry>
        requires { hash ≡ index_hash key.now }
        ensures { option_copied result ≡ find_entry key.now (reverse self.now) }
    {
        if self.clashes {
            return find_last(self.entries.as_slice(), key);
        }
        match self.places.get(&hash) {
            Some(place) => entry_at(self.entries.as_slice(), key, *place),
            None => None,
        }
    }

    /// Whether an entry behind a place is under a key, by its hash.
    pub(crate) fn has_behind(&self, place: usize, hash: u64, key: &Key) -> bool
        requires place { place < length self.now }
        requires hash { hash ≡ index_hash key.now }
        ensures { result ≡ list_any (λ e. key_eq key.now (entry_key e)) (drop (suc place) self.now) }
    {
        if self.clashes {
            return any_under(&self.entries[place + 1..], key);
        }
        match self.places.get(&hash) {
            Some(last) => place < *last && entry_at(self.entries.as_slice(), key, *last).is_some(),
            None => false,
        }
    }

    /// Lists one entry more.
    pub(crate) fn push(&mut self, entry: FnManifestEntry) -> Result<(), OutOfMemory>
        ensures ok { OnOk result (self.new ≡ self.old ++ entry ∷ []) }
        ensures err { OnErr result (self.new ≡ self.old) }
    {
        let place = self.entries.len();
        let key = entry.key();
        let hash = index_hash(key);
        let before = self.places.get(&hash).copied();
        let other = has_other(self.entries.as_slice(), key, before);
        let clashes = self.clashes | other;
        self.entries.push(entry)?;
        match self.places.insert(hash, place) {
            Ok(_) => {
                self.clashes = clashes;
                Ok(())
            }
            Err(_) => {
                self.entries.pop();
                Err(OutOfMemory)
            }
        }
    }

    /// An equal list.
    fn dup(&self, alloc: Global) -> Result<EntryList, OutOfMemory>
        ensures { IfOk result (λ copy. copy ≡ self.now) }
    {
        let mut copy = EntryList::new(alloc);
        for entry in self.as_slice() {
            copy.push(entry.dup(alloc)?)?;
        }
        Ok(copy)
    }
}

/// A clone is the list itself.
impl Clone for EntryList {
    ghost use Rattle.std.specs.Prelude.{◌≡◌};

    ghost is_clone = { λ old copy. copy ≡ old };

    fn clone(&self) -> Result<EntryList, AllocError> {
        match self.dup(*self.places.allocator()) {
            Ok(list) => Ok(list),
            Err(OutOfMemory) => Err(AllocError),
        }
    }
}
