//! Tables by key.

ghost use Rattle.std.specs.Prelude.{◌≡◌, ℕ, ◌<◌, [], false, length, take, slice_get, Some, None, IfOk, IfErr, OnOk, OnErr, IfSome, IfNone, IsErr};
ghost use Rattle.std.specs.List.{Contains};
ghost use Rattle.std.specs.Option.{option_map, option_copied};
ghost use Rattle.std.specs.Map.{lookup, keys_of};
ghost use Rattle.indexmap.specs.Layout.{set_value_at};
ghost use Rattle.rhd_hash.specs.declared.fault.TableFault.TheVariants.{OutOfMemory as no_memory};
ghost use Rattle.rhd_hash.specs.Covers.{Covers, HasNoScript};
ghost use Rattle.rhd_hash.specs.Filter.{is_marked};
ghost use Rattle.rhd_hash.specs.Keys.{key_eq};
ghost use Rattle.rhd_hash.specs.Parts.{mixed};
ghost use Rattle.rhd_hash.specs.PutIn.{put_in};
ghost use Rattle.rhd_hash.specs.Refusal.{IsRefusal};
ghost use Rattle.rhd_hash.specs.Slots.{IsFree};
ghost use Rattle.rhd_hash.specs.Table.{first_hashed, HasOwnHashes, Clashes};

use crate::fault::TableFault;
use crate::filter::BloomFilterU64;
use crate::hashed::HashedKey;
use crate::key::Key;
use crate::mixer::Seeds;
use crate::shared_key::SharedKey;
use crate::straight::StraightHasherBuilder;
use indexmap::IndexMap;
use indexmap::map::Values;
use rhd_value::OutOfMemory;
use std::alloc::Global;
use std::marker::Model;
use std::mem;

/// Values by key, in the order in which their keys came first. No two keys have one hash: a key
/// that clashes with another isn't taken in. Contracts see the seeds and the list of pairs.
#[derive(Drop)]
pub struct KeyTable<V> {
    seeds: Seeds,
    slots: IndexMap<u64, (SharedKey, V), StraightHasherBuilder>,
    /// Marks the hash of each key.
    marks: BloomFilterU64<128>,
    /// Whether a script's key was ever put in.
    scripts: bool,
}

impl<V> Model for KeyTable<V> {
    ghost use Rattle.std.specs.Prelude.{map};
    ghost use Rattle.rhd_hash.specs.Slots.{AreSlots};
    ghost use Rattle.rhd_hash.specs.Table.{Table};

    ghost Value = { Table V };

    ghost view = { λ t. record { seeds = t.seeds; pairs = map (λ e. e.1) t.slots.entries } };

    ghost invariant = { λ t. AreSlots t.seeds t.marks t.scripts t.slots.entries };
}

/// The value of a pair that was replaced.
fn value_of<V>(pair: Option<(SharedKey, V)>) -> Option<V>
    ensures { result ≡ option_map (λ p. p.1) pair }
{
    match pair {
        Some((_key, value)) => Some(value),
        None => None,
    }
}

impl<V> KeyTable<V> {
    /// A table without pairs, whose keys are hashed under these seeds.
    pub fn new(alloc: Global, seeds: Seeds) -> KeyTable<V>
        ensures { result ≡ record { seeds = seeds; pairs = [] } }
    {
        KeyTable {
            seeds,
            slots: IndexMap::with_hasher(alloc, StraightHasherBuilder),
            marks: BloomFilterU64::new(),
            scripts: false,
        }
    }

    /// The seeds under which keys are hashed.
    pub fn seeds(&self) -> Seeds
        ensures { result ≡ self.now.seeds }
    {
        self.seeds
    }

    /// A filter that has a mark for the hash of each key.
    pub fn marks(&self) -> &BloomFilterU64<128>
        ensures { Covers 128 result.now self.now.seeds self.now.pairs }
    {
        &self.marks
    }

    /// Marks the hash of each key in another filter.
    pub fn mark_keys<const SIZE: usize>(&self, filter: &mut BloomFilterU64<SIZE>)
        requires { 0 < SIZE }
        ensures kept { (v : ℕ) → is_marked SIZE filter.new v ≡ false → is_marked SIZE filter.old v ≡ false }
        ensures covers { Covers SIZE filter.new self.now.seeds self.now.pairs }
    {
        for hash in self.slots.keys() {
            filter.mark(*hash);
        }
    }

    /// Whether a script's key may be there.
    pub fn may_have_script(&self) -> bool
        ensures { result ≡ false → HasNoScript self.now.pairs }
    {
        self.scripts
    }

    /// The number of pairs.
    pub fn len(&self) -> usize
        ensures { result ≡ length self.now.pairs }
    {
        self.slots.len()
    }

    /// The pairs, in order.
    pub fn iter(&self) -> Values<'_, u64, (SharedKey, V)>
        ensures pairs { result ≡ self.now.pairs }
        ensures apart { HasOwnHashes self.now.seeds (keys_of self.now.pairs) }
    {
        self.slots.values()
    }

    /// The pair at a place, counted from 0; none where there is nothing.
    pub fn get_index(&self, place: usize) -> Option<(&Key, &V)>
        ensures { option_map (λ p. (p.0.now, p.1.now)) result ≡ slice_get self.now.pairs place }
    {
        match self.slots.get_index(place) {
            Some((_hash, pair)) => Some((pair.0.key(), &pair.1)),
            None => None,
        }
    }

    /// The pair whose key has this hash.
    pub fn get_by_hash(&self, hash: u64) -> Option<(&Key, &V)>
        ensures pair { option_map (λ p. (p.0.now, p.1.now)) result ≡ first_hashed (mixed self.now.seeds) hash self.now.pairs }
        ensures apart { HasOwnHashes self.now.seeds (keys_of self.now.pairs) }
    {
        match self.pair_by_hash(hash) {
            Some((key, value)) => Some((key.key(), value)),
            None => None,
        }
    }

    /// The same as it is kept.
    fn pair_by_hash(&self, hash: u64) -> Option<&(SharedKey, V)>
        ensures pair { option_copied result ≡ first_hashed (mixed self.now.seeds) hash self.now.pairs }
        ensures apart { HasOwnHashes self.now.seeds (keys_of self.now.pairs) }
    {
        self.slots.get(&hash)
    }

    /// The value under a key.
    pub fn get(&self, key: &Key) -> Option<&V>
        ensures { option_copied result ≡ lookup (key_eq key.now) self.now.pairs }
    {
        if self.slots.is_empty() {
            return None;
        }
        self.get_hashed(&HashedKey::new(key, self.seeds))
    }

    /// The value under a key whose hash is at hand.
    #[inline(always)]
    pub fn get_hashed(&self, key: &HashedKey) -> Option<&V>
        ensures { option_copied result ≡ lookup (key_eq key.now) self.now.pairs }
    {
        let hash = key.hash_under(self.seeds);
        if self.marks.is_absent(hash) {
            return None;
        }
        match self.get_by_hash(hash) {
            Some((held, value)) => {
                if *held == *key.key() {
                    Some(value)
                } else {
                    None
                }
            }
            None => None,
        }
    }

    /// Puts a value under a key: an equal key keeps its place, and its value so far is answered;
    /// else the pair goes last. A key that clashes with another one is refused. Memory may run out only
    /// where the key isn't there.
    pub fn insert(&mut self, key: Key, value: V) -> Result<Option<V>, TableFault>
    where
        V: Drop,
        ensures old { IfOk result (λ old. old ≡ lookup (key_eq key) self.old.pairs) }
        ensures pairs { OnOk result (self.new ≡ record self.old { pairs = put_in key_eq key value self.old.pairs }) }
        ensures unchanged { OnErr result (self.new ≡ self.old) }
        ensures absent { OnErr result (lookup (key_eq key) self.old.pairs ≡ None) }
        ensures refused { IfErr result (IsRefusal self.old key) }
        ensures apart { OnOk result (HasOwnHashes self.new.seeds (keys_of self.new.pairs)) }
        ensures refuses { (held : _) → Contains (keys_of self.old.pairs) held → Clashes self.old.seeds held key → IsErr result }
    {
        let hash = key.mixed(self.seeds);
        if let Some(place) = self.place_of(&key, hash) {
            return Ok(self.set_value(place, value));
        }
        let key = SharedKey::known(*self.slots.allocator(), key, self.seeds, hash)?;
        self.insert_shared(key, value)
    }

    /// The same under a key that tables share. Memory may run out only where the key isn't there.
    pub fn insert_shared(&mut self, key: SharedKey, value: V) -> Result<Option<V>, TableFault>
    where
        V: Drop,
        ensures old { IfOk result (λ old. old ≡ lookup (key_eq key) self.old.pairs) }
        ensures pairs { OnOk result (self.new ≡ record self.old { pairs = put_in key_eq key value self.old.pairs }) }
        ensures unchanged { OnErr result (self.new ≡ self.old) }
        ensures absent { OnErr result (lookup (key_eq key) self.old.pairs ≡ None) }
        ensures refused { IfErr result (IsRefusal self.old key) }
        ensures apart { OnOk result (HasOwnHashes self.new.seeds (keys_of self.new.pairs)) }
        ensures refuses { (held : _) → Contains (keys_of self.old.pairs) held → Clashes self.old.seeds held key → IsErr result }
    {
        let hash = key.hashed().hash_under(self.seeds);
        if let Some(held) = self.clash_with(key.key(), hash)? {
            return Err(TableFault::Clash { held, new: key });
        }
        self.put(key, hash, value)
    }

    /// Makes room for so many more pairs at once.
    pub fn reserve(&mut self, additional: usize) -> Result<(), OutOfMemory>
        ensures { self.new ≡ self.old }
    {
        self.slots.reserve(additional)?;
        Ok(())
    }

    /// Keeps the first pairs alone.
    pub fn truncate(&mut self, len: usize)
    where
        V: Drop,
        ensures { self.new ≡ record self.old { pairs = take len self.old.pairs } }
    {
        self.slots.truncate(len);
    }

    /// The key that clashes with this one, which has this hash.
    fn clash_with(&self, key: &Key, hash: u64) -> Result<Option<SharedKey>, OutOfMemory>
        requires { hash ≡ mixed self.now.seeds key.now }
        ensures apart { HasOwnHashes self.now.seeds (keys_of self.now.pairs) }
        ensures free { IfOk result (λ r. IfNone r (IsFree self.now key.now)) }
        ensures held { IfOk result (λ r. IfSome r (λ held. Contains (keys_of self.now.pairs) held × Clashes self.now.seeds held key.now)) }
        ensures absent { IfOk result (λ r. IfSome r (λ _. lookup (key_eq key.now) self.now.pairs ≡ None)) }
        ensures err { OnErr result (lookup (key_eq key.now) self.now.pairs ≡ None) }
    {
        match self.pair_by_hash(hash) {
            Some((held, _value)) => {
                if *held.key() == *key {
                    Ok(None)
                } else {
                    Ok(Some(held.dup(*self.slots.allocator())?))
                }
            }
            None => Ok(None),
        }
    }

    /// Where a key stands, which has this hash.
    fn place_of(&self, key: &Key, hash: u64) -> Option<usize>
        requires { hash ≡ mixed self.now.seeds key.now }
        ensures there { IfSome result (λ place. option_map (λ p. p.0) (slice_get self.now.pairs place) ≡ Some key.now) }
        ensures absent { IfNone result (lookup (key_eq key.now) self.now.pairs ≡ None) }
        ensures apart { HasOwnHashes self.now.seeds (keys_of self.now.pairs) }
    {
        let Some(place) = self.slots.get_index_of(&hash) else {
            return None;
        };
        match self.get_index(place) {
            Some((held, _value)) => { if *held == *key { Some(place) } else { None } }
            None => None,
        }
    }

    /// Puts a value in the place of that of the pair at a place. Answers that.
    fn set_value(&mut self, place: usize, value: V) -> Option<V>
    where
        V: Drop,
        ensures old { result ≡ option_map (λ p. p.1) (slice_get self.old.pairs place) }
        ensures pairs { self.new ≡ record self.old { pairs = set_value_at self.old.pairs place value } }
    {
        match self.slots.get_index_mut(place) {
            Some(pair) => Some(mem::replace(&mut pair.1, value)),
            None => None,
        }
    }

    /// Puts a value under a key that has this hash and clashes with none.
    fn put(&mut self, key: SharedKey, hash: u64, value: V) -> Result<Option<V>, TableFault>
    where
        V: Drop,
        requires hash { hash ≡ mixed self.old.seeds key }
        requires free { IsFree self.old key }
        ensures old { IfOk result (λ old. old ≡ lookup (key_eq key) self.old.pairs) }
        ensures pairs { OnOk result (self.new ≡ record self.old { pairs = put_in key_eq key value self.old.pairs }) }
        ensures unchanged { OnErr result (self.new ≡ self.old) }
        ensures absent { OnErr result (lookup (key_eq key) self.old.pairs ≡ None) }
        ensures refused { IfErr result (λ fault. fault ≡ no_memory) }
        ensures apart { OnOk result (HasOwnHashes self.new.seeds (keys_of self.new.pairs)) }
    {
        let script = key.key().is_script();
        match self.slots.insert(hash, (key, value)) {
            Ok(old) => {
                self.marks.mark(hash);
                self.scripts |= script;
                Ok(value_of(old))
            }
            Err(_) => Err(TableFault::OutOfMemory),
        }
    }
}
