//! Keys with several owners, and with their hashes.

ghost use Rattle.std.specs.Prelude.{◌≡◌, IfOk};
ghost use Rattle.rhd_hash.specs.Parts.{mixed};

use crate::hashed::HashedKey;
use crate::key::Key;
use crate::mixer::Seeds;
use rhd_value::OutOfMemory;
use std::alloc::Global;
use std::marker::Model;
use std::rc::Rc;

/// What the owners of a key share. Contracts see the key. What a look-up asks first stands in front.
#[derive(Drop)]
struct Parts {
    hash: u64,
    seeds: Seeds,
    key: Key,
}

impl Model for Parts {
    ghost use Rattle.std.specs.Prelude.{◌≡◌};
    ghost use Rattle.rhd_hash.specs.Parts.{mixed};
    ghost use Rattle.rhd_hash.specs.declared.key.Key.{Key};

    ghost Value = { Key };

    ghost view = { λ p. p.key };

    ghost invariant = { λ p. p.hash ≡ mixed p.seeds p.key };
}

impl Parts {
    fn key(&self) -> &Key
        ensures { result.now ≡ self.now }
    {
        &self.key
    }

    fn hashed(&self) -> HashedKey<'_>
        ensures { result ≡ self.now }
    {
        HashedKey::known(&self.key, self.seeds, self.hash)
    }
}

/// A key with its hash under some seeds, which has several owners: no table copies it or hashes it anew.
/// Contracts see the key.
#[derive(Drop)]
pub struct SharedKey {
    parts: Rc<Parts>,
}

impl Model for SharedKey {
    ghost use Rattle.rhd_hash.specs.declared.key.Key.{Key};

    ghost Value = { Key };

    ghost view = { λ k. k.parts.value };
}

impl SharedKey {
    /// A key with its hash under these seeds.
    pub fn new(alloc: Global, key: Key, seeds: Seeds) -> Result<SharedKey, OutOfMemory>
        ensures { IfOk result (λ shared. shared ≡ key) }
    {
        let hash = key.mixed(seeds);
        SharedKey::known(alloc, key, seeds, hash)
    }

    /// A key with its hash under these seeds, where that is at hand.
    #[inline(always)]
    pub fn known(alloc: Global, key: Key, seeds: Seeds, hash: u64) -> Result<SharedKey, OutOfMemory>
        requires { hash ≡ mixed seeds key }
        ensures { IfOk result (λ shared. shared ≡ key) }
    {
        Ok(SharedKey {
            parts: Rc::new(alloc, Parts { hash, seeds, key })?,
        })
    }

    /// The key.
    pub fn key(&self) -> &Key
        ensures { result.now ≡ self.now }
    {
        self.parts.key()
    }

    /// The key with its hash, lent.
    pub fn hashed(&self) -> HashedKey<'_>
        ensures { result ≡ self.now }
    {
        self.parts.hashed()
    }

    /// One more owner of the same key.
    pub fn dup(&self, _alloc: Global) -> Result<SharedKey, OutOfMemory>
        ensures { IfOk result (λ shared. shared ≡ self.now) }
    {
        Ok(SharedKey {
            parts: self.parts.clone()?,
        })
    }
}
