//! Keys with their hashes, for look-ups in many modules.

ghost use Rattle.std.specs.Prelude.{◌≡◌};
ghost use Rattle.rhd_hash.specs.Keys.{key_name, key_params};
ghost use Rattle.rhd_hash.specs.Parts.{mixed, untyped};
ghost use Rattle.rhd_hash.specs.Untyped.{IsUntyped};

use crate::key::Key;
use crate::mixer::Seeds;
use std::marker::Model;

/// A key with its hash under some seeds, which is made once for all tables of these seeds. Contracts see
/// the key.
#[derive(Drop)]
pub struct HashedKey<'a> {
    key: &'a Key,
    seeds: Seeds,
    hash: u64,
}

impl<'a> Model for HashedKey<'a> {
    ghost use Rattle.std.specs.Prelude.{◌≡◌};
    ghost use Rattle.rhd_hash.specs.Parts.{mixed};
    ghost use Rattle.rhd_hash.specs.declared.key.Key.{Key};

    ghost Value = { Key };

    ghost view = { λ h. h.key.now };

    ghost invariant = { λ h. h.hash ≡ mixed h.seeds h.key.now };
}

impl<'a> HashedKey<'a> {
    /// A key with its hash under these seeds.
    pub fn new(key: &'a Key, seeds: Seeds) -> HashedKey<'a>
        ensures { result ≡ key.now }
    {
        HashedKey {
            key,
            seeds,
            hash: key.mixed(seeds),
        }
    }

    /// A key with its hash under these seeds, where that is at hand.
    pub fn known(key: &'a Key, seeds: Seeds, hash: u64) -> HashedKey<'a>
        requires { hash ≡ mixed seeds key.now }
        ensures { result ≡ key.now }
    {
        HashedKey { key, seeds, hash }
    }

    /// The key.
    pub fn key(&self) -> &'a Key
        ensures { result.now ≡ self.now }
    {
        self.key
    }

    /// Its hash under these seeds. It is hashed anew only where they are others than its own.
    pub fn hash_under(&self, seeds: Seeds) -> u64
        ensures { result ≡ mixed seeds self.now }
    {
        if self.seeds == seeds {
            self.hash
        } else {
            self.key.mixed(seeds)
        }
    }
}

/// The hash of a key by its name and its number of parameters alone, under some seeds. It is made once for
/// all filters of these seeds.
#[derive(Clone, Copy)]
pub struct UntypedHash {
    seeds: Seeds,
    hash: u64,
}

impl UntypedHash {
    /// That of a key under these seeds.
    pub fn new(key: &Key, seeds: Seeds) -> UntypedHash
        ensures { IsUntyped result key.now }
    {
        UntypedHash {
            seeds,
            hash: key.untyped(seeds),
        }
    }

    /// That of the same key under other seeds. It is made anew only where they are others than its own.
    pub fn under(self, key: &Key, seeds: Seeds) -> u64
        requires { IsUntyped self key.now }
        ensures { result ≡ untyped seeds (key_name key.now) (key_params key.now) }
    {
        if self.seeds == seeds {
            self.hash
        } else {
            key.untyped(seeds)
        }
    }
}
