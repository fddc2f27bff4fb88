//! A hasher of numbers that are hashes already.

ghost use Rattle.std.specs.Prelude.{◌≡◌, fold};
ghost use Rattle.std.specs.Hash as fed;
ghost use Rattle.rhd_hash.specs.Straight.{straight};

use std::collections::HashMap;
use std::hash::{BuildHasher, Hasher};

/// A hasher that answers the number that it was given, for keys that are hashes already.
///
/// Eight bytes are the number that they are written for, the lowest first. Bytes of another count
/// change nothing.
#[derive(Clone, Copy, Debug, PartialEq, Eq, PartialOrd, Ord, Hash)]
pub struct StraightHasher {
    value: u64,
}

impl Hasher for StraightHasher {
    ghost write = { straight };

    ghost finish = { λ s. s.value };

    fn finish(&self) -> u64 {
        self.value
    }

    fn write(&mut self, bytes: &[u8]) {
        if bytes.len() == 8 {
            self.value = u64::from_le_bytes([
                bytes[0], bytes[1], bytes[2], bytes[3], bytes[4], bytes[5], bytes[6], bytes[7],
            ]);
        }
    }

    fn write_u64(&mut self, number: u64)
        ensures value { self.new.value ≡ number }
        ensures as_bytes { self.new ≡ fold straight self.old (fed.u64 number) }
    {
        self.value = number;
    }
}

/// Makes the hashers of a map whose keys are hashes already.
#[derive(Clone, Copy, Debug, PartialEq, Eq, PartialOrd, Ord, Hash, Default)]
pub struct StraightHasherBuilder;

impl BuildHasher for StraightHasherBuilder {
    type Hasher = StraightHasher;

    ghost build_hasher = { λ _. record { value = 0 } };

    fn build_hasher(&self) -> StraightHasher {
        StraightHasher { value: 0 }
    }
}

/// A map whose keys are hashes already.
pub type StraightHashMap<V> = HashMap<u64, V, StraightHasherBuilder>;
