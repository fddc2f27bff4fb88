//! Filters, which tell of a number that it was not marked.

ghost use Rattle.std.specs.Prelude.{◌≡◌, ◌↔◌, ℕ, ◌<◌, ◌==◌, ◌||◌, not, true, false, nat_eq, ⊤};
ghost use Rattle.std.specs.Int.{bit_at};
ghost use Rattle.std.specs.Hash as fed;
ghost use Rattle.std.proofs.Common.{ap};
ghost use Rattle.std.proofs.lemmas.Slice.Eq.{bytes_eq-Decides};
ghost use Rattle.std.specs.Cmp.{partial_equiv_from_equiv};
ghost use Rattle.std.specs.Cmp.Lexicographic.{pointwise, nat_list_eq_equiv};
ghost use Rattle.rhd_hash.specs.Filter.{is_marked, Marks, Joins};

use std::alloc::AllocError;
use std::hash::{Hash, Hasher};
use std::marker::Model;
use std::ops::{Add, AddAssign};

/// A filter of `SIZE` bytes, which has a slot for each of its bits. The number `v` has the bit
/// `v % 8` of the byte `(v / 8) % SIZE`, so numbers that are equal modulo `8 * SIZE` share one.
#[derive(Drop)]
pub struct BloomFilterU64<const SIZE: usize> {
    bytes: [u8; SIZE],
}

impl<const SIZE: usize> Model for BloomFilterU64<SIZE> {
    ghost use Rattle.std.specs.Prelude.{List, ℕ};

    ghost Value = { List ℕ };

    ghost view = { λ f. f.bytes };
}

/// Whether a byte has no bit.
fn is_clear(byte: u8) -> bool
    ensures { (result ≡ true) ↔ ((i : ℕ) → i < 8 → bit_at byte i ≡ 0) }
{
    byte == 0
}

impl<const SIZE: usize> BloomFilterU64<SIZE> {
    /// A filter without a mark.
    pub fn new() -> Self
        ensures { (v : ℕ) → is_marked SIZE result v ≡ false }
    {
        BloomFilterU64 { bytes: [0; SIZE] }
    }

    /// Whether nothing is marked.
    pub fn is_empty(&self) -> bool
        ensures { (result ≡ true) ↔ ((v : ℕ) → is_marked SIZE self.now v ≡ false) }
    {
        for byte in &self.bytes {
            if !is_clear(*byte) {
                return false;
            }
        }
        true
    }

    /// Takes all marks away.
    pub fn clear(&mut self)
        ensures { (v : ℕ) → is_marked SIZE self.new v ≡ false }
    {
        let empty = [0; SIZE];
        self.bytes = empty;
    }

    /// Marks a number.
    pub fn mark(&mut self, value: u64)
        requires { 0 < SIZE }
        ensures { Marks SIZE value self.old self.new }
    {
        let bytes = &mut self.bytes;
        let place = (value / 8) as usize % SIZE;
        bytes[place] |= 1 << (value % 8);
    }

    /// Whether neither the number nor another one with the same slot was marked.
    pub fn is_absent(&self, value: u64) -> bool
        requires { 0 < SIZE }
        ensures { result ≡ not (is_marked SIZE self.now value) }
    {
        let bytes = &self.bytes;
        let place = (value / 8) as usize % SIZE;
        (bytes[place] >> (value % 8)) & 1 == 0
    }

    /// Whether the number was absent; it is marked then.
    pub fn is_absent_and_set(&mut self, value: u64) -> bool
        requires { 0 < SIZE }
        ensures absent { result ≡ not (is_marked SIZE self.old value) }
        ensures marks { Marks SIZE value self.old self.new }
    {
        let absent = self.is_absent(value);
        self.mark(value);
        absent
    }
}

/// A filter without a mark.
impl<const SIZE: usize> Default for BloomFilterU64<SIZE> {
    ghost is_default = { λ f. (v : ℕ) → is_marked SIZE f v ≡ false };

    fn default() -> Self {
        BloomFilterU64::new()
    }
}

/// A clone takes no memory.
impl<const SIZE: usize> Clone for BloomFilterU64<SIZE> {
    ghost is_clone = { λ f copy. copy ≡ f };

    ghost is_infallible = { λ _. ⊤ };

    fn clone(&self) -> Result<Self, AllocError> {
        Ok(BloomFilterU64 { bytes: self.bytes })
    }
}

impl<const SIZE: usize> PartialEq for BloomFilterU64<SIZE> {
    ghost eq = { pointwise nat_eq };

    ghost laws = { partial_equiv_from_equiv nat_list_eq_equiv };

    fn eq(&self, other: &Self) -> bool {
        self.bytes == other.bytes
    }
}

impl<const SIZE: usize> Eq for BloomFilterU64<SIZE> {
    ghost laws = { nat_list_eq_equiv };
}

impl<const SIZE: usize> Hash for BloomFilterU64<SIZE> {
    ghost hash_input = { fed.slice fed.u8 };

    ghost respects_eq = { λ x y e. ap (fed.slice fed.u8) ((bytes_eq-Decides x y).0 e) };

    fn hash<H: Hasher>(&self, state: &mut H) {
        self.bytes.hash(state);
    }
}

/// Puts the marks of another filter to those of this one.
impl<const SIZE: usize> AddAssign for BloomFilterU64<SIZE> {
    ghost add_assign_gives = { λ a b sum. Joins SIZE a b sum };

    fn add_assign(&mut self, rhs: Self) {
        *self += &rhs;
    }
}

/// Puts the marks of another filter to those of this one.
impl<const SIZE: usize> AddAssign<&BloomFilterU64<SIZE>> for BloomFilterU64<SIZE> {
    ghost add_assign_gives = { λ a b sum. Joins SIZE a b.now sum };

    fn add_assign(&mut self, rhs: &BloomFilterU64<SIZE>) {
        let bytes = &mut self.bytes;
        let others = &rhs.bytes;
        for i in 0..SIZE {
            bytes[i] |= others[i];
        }
    }
}

/// The marks of both filters.
impl<const SIZE: usize> Add for BloomFilterU64<SIZE> {
    type Output = Self;

    ghost add_gives = { λ a b sum. Joins SIZE a b sum };

    fn add(self, rhs: Self) -> Self {
        let mut sum = self;
        sum += &rhs;
        sum
    }
}
