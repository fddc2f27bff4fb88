//! The mixer: a hash of a row of bytes.

ghost use Rattle.std.specs.Prelude.{◌≡◌, [], ◌∷◌};
ghost use Rattle.rhd_hash.specs.Mix.{fresh, after, answer, seven_zeros};
ghost use Rattle.rhd_hash.specs.Parts.{count_bytes, text_bytes, four_bytes};

use rhd_value::Text;

/// What a hash depends on beside what is hashed: two numbers that are mixed in, and the bits that
/// an answer may have.
#[derive(Clone, Copy, PartialEq, Eq, Debug)]
pub struct Seeds {
    /// It is mixed in before the first byte.
    pub seed0: u64,
    /// It is mixed in after the last byte.
    pub seed1: u64,
    /// The bits that an answer may have. With fewer bits more keys have one hash.
    pub mask: u64,
}

/// The seeds where none are set: nothing is mixed in, and an answer may have every bit.
impl Default for Seeds {
    ghost is_default = { λ seeds. seeds ≡ record { seed0 = 0; seed1 = 0; mask = 0xffffffffffffffff } };

    fn default() -> Self {
        Seeds {
            seed0: 0,
            seed1: 0,
            mask: u64::MAX,
        }
    }
}

/// A hash in the making: it takes bytes, and tells the hash of those that it took.
#[derive(Clone, Copy, Debug)]
pub struct Mixer {
    seeds: Seeds,
    state: u64,
}

/// A mixer that took no byte yet.
pub fn get_hasher(seeds: Seeds) -> Mixer
    ensures { result ≡ fresh seeds }
{
    Mixer {
        seeds,
        state: 0xcbf29ce484222325 ^ seeds.seed0,
    }
}

impl Mixer {
    /// Takes a byte.
    pub fn write_u8(&mut self, byte: u8)
        ensures { self.new ≡ after self.old (byte ∷ []) }
    {
        self.state = (self.state ^ byte as u64).wrapping_mul(0x100000001b3);
    }

    /// Takes a text: its length in bytes as a count, then its bytes.
    pub fn write_text(&mut self, text: &Text)
        ensures { self.new ≡ after self.old (text_bytes text.now) }
    {
        self.write_count(text.len() as u64);
        self.write(text.as_str().as_bytes());
    }

    /// Takes a count: eight bytes, the lowest first. Those of a small one are zero behind the first.
    pub fn write_count(&mut self, count: u64)
        ensures { self.new ≡ after self.old (count_bytes count) }
    {
        if count < 256 {
            self.write_u8(count as u8);
            self.write_zeros();
        } else {
            self.write(&count.to_le_bytes());
        }
    }

    /// Takes seven bytes of zero, each of which multiplies alone.
    fn write_zeros(&mut self)
        ensures { self.new ≡ after self.old seven_zeros }
    {
        self.state = self.state.wrapping_mul(0xc5527b8a51d3d2db);
    }

    /// The hash of the bytes that were taken.
    pub fn finish(&self) -> u64
        ensures { result ≡ answer self.now }
    {
        let mixed = self.state ^ (self.state >> 32) ^ self.seeds.seed1;
        mixed & self.seeds.mask
    }

    /// Takes the number of a custom type: four bytes, the lowest first.
    pub(crate) fn write_u32(&mut self, number: u32)
        ensures { self.new ≡ after self.old (four_bytes number) }
    {
        self.write(&number.to_le_bytes());
    }

    fn write(&mut self, bytes: &[u8])
        ensures { self.new ≡ after self.old (bytes.now) }
    {
        for byte in bytes {
            self.write_u8(*byte);
        }
    }
}
