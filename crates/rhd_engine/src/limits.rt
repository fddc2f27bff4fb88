//! How much an engine allows.

/// Limits of calls. The first three bound what a value that a call answers, or the first argument of
/// a native, holds in all, what stands inside arrays, maps and pointers counted too.
#[derive(Clone, Copy, PartialEq, Eq, Debug)]
pub struct Limits {
    /// How many elements of arrays.
    pub array: u32,
    /// How many entries of maps.
    pub map: u32,
    /// How many bytes of texts.
    pub text: u32,
    /// How many calls may be open at once.
    pub level: u32,
    /// How many calls may be begun in all.
    pub budget: u64,
}

/// Which printers are set: that of `print`, and that of `debug`.
#[derive(Clone, Copy, PartialEq, Eq, Debug)]
pub struct Printers {
    pub print: bool,
    pub debug: bool,
}

impl Printers {
    /// Neither is set.
    pub const NONE: Printers = Printers {
        print: false,
        debug: false,
    };
}

impl Limits {
    /// The limits where none are set.
    pub const DEFAULT: Limits = Limits {
        array: 65_536,
        map: 65_536,
        text: 1_048_576,
        level: 64,
        budget: 1_000_000,
    };
}
