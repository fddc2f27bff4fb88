//! The flags of a module.

ghost use Rattle.std.specs.Prelude.{⊤, ◌≡◌, [], ◌∷◌, codes, false};

use bitflags::{Flag, Flags};
use std::marker::Model;

/// Flags of a module as bits.
#[derive(Clone, Copy, PartialEq, Eq, Debug)]
pub struct ModuleFlags(u8);

impl ModuleFlags {
    /// Not for scripts.
    pub const INTERNAL: ModuleFlags = ModuleFlags(1);

    /// Part of the standard library.
    pub const STANDARD: ModuleFlags = ModuleFlags(2);

    /// Its index is that of its declarations and of those below.
    pub const INDEXED: ModuleFlags = ModuleFlags(4);

    /// All flags with their names.
    pub const FLAGS: &'static [Flag<ModuleFlags>] = &[
        Flag {
            name: "INTERNAL",
            value: ModuleFlags::INTERNAL,
        },
        Flag {
            name: "STANDARD",
            value: ModuleFlags::STANDARD,
        },
        Flag {
            name: "INDEXED",
            value: ModuleFlags::INDEXED,
        },
    ];
}

impl Flags for ModuleFlags {
    type Bits = u8;

    ghost exact = { ⊤ };

    ghost table = { (codes "INTERNAL", 1) ∷ (codes "STANDARD", 2) ∷ (codes "INDEXED", 4) ∷ [] };

    ghost set_of = { λ f. f.0 };

    fn flags<'a>() -> &'a [Flag<ModuleFlags>] {
        ModuleFlags::FLAGS
    }

    fn bits(&self) -> u8 {
        self.0
    }

    fn from_bits_retain(bits: u8) -> ModuleFlags {
        ModuleFlags(bits)
    }
}

/// The flags of a module. Contracts see them one by one.
#[derive(Drop)]
pub struct Switches {
    bits: ModuleFlags,
}

impl Model for Switches {
    ghost use Rattle.rhd_decl.specs.Flags.{Flagged, flags_of};

    ghost Value = { Flagged };

    ghost view = { λ s. flags_of s.bits.0 };
}

impl Switches {
    /// None is set.
    pub fn new() -> Switches
        ensures { result ≡ record { internal = false; standard = false; indexed = false } }
    {
        Switches {
            bits: ModuleFlags::empty(),
        }
    }

    /// The same flags.
    pub fn dup(&self) -> Switches
        ensures { result ≡ self.now }
    {
        Switches { bits: self.bits }
    }

    /// Whether the module isn't for scripts.
    pub fn is_internal(&self) -> bool
        ensures { result ≡ self.now.internal }
    {
        self.bits.contains(ModuleFlags::INTERNAL)
    }

    pub fn set_internal(&mut self, value: bool)
        ensures { self.new ≡ record self.old { internal = value } }
    {
        self.bits.set(ModuleFlags::INTERNAL, value);
    }

    /// Whether the module is part of the standard library.
    pub fn is_standard(&self) -> bool
        ensures { result ≡ self.now.standard }
    {
        self.bits.contains(ModuleFlags::STANDARD)
    }

    pub fn set_standard(&mut self, value: bool)
        ensures { self.new ≡ record self.old { standard = value } }
    {
        self.bits.set(ModuleFlags::STANDARD, value);
    }

    /// Whether the module's index is that of its declarations and of those below.
    pub fn is_indexed(&self) -> bool
        ensures { result ≡ self.now.indexed }
    {
        self.bits.contains(ModuleFlags::INDEXED)
    }

    pub fn set_indexed(&mut self, value: bool)
        ensures { self.new ≡ record self.old { indexed = value } }
    {
        self.bits.set(ModuleFlags::INDEXED, value);
    }
}
