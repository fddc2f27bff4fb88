//! The hashes that a call looks for.

ghost use Rattle.std.specs.Prelude.{◌≡◌, false, Some, None, is_none};
ghost use Rattle.rhd_hash.specs.CallHashes.{shown_hashes};

use std::fmt;

/// The hashes of a call: one of scripts, or none for a call of natives alone, and one of natives.
#[derive(Clone, Copy, PartialEq, Eq, Hash)]
pub struct FnCallHashes {
    script: Option<u64>,
    native: u64,
}

impl FnCallHashes {
    /// The same hash for scripts and natives.
    pub fn from_hash(hash: u64) -> Self
        ensures { result ≡ record { script = Some hash; native = hash } }
    {
        FnCallHashes {
            script: Some(hash),
            native: hash,
        }
    }

    /// A hash of natives alone.
    pub fn from_native_only(hash: u64) -> Self
        ensures { result ≡ record { script = None; native = hash } }
    {
        FnCallHashes {
            script: None,
            native: hash,
        }
    }

    /// A hash of scripts and one of natives.
    pub fn from_script_and_native(script: u64, native: u64) -> Self
        ensures { result ≡ record { script = Some script; native = native } }
    {
        FnCallHashes {
            script: Some(script),
            native,
        }
    }

    /// Whether no script is looked for.
    pub fn is_native_only(&self) -> bool
        ensures { result ≡ is_none self.now.script }
    {
        self.script.is_none()
    }

    /// The hash of natives.
    pub fn native(&self) -> u64
        ensures { result ≡ self.now.native }
    {
        self.native
    }

    /// The hash of scripts.
    pub fn script(&self) -> u64
        requires { is_none self.now.script ≡ false }
        ensures { self.now.script ≡ Some result }
    {
        match self.script {
            Some(hash) => hash,
            None => unreachable!(),
        }
    }
}

/// One number where both hashes are the same, `7 (native only)` without one of scripts, else the
/// hash of scripts and that of natives as `(1, 2)`.
impl fmt::Debug for FnCallHashes {
    ghost debug_output = { λ hashes. Some (shown_hashes hashes) };

    fn fmt<W: fmt::Write>(&self, f: &mut fmt::Formatter<W>) -> fmt::Result {
        let native = self.native;
        match self.script {
            None => write!(f, "{native} (native only)"),
            Some(script) => {
                if script == native {
                    write!(f, "{native}")
                } else {
                    write!(f, "({script}, {native})")
                }
            }
        }
    }
}
