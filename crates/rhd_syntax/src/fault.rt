//! Why reading stopped.

ghost use Rattle.std.specs.Prelude.{◌≡◌};
ghost use Rattle.rhd_syntax.specs.declared.fault.Stop.TheVariants.{Memory};

use rhd_value::OutOfMemory;
use std::alloc::{AllocError, AllocFailed};

/// Why the reader of a value, of another operand or of a line stopped.
#[derive(Clone, Copy, Debug, PartialEq, Eq)]
pub enum Stop {
    /// The bytes are not of the form.
    Bad,
    /// Memory ran out.
    Memory,
}

impl From<AllocError> for Stop {
    ghost from_gives = { λ _ e. e ≡ Memory };

    fn from(_fault: AllocError) -> Stop {
        Stop::Memory
    }
}

impl<T: Drop> From<AllocFailed<T>> for Stop {
    ghost from_gives = { λ _ e. e ≡ Memory };

    fn from(_fault: AllocFailed<T>) -> Stop {
        Stop::Memory
    }
}

impl From<OutOfMemory> for Stop {
    ghost from_gives = { λ _ e. e ≡ Memory };

    fn from(_fault: OutOfMemory) -> Stop {
        Stop::Memory
    }
}
