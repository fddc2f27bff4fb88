//! Why a module isn't given.

ghost use Rattle.std.specs.Prelude.{◌≡◌, true};
ghost use Rattle.rhd_resolve.specs.Faults.{is_of_making, HandsOn};

use rhd_decl::DeclFault;
use rhd_hash::SharedKey;
use rhd_value::{EvalAltResult, OutOfMemory};

/// Why a module or a script isn't given.
#[derive(Drop)]
pub enum ResolveFault {
    /// The fault of a call: there is no module, or it couldn't be made.
    Fault(EvalAltResult),
    /// Two keys of one table would have one hash.
    HashCollision { held: SharedKey, new: SharedKey },
    /// Memory ran out.
    OutOfMemory,
}

impl From<OutOfMemory> for ResolveFault {
    ghost use Rattle.std.specs.Prelude.{◌≡◌};
    ghost use Rattle.rhd_resolve.specs.declared.fault.ResolveFault.TheVariants.{OutOfMemory as no_memory};

    ghost from_gives = { λ _ fault. fault ≡ no_memory };

    fn from(_fault: OutOfMemory) -> ResolveFault {
        ResolveFault::OutOfMemory
    }
}

/// Hands on why the module of a script wasn't made.
pub(crate) fn handed_on(fault: DeclFault) -> ResolveFault
    requires { is_of_making fault ≡ true }
    ensures { HandsOn fault result }
{
    match fault {
        DeclFault::HashCollision { held, new } => ResolveFault::HashCollision { held, new },
        DeclFault::OutOfMemory => ResolveFault::OutOfMemory,
        _ => unreachable!(),
    }
}
