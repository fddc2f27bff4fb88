//! Why a declaration is refused.

ghost use Rattle.std.specs.Prelude.{◌≡◌, IfOk};

use rhd_hash::{SharedKey, TableFault};
use rhd_value::OutOfMemory;
use std::alloc::{AllocError, AllocFailed, Global};

/// Why a declaration is refused. What it was to change is as before. Where several causes hold, a number
/// goes first, then what can't be called, then an indexer, then a collision.
#[derive(Drop)]
pub enum DeclFault {
    /// Two keys of one table would have one hash.
    HashCollision { held: SharedKey, new: SharedKey },
    /// An indexer of a type whose indexing has its meaning already, with its key.
    IndexerNotAllowed { key: SharedKey },
    /// A function that iterates, or a script, where a native is asked for.
    NotCallable,
    /// A number isn't held: it is at least the number of things of its kind.
    UnknownNumber { number: u64, length: u64 },
    /// Memory ran out.
    OutOfMemory,
}

impl DeclFault {
    /// An equal fault.
    pub fn dup(&self, alloc: Global) -> Result<DeclFault, OutOfMemory>
        ensures { IfOk result (λ fault. fault ≡ self.now) }
    {
        match self {
            DeclFault::HashCollision { held, new } => Ok(DeclFault::HashCollision {
                held: held.dup(alloc)?,
                new: new.dup(alloc)?,
            }),
            DeclFault::IndexerNotAllowed { key } => Ok(DeclFault::IndexerNotAllowed {
                key: key.dup(alloc)?,
            }),
            DeclFault::NotCallable => Ok(DeclFault::NotCallable),
            DeclFault::UnknownNumber { number, length } => Ok(DeclFault::UnknownNumber {
                number: *number,
                length: *length,
            }),
            DeclFault::OutOfMemory => Ok(DeclFault::OutOfMemory),
        }
    }
}

/// A clash of two keys of a table is a collision.
impl From<TableFault> for DeclFault {
    ghost use Rattle.std.specs.Prelude.{◌≡◌};
    ghost use Rattle.rhd_decl.specs.Collisions.{collision};

    ghost from_gives = { λ clash fault. fault ≡ collision clash };

    fn from(clash: TableFault) -> DeclFault {
        match clash {
            TableFault::Clash { held, new } => DeclFault::HashCollision { held, new },
            TableFault::OutOfMemory => DeclFault::OutOfMemory,
        }
    }
}

impl From<OutOfMemory> for DeclFault {
    ghost use Rattle.std.specs.Prelude.{◌≡◌};
    ghost use Rattle.rhd_decl.specs.declared.fault.DeclFault.TheVariants.{OutOfMemory as no_memory};

    ghost from_gives = { λ _ fault. fault ≡ no_memory };

    fn from(_fault: OutOfMemory) -> DeclFault {
        DeclFault::OutOfMemory
    }
}

impl From<AllocError> for DeclFault {
    ghost use Rattle.std.specs.Prelude.{◌≡◌};
    ghost use Rattle.rhd_decl.specs.declared.fault.DeclFault.TheVariants.{OutOfMemory as no_memory};

    ghost from_gives = { λ _ fault. fault ≡ no_memory };

    fn from(_fault: AllocError) -> DeclFault {
        DeclFault::OutOfMemory
    }
}

impl<T: Drop> From<AllocFailed<T>> for DeclFault {
    ghost use Rattle.std.specs.Prelude.{◌≡◌};
    ghost use Rattle.rhd_decl.specs.declared.fault.DeclFault.TheVariants.{OutOfMemory as no_memory};

    ghost from_gives = { λ _ fault. fault ≡ no_memory };

    fn from(_fault: AllocFailed<T>) -> DeclFault {
        DeclFault::OutOfMemory
    }
}
