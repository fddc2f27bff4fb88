//! Why a table refuses a pair.

ghost use Rattle.std.specs.Prelude.{◌≡◌, IfOk};
ghost use Rattle.rhd_hash.specs.declared.fault.TableFault.TheVariants.{OutOfMemory as no_memory};

use crate::shared_key::SharedKey;
use rhd_value::OutOfMemory;
use std::alloc::Global;

/// Why a table refuses a pair. The table is as before.
#[derive(Drop)]
pub enum TableFault {
    /// The table has another key of the same hash.
    Clash { held: SharedKey, new: SharedKey },
    /// Memory ran out.
    OutOfMemory,
}

impl TableFault {
    /// An equal fault.
    pub fn dup(&self, alloc: Global) -> Result<TableFault, OutOfMemory>
        ensures { IfOk result (λ fault. fault ≡ self.now) }
    {
        match self {
            TableFault::Clash { held, new } => Ok(TableFault::Clash {
                held: held.dup(alloc)?,
                new: new.dup(alloc)?,
            }),
            TableFault::OutOfMemory => Ok(TableFault::OutOfMemory),
        }
    }
}

impl From<OutOfMemory> for TableFault {
    ghost from_gives = { λ _ fault. fault ≡ no_memory };

    fn from(_fault: OutOfMemory) -> TableFault {
        TableFault::OutOfMemory
    }
}
