//! A fault inside another one.

ghost use Rattle.std.specs.Prelude.{IfOk, ◌≡◌};
ghost use Rattle.rhd_value.specs.Seen.{fault_seen};

use super::{BoxedFault, EvalAltResult};
use crate::memory::OutOfMemory;
use std::alloc::Global;

impl BoxedFault {
    pub fn new(alloc: Global, fault: EvalAltResult) -> Result<BoxedFault, OutOfMemory>
        ensures { IfOk result (λ held. held ≡ fault_seen fault) }
    {
        Ok(BoxedFault {
            fault: Box::new(alloc, fault)?,
        })
    }

    /// An equal one.
    #[cycle(fault)]
    pub fn dup(&self, alloc: Global) -> Result<BoxedFault, OutOfMemory>
        ensures { IfOk result (λ held. held ≡ self.now) }
    {
        BoxedFault::new(alloc, self.fault.dup(alloc)?)
    }

    /// The fault that stands inside.
    pub fn fault(&self) -> &EvalAltResult
        ensures { fault_seen result.now ≡ self.now }
    {
        &self.fault
    }
}
