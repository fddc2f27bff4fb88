//! How a session joins one module with another.

ghost use Rattle.std.specs.Prelude.{◌≡◌, length};
ghost use Rattle.rhd_module.specs.Algebra.{Joins};
ghost use Rattle.rhd_session.specs.Changing.{Goes, all_joined_by, join_command, joined_by};

use crate::declaring::unknown;
use crate::session_core::SessionCore;
use rhd_algebra::SharedAlgebra;
use rhd_call::ModuleId;
use rhd_layers::SharedModule;
use rhd_module::{DeclFault, Module};
use std::alloc::Global;

/// How one module is joined with another.
#[derive(Clone, Copy)]
pub(crate) enum Join {
    /// The other goes over the module.
    Combine,
    /// All modules of the other's tree go over the module.
    CombineFlatten,
    /// What is new of the other goes into the module.
    Fill,
    /// The other is merged into the module, with what it lists registered.
    Merge,
}

/// Joins a module with another. It is copied first where it has other owners.
fn join_with(
    alloc: Global,
    join: Join,
    changed: &mut SharedModule,
    other: &Module,
) -> Result<(), DeclFault>
    ensures { Joins (all_joined_by join other.now changed.old) (joined_by join other.now changed.old) changed.old result changed.new }
{
    match join {
        Join::Combine => changed.combine(alloc, other),
        Join::CombineFlatten => changed.combine_flatten(alloc, other),
        Join::Fill => changed.fill_with(alloc, other),
        Join::Merge => changed.merge(alloc, other),
    }
}

impl SessionCore {
    ghost use Rattle.rhd_session.specs.Of.{natives_of, world_of, frame_of, modules_of, calls_begun_of};

    /// Joins the module of a number with that of another, as it is now. Where both are the same number, the
    /// module is joined with itself as it was.
    pub(crate) fn join(
        &mut self,
        alloc: Global,
        join: Join,
        id: ModuleId,
        other: ModuleId,
    ) -> Result<(), DeclFault>
        ensures goes { Goes (world_of info self.old) (frame_of self.old) (join_command join id other) result (world_of info self.new) (frame_of self.new) }
        ensures natives { natives_of self.new ≡ natives_of self.old }
        ensures begun { calls_begun_of self.new ≡ calls_begun_of self.old }
        ensures count { length (modules_of self.new) ≡ length (modules_of self.old) }
    {
        let at = id.0 as usize;
        if at >= self.modules.len() {
            return Err(unknown(id.0, self.modules.len()));
        }
        let from = other.0 as usize;
        if from >= self.modules.len() {
            return Err(unknown(other.0, self.modules.len()));
        }
        let added = self.modules[from].dup(alloc)?;
        join_with(alloc, join, &mut self.modules[at], added.module())
    }
}
