//! What gives modules by path, known by a state, by relations, and by what it fits.

ghost use Rattle.std.specs.Prelude.{◌≡◌, IfOk, OnErr, IfSome};
ghost use Rattle.std.specs.Option.{option_copied};
ghost use Rattle.rhd_resolve.specs.Asked.{asked, Fits, Either, EitherScript, UnlessNoMemory, UnlessNoMemoryScript};
ghost use Rattle.rhd_resolve.specs.Sessions.{seen, IsGiven, IsLoaded, Adds};

use crate::environs::Environs;
use crate::fault::ResolveFault;
use crate::loaded::LoadedScript;
use rhd_layers::SharedModule;
use rhd_manifest::Manifests;
use rhd_value::{Position, Text};
use std::alloc::Global;

/// What gives modules by path.
///
/// It fits a session where each module that it keeps may be given there, now and when environments were
/// added. A module that is given is indexed, was made with the seeds of the environments and with the
/// manifests, and names only numbers that are held. A refusal leaves the environments, also for want of
/// memory; an answer leaves them or adds one at their end, whose modules were made in the same session.
pub trait ModuleResolver: Drop {
    ghost use Rattle.std.specs.Prelude.{ℕ, List, Option, Result};
    ghost use Rattle.rhd_module.specs.Tree.{ModuleTree};
    ghost use Rattle.rhd_resolve.specs.declared.fault.ResolveFault.{ResolveFault};
    ghost use Rattle.rhd_resolve.specs.declared.loaded.LoadedScript.{LoadedScript};
    ghost use Rattle.rhd_resolve.specs.Asked.{Asked};
    ghost use Rattle.rhd_resolve.specs.Environs.{Envs};
    ghost use Rattle.rhd_resolve.specs.Sessions.{Seen};

    /// Its state.
    ghost state: { Self → List ℕ };

    /// Each module that it keeps may be given in this session.
    ghost fits: { Self → Seen → Type 0 };

    /// Asked this, it may give this answer, and then these are the environments and this its state.
    ghost allows_resolve: { Self → Asked → Result ModuleTree ResolveFault → Envs → List ℕ → Type 0 };

    /// The same of `resolve_raw`, besides what `resolve` may give.
    ghost allows_raw: { Self → Asked → Result ModuleTree ResolveFault → Envs → List ℕ → Type 0 } = { λ _ _ _ _ _. ⊥ };

    /// The same of `resolve_ast`, which leaves the environments, besides nothing, which it may always
    /// give, in the state that it is in.
    ghost allows_ast: { Self → Asked → Option (Result LoadedScript ResolveFault) → List ℕ → Type 0 } = { λ _ _ _ _. ⊥ };

    /// Gives the module of a path. It is asked by a source, if there is one, from this position.
    fn resolve(
        &mut self,
        alloc: Global,
        manifests: &Manifests,
        envs: &mut Environs,
        source: Option<&Text>,
        path: &Text,
        pos: Position,
    ) -> Result<SharedModule, ResolveFault>
        requires { Fits (fits self.old) (seen manifests.now envs.old) }
        ensures allowed { UnlessNoMemory result (allows_resolve self.old (asked manifests.now envs.old (option_copied source.entry) path.now pos) result envs.new (state self.new)) }
        ensures fits { Fits (fits self.new) (seen manifests.now envs.new) }
        ensures given { IfOk result (IsGiven (seen manifests.now envs.new)) }
        ensures refused { OnErr result (envs.new ≡ envs.old) }
        ensures adds { Adds manifests.now envs.old envs.new };

    /// Gives the module of a path, for a host that handles it itself.
    fn resolve_raw(
        &mut self,
        alloc: Global,
        manifests: &Manifests,
        envs: &mut Environs,
        source: Option<&Text>,
        path: &Text,
        pos: Position,
    ) -> Result<SharedModule, ResolveFault>
        requires { Fits (fits self.old) (seen manifests.now envs.old) }
        ensures allowed { UnlessNoMemory result (Either (allows_resolve self.old) (allows_raw self.old) (asked manifests.now envs.old (option_copied source.entry) path.now pos) result envs.new (state self.new)) }
        ensures fits { Fits (fits self.new) (seen manifests.now envs.new) }
        ensures given { IfOk result (IsGiven (seen manifests.now envs.new)) }
        ensures refused { OnErr result (envs.new ≡ envs.old) }
        ensures adds { Adds manifests.now envs.old envs.new }
    {
        self.resolve(alloc, manifests, envs, source, path, pos)
    }

    /// Gives the script of a path, if it has scripts.
    fn resolve_ast(
        &mut self,
        _alloc: Global,
        manifests: &Manifests,
        envs: &Environs,
        source: Option<&Text>,
        path: &Text,
        pos: Position,
    ) -> Option<Result<LoadedScript, ResolveFault>>
        requires { Fits (fits self.old) (seen manifests.now envs.now) }
        ensures allowed { UnlessNoMemoryScript result (EitherScript (state self.old) (allows_ast self.old) (asked manifests.now envs.now (option_copied source.entry) path.now pos) result (state self.new)) }
        ensures fits { Fits (fits self.new) (seen manifests.now envs.now) }
        ensures loaded { IfSome result (λ r. IfOk r (IsLoaded (seen manifests.now envs.now))) }
    {
        None
    }
}
