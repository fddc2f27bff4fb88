//! What makes a script of a text, known by a relation.

ghost use Rattle.std.specs.Prelude.{IfOk, IfErr};
ghost use Rattle.rhd_resolve.specs.Asked.{UnlessNoMemory};
ghost use Rattle.rhd_resolve.specs.Faults.{IsCollision};
ghost use Rattle.rhd_resolve.specs.Sessions.{seen, IsLoaded};

use crate::environs::Environs;
use crate::fault::ResolveFault;
use crate::loaded::LoadedScript;
use rhd_manifest::Manifests;
use rhd_value::Text;
use std::alloc::Global;

/// What makes a script of a text.
pub trait Loader: Drop {
    ghost use Rattle.std.specs.Prelude.{List, Result};
    ghost use Rattle.rhd_value.specs.Tree.{Bytes};
    ghost use Rattle.rhd_manifest.specs.Manifest.{ManifestLists};
    ghost use Rattle.rhd_resolve.specs.declared.fault.ResolveFault.{ResolveFault};
    ghost use Rattle.rhd_resolve.specs.declared.loaded.LoadedScript.{LoadedScript};
    ghost use Rattle.rhd_resolve.specs.Environs.{Envs};

    /// With these manifests, of this text, in these environments it may give this answer.
    ghost allows_load: { Self → List ManifestLists → Bytes → Envs → Result LoadedScript ResolveFault → Type 0 };

    /// Makes a script of a text. Each module that the script imports is indexed, was made with the seeds
    /// of the environments and with the manifests, and names only numbers that are held. A collision
    /// carries two keys that differ and have one hash under these seeds. Fails where memory runs out.
    fn load(
        &self,
        alloc: Global,
        manifests: &Manifests,
        text: &Text,
        envs: &Environs,
    ) -> Result<LoadedScript, ResolveFault>
        ensures allowed { UnlessNoMemory result (allows_load self.now manifests.now text.now envs.now result) }
        ensures loaded { IfOk result (IsLoaded (seen manifests.now envs.now)) }
        ensures collision { IfErr result (IsCollision envs.now.seeds) };
}
