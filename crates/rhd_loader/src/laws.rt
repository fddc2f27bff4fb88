//! What a module text says is one thing.

ghost use Rattle.std.specs.Prelude.{◌≡◌, List, ℕ, Result};
ghost use Rattle.rhd_value.specs.Tree.{Bytes};
ghost use Rattle.rhd_manifest.specs.Manifest.{ManifestLists};
ghost use Rattle.rhd_resolve.specs.declared.fault.ResolveFault.{ResolveFault};
ghost use Rattle.rhd_resolve.specs.declared.loaded.LoadedScript.{LoadedScript};
ghost use Rattle.rhd_resolve.specs.Environs.{Envs};
ghost use Rattle.rhd_loader.specs.declared.said.Said.{Said};
ghost use Rattle.rhd_loader.specs.Says.{SaysFrom};
ghost use Rattle.rhd_loader.specs.Loads.{PlanLoads};
ghost use Rattle.rhd_loader.specs.Alike.{AreAlike};

/// Whatever was said before, lines say something, and one thing alone. So answers of a loader of a text are
/// alike: they are one script, one fault, or collisions.
pub fn module_texts_say_one_thing()
    ensures some { (n : ℕ) (s : Said) (lines : List (List ℕ)) → (r : Result Said Bytes) × SaysFrom n s lines r }
    ensures one { (n : ℕ) (s : Said) (lines : List (List ℕ)) (q r : Result Said Bytes) → SaysFrom n s lines q → SaysFrom n s lines r → q ≡ r }
    ensures answers { (manifests : List ManifestLists) (text : Bytes) (envs : Envs) (q r : Result LoadedScript ResolveFault) → PlanLoads manifests text envs q → PlanLoads manifests text envs r → AreAlike q r }
{}
