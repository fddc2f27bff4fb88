//! The loader of module texts.

ghost use Rattle.std.specs.Prelude.{◌≡◌, true};
ghost use Rattle.rhd_resolve.specs.Faults.{is_of_making, HandsOn};
ghost use Rattle.rhd_loader.specs.Making.{Makes, StopsLoading};

use crate::making::make_imports;
use crate::reading::read_lines;
use crate::said::{Said, Unsaid};
use rhd_decl::DeclFault;
use rhd_hash::Seeds;
use rhd_manifest::Manifests;
use rhd_resolve::{Environs, LoadedScript, Loader, ResolveFault};
use rhd_value::{EvalAltResult, Position, Text};
use std::alloc::Global;

/// Hands on why an imported module wasn't made.
fn handed_on(fault: DeclFault) -> ResolveFault
    requires { is_of_making fault ≡ true }
    ensures { HandsOn fault result }
{
    match fault {
        DeclFault::HashCollision { held, new } => ResolveFault::HashCollision { held, new },
        DeclFault::OutOfMemory => ResolveFault::OutOfMemory,
        _ => unreachable!(),
    }
}

/// The script that is said, with its imported modules.
fn script_of(alloc: Global, seeds: Seeds, said: Said) -> Result<LoadedScript, ResolveFault>
    ensures { Makes seeds said result }
{
    let imports = match make_imports(alloc, seeds, &said.imports) {
        Ok(imports) => imports,
        Err(fault) => return Err(handed_on(fault)),
    };
    Ok(LoadedScript {
        scope: said.scope.into_vec(),
        imports,
        functions: said.functions.into_vec(),
        source: None,
        doc: said.doc,
    })
}

/// The fault of a text that isn't said to its end.
fn refused(unsaid: Unsaid) -> ResolveFault
    ensures { StopsLoading unsaid result }
{
    match unsaid {
        Unsaid::Fault(text) => {
            ResolveFault::Fault(EvalAltResult::ErrorRuntime(text, Position::NONE))
        }
        Unsaid::Memory => ResolveFault::OutOfMemory,
    }
}

/// Makes scripts of module texts. It keeps nothing.
#[derive(Drop)]
pub struct PlanLoader;

impl PlanLoader {
    pub fn new() -> PlanLoader {
        PlanLoader
    }
}

impl Loader for PlanLoader {
    ghost use Rattle.rhd_loader.specs.Loads.{PlanLoads};

    ghost allows_load = { λ _ manifests text envs r. PlanLoads manifests text envs r };

    fn load(
        &self,
        alloc: Global,
        _manifests: &Manifests,
        text: &Text,
        envs: &Environs,
    ) -> Result<LoadedScript, ResolveFault> {
        match read_lines(alloc, text.as_str().as_bytes()) {
            Ok(said) => script_of(alloc, envs.seeds(), said),
            Err(unsaid) => Err(refused(unsaid)),
        }
    }
}
