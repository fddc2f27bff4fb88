//! How a session imports the module that a path names.

ghost use Rattle.std.specs.Prelude.{◌≡◌, ◌++◌, ◌∷◌, [], true, IfOk, OnOk, OnErr, length};
ghost use Rattle.std.specs.Option.{option_copied};
ghost use Rattle.rhd_engine.specs.Held.{names_held};
ghost use Rattle.rhd_module.specs.Index.{indexed};
ghost use Rattle.rhd_module.specs.Tree.{ModuleTree, empty_module};
ghost use Rattle.rhd_resolve.specs.Asked.{UnlessNoMemory};
ghost use Rattle.rhd_resolve.specs.File.{file_state, OnlyRead, FileResolves};
ghost use Rattle.rhd_session.specs.Changing.{EndsImport, IsRefusal};
ghost use Rattle.rhd_session.specs.State.{envs_of, asked_for};

use crate::session_core::SessionCore;
use rhd_call::Reply;
use rhd_engine::GlobalRuntimeState;
use rhd_hash::Seeds;
use rhd_layers::SharedModule;
use rhd_module::{DeclFault, Module};
use rhd_resolve::{FileModuleResolver, Files, Loader, ModuleResolver, ResolveFault};
use rhd_value::{OutOfMemory, Position, Text};
use std::alloc::Global;

/// The reply that a resolver's refusal is. Want of memory is no reply.
fn refusal_of(fault: ResolveFault) -> Result<Reply, OutOfMemory>
    ensures { IsRefusal fault result }
{
    match fault {
        ResolveFault::Fault(fault) => Ok(Reply::Fault(fault)),
        ResolveFault::HashCollision { held, new } => {
            Ok(Reply::Refused(DeclFault::HashCollision { held, new }))
        }
        ResolveFault::OutOfMemory => Err(OutOfMemory),
    }
}

/// An empty module, indexed, for the place of one that is to come.
fn empty_import(alloc: Global, seeds: Seeds) -> Result<SharedModule, OutOfMemory>
    ensures { IfOk result (λ m. m ≡ indexed (empty_module seeds)) }
{
    let mut empty = SharedModule::new(alloc, Module::new(alloc, seeds)?)?;
    match empty.build_index(alloc) {
        Ok(()) => Ok(empty),
        Err(_refusal) => Err(OutOfMemory),
    }
}

/// The source of the calls that are made, if there is one.
fn source_of(state: &GlobalRuntimeState) -> Option<&Text>
    ensures { option_copied result ≡ state.now.source }
{
    state.source.as_ref().map(|source| source.text())
}

impl SessionCore {
    ghost use Rattle.rhd_session.specs.Of.{natives_of, world_of, frame_of, modules_of, calls_begun_of};

    /// Makes a place last among the imports, under a name: an empty module stands there.
    pub(crate) fn hold_import(&mut self, alloc: Global, name: Text) -> Result<(), OutOfMemory>
        ensures held { OnOk result ((m : ModuleTree) × (frame_of self.new ≡ record (frame_of self.old) { imports = (frame_of self.old).imports ++ (name, m) ∷ [] })) }
        ensures failed { OnErr result (frame_of self.new ≡ frame_of self.old) }
        ensures world { world_of info self.new ≡ world_of info self.old }
        ensures natives { natives_of self.new ≡ natives_of self.old }
        ensures begun { calls_begun_of self.new ≡ calls_begun_of self.old }
        ensures modules { modules_of self.new ≡ modules_of self.old }
    {
        let empty = empty_import(alloc, self.engine.seeds())?;
        self.state.imports.push(name, empty)
    }

    /// Asks a file resolver for the module of a path, from the source of the state.
    pub(crate) fn ask<F: Files, L: Loader>(
        &mut self,
        alloc: Global,
        resolver: &mut FileModuleResolver<F, L>,
        path: &Text,
    ) -> Result<SharedModule, ResolveFault>
        ensures asked { UnlessNoMemory result (FileResolves (L.allows_load resolver.old.loader) (file_state F.texts F.faults resolver.old)
            (asked_for (world_of info self.old) (frame_of self.old) path.now) result (envs_of (world_of info self.new)) (file_state F.texts F.faults resolver.new)) }
        ensures held { IfOk result (λ m. names_held (length (natives_of self.old).items.items) m ≡ true) }
        ensures indexed { IfOk result (λ m. m.own.indexed ≡ true) }
        ensures world { world_of info self.new ≡ record (world_of info self.old) { environs = (world_of info self.new).environs } }
        ensures refused { OnErr result (world_of info self.new ≡ world_of info self.old) }
        ensures frame { frame_of self.new ≡ frame_of self.old }
        ensures read { OnlyRead (file_state F.texts F.faults resolver.old) (file_state F.texts F.faults resolver.new) }
        ensures loader { resolver.new.loader ≡ resolver.old.loader }
        ensures natives { natives_of self.new ≡ natives_of self.old }
        ensures begun { calls_begun_of self.new ≡ calls_begun_of self.old }
        ensures modules { modules_of self.new ≡ modules_of self.old }
    {
        let engine = &self.engine;
        let source = source_of(&self.state);
        resolver.resolve(
            alloc,
            &engine.manifests,
            &mut self.environs,
            source,
            path,
            Position::NONE,
        )
    }

    /// Puts the module that a resolver gave in the place that was made for it, or takes that off again.
    pub(crate) fn end_import(
        &mut self,
        answer: Result<SharedModule, ResolveFault>,
    ) -> Result<Reply, OutOfMemory>
        requires held { IfOk answer (λ m. names_held (length (natives_of self.old).items.items) m ≡ true) }
        requires indexed { IfOk answer (λ m. m.own.indexed ≡ true) }
        ensures ends { EndsImport (frame_of self.old) answer result (frame_of self.new) }
        ensures world { world_of info self.new ≡ world_of info self.old }
        ensures natives { natives_of self.new ≡ natives_of self.old }
        ensures begun { calls_begun_of self.new ≡ calls_begun_of self.old }
        ensures modules { modules_of self.new ≡ modules_of self.old }
    {
        match answer {
            Ok(module) => {
                self.state.imports.set_last(module);
                Ok(Reply::Done)
            }
            Err(fault) => {
                drop(self.state.imports.pop());
                refusal_of(fault)
            }
        }
    }
}
