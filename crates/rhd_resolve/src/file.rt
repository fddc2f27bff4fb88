//! The resolver of modules that are made of files.

ghost use Rattle.std.specs.Prelude.{◌≡◌, [], ◌∷◌, Some, None, IfOk, IfErr, IfSome, IsSomeAnd, OnErr, ⊤};
ghost use Rattle.std.specs.Option.{option_copied, option_map};
ghost use Rattle.rhd_files.specs.Paths.{file_path, parent};
ghost use Rattle.rhd_resolve.specs.Asked.{asked, Fits, EitherScript, UnlessNoMemory, UnlessNoMemoryScript};
ghost use Rattle.rhd_resolve.specs.Faults.{not_found, in_module, IsCollision};
ghost use Rattle.rhd_resolve.specs.File.{script_extension, file_state, OnlyRead, FileLoads, Makes, FileResolves, FileAllows, FileScripts};
ghost use Rattle.rhd_resolve.specs.Sessions.{seen, IsGiven, IsLoaded, Adds};

use crate::environs::Environs;
use crate::fault::{ResolveFault, handed_on};
use crate::loaded::LoadedScript;
use crate::loader::Loader;
use crate::loading::ModuleLoading;
use crate::resolver::ModuleResolver;
use rhd_files::{FileAnswer, Files, file_path, parent};
use rhd_layers::SharedModule;
use rhd_manifest::Manifests;
use rhd_module::Module;
use rhd_value::{BoxedFault, EvalAltResult, OutOfMemory, Position, Text};
use std::alloc::Global;

/// The extension that the file of a script has where no other is set.
pub const RHAI_SCRIPT_EXTENSION: &str = "rhai";

/// Modules of files: a path names a file, whose script becomes the module, anew each time.
///
/// A relative path stands in the base path; where none is set, in the folder of the source that asks.
#[derive(Drop)]
pub struct FileModuleResolver<F, L> {
    files: F,
    loader: L,
    base_path: Option<Text>,
    extension: Text,
}

/// The extension of a script's file.
fn script_extension(alloc: Global) -> Result<Text, OutOfMemory>
    ensures { IfOk result (λ extension. extension ≡ script_extension) }
{
    let mut extension = Text::new(alloc);
    extension.push(RHAI_SCRIPT_EXTENSION)?;
    Ok(extension)
}

/// The folder in which a source stands, if there is one.
fn source_folder(alloc: Global, source: Option<&Text>) -> Result<Option<Text>, OutOfMemory>
    ensures { IfOk result (λ folder. folder ≡ option_map parent (option_copied source.entry)) }
{
    match source {
        Some(source) => Ok(Some(parent(alloc, source)?)),
        None => Ok(None),
    }
}

/// Fault 12.
fn not_found(alloc: Global, path: &Text, pos: Position) -> Result<ResolveFault, OutOfMemory>
    ensures { IfOk result (λ fault. fault ≡ not_found path.now pos) }
{
    let path = path.dup(alloc)?;
    Ok(ResolveFault::Fault(EvalAltResult::ErrorModuleNotFound(path, pos)))
}

/// Fault 13, which carries the loader's fault. A collision and want of memory are handed on.
fn in_module(
    alloc: Global,
    fault: ResolveFault,
    path: &Text,
    pos: Position,
) -> Result<ResolveFault, OutOfMemory>
    ensures { IfOk result (λ made. made ≡ in_module fault path.now pos) }
{
    let ResolveFault::Fault(inner) = fault else {
        return Ok(fault);
    };
    let path = path.dup(alloc)?;
    let inner = BoxedFault::new(alloc, inner)?;
    Ok(ResolveFault::Fault(EvalAltResult::ErrorInModule(path, inner, pos)))
}

/// Makes the module of a script and adds its environment, both or none.
fn make(
    alloc: Global,
    envs: &mut Environs,
    loaded: &LoadedScript,
) -> Result<SharedModule, ResolveFault>
    ensures { Makes loaded.now envs.old result envs.new }
{
    let made = match Module::eval_ast_as_new(alloc, loaded, envs) {
        Ok(made) => made,
        Err(fault) => return Err(handed_on(fault)),
    };
    let Ok(shared) = SharedModule::new(alloc, made) else {
        envs.undo_push();
        return Err(ResolveFault::OutOfMemory);
    };
    Ok(shared)
}

impl<F: Files, L: Loader> FileModuleResolver<F, L> {
    /// A resolver of these files, whose texts this loader makes scripts of. No base path is set, and the
    /// extension is `rhai`. Fails where memory runs out.
    pub fn new(alloc: Global, files: F, loader: L) -> Result<FileModuleResolver<F, L>, OutOfMemory>
        ensures { IfOk result (λ made. made ≡ record { files = files; loader = loader; base_path = None; extension = script_extension }) }
    {
        let extension = script_extension(alloc)?;
        Ok(FileModuleResolver::new_with_extension(alloc, files, loader, extension))
    }

    /// The same with a base path. Fails where memory runs out.
    pub fn new_with_path(
        alloc: Global,
        files: F,
        loader: L,
        path: Text,
    ) -> Result<FileModuleResolver<F, L>, OutOfMemory>
        ensures { IfOk result (λ made. made ≡ record { files = files; loader = loader; base_path = Some path; extension = script_extension }) }
    {
        let extension = script_extension(alloc)?;
        Ok(FileModuleResolver::new_with_path_and_extension(alloc, files, loader, path, extension))
    }

    /// A resolver with this extension, and without a base path.
    pub fn new_with_extension(
        _alloc: Global,
        files: F,
        loader: L,
        extension: Text,
    ) -> FileModuleResolver<F, L>
        ensures { result ≡ record { files = files; loader = loader; base_path = None; extension = extension } }
    {
        FileModuleResolver {
            files,
            loader,
            base_path: None,
            extension,
        }
    }

    /// A resolver with this base path and this extension.
    pub fn new_with_path_and_extension(
        _alloc: Global,
        files: F,
        loader: L,
        path: Text,
        extension: Text,
    ) -> FileModuleResolver<F, L>
        ensures { result ≡ record { files = files; loader = loader; base_path = Some path; extension = extension } }
    {
        FileModuleResolver {
            files,
            loader,
            base_path: Some(path),
            extension,
        }
    }

    /// The base path, if one is set.
    pub fn base_path(&self) -> Option<&Text>
        ensures { option_copied result ≡ self.now.base_path }
    {
        self.base_path.as_ref()
    }

    /// Sets the base path. An empty one is a base path too.
    pub fn set_base_path(&mut self, path: Text)
        ensures { self.new ≡ record self.old { base_path = Some path } }
    {
        self.base_path = Some(path);
    }

    /// The extension of files, without its `.`.
    pub fn extension(&self) -> &Text
        ensures { result.now ≡ self.now.extension }
    {
        &self.extension
    }

    /// Sets the extension of files, without its `.`. With an empty one they have none.
    pub fn set_extension(&mut self, extension: Text)
        ensures { self.new ≡ record self.old { extension = extension } }
    {
        self.extension = extension;
    }

    /// The path of the file that a path names, where the folder of the source that asks is this one. It
    /// has the extension in the place of its own. Fails where memory runs out.
    pub fn get_file_path(
        &self,
        alloc: Global,
        path: &Text,
        source_path: Option<&Text>,
    ) -> Result<Text, OutOfMemory>
        ensures { IfOk result (λ file. file ≡ file_path path.now self.now.base_path (option_copied source_path.entry) self.now.extension) }
    {
        file_path(
            alloc,
            path,
            self.base_path.as_ref(),
            source_path,
            &self.extension,
        )
    }

    /// The path of the file that a source names by a path.
    fn file_from(
        &self,
        alloc: Global,
        source: Option<&Text>,
        path: &Text,
    ) -> Result<Text, OutOfMemory>
        ensures { IfOk result (λ file. file ≡ file_path path.now self.now.base_path (option_map parent (option_copied source.entry)) self.now.extension) }
    {
        let folder = source_folder(alloc, source)?;
        self.get_file_path(alloc, path, folder.as_ref())
    }

    /// Reads a file and loads its text.
    fn load_file(
        &mut self,
        alloc: Global,
        manifests: &Manifests,
        envs: &Environs,
        source: Option<&Text>,
        path: &Text,
        pos: Position,
    ) -> Result<LoadedScript, ResolveFault>
        ensures loads { UnlessNoMemory result (FileLoads (L.allows_load self.old.loader) (file_state F.texts F.faults self.old)
            (asked manifests.now envs.now (option_copied source.entry) path.now pos) result (file_state F.texts F.faults self.new)) }
        ensures read { OnlyRead (file_state F.texts F.faults self.old) (file_state F.texts F.faults self.new) }
        ensures loader { self.new.loader ≡ self.old.loader }
        ensures loaded { IfOk result (IsLoaded (seen manifests.now envs.now)) }
        ensures collision { IfErr result (IsCollision envs.now.seeds) }
    {
        let file = self.file_from(alloc, source, path)?;
        let FileAnswer::Found(text) = self.files.read(alloc, &file)? else {
            return Err(not_found(alloc, path, pos)?);
        };
        match self.loader.load(alloc, manifests, &text, envs) {
            Ok(mut loaded) => {
                loaded.source = Some(path.dup(alloc)?);
                Ok(loaded)
            }
            Err(fault) => Err(in_module(alloc, fault, path, pos)?),
        }
    }
}

impl<F: Files, L: Loader> ModuleResolver for FileModuleResolver<F, L> {
    ghost use Rattle.std.specs.Prelude.{[], ◌∷◌, ⊤};
    ghost use Rattle.rhd_resolve.specs.File.{file_state, FileAllows, FileScripts};

    ghost state = { λ it. F.faults it.files ∷ [] };

    ghost fits = { λ _ _. ⊤ };

    ghost allows_resolve = { λ it a r e t. FileAllows (L.allows_load it.loader) (file_state F.texts F.faults it) a r e t };

    ghost allows_ast = { λ it a r t. FileScripts (L.allows_load it.loader) (file_state F.texts F.faults it) a r t };

    /// Reads the file of the path, once, and makes its script a module. Where there is no file, or it
    /// can't be read, the fault is 12, and where the loader has a fault, 13 with the path and that fault.
    /// Two keys that clash, of the loader or of the module or its environment's library, are told.
    fn resolve(
        &mut self,
        alloc: Global,
        manifests: &Manifests,
        envs: &mut Environs,
        source: Option<&Text>,
        path: &Text,
        pos: Position,
    ) -> Result<SharedModule, ResolveFault>
        ensures exact { UnlessNoMemory result (FileResolves (L.allows_load self.old.loader) (file_state F.texts F.faults self.old)
            (asked manifests.now envs.old (option_copied source.entry) path.now pos) result envs.new (file_state F.texts F.faults self.new)) }
        ensures allowed { UnlessNoMemory result (FileAllows (L.allows_load self.old.loader) (file_state F.texts F.faults self.old)
            (asked manifests.now envs.old (option_copied source.entry) path.now pos) result envs.new (F.faults self.new.files ∷ [])) }
        ensures fits { Fits (λ _. ⊤) (seen manifests.now envs.new) }
        ensures given { IfOk result (IsGiven (seen manifests.now envs.new)) }
        ensures refused { OnErr result (envs.new ≡ envs.old) }
        ensures adds { Adds manifests.now envs.old envs.new }
        ensures read { OnlyRead (file_state F.texts F.faults self.old) (file_state F.texts F.faults self.new) }
        ensures loader { self.new.loader ≡ self.old.loader }
        ensures collision { IfErr result (IsCollision envs.old.seeds) }
    {
        let loaded = match self.load_file(alloc, manifests, envs, source, path, pos) {
            Ok(loaded) => loaded,
            Err(fault) => return Err(fault),
        };
        make(alloc, envs, &loaded)
    }

    /// Reads the file of the path, once, and gives its script, with the faults of `resolve`.
    fn resolve_ast(
        &mut self,
        alloc: Global,
        manifests: &Manifests,
        envs: &Environs,
        source: Option<&Text>,
        path: &Text,
        pos: Position,
    ) -> Option<Result<LoadedScript, ResolveFault>>
        ensures exact { IsSomeAnd result (λ r. UnlessNoMemory r (FileLoads (L.allows_load self.old.loader) (file_state F.texts F.faults self.old)
            (asked manifests.now envs.now (option_copied source.entry) path.now pos) r (file_state F.texts F.faults self.new))) }
        ensures allowed { UnlessNoMemoryScript result (EitherScript (F.faults self.old.files ∷ []) (FileScripts (L.allows_load self.old.loader) (file_state F.texts F.faults self.old))
            (asked manifests.now envs.now (option_copied source.entry) path.now pos) result (F.faults self.new.files ∷ [])) }
        ensures fits { Fits (λ _. ⊤) (seen manifests.now envs.now) }
        ensures loaded { IfSome result (λ r. IfOk r (IsLoaded (seen manifests.now envs.now))) }
        ensures read { OnlyRead (file_state F.texts F.faults self.old) (file_state F.texts F.faults self.new) }
        ensures loader { self.new.loader ≡ self.old.loader }
        ensures collision { IfSome result (λ r. IfErr r (IsCollision envs.now.seeds)) }
    {
        Some(self.load_file(alloc, manifests, envs, source, path, pos))
    }
}
