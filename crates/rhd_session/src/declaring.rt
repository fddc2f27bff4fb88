//! How a session carries out the commands that declare something.

ghost use Rattle.std.specs.Prelude.{List, [], ◌∷◌, ◌++◌, ◌≡◌, ◌≤◌, ◌<◌, ◌+◌, ◌^◌, true, false, length, slice_get, vec_len, vec_capacity};
ghost use Rattle.std.specs.Prelude.{Some, None, is_some, Ok, Err, IfOk, IfErr, OnOk, OnErr, IfSome, IfNone};
ghost use Rattle.rhd_call.specs.declared.reply.Reply.{Reply as TheReply};
ghost use Rattle.std.specs.Option.{option_copied};
ghost use Rattle.rhd_module.specs.Registered.{RegistersRaw};
ghost use Rattle.rhd_decl.specs.declared.fault.DeclFault.TheVariants.{UnknownNumber};
ghost use Rattle.rhd_func.specs.Infos.{infos_of};
ghost use Rattle.rhd_func.specs.Natives.{NativeInfo};
ghost use Rattle.rhd_call.specs.declared.command.ModuleId.{ModuleId as Number};
ghost use Rattle.rhd_call.specs.declared.command.Command.TheVariants as commands;
ghost use Rattle.rhd_session.specs.Answered.{Declares};
ghost use Rattle.rhd_session.specs.Changing.{is_told, iterator_in, ChangesModule, Goes, IsReply, MadeFor};
ghost use Rattle.rhd_session.specs.Commands.{target, raw_registration};

use crate::session_core::SessionCore;
use rhd_algebra::{ModuleManifests, SharedAlgebra};
use rhd_call::{Command, ModuleId, Reply};
use rhd_engine::{fn_registration, raw_func};
use rhd_func::{FnNamespace, IterId, ManifestId, Natives, RhaiFunc, SharedText};
use rhd_hash::Key;
use rhd_layers::SharedModule;
use rhd_manifest::Manifests;
use rhd_module::{DeclFault, FuncRegistration, Module};
use rhd_value::{Dynamic, FnId, OutOfMemory, Text, TypeTag, Types};
use std::alloc::Global;

/// The refusal of a number that isn't held.
pub(crate) fn unknown(number: u32, length: usize) -> DeclFault
    ensures { result ≡ UnknownNumber number length }
{
    DeclFault::UnknownNumber {
        number: u64::from(number),
        length: length as u64,
    }
}

/// The reply that an answer is. Want of memory is no reply.
pub(crate) fn reply_of(answer: Result<(), DeclFault>) -> Result<Reply, OutOfMemory>
    ensures { IsReply answer result }
{
    match answer {
        Ok(()) => Ok(Reply::Done),
        Err(DeclFault::OutOfMemory) => Err(OutOfMemory),
        Err(fault) => Ok(Reply::Refused(fault)),
    }
}

/// Puts the reply that an answer is last, where there is room for it. Want of memory is no reply.
pub(crate) fn push_reply(
    answer: Result<(), DeclFault>,
    replies: &mut Vec<Reply>,
) -> Result<(), OutOfMemory>
    requires { vec_len replies.old < vec_capacity replies.old }
    ensures ok { OnOk result ((reply : TheReply) × (replies.new.items ≡ replies.old.items ++ reply ∷ []) × IsReply answer (Ok reply)) }
    ensures err { IfErr result (λ error. (replies.new.items ≡ replies.old.items) × IsReply answer (Err error)) }
{
    match answer {
        Ok(()) => replies.push_reserved(Reply::Done),
        Err(DeclFault::OutOfMemory) => return Err(OutOfMemory),
        Err(fault) => replies.push_reserved(Reply::Refused(fault)),
    }
    Ok(())
}

/// The module that a command changes by itself.
pub(crate) fn target(command: &Command) -> Option<ModuleId>
    ensures { result ≡ target command.now }
{
    match command {
        Command::SetId { module: id, .. } => Some(*id),
        Command::SetDoc { module: id, .. } => Some(*id),
        Command::SetVar { module: id, .. } => Some(*id),
        Command::SetType { module: id, .. } => Some(*id),
        Command::Native { module: id, .. } => Some(*id),
        Command::RawNative { module: id, .. } => Some(*id),
        Command::Script { module: id, .. } => Some(*id),
        Command::CombineManifest { module: id, .. } => Some(*id),
        Command::RegisterLazy { module: id } => Some(*id),
        Command::Index { module: id } => Some(*id),
        Command::Clear { module: id } => Some(*id),
        _ => None,
    }
}

/// Whether a command changes no numbered module by itself, and answers nothing but that it is done.
pub(crate) fn is_told(command: &Command) -> bool
    ensures { result ≡ is_told command.now }
{
    matches!(
        command,
        Command::SubModule { .. }
            | Command::Combine { .. }
            | Command::CombineFlatten { .. }
            | Command::Fill { .. }
            | Command::Merge { .. }
            | Command::RegisterFn { .. }
            | Command::RegisterRaw { .. }
            | Command::RegisterType { .. }
            | Command::GlobalModule { .. }
            | Command::StaticModule { .. }
            | Command::PushLib { .. }
            | Command::PopLib
            | Command::PushImport { .. }
            | Command::PopImport
            | Command::SetSource(_)
            | Command::SetTag(_)
    )
}

/// The function that iterates that a command would register in a module.
fn iterator_in(command: &Command) -> Option<IterId>
    ensures { result ≡ iterator_in command.now }
{
    match command {
        Command::RawNative { func, .. } => func.get_iter_fn(),
        _ => None,
    }
}

/// A registration that says its name and its namespace alone.
fn raw_registration(
    alloc: Global,
    name: Text,
    namespace: FnNamespace,
) -> Result<FuncRegistration, OutOfMemory>
    ensures { IfOk result (λ reg. reg ≡ raw_registration name namespace) }
{
    Ok(FuncRegistration::new(alloc, name)?.with_namespace(namespace))
}

/// Registers a function in a module under a name and a namespace.
fn register_raw(
    alloc: Global,
    natives: &Natives,
    changed: &mut SharedModule,
    name: Text,
    namespace: FnNamespace,
    types: &[TypeTag],
    func: RhaiFunc,
) -> Result<(), DeclFault>
    ensures { RegistersRaw (infos_of info natives.now) (raw_registration name namespace) types.now func changed.old result changed.new }
{
    let reg = raw_registration(alloc, name, namespace)?;
    changed.register_raw(alloc, reg, natives, types, func)
}

/// Adds the manifest of a number to a module, flattened, with all variables and custom types of it.
fn combine(
    alloc: Global,
    manifests: &Manifests,
    changed: &mut SharedModule,
    id: ManifestId,
) -> Result<(), DeclFault>
    ensures { (natives : List NativeInfo) (m : Number) → ChangesModule natives manifests.now (commands.CombineManifest m id) changed.old result changed.new }
{
    let at = id.0 as usize;
    if at >= manifests.len() {
        return Err(unknown(id.0, manifests.len()));
    }
    changed.combine_manifest(alloc, manifests, id)
}

/// Changes a module as a command says that changes one module by itself.
fn change(
    alloc: Global,
    natives: &Natives,
    manifests: &Manifests,
    changed: &mut SharedModule,
    command: Command,
) -> Result<(), DeclFault>
    requires changes { is_some (target command) ≡ true }
    requires plain { iterator_in command ≡ None }
    ensures { ChangesModule (infos_of info natives.now) manifests.now command changed.old result changed.new }
{
    match command {
        Command::SetId { id, .. } => Ok(changed.set_id(alloc, id)?),
        Command::SetDoc { doc, .. } => Ok(changed.set_doc(alloc, doc)?),
        Command::SetVar { name, value, .. } => Ok(changed.set_var(alloc, name, value)?),
        Command::SetType {
            type_name,
            display,
            ..
        } => Ok(changed.set_custom_type_raw(alloc, type_name, display)?),
        Command::Native { reg, id, .. } => changed.register(alloc, reg, natives, id),
        Command::RawNative {
            name,
            namespace,
            types,
            func,
            ..
        } => register_raw(
            alloc,
            natives,
            changed,
            name,
            namespace,
            types.as_slice(),
            func,
        ),
        Command::Script { def, .. } => changed.set_script_fn(alloc, def),
        Command::CombineManifest { manifest, .. } => combine(alloc, manifests, changed, manifest),
        Command::RegisterLazy { .. } => changed.register_lazy_functions(alloc),
        Command::Index { .. } => changed.build_index(alloc),
        Command::Clear { .. } => Ok(changed.clear(alloc)?),
        _ => unreachable!(),
    }
}

impl SessionCore {
    ghost use Rattle.rhd_engine.specs.Held.{names_held};
    ghost use Rattle.rhd_session.specs.Of.{natives_of, world_of, frame_of, modules_of, calls_begun_of};

    /// Makes an empty module.
    pub(crate) fn new_module(&mut self, alloc: Global) -> Result<Reply, OutOfMemory>
        requires { length (modules_of self.old) < 2 ^ 32 }
        ensures applied { IfOk result (λ reply. Declares (world_of info self.old) (frame_of self.old) commands.NewModule reply (world_of info self.new) (frame_of self.new)) }
        ensures failed { OnErr result (world_of info self.new ≡ world_of info self.old) }
        ensures frame { frame_of self.new ≡ frame_of self.old }
        ensures natives { natives_of self.new ≡ natives_of self.old }
        ensures begun { calls_begun_of self.new ≡ calls_begun_of self.old }
        ensures count { length (modules_of self.new) ≤ length (modules_of self.old) + 1 }
    {
        let id = ModuleId(self.modules.len() as u32);
        let seeds = self.engine.seeds();
        let made = SharedModule::new(alloc, Module::new(alloc, seeds)?)?;
        self.modules.push(made)?;
        Ok(Reply::Made(id))
    }

    /// The module of the manifest of a number.
    fn module_of(&self, alloc: Global, id: ManifestId) -> Result<SharedModule, DeclFault>
        ensures made { IfOk result (λ made. MadeFor (world_of info self.now) (frame_of self.now) (commands.FromManifest id) made) }
        ensures held { IfOk result (λ made. names_held (length (natives_of self.now).items.items) made ≡ true) }
        ensures refused { IfErr result (λ fault. Goes (world_of info self.now) (frame_of self.now) (commands.FromManifest id) (Err fault) (world_of info self.now) (frame_of self.now)) }
    {
        let manifests = &self.engine.manifests;
        let at = id.0 as usize;
        if at >= manifests.len() {
            return Err(unknown(id.0, manifests.len()));
        }
        match Module::from_manifest(alloc, manifests, self.engine.seeds(), id) {
            Ok(made) => Ok(SharedModule::new(alloc, made)?),
            Err(fault) => Err(fault),
        }
    }

    /// Makes the module of a manifest.
    pub(crate) fn from_manifest(
        &mut self,
        alloc: Global,
        manifest: ManifestId,
    ) -> Result<Reply, OutOfMemory>
        requires { length (modules_of self.old) < 2 ^ 32 }
        ensures applied { IfOk result (λ reply. Declares (world_of info self.old) (frame_of self.old) (commands.FromManifest manifest) reply (world_of info self.new) (frame_of self.new)) }
        ensures failed { OnErr result (world_of info self.new ≡ world_of info self.old) }
        ensures frame { frame_of self.new ≡ frame_of self.old }
        ensures natives { natives_of self.new ≡ natives_of self.old }
        ensures begun { calls_begun_of self.new ≡ calls_begun_of self.old }
        ensures count { length (modules_of self.new) ≤ length (modules_of self.old) + 1 }
    {
        let number = self.modules.len() as u32;
        match self.module_of(alloc, manifest) {
            Ok(made) => {
                self.modules.push(made)?;
                Ok(Reply::Made(ModuleId(number)))
            }
            Err(fault) => reply_of(Err(fault)),
        }
    }

    /// The refusal of a command that changes a module by itself, where it names a number that isn't held.
    fn unheld(&self, id: ModuleId, command: &Command) -> Option<DeclFault>
        requires { target command.now ≡ Some id }
        ensures refused { IfSome result (λ fault. Goes (world_of info self.now) (frame_of self.now) command.now (Err fault) (world_of info self.now) (frame_of self.now)) }
        ensures held { IfNone result ((id.0 < length (modules_of self.now)) × (iterator_in command.now ≡ None)) }
    {
        let at = id.0 as usize;
        if at >= self.modules.len() {
            return Some(unknown(id.0, self.modules.len()));
        }
        if let Some(iterator) = iterator_in(command) {
            return Some(unknown(iterator.0, 0));
        }
        None
    }

    /// Changes the module of a number as a command says that changes it by itself.
    pub(crate) fn change_module(
        &mut self,
        alloc: Global,
        id: ModuleId,
        command: Command,
    ) -> Result<(), DeclFault>
        requires { target command ≡ Some id }
        ensures goes { Goes (world_of info self.old) (frame_of self.old) command result (world_of info self.new) (frame_of self.new) }
        ensures natives { natives_of self.new ≡ natives_of self.old }
        ensures begun { calls_begun_of self.new ≡ calls_begun_of self.old }
        ensures count { length (modules_of self.new) ≡ length (modules_of self.old) }
    {
        match self.unheld(id, &command) {
            Some(fault) => Err(fault),
            None => self.change_held(alloc, id, command),
        }
    }

    /// Changes a module that is held, as a command says that changes it by itself.
    fn change_held(
        &mut self,
        alloc: Global,
        id: ModuleId,
        command: Command,
    ) -> Result<(), DeclFault>
        requires held { id.0 < length (modules_of self.old) }
        requires changes { target command ≡ Some id }
        requires plain { iterator_in command ≡ None }
        ensures goes { Goes (world_of info self.old) (frame_of self.old) command result (world_of info self.new) (frame_of self.new) }
        ensures natives { natives_of self.new ≡ natives_of self.old }
        ensures begun { calls_begun_of self.new ≡ calls_begun_of self.old }
        ensures count { length (modules_of self.new) ≡ length (modules_of self.old) }
    {
        let engine = &self.engine;
        let natives = &engine.natives;
        let manifests = &engine.manifests;
        let changed = &mut self.modules[id.0 as usize];
        change(alloc, natives, manifests, changed, command)
    }

    /// Puts a module, as it is now, under a name into a module.
    pub(crate) fn sub_module(
        &mut self,
        alloc: Global,
        id: ModuleId,
        name: Text,
        sub: ModuleId,
    ) -> Result<(), DeclFault>
        ensures goes { Goes (world_of info self.old) (frame_of self.old) (commands.SubModule id name sub) result (world_of info self.new) (frame_of self.new) }
        ensures natives { natives_of self.new ≡ natives_of self.old }
        ensures begun { calls_begun_of self.new ≡ calls_begun_of self.old }
        ensures count { length (modules_of self.new) ≡ length (modules_of self.old) }
    {
        let at = id.0 as usize;
        if at >= self.modules.len() {
            return Err(unknown(id.0, self.modules.len()));
        }
        let from = sub.0 as usize;
        if from >= self.modules.len() {
            return Err(unknown(sub.0, self.modules.len()));
        }
        let child = self.modules[from].dup(alloc)?;
        Ok(self.modules[at].set_sub_module(alloc, name, child)?)
    }

    /// Registers a native under a name for all calls.
    pub(crate) fn register_fn(
        &mut self,
        alloc: Global,
        name: Text,
        id: FnId,
    ) -> Result<(), DeclFault>
        ensures goes { Goes (world_of info self.old) (frame_of self.old) (commands.RegisterFn name id) result (world_of info self.new) (frame_of self.new) }
        ensures natives { natives_of self.new ≡ natives_of self.old }
        ensures begun { calls_begun_of self.new ≡ calls_begun_of self.old }
        ensures count { modules_of self.new ≡ modules_of self.old }
    {
        let engine = &mut self.engine;
        let natives = &engine.natives;
        let Ok(reg) = fn_registration(alloc, natives, name, id) else {
            return Err(DeclFault::OutOfMemory);
        };
        engine.globals.register_in_first(alloc, reg, natives, id)
    }

    /// Registers a native under a name as a method with these types, for all calls.
    pub(crate) fn register_raw(
        &mut self,
        alloc: Global,
        name: Text,
        types: &Types,
        id: FnId,
    ) -> Result<(), DeclFault>
        ensures goes { Goes (world_of info self.old) (frame_of self.old) (commands.RegisterRaw name types.now id) result (world_of info self.new) (frame_of self.new) }
        ensures natives { natives_of self.new ≡ natives_of self.old }
        ensures begun { calls_begun_of self.new ≡ calls_begun_of self.old }
        ensures count { modules_of self.new ≡ modules_of self.old }
    {
        let engine = &mut self.engine;
        let natives = &engine.natives;
        let types = types.as_slice();
        let func = raw_func(&name, types, id);
        let Ok(reg) = raw_registration(alloc, name, FnNamespace::Global) else {
            return Err(DeclFault::OutOfMemory);
        };
        engine
            .globals
            .register_raw_in_first(alloc, reg, natives, types, func)
    }

    /// The custom type of a number is shown by this name.
    pub(crate) fn register_type(
        &mut self,
        alloc: Global,
        kind: u32,
        display: Text,
    ) -> Result<(), DeclFault>
        ensures goes { Goes (world_of info self.old) (frame_of self.old) (commands.RegisterType kind display) result (world_of info self.new) (frame_of self.new) }
        ensures natives { natives_of self.new ≡ natives_of self.old }
        ensures begun { calls_begun_of self.new ≡ calls_begun_of self.old }
        ensures count { modules_of self.new ≡ modules_of self.old }
    {
        let Ok(type_name) = TypeTag::Custom(kind).type_name(alloc) else {
            return Err(DeclFault::OutOfMemory);
        };
        let engine = &mut self.engine;
        match engine.globals.set_type_in_first(alloc, type_name, display) {
            Ok(()) => Ok(()),
            Err(OutOfMemory) => Err(DeclFault::OutOfMemory),
        }
    }

    /// Puts a module last among the libraries.
    pub(crate) fn push_lib(&mut self, alloc: Global, id: ModuleId) -> Result<(), DeclFault>
        ensures goes { Goes (world_of info self.old) (frame_of self.old) (commands.PushLib id) result (world_of info self.new) (frame_of self.new) }
        ensures natives { natives_of self.new ≡ natives_of self.old }
        ensures begun { calls_begun_of self.new ≡ calls_begun_of self.old }
        ensures count { modules_of self.new ≡ modules_of self.old }
    {
        let at = id.0 as usize;
        if at >= self.modules.len() {
            return Err(unknown(id.0, self.modules.len()));
        }
        let library = self.modules[at].dup(alloc)?;
        Ok(self.state.lib.push(library)?)
    }

    /// Takes the last library off.
    pub(crate) fn pop_lib(&mut self) -> Result<(), DeclFault>
        ensures goes { Goes (world_of info self.old) (frame_of self.old) commands.PopLib result (world_of info self.new) (frame_of self.new) }
        ensures natives { natives_of self.new ≡ natives_of self.old }
        ensures begun { calls_begun_of self.new ≡ calls_begun_of self.old }
        ensures count { modules_of self.new ≡ modules_of self.old }
    {
        match self.state.lib.pop() {
            Some(_library) => Ok(()),
            None => Err(unknown(0, 0)),
        }
    }

    /// Puts a module second among those whose functions all calls find.
    pub(crate) fn global_module(&mut self, alloc: Global, id: ModuleId) -> Result<(), DeclFault>
        ensures goes { Goes (world_of info self.old) (frame_of self.old) (commands.GlobalModule id) result (world_of info self.new) (frame_of self.new) }
        ensures natives { natives_of self.new ≡ natives_of self.old }
        ensures begun { calls_begun_of self.new ≡ calls_begun_of self.old }
        ensures count { modules_of self.new ≡ modules_of self.old }
    {
        let at = id.0 as usize;
        if at >= self.modules.len() {
            return Err(unknown(id.0, self.modules.len()));
        }
        let Ok(added) = self.modules[at].dup(alloc) else {
            return Err(DeclFault::OutOfMemory);
        };
        let engine = &mut self.engine;
        match engine.globals.insert_second(added) {
            Ok(()) => Ok(()),
            Err(OutOfMemory) => Err(DeclFault::OutOfMemory),
        }
    }

    /// Puts a module, indexed, under a name among the static modules.
    pub(crate) fn static_module(
        &mut self,
        alloc: Global,
        name: Text,
        id: ModuleId,
    ) -> Result<(), DeclFault>
        ensures goes { Goes (world_of info self.old) (frame_of self.old) (commands.StaticModule name id) result (world_of info self.new) (frame_of self.new) }
        ensures natives { natives_of self.new ≡ natives_of self.old }
        ensures begun { calls_begun_of self.new ≡ calls_begun_of self.old }
        ensures count { modules_of self.new ≡ modules_of self.old }
    {
        let at = id.0 as usize;
        if at >= self.modules.len() {
            return Err(unknown(id.0, self.modules.len()));
        }
        let Ok(added) = self.modules[at].dup(alloc) else {
            return Err(DeclFault::OutOfMemory);
        };
        let engine = &mut self.engine;
        let seeds = engine.seeds();
        engine.statics.register_static(alloc, seeds, name, added)
    }

    /// Puts a module, indexed, under a name last among the imports.
    pub(crate) fn push_import(
        &mut self,
        alloc: Global,
        name: Text,
        id: ModuleId,
    ) -> Result<(), DeclFault>
        ensures goes { Goes (world_of info self.old) (frame_of self.old) (commands.PushImport name id) result (world_of info self.new) (frame_of self.new) }
        ensures natives { natives_of self.new ≡ natives_of self.old }
        ensures begun { calls_begun_of self.new ≡ calls_begun_of self.old }
        ensures count { modules_of self.new ≡ modules_of self.old }
    {
        let at = id.0 as usize;
        if at >= self.modules.len() {
            return Err(unknown(id.0, self.modules.len()));
        }
        let mut added = self.modules[at].dup(alloc)?;
        match added.build_index(alloc) {
            Ok(()) => Ok(self.state.imports.push(name, added)?),
            Err(fault) => Err(fault),
        }
    }

    /// Takes the last import off.
    pub(crate) fn pop_import(&mut self) -> Result<(), DeclFault>
        ensures goes { Goes (world_of info self.old) (frame_of self.old) commands.PopImport result (world_of info self.new) (frame_of self.new) }
        ensures natives { natives_of self.new ≡ natives_of self.old }
        ensures begun { calls_begun_of self.new ≡ calls_begun_of self.old }
        ensures count { modules_of self.new ≡ modules_of self.old }
    {
        match self.state.imports.pop() {
            Some((_name, _import)) => Ok(()),
            None => Err(unknown(0, 0)),
        }
    }

    /// Sets the source of the calls that are made, or takes it away.
    pub(crate) fn set_source(
        &mut self,
        alloc: Global,
        source: Option<Text>,
    ) -> Result<(), DeclFault>
        ensures goes { Goes (world_of info self.old) (frame_of self.old) (commands.SetSource source) result (world_of info self.new) (frame_of self.new) }
        ensures natives { natives_of self.new ≡ natives_of self.old }
        ensures begun { calls_begun_of self.new ≡ calls_begun_of self.old }
        ensures count { modules_of self.new ≡ modules_of self.old }
    {
        let Some(source) = source else {
            self.state.source = None;
            return Ok(());
        };
        self.state.source = Some(SharedText::new(alloc, source)?);
        Ok(())
    }

    /// Sets the tag of the run.
    pub(crate) fn set_tag(&mut self, tag: Dynamic) -> Result<(), DeclFault>
        ensures goes { Goes (world_of info self.old) (frame_of self.old) (commands.SetTag tag) result (world_of info self.new) (frame_of self.new) }
        ensures natives { natives_of self.new ≡ natives_of self.old }
        ensures begun { calls_begun_of self.new ≡ calls_begun_of self.old }
        ensures count { modules_of self.new ≡ modules_of self.old }
    {
        self.state.tag = tag;
        Ok(())
    }

    /// The module of a number; none where it isn't held.
    fn module_at(&self, id: ModuleId) -> Option<&SharedModule>
        ensures { option_copied result ≡ slice_get (modules_of self.now) id.0 }
    {
        self.modules.get(id.0 as usize)
    }

    /// How many variables and functions a module has.
    pub(crate) fn count(&self, id: ModuleId) -> Reply
        ensures { Declares (world_of info self.now) (frame_of self.now) (commands.Count id) result (world_of info self.now) (frame_of self.now) }
    {
        match self.module_at(id) {
            Some(counted) => {
                let (vars, fns, iterators) = counted.module().count();
                Reply::Count(vars, fns, iterators)
            }
            None => Reply::Refused(unknown(id.0, self.modules.len())),
        }
    }

    /// Whether a module has a function under a key.
    pub(crate) fn contains(&self, id: ModuleId, key: &Key) -> Reply
        ensures { Declares (world_of info self.now) (frame_of self.now) (commands.Contains id key.now) result (world_of info self.now) (frame_of self.now) }
    {
        match self.module_at(id) {
            Some(asked) => Reply::Truth(asked.module().contains_fn(key)),
            None => Reply::Refused(unknown(id.0, self.modules.len())),
        }
    }
}
