//! What a session has beside its resolver: an engine, the state of a run, and modules and environments by
//! number.

ghost use Rattle.std.specs.Prelude.{◌≡◌, ◌≤◌, ◌<◌, ◌+◌, ◌^◌, ◌++◌, ◌∷◌, [], true, false, None, IfOk, OnOk, OnErr, length, vec_len, vec_capacity};
ghost use Rattle.rhd_func.specs.Infos.{infos_of};
ghost use Rattle.rhd_call.specs.declared.reply.Reply.{Reply};
ghost use Rattle.rhd_manifest.specs.Fits.{fits};
ghost use Rattle.rhd_engine.specs.Held.{all_held, builtins_held};
ghost use Rattle.rhd_engine.specs.Start.{start_frame};
ghost use Rattle.rhd_machine.specs.Held.{frame_held, environs_held};
ghost use Rattle.rhd_machine.specs.World.{Moment};
ghost use Rattle.rhd_machine.specs.Objects.{objects_of};
ghost use Rattle.rhd_session.specs.Start.{start_world};
ghost use Rattle.rhd_machine.specs.CallReplied.{CallReplied};
ghost use Rattle.rhd_session.specs.Answered.{Declares};
ghost use Rattle.rhd_session.specs.Changing.{is_told, Goes};
ghost use Rattle.rhd_session.specs.Commands.{declares, target};

use crate::declaring::{is_told, push_reply, target};
use crate::joining::Join;
use rhd_call::{Command, Reply};
use rhd_engine::{Builtins, Engine, GlobalRuntimeState, Limits, Printers};
use rhd_func::{Bodies, CallRequest, Host, Natives};
use rhd_hash::Seeds;
use rhd_layers::SharedModule;
use rhd_machine::{begun, fill};
use rhd_manifest::Manifests;
use rhd_module::DeclFault;
use rhd_resolve::Environs;
use rhd_value::OutOfMemory;
use std::alloc::Global;

/// What a session has beside its resolver. Its natives are fixed when it is made.
#[derive(Drop)]
pub struct SessionCore {
    pub(crate) engine: Engine,
    pub(crate) state: GlobalRuntimeState,
    pub(crate) modules: Vec<SharedModule>,
    pub(crate) environs: Environs,
    pub(crate) begun: u64,
    ghost modules_held: { all_held (length engine.natives.items.items) modules.items ≡ true },
    ghost environs_held: { environs_held (length engine.natives.items.items) environs.items ≡ true },
    ghost state_held: { frame_held (length engine.natives.items.items) state ≡ true },
    ghost same_seeds: { environs.seeds ≡ engine.seeds },
    ghost same_natives: { environs.natives ≡ length engine.natives.items.items },
    ghost no_iterators: { environs.iterators ≡ 0 },
    ghost within: { begun ≤ engine.limits.budget },
}

impl SessionCore {
    ghost use Rattle.rhd_session.specs.Of.{natives_of, world_of, frame_of, modules_of, calls_begun_of, moment_of};

    /// Nothing is registered. The built-ins are held by the natives, which the manifests fit, and modules
    /// hash their keys under these seeds.
    pub(crate) fn new(
        alloc: Global,
        natives: Natives,
        manifests: Manifests,
        seeds: Seeds,
        limits: Limits,
        builtins: Builtins,
        printers: Printers,
    ) -> Result<SessionCore, OutOfMemory>
        requires level { limits.level ≤ 1000 }
        requires builtins { builtins_held (length natives.items.items) builtins ≡ true }
        requires fits { fits (infos_of info natives) manifests ≡ true }
        ensures natives { IfOk result (λ core. natives_of core ≡ natives) }
        ensures world { IfOk result (λ core. world_of info core ≡ start_world (infos_of info natives) manifests seeds limits builtins printers) }
        ensures frame { IfOk result (λ core. frame_of core ≡ start_frame) }
        ensures modules { IfOk result (λ core. modules_of core ≡ []) }
        ensures begun { IfOk result (λ core. calls_begun_of core ≡ 0) }
    {
        let environs = Environs::new(alloc, seeds, natives.len() as u64, 0)?;
        Ok(SessionCore {
            engine: Engine::new(alloc, natives, manifests, builtins, seeds, limits, printers)?,
            state: GlobalRuntimeState::new(alloc),
            modules: Vec::new(alloc),
            environs,
            begun: 0,
        })
    }

    /// Answers a command that declares something. Its reply goes last, where there is room for it.
    pub(crate) fn declare(
        &mut self,
        alloc: Global,
        command: Command,
        replies: &mut Vec<Reply>,
    ) -> Result<(), OutOfMemory>
        requires declares { declares command ≡ true }
        requires count { length (modules_of self.old) < 2 ^ 32 }
        requires room { vec_len replies.old < vec_capacity replies.old }
        ensures applied { OnOk result ((reply : Reply) × (replies.new.items ≡ replies.old.items ++ reply ∷ []) × Declares (world_of info self.old) (frame_of self.old) command reply (world_of info self.new) (frame_of self.new)) }
        ensures failed { OnErr result ((replies.new.items ≡ replies.old.items) × (world_of info self.new ≡ world_of info self.old) × (frame_of self.new ≡ frame_of self.old)) }
        ensures natives { natives_of self.new ≡ natives_of self.old }
        ensures begun { calls_begun_of self.new ≡ calls_begun_of self.old }
        ensures count { length (modules_of self.new) ≤ length (modules_of self.old) + 1 }
    {
        if let Some(id) = target(&command) {
            return push_reply(self.change_module(alloc, id, command), replies);
        }
        if is_told(&command) {
            return push_reply(self.register(alloc, command), replies);
        }
        self.push_answer(alloc, &command, replies)
    }

    /// Answers a command that has an answer of its own. Its reply goes last, where there is room for it.
    fn push_answer(
        &mut self,
        alloc: Global,
        command: &Command,
        replies: &mut Vec<Reply>,
    ) -> Result<(), OutOfMemory>
        requires declares { declares command.now ≡ true }
        requires told { is_told command.now ≡ false }
        requires plain { target command.now ≡ None }
        requires count { length (modules_of self.old) < 2 ^ 32 }
        requires room { vec_len replies.old < vec_capacity replies.old }
        ensures applied { OnOk result ((reply : Reply) × (replies.new.items ≡ replies.old.items ++ reply ∷ [])
            × Declares (world_of info self.old) (frame_of self.old) command.now reply (world_of info self.new) (frame_of self.new)) }
        ensures failed { OnErr result ((replies.new.items ≡ replies.old.items) × (world_of info self.new ≡ world_of info self.old) × (frame_of self.new ≡ frame_of self.old)) }
        ensures natives { natives_of self.new ≡ natives_of self.old }
        ensures begun { calls_begun_of self.new ≡ calls_begun_of self.old }
        ensures count { length (modules_of self.new) ≤ length (modules_of self.old) + 1 }
    {
        let reply = self.answer_itself(alloc, command)?;
        replies.push_reserved(reply);
        Ok(())
    }

    /// Answers a command that has an answer of its own.
    fn answer_itself(&mut self, alloc: Global, command: &Command) -> Result<Reply, OutOfMemory>
        requires declares { declares command.now ≡ true }
        requires told { is_told command.now ≡ false }
        requires plain { target command.now ≡ None }
        requires count { length (modules_of self.old) < 2 ^ 32 }
        ensures applied { IfOk result (λ reply. Declares (world_of info self.old) (frame_of self.old) command.now reply (world_of info self.new) (frame_of self.new)) }
        ensures failed { OnErr result ((world_of info self.new ≡ world_of info self.old) × (frame_of self.new ≡ frame_of self.old)) }
        ensures natives { natives_of self.new ≡ natives_of self.old }
        ensures begun { calls_begun_of self.new ≡ calls_begun_of self.old }
        ensures count { length (modules_of self.new) ≤ length (modules_of self.old) + 1 }
    {
        match command {
            Command::NewModule => self.new_module(alloc),
            Command::FromManifest { manifest } => self.from_manifest(alloc, *manifest),
            Command::Count { module: id } => Ok(self.count(*id)),
            Command::Contains { module: id, key } => Ok(self.contains(*id, key)),
            _ => unreachable!(),
        }
    }

    /// Carries out a command that answers nothing but that it is done, and changes no numbered module by
    /// itself.
    fn register(&mut self, alloc: Global, command: Command) -> Result<(), DeclFault>
        requires { is_told command ≡ true }
        ensures goes { Goes (world_of info self.old) (frame_of self.old) command result (world_of info self.new) (frame_of self.new) }
        ensures natives { natives_of self.new ≡ natives_of self.old }
        ensures begun { calls_begun_of self.new ≡ calls_begun_of self.old }
        ensures count { length (modules_of self.new) ≡ length (modules_of self.old) }
    {
        match command {
            Command::SubModule {
                module: id,
                name,
                sub,
            } => self.sub_module(alloc, id, name, sub),
            Command::Combine { module: id, other } => self.join(alloc, Join::Combine, id, other),
            Command::CombineFlatten { module: id, other } => {
                self.join(alloc, Join::CombineFlatten, id, other)
            }
            Command::Fill { module: id, other } => self.join(alloc, Join::Fill, id, other),
            Command::Merge { module: id, other } => self.join(alloc, Join::Merge, id, other),
            Command::RegisterFn { name, id } => self.register_fn(alloc, name, id),
            Command::RegisterRaw { name, types, id } => self.register_raw(alloc, name, &types, id),
            Command::RegisterType { kind, display } => self.register_type(alloc, kind, display),
            Command::GlobalModule { module: id } => self.global_module(alloc, id),
            Command::StaticModule { name, module: id } => self.static_module(alloc, name, id),
            Command::PushLib { module: id } => self.push_lib(alloc, id),
            Command::PopLib => self.pop_lib(),
            Command::PushImport { name, module: id } => self.push_import(alloc, name, id),
            Command::PopImport => self.pop_import(),
            Command::SetSource(source) => self.set_source(alloc, source),
            Command::SetTag(tag) => self.set_tag(tag),
            _ => unreachable!(),
        }
    }

    /// Makes a call. Its node is made at the end of the replies, where there is room for it, and
    /// leaves them again where memory runs out.
    pub(crate) fn call<H: Host, B: Bodies>(
        &mut self,
        alloc: Global,
        request: CallRequest,
        replies: &mut Vec<Reply>,
        host: &mut H,
        bodies: &mut B,
    ) -> Result<(), OutOfMemory>
        requires { vec_len replies.old < vec_capacity replies.old }
        ensures replied { OnOk result ((reply : Reply) × (replies.new.items ≡ replies.old.items ++ reply ∷ [])
            × CallReplied (objects_of allows_call allows_resume B.allows_start B.allows_next H.allows_missing
            (natives_of self.old)) (world_of info self.old) (frame_of self.old) (moment_of self.old host.old bodies.old) request reply (moment_of self.new host.new bodies.new)) }
        ensures failed { OnErr result (replies.new.items ≡ replies.old.items) }
        ensures world { world_of info self.new ≡ world_of info self.old }
        ensures frame { frame_of self.new ≡ frame_of self.old }
        ensures natives { natives_of self.new ≡ natives_of self.old }
        ensures modules { modules_of self.new ≡ modules_of self.old }
        ensures rises { calls_begun_of self.old ≤ calls_begun_of self.new }
    {
        let last = replies.len();
        replies.push_reserved(Reply::Called(begun(alloc, request, 1)));
        let filled = fill(
            alloc,
            &self.engine,
            &self.environs,
            &mut self.state,
            &mut replies[last],
            &mut self.begun,
            host,
            bodies,
        );
        if filled.is_err() {
            drop(replies.pop());
        }
        filled
    }
}
