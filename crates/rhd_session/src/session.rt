//! A session: commands in, replies out.

ghost use Rattle.std.specs.Prelude.{◌≡◌, ◌≤◌, ◌<◌, ◌+◌, ◌^◌, ◌++◌, ◌∷◌, [], true, IfOk, OnOk, OnErr, length, vec_len, vec_capacity};
ghost use Rattle.rhd_func.specs.Infos.{infos_of};
ghost use Rattle.rhd_manifest.specs.Fits.{fits};
ghost use Rattle.rhd_call.specs.declared.reply.Reply.{Reply};
ghost use Rattle.rhd_engine.specs.Held.{builtins_held};
ghost use Rattle.rhd_session.specs.Answered.{ImportsPath, Replied, Begins, RunGives};
ghost use Rattle.rhd_session.specs.Start.{start_world, start_state, start_files};
ghost use Rattle.rhd_session.specs.State.{Stays};

use crate::session_core::SessionCore;
use rhd_call::{Command, Commands, Replies, Reply, Stopped};
use rhd_engine::{Builtins, Limits, Printers};
use rhd_func::{Bodies, Host, Natives};
use rhd_hash::Seeds;
use rhd_manifest::Manifests;
use rhd_resolve::{FileModuleResolver, Files, Loader};
use rhd_value::{OutOfMemory, Text};
use std::alloc::Global;

/// Takes commands and answers them. Its natives are fixed when it is made, and so are its files and its
/// loader.
#[derive(Drop)]
pub struct Session<F, L> {
    core: SessionCore,
    resolver: FileModuleResolver<F, L>,
}

impl<F: Files, L: Loader> Session<F, L> {
    ghost use Rattle.rhd_session.specs.Of.{natives_of, world_of, frame_of, modules_of, calls_begun_of, moment_of, loader_of, state_of, session_objects, session_setting};

    /// A session in which nothing is registered. Its built-ins are held by the natives, which its manifests
    /// fit, and its modules hash their keys under these seeds. Its file resolver has no base path, and the
    /// extension `rhai`.
    pub fn new(
        alloc: Global,
        natives: Natives,
        manifests: Manifests,
        files: F,
        loader: L,
        seeds: Seeds,
        limits: Limits,
        builtins: Builtins,
        printers: Printers,
    ) -> Result<Session<F, L>, OutOfMemory>
        requires level { limits.level ≤ 1000 }
        requires builtins { builtins_held (length natives.items.items) builtins ≡ true }
        requires fits { fits (infos_of info natives) manifests ≡ true }
        ensures natives { IfOk result (λ session. natives_of session.core ≡ natives) }
        ensures loader { IfOk result (λ session. loader_of session ≡ loader) }
        ensures state { IfOk result (λ session. state_of info F.texts F.faults session ≡ start_state (start_world (infos_of info natives) manifests seeds limits builtins printers) (start_files (F.texts files) (F.faults files))) }
        ensures begun { IfOk result (λ session. calls_begun_of session.core ≡ 0) }
    {
        Ok(Session {
            core: SessionCore::new(alloc, natives, manifests, seeds, limits, builtins, printers)?,
            resolver: FileModuleResolver::new(alloc, files, loader)?,
        })
    }

    /// Puts the module that a path names under a name last among the imports. Its place is made before
    /// the resolver is asked.
    fn import_path(&mut self, alloc: Global, name: Text, path: &Text) -> Result<Reply, OutOfMemory>
        ensures imports { IfOk result (λ reply. ImportsPath (L.allows_load (loader_of self.old)) (state_of info F.texts F.faults self.old) name path.now reply (state_of info F.texts F.faults self.new)) }
        ensures stays { OnErr result (Stays (state_of info F.texts F.faults self.old) (state_of info F.texts F.faults self.new)) }
        ensures natives { natives_of self.new.core ≡ natives_of self.old.core }
        ensures loader { loader_of self.new ≡ loader_of self.old }
        ensures modules { modules_of self.new.core ≡ modules_of self.old.core }
        ensures begun { calls_begun_of self.new.core ≡ calls_begun_of self.old.core }
    {
        self.core.hold_import(alloc, name)?;
        let answer = self.core.ask(alloc, &mut self.resolver, path);
        self.core.end_import(answer)
    }

    /// Puts the module that a path names under a name last among the imports, as `import_path` does.
    /// Its reply goes last, where there is room for it.
    fn push_imported(
        &mut self,
        alloc: Global,
        name: Text,
        path: &Text,
        replies: &mut Vec<Reply>,
    ) -> Result<(), OutOfMemory>
        requires { vec_len replies.old < vec_capacity replies.old }
        ensures imports { OnOk result ((reply : Reply) × (replies.new.items ≡ replies.old.items ++ reply ∷ [])
            × ImportsPath (L.allows_load (loader_of self.old)) (state_of info F.texts F.faults self.old) name path.now reply (state_of info F.texts F.faults self.new)) }
        ensures failed { OnErr result ((replies.new.items ≡ replies.old.items) × Stays (state_of info F.texts F.faults self.old) (state_of info F.texts F.faults self.new)) }
        ensures natives { natives_of self.new.core ≡ natives_of self.old.core }
        ensures loader { loader_of self.new ≡ loader_of self.old }
        ensures modules { modules_of self.new.core ≡ modules_of self.old.core }
        ensures begun { calls_begun_of self.new.core ≡ calls_begun_of self.old.core }
    {
        let reply = self.import_path(alloc, name, path)?;
        replies.push_reserved(reply);
        Ok(())
    }

    /// Answers one command. Its reply goes last.
    fn perform<H: Host, B: Bodies>(
        &mut self,
        alloc: Global,
        command: Command,
        replies: &mut Vec<Reply>,
        host: &mut H,
        bodies: &mut B,
    ) -> Result<(), OutOfMemory>
        requires { length (modules_of self.old.core) < 2 ^ 32 }
        ensures replied { OnOk result ((reply : Reply) × (replies.new.items ≡ replies.old.items ++ reply ∷ [])
            × Replied (session_objects allows_call allows_resume B.allows_start B.allows_next H.allows_missing L.allows_load self.old) (state_of info F.texts F.faults self.old) (moment_of self.old.core host.old bodies.old)
            command reply (state_of info F.texts F.faults self.new) (moment_of self.new.core host.new bodies.new)) }
        ensures failed { OnErr result ((replies.new.items ≡ replies.old.items) × Stays (state_of info F.texts F.faults self.old) (state_of info F.texts F.faults self.new)) }
        ensures natives { natives_of self.new.core ≡ natives_of self.old.core }
        ensures loader { loader_of self.new ≡ loader_of self.old }
        ensures begins { Begins command (calls_begun_of self.old.core) (calls_begun_of self.new.core) }
        ensures count { length (modules_of self.new.core) ≤ length (modules_of self.old.core) + 1 }
    {
        replies.reserve(1)?;
        match command {
            Command::Call(request) => self.core.call(alloc, request, replies, host, bodies),
            Command::ImportPath { name, path } => {
                self.push_imported(alloc, name, &path, replies)?;
                Ok(())
            }
            declared => {
                self.core.declare(alloc, declared, replies)?;
                Ok(())
            }
        }
    }

    /// Answers commands in order. Bodies run the scripts that are called, and the host is asked for
    /// a call that allows scripts where no function is found. Where memory runs out, the commands
    /// before are done, and the calls that were begun for the next one are spent.
    pub fn run<H: Host, B: Bodies>(
        &mut self,
        alloc: Global,
        commands: &[Command],
        host: &mut H,
        bodies: &mut B,
    ) -> Result<Replies, Stopped>
        requires { length (modules_of self.old.core) + length commands.now < 2 ^ 32 }
        ensures gives { RunGives (session_setting allows_call allows_resume B.allows_start B.allows_next H.allows_missing L.allows_load info F.texts F.faults self.old) (moment_of self.old.core host.old bodies.old) commands.now result
            (state_of info F.texts F.faults self.new) (moment_of self.new.core host.new bodies.new) }
        ensures modules { length (modules_of self.new.core) ≤ length (modules_of self.old.core) + length commands.now }
        ensures natives { natives_of self.new.core ≡ natives_of self.old.core }
        ensures loader { loader_of self.new ≡ loader_of self.old }
    {
        let mut replies = Vec::new(alloc);
        for command in commands {
            let Ok(command) = command.dup(alloc) else {
                return Err(Stopped {
                    replies: Replies::from_vec(replies),
                });
            };
            if self
                .perform(alloc, command, &mut replies, host, bodies)
                .is_err()
            {
                return Err(Stopped {
                    replies: Replies::from_vec(replies),
                });
            }
        }
        Ok(Replies::from_vec(replies))
    }

    /// Answers commands in order, as `run` does, and takes them, so that none is copied.
    pub fn run_commands<H: Host, B: Bodies>(
        &mut self,
        alloc: Global,
        commands: Commands,
        host: &mut H,
        bodies: &mut B,
    ) -> Result<Replies, Stopped>
        requires { length (modules_of self.old.core) + length commands < 2 ^ 32 }
        ensures gives { RunGives (session_setting allows_call allows_resume B.allows_start B.allows_next H.allows_missing L.allows_load info F.texts F.faults self.old) (moment_of self.old.core host.old bodies.old) commands result
            (state_of info F.texts F.faults self.new) (moment_of self.new.core host.new bodies.new) }
        ensures modules { length (modules_of self.new.core) ≤ length (modules_of self.old.core) + length commands }
        ensures natives { natives_of self.new.core ≡ natives_of self.old.core }
        ensures loader { loader_of self.new ≡ loader_of self.old }
    {
        let mut made = Vec::new(alloc);
        for command in commands.into_vec() {
            if self
                .perform(alloc, command, &mut made, host, bodies)
                .is_err()
            {
                return Err(Stopped {
                    replies: Replies::from_vec(made),
                });
            }
        }
        Ok(Replies::from_vec(made))
    }
}
