//! What a text says.

ghost use Rattle.std.specs.Prelude.{◌≡◌, ◌+◌, ◌<◌, ◌^◌, length, IfOk, IfSome, Some};
ghost use Rattle.rhd_func.specs.Infos.{infos_of};
ghost use Rattle.rhd_call.specs.declared.command.Command.TheVariants.{Call};
ghost use Rattle.rhd_plan.specs.Session.{empty_text, takes_headers, is_held, with_seeds, with_limits, with_printer, with_builtin, with_host, with_file, with_body, with_call, with_end, with_command, added, with_part};
ghost use Rattle.rhd_plan.specs.Session.{latest_manifest, with_new_manifest, with_manifest_entry, with_manifest_sub, with_manifest_var, with_manifest_type};
ghost use Rattle.rhd_syntax.specs.Answers.{StepGives};

use crate::body::{BodyEnd, BodyPlans, CallPlan};
use crate::part::Part;
use rhd_call::{Command, Commands};
use rhd_engine::{Builtins, Limits, Printers};
use rhd_files::FileTable;
use rhd_func::{CallRequest, FnNamespace, ManifestId, Natives};
use rhd_hash::Seeds;
use rhd_manifest::Manifests;
use rhd_names::OpToken;
use rhd_syntax::{Printer, Stop};
use rhd_value::{Dynamic, Entries, FnId, OutOfMemory, Text, TypeTag};
use std::alloc::Global;

/// Whether the native of a number is held.
#[tactic(auto, using(crate::proofs::HeldNatives::count_infos))]
fn is_held(natives: &Natives, id: FnId) -> bool
    ensures { result ≡ is_held (infos_of info natives.now) id }
{
    (id.0 as usize) < natives.len()
}

/// What a session text says.
#[derive(Drop)]
pub struct SessionText {
    /// The seeds of the session, where the text sets them.
    pub seeds: Option<Seeds>,
    /// The limits of the session, where the text sets them.
    pub limits: Option<Limits>,
    /// The printers that are set.
    pub printers: Printers,
    /// The functions of operators.
    pub builtins: Builtins,
    /// What the host answers, by the name of the call.
    pub hosts: Entries,
    /// The texts of files, by their paths.
    pub files: FileTable,
    /// The manifests, by their numbers.
    pub manifests: Manifests,
    /// The bodies, by their numbers.
    pub bodies: BodyPlans,
    /// What the session is told to do, in order.
    pub commands: Commands,
}

impl SessionText {
    /// What a text without lines says.
    pub fn new(alloc: Global) -> SessionText
        ensures { result ≡ empty_text }
    {
        SessionText {
            seeds: None,
            limits: None,
            printers: Printers::NONE,
            builtins: Builtins::new(alloc),
            hosts: Entries::new(alloc),
            files: FileTable::new(alloc),
            manifests: Manifests::new(alloc),
            bodies: BodyPlans::new(alloc),
            commands: Commands::new(alloc),
        }
    }

    /// An equal text.
    pub fn dup(&self, alloc: Global) -> Result<SessionText, OutOfMemory>
        ensures { IfOk result (λ text. text ≡ self.now) }
    {
        Ok(SessionText {
            seeds: self.seeds,
            limits: self.limits,
            printers: self.printers,
            builtins: self.builtins.dup(alloc)?,
            hosts: self.hosts.dup(alloc)?,
            files: self.files.dup(alloc)?,
            manifests: self.manifests.dup(alloc)?,
            bodies: self.bodies.dup(alloc)?,
            commands: self.commands.dup(alloc)?,
        })
    }

    /// Whether headers may still stand: no command has come.
    fn takes_headers(&self) -> bool
        ensures { result ≡ takes_headers self.now }
    {
        self.commands.len() == 0
    }

    #[tactic(auto, unfolding(crate::specs::Session::with_seeds))]
    fn set_seeds(&mut self, seeds: Seeds) -> Result<(), Stop>
        ensures { StepGives result self.old self.new (with_seeds self.old seeds) }
    {
        if self.seeds.is_some() {
            return Err(Stop::Bad);
        }
        self.seeds = Some(seeds);
        Ok(())
    }

    #[tactic(auto, unfolding(crate::specs::Session::with_limits))]
    fn set_limits(&mut self, limits: Limits) -> Result<(), Stop>
        ensures { StepGives result self.old self.new (with_limits self.old limits) }
    {
        if self.limits.is_some() || limits.level > 1000 {
            return Err(Stop::Bad);
        }
        self.limits = Some(limits);
        Ok(())
    }

    #[tactic(auto, unfolding(crate::specs::Session::with_printer))]
    fn set_printer(&mut self, printer: Printer)
        ensures { self.new ≡ with_printer self.old printer }
    {
        match printer {
            Printer::Print => self.printers.print = true,
            Printer::Debug => self.printers.debug = true,
        }
    }

    #[tactic(auto, unfolding(crate::specs::Session::with_builtin))]
    fn set_builtin(
        &mut self,
        alloc: Global,
        op: OpToken,
        left: TypeTag,
        right: TypeTag,
        id: FnId,
        natives: &Natives,
    ) -> Result<(), Stop>
        ensures { StepGives result self.old self.new (with_builtin (infos_of info natives.now) self.old (record { token = op; left = left; right = right }) id) }
    {
        if !is_held(natives, id) {
            return Err(Stop::Bad);
        }
        Ok(self.builtins.set(alloc, op, left, right, id)?)
    }

    #[tactic(auto, unfolding(crate::specs::Session::with_host))]
    fn set_host(&mut self, name: Text, answer: Dynamic) -> Result<(), Stop>
        ensures { StepGives result self.old self.new (Some (with_host self.old name answer)) }
    {
        Ok(self.hosts.insert(name, answer)?)
    }

    #[tactic(auto, unfolding(crate::specs::Session::with_file))]
    fn set_file(&mut self, path: Text, text: Text) -> Result<(), Stop>
        ensures { StepGives result self.old self.new (Some (with_file self.old path text)) }
    {
        Ok(self.files.insert(path, text)?)
    }

    /// The number of the latest manifest; none where none was begun.
    #[tactic(auto, unfolding(crate::specs::Session::latest_manifest))]
    fn latest_manifest(&self) -> Option<ManifestId>
        requires { length self.now.manifests < 2 ^ 32 }
        ensures latest { result ≡ latest_manifest self.now }
        ensures held { IfSome result (λ id. id.0 < length self.now.manifests) }
    {
        let count = self.manifests.len();
        if count == 0 {
            return None;
        }
        Some(ManifestId((count - 1) as u32))
    }

    #[tactic(auto, unfolding(crate::specs::Session::with_new_manifest))]
    fn begin_manifest(&mut self, alloc: Global) -> Result<(), Stop>
        requires { length self.old.manifests + 1 < 2 ^ 32 }
        ensures { StepGives result self.old self.new (Some (with_new_manifest self.old)) }
    {
        self.manifests.push(alloc)?;
        Ok(())
    }

    #[tactic(auto, unfolding(crate::specs::Session::in_manifest, crate::specs::Session::with_manifest_entry), using(crate::proofs::HeldNatives::count_infos))]
    fn add_entry(
        &mut self,
        alloc: Global,
        name: Text,
        func: FnId,
        namespace: FnNamespace,
        natives: &Natives,
    ) -> Result<(), Stop>
        requires { length self.old.manifests < 2 ^ 32 }
        ensures { StepGives result self.old self.new (with_manifest_entry (infos_of info natives.now) self.old name func namespace) }
    {
        if !is_held(natives, func) {
            return Err(Stop::Bad);
        }
        let Some(id) = self.latest_manifest() else {
            return Err(Stop::Bad);
        };
        Ok(
            self.manifests
                .push_entry(alloc, natives, id, name, namespace, func)?,
        )
    }

    #[tactic(auto, unfolding(crate::specs::Session::in_manifest, crate::specs::Session::with_manifest_sub))]
    fn add_sub(&mut self, alloc: Global, name: Text, sub: ManifestId) -> Result<(), Stop>
        requires { length self.old.manifests < 2 ^ 32 }
        ensures { StepGives result self.old self.new (with_manifest_sub self.old name sub) }
    {
        let Some(id) = self.latest_manifest() else {
            return Err(Stop::Bad);
        };
        if sub.0 >= id.0 {
            return Err(Stop::Bad);
        }
        Ok(self.manifests.push_sub(alloc, id, name, sub)?)
    }

    #[tactic(auto, unfolding(crate::specs::Session::in_manifest, crate::specs::Session::with_manifest_var))]
    fn add_manifest_var(&mut self, alloc: Global, name: Text, value: Dynamic) -> Result<(), Stop>
        requires { length self.old.manifests < 2 ^ 32 }
        ensures { StepGives result self.old self.new (with_manifest_var self.old name value) }
    {
        let Some(id) = self.latest_manifest() else {
            return Err(Stop::Bad);
        };
        Ok(self.manifests.push_var(alloc, id, name, value)?)
    }

    #[tactic(auto, unfolding(crate::specs::Session::in_manifest, crate::specs::Session::with_manifest_type))]
    fn add_manifest_type(
        &mut self,
        alloc: Global,
        type_name: Text,
        display: Text,
    ) -> Result<(), Stop>
        requires { length self.old.manifests < 2 ^ 32 }
        ensures { StepGives result self.old self.new (with_manifest_type self.old type_name display) }
    {
        let Some(id) = self.latest_manifest() else {
            return Err(Stop::Bad);
        };
        Ok(self.manifests.push_type(alloc, id, type_name, display)?)
    }

    #[tactic(auto, unfolding(crate::specs::Session::with_body))]
    fn begin_body(&mut self, alloc: Global) -> Result<(), Stop>
        ensures { StepGives result self.old self.new (Some (with_body self.old)) }
    {
        Ok(self.bodies.begin(alloc)?)
    }

    #[tactic(auto, unfolding(crate::specs::Session::with_call))]
    fn add_call(&mut self, call: CallPlan) -> Result<(), Stop>
        ensures { StepGives result self.old self.new (with_call self.old call) }
    {
        self.bodies.add_call(call)
    }

    #[tactic(auto, unfolding(crate::specs::Session::with_end))]
    fn end_body(&mut self, end: BodyEnd) -> Result<(), Stop>
        ensures { StepGives result self.old self.new (with_end self.old end) }
    {
        self.bodies.add_end(end)
    }

    #[tactic(auto, unfolding(crate::specs::Session::with_command))]
    fn add_command(&mut self, command: Command) -> Result<(), Stop>
        ensures { StepGives result self.old self.new (Some (with_command self.old command)) }
    {
        Ok(self.commands.push(command)?)
    }

    /// Adds the request of a call.
    #[tactic(auto, unfolding(crate::specs::Session::with_command))]
    #[inline(always)]
    pub fn add_request(&mut self, request: CallRequest) -> Result<(), Stop>
        ensures { StepGives result self.old self.new (Some (with_command self.old (Call request))) }
    {
        Ok(self.commands.push(Command::Call(request))?)
    }

    /// Adds a part wherever it stands, where it is allowed; else all stays as it was.
    fn add(&mut self, alloc: Global, part: Part, natives: &Natives) -> Result<(), Stop>
        requires manifests { length self.old.manifests + 1 < 2 ^ 32 }
        ensures { StepGives result self.old self.new (added (infos_of info natives.now) self.old part) }
    {
        match part {
            Part::Seeds(seeds) => self.set_seeds(seeds),
            Part::Limits(limits) => self.set_limits(limits),
            Part::Printer(printer) => {
                self.set_printer(printer);
                Ok(())
            }
            Part::Builtin {
                op,
                left,
                right,
                id,
            } => self.set_builtin(alloc, op, left, right, id, natives),
            Part::Host { name, answer } => self.set_host(name, answer),
            Part::File { path, text } => self.set_file(path, text),
            Part::Manifest => self.begin_manifest(alloc),
            Part::Entry {
                name,
                func,
                namespace,
            } => self.add_entry(alloc, name, func, namespace, natives),
            Part::Sub { name, sub } => self.add_sub(alloc, name, sub),
            Part::ManifestVar { name, value } => self.add_manifest_var(alloc, name, value),
            Part::ManifestType { type_name, display } => {
                self.add_manifest_type(alloc, type_name, display)
            }
            Part::Body => self.begin_body(alloc),
            Part::Do(call) => self.add_call(call),
            Part::End(end) => self.end_body(end),
            Part::Command(command) => self.add_command(command),
        }
    }

    /// Adds what a line says that is no command, where it may stand there; else all stays as it was.
    #[tactic(auto, unfolding(crate::specs::Session::with_part))]
    fn add_row(&mut self, alloc: Global, part: Part, natives: &Natives) -> Result<(), Stop>
        requires manifests { length self.old.manifests + 1 < 2 ^ 32 }
        ensures { StepGives result self.old self.new (with_part (infos_of info natives.now) self.old part) }
    {
        if part.is_header() && !self.takes_headers() {
            drop(part);
            return Err(Stop::Bad);
        }
        self.add(alloc, part, natives)
    }

    /// Adds what a line says, where it may stand there; else all stays as it was.
    #[tactic(auto, unfolding(crate::specs::Session::with_part))]
    pub fn add_part(&mut self, alloc: Global, part: Part, natives: &Natives) -> Result<(), Stop>
        requires manifests { length self.old.manifests + 1 < 2 ^ 32 }
        ensures { StepGives result self.old self.new (with_part (infos_of info natives.now) self.old part) }
    {
        match part {
            Part::Command(command) => self.add_command(command),
            row => self.add_row(alloc, row, natives),
        }
    }
}
