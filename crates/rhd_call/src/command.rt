//! What a session is told to do.

ghost use Rattle.std.specs.Prelude.{◌≡◌, ◌++◌, ◌∷◌, [], length, if◌then◌else◌, is_ok, IfOk};

use rhd_func::{CallRequest, FnNamespace, ManifestId, RhaiFunc, SharedDef};
use rhd_hash::Key;
use rhd_module::FuncRegistration;
use rhd_value::{Dynamic, FnId, OutOfMemory, Text, Types};
use std::alloc::Global;
use std::marker::Model;

/// The number of a module of a session, counted from 0.
#[derive(Clone, Copy, PartialEq, Eq, Debug)]
pub struct ModuleId(pub u32);

/// One thing to do.
#[derive(Drop)]
pub enum Command {
    /// Makes an empty module, which gets the next number.
    NewModule,
    /// Sets a module's id; an empty one clears it.
    SetId {
        module: ModuleId,
        id: Text,
    },
    /// Sets a module's documentation.
    SetDoc {
        module: ModuleId,
        doc: Text,
    },
    /// Sets a variable of a module.
    SetVar {
        module: ModuleId,
        name: Text,
        value: Dynamic,
    },
    /// The type of this type name is shown by this name in a module.
    SetType {
        module: ModuleId,
        type_name: Text,
        display: Text,
    },
    /// Registers a native in a module.
    Native {
        module: ModuleId,
        reg: FuncRegistration,
        id: FnId,
    },
    /// Registers a function in a module under a name, with these types.
    RawNative {
        module: ModuleId,
        name: Text,
        namespace: FnNamespace,
        types: Types,
        func: RhaiFunc,
    },
    /// Declares a script in a module.
    Script {
        module: ModuleId,
        def: SharedDef,
    },
    /// Puts a module, as it is then, under a name into a module.
    SubModule {
        module: ModuleId,
        name: Text,
        sub: ModuleId,
    },
    /// Puts a module, as it is then, over a module.
    Combine {
        module: ModuleId,
        other: ModuleId,
    },
    /// Puts what stands in the tree of a module, as it is then, over a module.
    CombineFlatten {
        module: ModuleId,
        other: ModuleId,
    },
    /// Puts what is new of a module, as it is then, into a module.
    Fill {
        module: ModuleId,
        other: ModuleId,
    },
    /// Merges a module, as it is then, into a module, with what it lists registered.
    Merge {
        module: ModuleId,
        other: ModuleId,
    },
    /// Makes the module of a manifest, which gets the next number.
    FromManifest {
        manifest: ManifestId,
    },
    /// Adds a manifest, flattened, to a module, with all variables and custom types of it.
    CombineManifest {
        module: ModuleId,
        manifest: ManifestId,
    },
    /// Registers what is listed in a module and below it.
    RegisterLazy {
        module: ModuleId,
    },
    /// Builds the index of a module's tree.
    Index {
        module: ModuleId,
    },
    /// Takes all out of a module but its id and own flags.
    Clear {
        module: ModuleId,
    },
    /// Registers a native under a name, for all calls.
    RegisterFn {
        name: Text,
        id: FnId,
    },
    /// Registers a native under a name as a method with these types, for all calls.
    RegisterRaw {
        name: Text,
        types: Types,
        id: FnId,
    },
    /// The custom type of a number is shown by this name.
    RegisterType {
        kind: u32,
        display: Text,
    },
    /// Puts a module, as it is then, second among the modules whose functions all calls find.
    GlobalModule {
        module: ModuleId,
    },
    /// Puts a module, as it is then and indexed, under a name among the static modules.
    StaticModule {
        name: Text,
        module: ModuleId,
    },
    /// Puts a module last among the libraries, as it is then.
    PushLib {
        module: ModuleId,
    },
    /// Takes the last library off.
    PopLib,
    /// Puts a module, as it is then and indexed, under a name last among the imports.
    PushImport {
        name: Text,
        module: ModuleId,
    },
    /// Puts the module that a path names, as the resolvers give it, under a name last among the imports.
    ImportPath {
        name: Text,
        path: Text,
    },
    /// Takes the last import off.
    PopImport,
    /// Sets the source of the calls that are made, or takes it away.
    SetSource(Option<Text>),
    /// Sets the tag of the run.
    SetTag(Dynamic),
    /// Makes a call.
    Call(CallRequest),
    /// How many variables and functions a module has.
    Count {
        module: ModuleId,
    },
    /// Whether a module has a function under a key.
    Contains {
        module: ModuleId,
        key: Key,
    },
}

impl Command {
    /// An equal command.
    pub fn dup(&self, alloc: Global) -> Result<Command, OutOfMemory>
        ensures { IfOk result (λ command. command ≡ self.now) }
    {
        match self {
            Command::NewModule => Ok(Command::NewModule),
            Command::SetId { module, id } => Ok(Command::SetId {
                module: *module,
                id: id.dup(alloc)?,
            }),
            Command::SetDoc { module, doc } => Ok(Command::SetDoc {
                module: *module,
                doc: doc.dup(alloc)?,
            }),
            Command::SetVar {
                module,
                name,
                value,
            } => Ok(Command::SetVar {
                module: *module,
                name: name.dup(alloc)?,
                value: value.dup(alloc)?,
            }),
            Command::SetType {
                module,
                type_name,
                display,
            } => Ok(Command::SetType {
                module: *module,
                type_name: type_name.dup(alloc)?,
                display: display.dup(alloc)?,
            }),
            Command::Native { module, reg, id } => Ok(Command::Native {
                module: *module,
                reg: reg.dup(alloc)?,
                id: *id,
            }),
            Command::RawNative {
                module,
                name,
                namespace,
                types,
                func,
            } => Ok(Command::RawNative {
                module: *module,
                name: name.dup(alloc)?,
                namespace: *namespace,
                types: types.dup(alloc)?,
                func: func.dup(alloc)?,
            }),
            Command::Script { module, def } => Ok(Command::Script {
                module: *module,
                def: def.dup(alloc)?,
            }),
            Command::SubModule { module, name, sub } => Ok(Command::SubModule {
                module: *module,
                name: name.dup(alloc)?,
                sub: *sub,
            }),
            Command::Combine { module, other } => Ok(Command::Combine {
                module: *module,
                other: *other,
            }),
            Command::CombineFlatten { module, other } => Ok(Command::CombineFlatten {
                module: *module,
                other: *other,
            }),
            Command::Fill { module, other } => Ok(Command::Fill {
                module: *module,
                other: *other,
            }),
            Command::Merge { module, other } => Ok(Command::Merge {
                module: *module,
                other: *other,
            }),
            Command::FromManifest { manifest } => Ok(Command::FromManifest {
                manifest: *manifest,
            }),
            Command::CombineManifest { module, manifest } => Ok(Command::CombineManifest {
                module: *module,
                manifest: *manifest,
            }),
            Command::RegisterLazy { module } => Ok(Command::RegisterLazy { module: *module }),
            Command::Index { module } => Ok(Command::Index { module: *module }),
            Command::Clear { module } => Ok(Command::Clear { module: *module }),
            Command::RegisterFn { name, id } => Ok(Command::RegisterFn {
                name: name.dup(alloc)?,
                id: *id,
            }),
            Command::RegisterRaw { name, types, id } => Ok(Command::RegisterRaw {
                name: name.dup(alloc)?,
                types: types.dup(alloc)?,
                id: *id,
            }),
            Command::RegisterType { kind, display } => Ok(Command::RegisterType {
                kind: *kind,
                display: display.dup(alloc)?,
            }),
            Command::GlobalModule { module } => Ok(Command::GlobalModule { module: *module }),
            Command::StaticModule { name, module } => Ok(Command::StaticModule {
                name: name.dup(alloc)?,
                module: *module,
            }),
            Command::PushLib { module } => Ok(Command::PushLib { module: *module }),
            Command::PopLib => Ok(Command::PopLib),
            Command::PushImport { name, module } => Ok(Command::PushImport {
                name: name.dup(alloc)?,
                module: *module,
            }),
            Command::ImportPath { name, path } => Ok(Command::ImportPath {
                name: name.dup(alloc)?,
                path: path.dup(alloc)?,
            }),
            Command::PopImport => Ok(Command::PopImport),
            Command::SetSource(Some(source)) => Ok(Command::SetSource(Some(source.dup(alloc)?))),
            Command::SetSource(None) => Ok(Command::SetSource(None)),
            Command::SetTag(tag) => Ok(Command::SetTag(tag.dup(alloc)?)),
            Command::Call(request) => Ok(Command::Call(request.dup(alloc)?)),
            Command::Count { module } => Ok(Command::Count { module: *module }),
            Command::Contains { module, key } => Ok(Command::Contains {
                module: *module,
                key: key.dup(alloc)?,
            }),
        }
    }
}

/// Commands in order. Contracts see the list of them.
#[derive(Drop)]
pub struct Commands {
    items: Vec<Command>,
}

impl Model for Commands {
    ghost use Rattle.std.specs.Prelude.{List};
    ghost use Rattle.std.specs.Coded.{coded_list};
    ghost use Rattle.rhd_call.specs.declared.command.Command.{Command};
    ghost use Rattle.rhd_call.specs.contracts.command.Command as command;

    ghost Value = { List Command };

    ghost coded = { coded_list command.the_row.coded };

    ghost view = { λ a. a.items.items };
}

impl Commands {
    pub fn new(alloc: Global) -> Commands
        ensures { result ≡ [] }
    {
        Commands {
            items: Vec::new(alloc),
        }
    }

    /// An equal list.
    pub fn dup(&self, alloc: Global) -> Result<Commands, OutOfMemory>
        ensures { IfOk result (λ commands. commands ≡ self.now) }
    {
        let mut commands = Commands::new(alloc);
        for command in &self.items {
            commands.push(command.dup(alloc)?)?;
        }
        Ok(commands)
    }

    /// Puts a command last.
    #[inline(always)]
    pub fn push(&mut self, command: Command) -> Result<(), OutOfMemory>
        ensures { self.new ≡ (if is_ok result then self.old ++ command ∷ [] else self.old) }
    {
        self.items.push(command)?;
        Ok(())
    }

    pub fn len(&self) -> usize
        ensures { result ≡ length self.now }
    {
        self.items.len()
    }

    pub fn as_slice(&self) -> &[Command]
        ensures { result.now ≡ self.now }
    {
        self.items.as_slice()
    }

    pub fn into_vec(self) -> Vec<Command>
        ensures { result.items ≡ self }
    {
        self.items
    }
}
