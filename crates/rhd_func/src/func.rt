//! The function that a declaration names.

ghost use Rattle.std.specs.Prelude.{◌≡◌, IfOk};
ghost use Rattle.std.specs.Option.{option_copied};
ghost use Rattle.rhd_func.specs.declared.func.RhaiFunc.TheVariants.{Plugin};
ghost use Rattle.rhd_func.specs.Funcs.{is_pure, is_volatile, is_method, has_context, is_iter, is_script, is_plugin_fn, is_native, access_of, native_of, native_fn_of, plugin_fn_of, iter_fn_of, script_def_of};
ghost use Rattle.rhd_func.specs.Infos.{infos_in};

use crate::access::{EnvId, FnAccess, IterId};
use crate::natives::Natives;
use crate::request::dup_text;
use rhd_value::{FnId, OutOfMemory, Text, Texts};
use std::alloc::{AllocFailed, Global};
use std::marker::Model;
use std::rc::Rc;

/// The number of a body, counted from 0.
#[derive(Clone, Copy, PartialEq, Eq, Debug)]
pub struct BodyId(pub u32);

/// A function that is defined by a script.
#[derive(Drop)]
pub struct ScriptFuncDef {
    pub name: Text,
    /// The names of its parameters.
    pub params: Texts,
    /// The type of its object, where it is a method of one type alone.
    pub this_type: Option<Text>,
    pub access: FnAccess,
    pub body: BodyId,
}

impl ScriptFuncDef {
    /// An equal definition.
    pub fn dup(&self, alloc: Global) -> Result<ScriptFuncDef, OutOfMemory>
        ensures { IfOk result (λ def. def ≡ self.now) }
    {
        Ok(ScriptFuncDef {
            name: self.name.dup(alloc)?,
            params: self.params.dup(alloc)?,
            this_type: dup_text(alloc, &self.this_type)?,
            access: self.access,
            body: self.body,
        })
    }
}

/// A definition with several owners. Contracts see the definition itself.
#[derive(Drop)]
pub struct SharedDef {
    def: Rc<ScriptFuncDef>,
}

impl Model for SharedDef {
    ghost use Rattle.rhd_func.specs.declared.func.ScriptFuncDef.{ScriptFuncDef};

    ghost Value = { ScriptFuncDef };

    ghost view = { λ a. a.def.value };
}

impl SharedDef {
    pub fn new(alloc: Global, def: ScriptFuncDef) -> Result<SharedDef, OutOfMemory>
        ensures { IfOk result (λ shared. shared ≡ def) }
    {
        Ok(SharedDef {
            def: Rc::new(alloc, def)?,
        })
    }

    pub fn def(&self) -> &ScriptFuncDef
        ensures { result.now ≡ self.now }
    {
        &self.def
    }

    /// One more owner of the same definition.
    pub fn dup(&self, _alloc: Global) -> Result<SharedDef, OutOfMemory>
        ensures { IfOk result (λ shared. shared ≡ self.now) }
    {
        Ok(SharedDef {
            def: self.def.clone()?,
        })
    }
}

/// A function.
///
/// `func` is the number of its native, or of the function that iterates. `has_context`: it is handed the
/// context of the call. `is_pure`: it may be called on a constant. `is_volatile`: it may answer otherwise
/// the next time.
///
/// A plugin has the properties that its native says of itself, so they are asked with the table of
/// natives beside it; of a number that isn't held nothing holds.
#[derive(Drop)]
pub enum RhaiFunc {
    /// A native that takes all its arguments by value.
    Pure {
        func: FnId,
        has_context: bool,
        is_pure: bool,
        is_volatile: bool,
    },
    /// A native that takes its first argument by reference.
    Method {
        func: FnId,
        has_context: bool,
        is_pure: bool,
        is_volatile: bool,
    },
    /// A function that iterates. It isn't called.
    Iterator {
        func: IterId,
    },
    /// A native, as it says of itself.
    Plugin {
        func: FnId,
    },
    /// The same of a native that is listed.
    StaticPlugin {
        func: FnId,
    },
    /// A script, and the environment in which it was defined, if there is one.
    Script {
        fn_def: SharedDef,
        env: Option<EnvId>,
    },
}

impl RhaiFunc {
    /// Whether it may be called on a constant. One that takes all its arguments by value always
    /// may. Of a script nothing of this kind is said.
    pub fn is_pure(&self, natives: &Natives) -> bool
        ensures { result ≡ is_pure (infos_in info natives.now.items.items) self.now }
    {
        match self {
            RhaiFunc::Pure { .. } => true,
            RhaiFunc::Method { is_pure, .. } => *is_pure,
            RhaiFunc::Iterator { .. } => true,
            RhaiFunc::Plugin { func } => natives.is_pure(*func),
            RhaiFunc::StaticPlugin { func } => natives.is_pure(*func),
            RhaiFunc::Script { .. } => false,
        }
    }

    /// Whether it is a native that takes its first argument by reference.
    pub fn is_method(&self, natives: &Natives) -> bool
        ensures { result ≡ is_method (infos_in info natives.now.items.items) self.now }
    {
        match self {
            RhaiFunc::Pure { .. } => false,
            RhaiFunc::Method { .. } => true,
            RhaiFunc::Iterator { .. } => false,
            RhaiFunc::Plugin { func } => natives.is_method(*func),
            RhaiFunc::StaticPlugin { func } => natives.is_method(*func),
            RhaiFunc::Script { .. } => false,
        }
    }

    /// Whether it is a native that is handed the context of the call. A script always is.
    pub fn has_context(&self, natives: &Natives) -> bool
        ensures { result ≡ has_context (infos_in info natives.now.items.items) self.now }
    {
        match self {
            RhaiFunc::Pure { has_context, .. } => *has_context,
            RhaiFunc::Method { has_context, .. } => *has_context,
            RhaiFunc::Iterator { .. } => false,
            RhaiFunc::Plugin { func } => natives.has_context(*func),
            RhaiFunc::StaticPlugin { func } => natives.has_context(*func),
            RhaiFunc::Script { .. } => false,
        }
    }

    /// Whether it may answer otherwise the next time. A script and a function that iterates may.
    pub fn is_volatile(&self, natives: &Natives) -> bool
        ensures { result ≡ is_volatile (infos_in info natives.now.items.items) self.now }
    {
        match self {
            RhaiFunc::Pure { is_volatile, .. } => *is_volatile,
            RhaiFunc::Method { is_volatile, .. } => *is_volatile,
            RhaiFunc::Iterator { .. } => true,
            RhaiFunc::Plugin { func } => natives.is_volatile(*func),
            RhaiFunc::StaticPlugin { func } => natives.is_volatile(*func),
            RhaiFunc::Script { .. } => true,
        }
    }

    /// Whether it is a function that iterates.
    pub fn is_iter(&self) -> bool
        ensures { result ≡ is_iter self.now }
    {
        match self {
            RhaiFunc::Pure { .. } => false,
            RhaiFunc::Method { .. } => false,
            RhaiFunc::Iterator { .. } => true,
            RhaiFunc::Plugin { .. } => false,
            RhaiFunc::StaticPlugin { .. } => false,
            RhaiFunc::Script { .. } => false,
        }
    }

    /// Whether it is defined by a script.
    pub fn is_script(&self) -> bool
        ensures { result ≡ is_script self.now }
    {
        match self {
            RhaiFunc::Pure { .. } => false,
            RhaiFunc::Method { .. } => false,
            RhaiFunc::Iterator { .. } => false,
            RhaiFunc::Plugin { .. } => false,
            RhaiFunc::StaticPlugin { .. } => false,
            RhaiFunc::Script { .. } => true,
        }
    }

    /// Whether it is a plugin.
    pub fn is_plugin_fn(&self) -> bool
        ensures { result ≡ is_plugin_fn self.now }
    {
        match self {
            RhaiFunc::Pure { .. } => false,
            RhaiFunc::Method { .. } => false,
            RhaiFunc::Iterator { .. } => false,
            RhaiFunc::Plugin { .. } => true,
            RhaiFunc::StaticPlugin { .. } => true,
            RhaiFunc::Script { .. } => false,
        }
    }

    /// Whether it isn't defined by a script.
    pub fn is_native(&self) -> bool
        ensures { result ≡ is_native self.now }
    {
        match self {
            RhaiFunc::Pure { .. } => true,
            RhaiFunc::Method { .. } => true,
            RhaiFunc::Iterator { .. } => true,
            RhaiFunc::Plugin { .. } => true,
            RhaiFunc::StaticPlugin { .. } => true,
            RhaiFunc::Script { .. } => false,
        }
    }

    /// Who may call it: a script's definition says it, and all others are public.
    pub fn access(&self) -> FnAccess
        ensures { result ≡ access_of self.now }
    {
        match self {
            RhaiFunc::Pure { .. } => FnAccess::Public,
            RhaiFunc::Method { .. } => FnAccess::Public,
            RhaiFunc::Iterator { .. } => FnAccess::Public,
            RhaiFunc::Plugin { .. } => FnAccess::Public,
            RhaiFunc::StaticPlugin { .. } => FnAccess::Public,
            RhaiFunc::Script { fn_def, .. } => fn_def.def().access,
        }
    }

    /// The number of the native that runs it; none for a script, and for a function that iterates.
    pub fn native_id(&self) -> Option<FnId>
        ensures { result ≡ native_of self.now }
    {
        match self {
            RhaiFunc::Pure { func, .. } => Some(*func),
            RhaiFunc::Method { func, .. } => Some(*func),
            RhaiFunc::Iterator { .. } => None,
            RhaiFunc::Plugin { func } => Some(*func),
            RhaiFunc::StaticPlugin { func } => Some(*func),
            RhaiFunc::Script { .. } => None,
        }
    }

    /// The number of a native that isn't a plugin.
    pub fn get_native_fn(&self) -> Option<FnId>
        ensures { result ≡ native_fn_of self.now }
    {
        match self {
            RhaiFunc::Pure { func, .. } => Some(*func),
            RhaiFunc::Method { func, .. } => Some(*func),
            RhaiFunc::Iterator { .. } => None,
            RhaiFunc::Plugin { .. } => None,
            RhaiFunc::StaticPlugin { .. } => None,
            RhaiFunc::Script { .. } => None,
        }
    }

    /// The number of a plugin's native.
    pub fn get_plugin_fn(&self) -> Option<FnId>
        ensures { result ≡ plugin_fn_of self.now }
    {
        match self {
            RhaiFunc::Pure { .. } => None,
            RhaiFunc::Method { .. } => None,
            RhaiFunc::Iterator { .. } => None,
            RhaiFunc::Plugin { func } => Some(*func),
            RhaiFunc::StaticPlugin { func } => Some(*func),
            RhaiFunc::Script { .. } => None,
        }
    }

    /// The number of a function that iterates.
    pub fn get_iter_fn(&self) -> Option<IterId>
        ensures { result ≡ iter_fn_of self.now }
    {
        match self {
            RhaiFunc::Pure { .. } => None,
            RhaiFunc::Method { .. } => None,
            RhaiFunc::Iterator { func } => Some(*func),
            RhaiFunc::Plugin { .. } => None,
            RhaiFunc::StaticPlugin { .. } => None,
            RhaiFunc::Script { .. } => None,
        }
    }

    /// The definition of a script.
    pub fn get_script_fn_def(&self) -> Option<&SharedDef>
        ensures { option_copied result ≡ script_def_of self.now }
    {
        match self {
            RhaiFunc::Pure { .. } => None,
            RhaiFunc::Method { .. } => None,
            RhaiFunc::Iterator { .. } => None,
            RhaiFunc::Plugin { .. } => None,
            RhaiFunc::StaticPlugin { .. } => None,
            RhaiFunc::Script { fn_def, .. } => Some(fn_def),
        }
    }

    /// The native of a number, as it says of itself.
    pub fn plugin(id: FnId) -> RhaiFunc
        ensures { result ≡ Plugin id }
    {
        RhaiFunc::Plugin { func: id }
    }

    /// An equal function.
    pub fn dup(&self, alloc: Global) -> Result<RhaiFunc, OutOfMemory>
        ensures { IfOk result (λ func. func ≡ self.now) }
    {
        match self {
            RhaiFunc::Pure {
                func,
                has_context,
                is_pure,
                is_volatile,
            } => Ok(RhaiFunc::Pure {
                func: *func,
                has_context: *has_context,
                is_pure: *is_pure,
                is_volatile: *is_volatile,
            }),
            RhaiFunc::Method {
                func,
                has_context,
                is_pure,
                is_volatile,
            } => Ok(RhaiFunc::Method {
                func: *func,
                has_context: *has_context,
                is_pure: *is_pure,
                is_volatile: *is_volatile,
            }),
            RhaiFunc::Iterator { func } => Ok(RhaiFunc::Iterator { func: *func }),
            RhaiFunc::Plugin { func } => Ok(RhaiFunc::Plugin { func: *func }),
            RhaiFunc::StaticPlugin { func } => Ok(RhaiFunc::StaticPlugin { func: *func }),
            RhaiFunc::Script { fn_def, env } => Ok(RhaiFunc::Script {
                fn_def: fn_def.dup(alloc)?,
                env: *env,
            }),
        }
    }
}

/// A script without an environment.
impl From<SharedDef> for RhaiFunc {
    ghost use Rattle.std.specs.Prelude.{◌≡◌, None};
    ghost use Rattle.rhd_func.specs.declared.func.RhaiFunc.TheVariants.{Script};

    ghost from_gives = { λ def func. func ≡ Script def None };

    fn from(fn_def: SharedDef) -> RhaiFunc {
        RhaiFunc::Script { fn_def, env: None }
    }
}
