//! How functions are put into a module.

ghost use Rattle.std.specs.Prelude.{◌≡◌, None, Some, IfOk, codes};
ghost use Rattle.rhd_hash.specs.Parts.{mixed};
ghost use Rattle.rhd_func.specs.Infos.{infos_of};
ghost use Rattle.rhd_func.specs.Funcs.{is_method};
ghost use Rattle.rhd_decl.specs.NativeKeys.{native_key};
ghost use Rattle.rhd_decl.specs.Registration.{banned, native_at, native_decl, registered_decl, script_key, script_decl, new_registration, global_registration, setter_registration, pure_registration, getter_name, setter_name};
ghost use Rattle.rhd_module.specs.Registered.{Puts, Registers, RegistersRaw, RegistersBoth, registered_hash};

use crate::module::Module;
use rhd_decl::{
    DeclFault, FuncMetadata, FuncRegistration, is_banned, native_key, raw_refusal, refuse_pair,
    script_declaration, script_key, unknown,
};
use rhd_func::{EnvId, Natives, PluginFunc, RhaiFunc, SharedDef};
use rhd_hash::{Key, SharedKey};
use rhd_value::{FnId, Text, Texts, TypeTag};
use std::alloc::Global;

/// A registration that can be made in a module.
pub trait RegisterIntoModule {
    ghost use Rattle.rhd_decl.specs.declared.registration.FuncRegistration.{FuncRegistration};

    /// The registration that it is.
    ghost registration: { Self → FuncRegistration };

    /// Registers the native of a number in a module: in the place of one of an equal key, else last.
    /// Answers what is said of it.
    fn set_into_module(
        self,
        alloc: Global,
        target: &mut Module,
        natives: &Natives,
        id: FnId,
    ) -> Result<FuncMetadata, DeclFault>
        ensures registers { Registers (infos_of info natives.now) (registration self) id target.old result target.new }
        ensures metadata { IfOk result (λ metadata. metadata ≡ (registered_decl target.old.own.seeds (registration self) (native_at (infos_of info natives.now) id) id).metadata) };

    /// Registers a function that isn't defined by a script and doesn't iterate, with these types: in the
    /// place of one of an equal key, else last. Answers what is said of it.
    fn set_into_module_raw(
        self,
        alloc: Global,
        target: &mut Module,
        natives: &Natives,
        types: &[TypeTag],
        func: RhaiFunc,
    ) -> Result<FuncMetadata, DeclFault>
        requires purity { (registration self).purity ≡ None }
        requires volatility { (registration self).volatility ≡ None }
        ensures registers { RegistersRaw (infos_of info natives.now) (registration self) types.now func target.old result target.new }
        ensures metadata { IfOk result (λ metadata. metadata ≡ (native_decl target.old.own.seeds (registration self) (is_method (infos_of info natives.now) func) types.now func).metadata) };
}

impl RegisterIntoModule for FuncRegistration {
    ghost registration = { λ reg. reg };

    fn set_into_module(
        self,
        alloc: Global,
        target: &mut Module,
        natives: &Natives,
        id: FnId,
    ) -> Result<FuncMetadata, DeclFault> {
        target.put_registered(alloc, natives, self, id)
    }

    fn set_into_module_raw(
        self,
        alloc: Global,
        target: &mut Module,
        natives: &Natives,
        types: &[TypeTag],
        func: RhaiFunc,
    ) -> Result<FuncMetadata, DeclFault> {
        if let Some(fault) = raw_refusal(natives, &func) {
            return Err(fault);
        }
        let is_method = func.is_method(natives);
        target.put_allowed(alloc, self, is_method, types, func)
    }
}

impl Module {
    /// Puts a function of these types under a registration.
    fn put_native(
        &mut self,
        alloc: Global,
        reg: FuncRegistration,
        is_method: bool,
        types: &[TypeTag],
        func: RhaiFunc,
    ) -> Result<FuncMetadata, DeclFault>
        ensures puts { Puts None (native_key is_method reg.name types.now) (native_decl self.old.own.seeds reg is_method types.now func) self.old result self.new }
        ensures metadata { IfOk result (λ metadata. metadata ≡ (native_decl self.old.own.seeds reg is_method types.now func).metadata) }
    {
        let (key, declaration) = reg.into_pair(alloc, self.seeds(), is_method, types, func)?;
        let metadata = declaration.metadata().dup(alloc)?;
        let key = SharedKey::known(alloc, key, self.seeds(), metadata.hash)?;
        self.put_fn(alloc, key, declaration)?;
        Ok(metadata)
    }

    /// The same where it isn't an indexer of a type whose indexing has its meaning already.
    fn put_allowed(
        &mut self,
        alloc: Global,
        reg: FuncRegistration,
        is_method: bool,
        types: &[TypeTag],
        func: RhaiFunc,
    ) -> Result<FuncMetadata, DeclFault>
        ensures puts { Puts (banned is_method reg.name types.now) (native_key is_method reg.name types.now) (native_decl self.old.own.seeds reg is_method types.now func) self.old result self.new }
        ensures metadata { IfOk result (λ metadata. metadata ≡ (native_decl self.old.own.seeds reg is_method types.now func).metadata) }
    {
        if is_banned(&reg.name, types) {
            let key = native_key(alloc, &reg.name, is_method, types)?;
            let key = SharedKey::new(alloc, key, self.seeds())?;
            return Err(DeclFault::IndexerNotAllowed { key });
        }
        self.put_native(alloc, reg, is_method, types, func)
    }

    /// Puts a native under a registration, with its types.
    fn put_held(
        &mut self,
        alloc: Global,
        reg: FuncRegistration,
        native: &Box<dyn PluginFunc>,
        id: FnId,
    ) -> Result<FuncMetadata, DeclFault>
        ensures puts { Puts (banned (info native.now).is_method reg.name (info native.now).types) (native_key (info native.now).is_method reg.name (info native.now).types)
            (registered_decl self.old.own.seeds reg (info native.now) id) self.old result self.new }
        ensures metadata { IfOk result (λ metadata. metadata ≡ (registered_decl self.old.own.seeds reg (info native.now) id).metadata) }
    {
        let func = reg.func_of(native, id);
        let is_method = native.is_method_call();
        self.put_allowed(alloc, reg, is_method, native.param_types(), func)
    }

    /// Puts the native of a number under a registration.
    fn put_registered(
        &mut self,
        alloc: Global,
        natives: &Natives,
        reg: FuncRegistration,
        id: FnId,
    ) -> Result<FuncMetadata, DeclFault>
        ensures registers { Registers (infos_of info natives.now) reg id self.old result self.new }
        ensures metadata { IfOk result (λ metadata. metadata ≡ (registered_decl self.old.own.seeds reg (native_at (infos_of info natives.now) id) id).metadata) }
    {
        match natives.get(id) {
            Some(native) => self.put_held(alloc, reg, native, id),
            None => Err(unknown(natives, id)),
        }
    }

    /// Does what `FuncRegistration::set_into_module_raw` does.
    pub fn set_fn_raw_with_options(
        &mut self,
        alloc: Global,
        reg: FuncRegistration,
        natives: &Natives,
        types: &[TypeTag],
        func: RhaiFunc,
    ) -> Result<FuncMetadata, DeclFault>
        requires purity { reg.purity ≡ None }
        requires volatility { reg.volatility ≡ None }
        ensures registers { RegistersRaw (infos_of info natives.now) reg types.now func self.old result self.new }
        ensures metadata { IfOk result (λ metadata. metadata ≡ (native_decl self.old.own.seeds reg (is_method (infos_of info natives.now) func) types.now func).metadata) }
    {
        reg.set_into_module_raw(alloc, self, natives, types, func)
    }

    /// Registers the native of a number under a name: found under the module's name alone, and pure whatever
    /// the name says. Answers the hash of its key.
    pub fn set_native_fn(
        &mut self,
        alloc: Global,
        natives: &Natives,
        name: Text,
        id: FnId,
    ) -> Result<u64, DeclFault>
        ensures registers { Registers (infos_of info natives.now) (pure_registration (new_registration name)) id self.old result self.new }
        ensures hash { IfOk result (λ hash. hash ≡ registered_hash (infos_of info natives.now) (pure_registration (new_registration name)) id self.old) }
    {
        let reg = FuncRegistration::new(alloc, name)?.with_purity(true);
        Ok(reg.set_into_module(alloc, self, natives, id)?.hash)
    }

    /// Registers the native of a number as the getter of a property. Answers the hash of its key.
    pub fn set_getter_fn(
        &mut self,
        alloc: Global,
        natives: &Natives,
        prop: &Text,
        id: FnId,
    ) -> Result<u64, DeclFault>
        ensures registers { Registers (infos_of info natives.now) (pure_registration (global_registration (getter_name prop.now))) id self.old result self.new }
        ensures hash { IfOk result (λ hash. hash ≡ registered_hash (infos_of info natives.now) (pure_registration (global_registration (getter_name prop.now))) id self.old) }
    {
        let reg = FuncRegistration::new_getter(alloc, prop)?.with_purity(true);
        Ok(reg.set_into_module(alloc, self, natives, id)?.hash)
    }

    /// Registers the native of a number as the setter of a property. Answers the hash of its key.
    pub fn set_setter_fn(
        &mut self,
        alloc: Global,
        natives: &Natives,
        prop: &Text,
        id: FnId,
    ) -> Result<u64, DeclFault>
        ensures registers { Registers (infos_of info natives.now) (setter_registration (setter_name prop.now)) id self.old result self.new }
        ensures hash { IfOk result (λ hash. hash ≡ registered_hash (infos_of info natives.now) (setter_registration (setter_name prop.now)) id self.old) }
    {
        let reg = FuncRegistration::new_setter(alloc, prop)?;
        Ok(reg.set_into_module(alloc, self, natives, id)?.hash)
    }

    /// Registers the native of a number as the indexer that reads. Answers the hash of its key.
    pub fn set_indexer_get_fn(
        &mut self,
        alloc: Global,
        natives: &Natives,
        id: FnId,
    ) -> Result<u64, DeclFault>
        ensures registers { Registers (infos_of info natives.now) (pure_registration (global_registration (codes "index$get$"))) id self.old result self.new }
        ensures hash { IfOk result (λ hash. hash ≡ registered_hash (infos_of info natives.now) (pure_registration (global_registration (codes "index$get$"))) id self.old) }
    {
        let reg = FuncRegistration::new_index_getter(alloc)?.with_purity(true);
        Ok(reg.set_into_module(alloc, self, natives, id)?.hash)
    }

    /// Registers the native of a number as the indexer that writes. Answers the hash of its key.
    pub fn set_indexer_set_fn(
        &mut self,
        alloc: Global,
        natives: &Natives,
        id: FnId,
    ) -> Result<u64, DeclFault>
        ensures registers { Registers (infos_of info natives.now) (setter_registration (codes "index$set$")) id self.old result self.new }
        ensures hash { IfOk result (λ hash. hash ≡ registered_hash (infos_of info natives.now) (setter_registration (codes "index$set$")) id self.old) }
    {
        let reg = FuncRegistration::new_index_setter(alloc)?;
        Ok(reg.set_into_module(alloc, self, natives, id)?.hash)
    }

    /// Registers the natives of two numbers, both or none. Answers the hashes of their keys.
    pub fn put_both(
        &mut self,
        alloc: Global,
        natives: &Natives,
        get_reg: FuncRegistration,
        get: FnId,
        set_reg: FuncRegistration,
        set: FnId,
    ) -> Result<(u64, u64), DeclFault>
        ensures registers { RegistersBoth (infos_of info natives.now) get_reg get set_reg set self.old result self.new }
        ensures get { IfOk result (λ hashes. hashes.0 ≡ registered_hash (infos_of info natives.now) get_reg get self.old) }
        ensures set { IfOk result (λ hashes. hashes.1 ≡ registered_hash (infos_of info natives.now) set_reg set self.old) }
    {
        refuse_pair(alloc, natives, &get_reg.name, get, &set_reg.name, set)?;
        let mut copy = self.dup(alloc)?;
        let getter = match copy.put_registered(alloc, natives, get_reg, get) {
            Ok(metadata) => metadata.hash,
            Err(fault) => return Err(fault),
        };
        let setter = match copy.put_registered(alloc, natives, set_reg, set) {
            Ok(metadata) => metadata.hash,
            Err(fault) => return Err(fault),
        };
        *self = copy;
        Ok((getter, setter))
    }

    /// Registers the natives of two numbers as the getter and the setter of a property, both or none. The
    /// getter is pure, and the setter isn't. Answers the hashes of their keys.
    pub fn set_getter_setter_fn(
        &mut self,
        alloc: Global,
        natives: &Natives,
        prop: &Text,
        get: FnId,
        set: FnId,
    ) -> Result<(u64, u64), DeclFault>
        ensures registers { RegistersBoth (infos_of info natives.now) (pure_registration (global_registration (getter_name prop.now))) get (setter_registration (setter_name prop.now)) set self.old result self.new }
        ensures get { IfOk result (λ hashes. hashes.0 ≡ registered_hash (infos_of info natives.now) (pure_registration (global_registration (getter_name prop.now))) get self.old) }
        ensures set { IfOk result (λ hashes. hashes.1 ≡ registered_hash (infos_of info natives.now) (setter_registration (setter_name prop.now)) set self.old) }
    {
        let get_reg = FuncRegistration::new_getter(alloc, prop)?.with_purity(true);
        let set_reg = FuncRegistration::new_setter(alloc, prop)?;
        self.put_both(alloc, natives, get_reg, get, set_reg, set)
    }

    /// Registers the natives of two numbers as the indexers that read and write, both or none. The first is
    /// pure, and the second isn't. Answers the hashes of their keys.
    pub fn set_indexer_get_set_fn(
        &mut self,
        alloc: Global,
        natives: &Natives,
        get: FnId,
        set: FnId,
    ) -> Result<(u64, u64), DeclFault>
        ensures registers { RegistersBoth (infos_of info natives.now) (pure_registration (global_registration (codes "index$get$"))) get (setter_registration (codes "index$set$")) set self.old result self.new }
        ensures get { IfOk result (λ hashes. hashes.0 ≡ registered_hash (infos_of info natives.now) (pure_registration (global_registration (codes "index$get$"))) get self.old) }
        ensures set { IfOk result (λ hashes. hashes.1 ≡ registered_hash (infos_of info natives.now) (setter_registration (codes "index$set$")) set self.old) }
    {
        let get_reg = FuncRegistration::new_index_getter(alloc)?.with_purity(true);
        let set_reg = FuncRegistration::new_index_setter(alloc)?;
        self.put_both(alloc, natives, get_reg, get, set_reg, set)
    }

    /// Declares a script: in the place of one of an equal key, else last. Answers the hash of its key.
    pub fn set_script_fn(&mut self, alloc: Global, def: SharedDef) -> Result<u64, DeclFault>
        ensures puts { Puts None (script_key def) (script_decl self.old.own.seeds def None) self.old result self.new }
        ensures hash { IfOk result (λ hash. hash ≡ mixed self.old.own.seeds (script_key def)) }
    {
        self.put_script(alloc, def, None)
    }

    /// The same of a script that runs in an environment.
    pub fn set_script_fn_in(
        &mut self,
        alloc: Global,
        def: SharedDef,
        env: EnvId,
    ) -> Result<u64, DeclFault>
        ensures puts { Puts None (script_key def) (script_decl self.old.own.seeds def (Some env)) self.old result self.new }
        ensures hash { IfOk result (λ hash. hash ≡ mixed self.old.own.seeds (script_key def)) }
    {
        self.put_script(alloc, def, Some(env))
    }

    /// Declares a script with its environment, if it has one.
    fn put_script(
        &mut self,
        alloc: Global,
        def: SharedDef,
        env: Option<EnvId>,
    ) -> Result<u64, DeclFault>
        ensures puts { Puts None (script_key def) (script_decl self.old.own.seeds def env) self.old result self.new }
        ensures hash { IfOk result (λ hash. hash ≡ mixed self.old.own.seeds (script_key def)) }
    {
        let key = script_key(alloc, def.def())?;
        let declaration = script_declaration(alloc, self.seeds(), def, env)?;
        let hash = declaration.metadata().hash;
        let key = SharedKey::known(alloc, key, self.seeds(), hash)?;
        self.put_fn(alloc, key, declaration)?;
        Ok(hash)
    }
}
