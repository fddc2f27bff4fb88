//! Modules with several owners.

ghost use Rattle.std.specs.Prelude.{◌≡◌, None, [], OnOk, OnErr, IfOk};
ghost use Rattle.std.specs.Borrow.{sem};
ghost use Rattle.rhd_func.specs.Infos.{infos_of};
ghost use Rattle.rhd_module.specs.Contents.{with_id, named, with_doc, with_var, with_type, cleared, with_sub};
ghost use Rattle.rhd_module.specs.Index.{Indexes};
ghost use Rattle.rhd_layers.specs.Lends.{LendsModule};
ghost use Rattle.rhd_module.specs.Registered.{Puts, Registers, RegistersBoth, RegistersRaw};
ghost use Rattle.rhd_decl.specs.Registration.{native_at, registered_decl, script_key, script_decl};

use rhd_decl::{DeclFault, FuncMetadata, FuncRegistration};
use rhd_func::{Natives, RhaiFunc, SharedDef};
use rhd_module::{Module, RegisterIntoModule};
use rhd_value::{Dynamic, FnId, OutOfMemory, Text, TypeTag};
use std::alloc::{AllocError, Global};
use std::marker::Model;
use std::rc::Rc;

/// A module with several owners: what one of them changes, the others don't see. Contracts see the
/// module's lists.
#[derive(Drop)]
pub struct SharedModule {
    module: Rc<Module>,
}

impl Model for SharedModule {
    ghost use Rattle.rhd_module.specs.Tree.{ModuleTree};
    ghost use Rattle.rhd_module.specs.Codes.{tree_code};

    ghost Value = { ModuleTree };

    ghost coded = { tree_code };

    ghost view = { λ m. m.module.value };
}

impl SharedModule {
    pub fn new(alloc: Global, contents: Module) -> Result<SharedModule, OutOfMemory>
        ensures { IfOk result (λ shared. shared ≡ contents) }
    {
        Ok(SharedModule {
            module: Rc::new(alloc, contents)?,
        })
    }

    pub fn module(&self) -> &Module
        ensures { result.now ≡ self.now }
    {
        &self.module
    }

    /// One more owner of the same module.
    pub fn dup(&self, _alloc: Global) -> Result<SharedModule, OutOfMemory>
        ensures { IfOk result (λ shared. shared ≡ self.now) }
    {
        Ok(SharedModule {
            module: self.module.clone()?,
        })
    }

    /// The module itself, whose owner this one is.
    pub fn into_rc(self) -> Rc<Module>
        ensures { result.value ≡ self }
    {
        self.module
    }

    /// Sets the id of this owner's module. It is copied first where it has other owners.
    pub fn set_id(&mut self, alloc: Global, id: Text) -> Result<(), OutOfMemory>
        ensures ok { OnOk result (self.new ≡ with_id id self.old) }
        ensures err { OnErr result (self.new ≡ self.old) }
    {
        let module = Rc::make_mut(&mut self.module)?;
        module.set_id(alloc, id)
    }

    /// Sets the id of this owner's module where it has none. It is copied first where it has other owners.
    pub fn set_id_if_none(&mut self, alloc: Global, id: Text) -> Result<(), OutOfMemory>
        ensures ok { OnOk result (self.new ≡ named id self.old) }
        ensures err { OnErr result (self.new ≡ self.old) }
    {
        if self.module.id().is_some() {
            return Ok(());
        }
        self.set_id(alloc, id)
    }

    /// Indexes this owner's module, as `Module::build_index` does. It is copied first where it isn't
    /// indexed and has other owners.
    pub fn build_index(&mut self, alloc: Global) -> Result<(), DeclFault>
        ensures { Indexes self.old result self.new }
    {
        if self.module.has_index() {
            return Ok(());
        }
        let module = Rc::make_mut(&mut self.module)?;
        module.build_index(alloc)
    }

    /// Sets the documentation of this owner's module. It is copied first where it has other owners.
    pub fn set_doc(&mut self, _alloc: Global, doc: Text) -> Result<(), OutOfMemory>
        ensures ok { OnOk result (self.new ≡ with_doc doc self.old) }
        ensures err { OnErr result (self.new ≡ self.old) }
    {
        let module = Rc::make_mut(&mut self.module)?;
        module.set_doc(doc);
        Ok(())
    }

    /// Sets a variable of this owner's module. It is copied first where it has other owners.
    pub fn set_var(&mut self, alloc: Global, name: Text, value: Dynamic) -> Result<(), OutOfMemory>
        ensures ok { OnOk result (self.new ≡ with_var name value self.old) }
        ensures err { OnErr result (self.new ≡ self.old) }
    {
        let module = Rc::make_mut(&mut self.module)?;
        module.set_var(alloc, name, value)
    }

    /// The type of this type name is shown by this name in this owner's module. It is copied first where it has other owners.
    pub fn set_custom_type_raw(
        &mut self,
        alloc: Global,
        type_name: Text,
        display: Text,
    ) -> Result<(), OutOfMemory>
        ensures ok { OnOk result (self.new ≡ with_type type_name display [] self.old) }
        ensures err { OnErr result (self.new ≡ self.old) }
    {
        let module = Rc::make_mut(&mut self.module)?;
        module.set_custom_type_raw(alloc, type_name, display)
    }

    /// Puts a sub-module into this owner's module. It is copied first where it has other owners.
    pub fn set_sub_module(
        &mut self,
        alloc: Global,
        name: Text,
        child: SharedModule,
    ) -> Result<(), OutOfMemory>
        ensures ok { OnOk result (self.new ≡ with_sub name child self.old) }
        ensures err { OnErr result (self.new ≡ self.old) }
    {
        let module = Rc::make_mut(&mut self.module)?;
        module.set_sub_module(alloc, name, child.into_rc())
    }

    /// Takes all out of this owner's module but its id and own flags. It is copied first where it has other owners.
    pub fn clear(&mut self, _alloc: Global) -> Result<(), OutOfMemory>
        ensures ok { OnOk result (self.new ≡ cleared self.old) }
        ensures err { OnErr result (self.new ≡ self.old) }
    {
        let module = Rc::make_mut(&mut self.module)?;
        module.clear();
        Ok(())
    }

    /// Registers the native of a number in this owner's module, as `FuncRegistration::set_into_module`
    /// does. The module is copied first where it has other owners.
    pub fn register(
        &mut self,
        alloc: Global,
        reg: FuncRegistration,
        natives: &Natives,
        id: FnId,
    ) -> Result<(), DeclFault>
        ensures { Registers (infos_of info natives.now) reg id self.old result self.new }
    {
        let module = Rc::make_mut(&mut self.module)?;
        reg.set_into_module(alloc, module, natives, id)?;
        Ok(())
    }

    /// The same, and answers what is said of the native, as that call does.
    pub fn register_told(
        &mut self,
        alloc: Global,
        reg: FuncRegistration,
        natives: &Natives,
        id: FnId,
    ) -> Result<FuncMetadata, DeclFault>
        ensures registers { Registers (infos_of info natives.now) reg id self.old result self.new }
        ensures metadata { IfOk result (λ metadata. metadata ≡ (registered_decl self.old.own.seeds reg (native_at (infos_of info natives.now) id) id).metadata) }
    {
        let module = Rc::make_mut(&mut self.module)?;
        reg.set_into_module(alloc, module, natives, id)
    }

    /// Registers the natives of two numbers in this owner's module, both or none. The module is copied
    /// first where it has other owners.
    pub fn register_both(
        &mut self,
        alloc: Global,
        natives: &Natives,
        get_reg: FuncRegistration,
        get: FnId,
        set_reg: FuncRegistration,
        set: FnId,
    ) -> Result<(), DeclFault>
        ensures { RegistersBoth (infos_of info natives.now) get_reg get set_reg set self.old result self.new }
    {
        let module = Rc::make_mut(&mut self.module)?;
        module.put_both(alloc, natives, get_reg, get, set_reg, set)?;
        Ok(())
    }

    /// Registers a function in this owner's module, as `FuncRegistration::set_into_module_raw` does. The
    /// module is copied first where it has other owners.
    pub fn register_raw(
        &mut self,
        alloc: Global,
        reg: FuncRegistration,
        natives: &Natives,
        types: &[TypeTag],
        func: RhaiFunc,
    ) -> Result<(), DeclFault>
        requires purity { reg.purity ≡ None }
        requires volatility { reg.volatility ≡ None }
        ensures { RegistersRaw (infos_of info natives.now) reg types.now func self.old result self.new }
    {
        let module = Rc::make_mut(&mut self.module)?;
        reg.set_into_module_raw(alloc, module, natives, types, func)?;
        Ok(())
    }

    /// Declares a script in this owner's module, which is copied first where there are other owners.
    pub fn set_script_fn(&mut self, alloc: Global, def: SharedDef) -> Result<(), DeclFault>
        ensures { Puts None (script_key def) (script_decl self.old.own.seeds def None) self.old result self.new }
    {
        let module = Rc::make_mut(&mut self.module)?;
        module.set_script_fn(alloc, def)?;
        Ok(())
    }

    /// This owner's module, to be changed. It is copied first where it has other owners.
    pub fn module_mut(&mut self) -> Result<&mut Module, OutOfMemory>
        ensures* writes_back { sem 𝓛 (LendsModule self.entry result) }
        ensures value { IfOk result (λ lent. lent.now ≡ self.old) }
    {
        match Rc::make_mut(&mut self.module) {
            Ok(module) => Ok(module),
            Err(AllocError) => Err(OutOfMemory),
        }
    }
}
