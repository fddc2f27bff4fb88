//! How natives are registered for all calls.

ghost use Rattle.std.specs.Prelude.{◌≡◌, ◌++◌, [], IfOk, IfErr, OnOk, OnErr, true, length, codes};
ghost use Rattle.rhd_value.specs.Kinds.{type_text};
ghost use Rattle.rhd_func.specs.Infos.{infos_of};
ghost use Rattle.rhd_decl.specs.declared.fault.DeclFault.TheVariants.{OutOfMemory as no_memory};
ghost use Rattle.rhd_module.specs.Contents.{with_type};
ghost use Rattle.rhd_decl.specs.Registration.{native_at, params_by_type, global_registration, getter_name, setter_name};
ghost use Rattle.rhd_layers.specs.Lists.{second};
ghost use Rattle.rhd_layers.specs.Statics.{Places};
ghost use Rattle.rhd_layers.specs.FirstModule.{in_first, RegistersFirst, RegistersRawFirst, FirstTells};
ghost use Rattle.rhd_engine.specs.Engine.{GlobalsAlone, StaticsAlone};
ghost use Rattle.rhd_engine.specs.Held.{names_held};
ghost use Rattle.rhd_engine.specs.Of.{lists_of};
ghost use Rattle.rhd_engine.specs.Registered.{fn_registration, for_all_calls, raw_func, custom_name, RegistersPair};

use crate::engine::Engine;
use rhd_func::{Natives, PluginFunc, RhaiFunc};
use rhd_layers::SharedModule;
use rhd_module::{DeclFault, FuncMetadata, FuncRegistration, is_pure_by_name};
use rhd_value::{FnId, OutOfMemory, Text, Texts, TypeTag};
use std::alloc::Global;

/// A parameter of a type, as it is written where nothing else is said of it.
fn param_by_type(alloc: Global, tag: TypeTag) -> Result<Text, OutOfMemory>
    ensures { IfOk result (λ param. param ≡ codes "_: " ++ type_text tag) }
{
    let name = tag.type_text(alloc)?;
    let mut param = Text::new(alloc);
    param.push("_: ")?;
    param.push(name.as_str())?;
    Ok(param)
}

/// A parameter of each type.
fn params_by_type(alloc: Global, types: &[TypeTag]) -> Result<Texts, OutOfMemory>
    ensures { IfOk result (λ params. params ≡ params_by_type types.now) }
{
    let mut params = Texts::new(alloc);
    for tag in types {
        params.push(param_by_type(alloc, *tag)?)?;
    }
    Ok(params)
}

/// The parameters of one native, by the types that it gives.
fn params_of_native(alloc: Global, native: &Box<dyn PluginFunc>) -> Result<Texts, OutOfMemory>
    ensures { IfOk result (λ params. params ≡ params_by_type (info native.now).types) }
{
    params_by_type(alloc, native.param_types())
}

/// The parameters of the native of a number; none where it isn't held.
fn params_of(alloc: Global, natives: &Natives, id: FnId) -> Result<Texts, OutOfMemory>
    ensures { IfOk result (λ params. params ≡ params_by_type (native_at (infos_of info natives.now) id).types) }
{
    match natives.get(id) {
        Some(native) => params_of_native(alloc, native),
        None => Ok(Texts::new(alloc)),
    }
}

/// Under this name for all calls, and no more is said.
pub fn raw_registration(alloc: Global, name: Text) -> Result<FuncRegistration, OutOfMemory>
    ensures { IfOk result (λ reg. reg ≡ global_registration name) }
{
    let reg = FuncRegistration::new(alloc, name)?;
    Ok(reg.in_global_namespace())
}

/// The native of a number under a name for all calls. Its parameters are told by their types.
pub fn fn_registration(
    alloc: Global,
    natives: &Natives,
    name: Text,
    id: FnId,
) -> Result<FuncRegistration, OutOfMemory>
    ensures { IfOk result (λ reg. reg ≡ fn_registration (infos_of info natives.now) name id) }
{
    let params = params_of(alloc, natives, id)?;
    let reg = raw_registration(alloc, name)?;
    Ok(reg.with_params_info(params))
}

/// A registration for all calls. Where it tells no parameter, each is told by its type.
pub fn for_all_calls(
    alloc: Global,
    natives: &Natives,
    reg: FuncRegistration,
    id: FnId,
) -> Result<FuncRegistration, OutOfMemory>
    ensures { IfOk result (λ told. told ≡ for_all_calls (infos_of info natives.now) reg id) }
{
    let reg = reg.in_global_namespace();
    if reg.params_info.len() > 0 {
        return Ok(reg);
    }
    let params = params_of(alloc, natives, id)?;
    Ok(reg.with_params_info(params))
}

/// A native that is registered raw: a volatile method that is handed the context of the call, and pure
/// by its name.
pub fn raw_func(name: &Text, types: &[TypeTag], id: FnId) -> RhaiFunc
    ensures { result ≡ raw_func name.now types.now id }
{
    RhaiFunc::Method {
        func: id,
        has_context: true,
        is_pure: is_pure_by_name(name, types.len()),
        is_volatile: true,
    }
}

/// A name behind a fixed beginning.
fn name_behind(alloc: Global, beginning: &str, name: &str) -> Result<Text, OutOfMemory>
    ensures { IfOk result (λ text. text ≡ beginning.now ++ name.now) }
{
    let mut text = Text::new(alloc);
    text.push(beginning)?;
    text.push(name)?;
    Ok(text)
}

impl Engine {
    /// Registers the native of a number for all calls, as a registration tells.
    fn register(&mut self, alloc: Global, reg: FuncRegistration, id: FnId) -> Result<(), DeclFault>
        ensures registers { RegistersFirst (infos_of info self.old.natives) reg id self.old.globals result self.new.globals }
        ensures natives { self.new.natives ≡ self.old.natives }
        ensures kept { GlobalsAlone (lists_of info self.old) (lists_of info self.new) }
    {
        self.globals
            .register_in_first(alloc, reg, &self.natives, id)
    }

    /// The same, and answers what is said of the native. Where the registration tells no parameter, each
    /// is told by its type; all calls find it.
    fn register_told(
        &mut self,
        alloc: Global,
        reg: FuncRegistration,
        id: FnId,
    ) -> Result<FuncMetadata, DeclFault>
        ensures registers { RegistersFirst (infos_of info self.old.natives) (for_all_calls (infos_of info self.old.natives) reg id) id self.old.globals result self.new.globals }
        ensures metadata { IfOk result (FirstTells (infos_of info self.old.natives) (for_all_calls (infos_of info self.old.natives) reg id) id self.old.globals) }
        ensures natives { self.new.natives ≡ self.old.natives }
        ensures kept { GlobalsAlone (lists_of info self.old) (lists_of info self.new) }
    {
        let reg = for_all_calls(alloc, &self.natives, reg, id)?;
        self.globals
            .register_in_first_told(alloc, reg, &self.natives, id)
    }

    /// Registers the natives of two numbers under two names for all calls, both or none, each as
    /// `register_fn` does.
    fn register_both(
        &mut self,
        alloc: Global,
        get_name: Text,
        get: FnId,
        set_name: Text,
        set: FnId,
    ) -> Result<(), DeclFault>
        ensures registers { RegistersPair (infos_of info self.old.natives) get_name get set_name set self.old.globals result self.new.globals }
        ensures natives { self.new.natives ≡ self.old.natives }
        ensures kept { GlobalsAlone (lists_of info self.old) (lists_of info self.new) }
    {
        let get_reg = fn_registration(alloc, &self.natives, get_name, get)?;
        let set_reg = fn_registration(alloc, &self.natives, set_name, set)?;
        self.globals
            .register_both_in_first(alloc, &self.natives, get_reg, get, set_reg, set)
    }

    /// Registers the native of a number under a name for all calls. Its parameters are told by their types.
    pub fn register_fn(&mut self, alloc: Global, name: Text, id: FnId) -> Result<(), DeclFault>
        ensures registers { RegistersFirst (infos_of info self.old.natives) (fn_registration (infos_of info self.old.natives) name id) id self.old.globals result self.new.globals }
        ensures natives { self.new.natives ≡ self.old.natives }
        ensures kept { GlobalsAlone (lists_of info self.old) (lists_of info self.new) }
    {
        let reg = fn_registration(alloc, &self.natives, name, id)?;
        self.register(alloc, reg, id)
    }

    /// Registers the native of a number as the getter of a property, as `register_fn` does.
    pub fn register_get(&mut self, alloc: Global, prop: &Text, id: FnId) -> Result<(), DeclFault>
        ensures registers { RegistersFirst (infos_of info self.old.natives) (fn_registration (infos_of info self.old.natives) (getter_name prop.now) id) id self.old.globals result self.new.globals }
        ensures natives { self.new.natives ≡ self.old.natives }
        ensures kept { GlobalsAlone (lists_of info self.old) (lists_of info self.new) }
    {
        let name = name_behind(alloc, "get$", prop.as_str())?;
        self.register_fn(alloc, name, id)
    }

    /// Registers the native of a number as the setter of a property, as `register_fn` does.
    pub fn register_set(&mut self, alloc: Global, prop: &Text, id: FnId) -> Result<(), DeclFault>
        ensures registers { RegistersFirst (infos_of info self.old.natives) (fn_registration (infos_of info self.old.natives) (setter_name prop.now) id) id self.old.globals result self.new.globals }
        ensures natives { self.new.natives ≡ self.old.natives }
        ensures kept { GlobalsAlone (lists_of info self.old) (lists_of info self.new) }
    {
        let name = name_behind(alloc, "set$", prop.as_str())?;
        self.register_fn(alloc, name, id)
    }

    /// Registers the natives of two numbers as the getter and the setter of a property, each as
    /// `register_fn` does, both or none.
    pub fn register_get_set(
        &mut self,
        alloc: Global,
        prop: &Text,
        get: FnId,
        set: FnId,
    ) -> Result<(), DeclFault>
        ensures registers { RegistersPair (infos_of info self.old.natives) (getter_name prop.now) get (setter_name prop.now) set self.old.globals result self.new.globals }
        ensures natives { self.new.natives ≡ self.old.natives }
        ensures kept { GlobalsAlone (lists_of info self.old) (lists_of info self.new) }
    {
        let get_name = name_behind(alloc, "get$", prop.as_str())?;
        let set_name = name_behind(alloc, "set$", prop.as_str())?;
        self.register_both(alloc, get_name, get, set_name, set)
    }

    /// Registers the native of a number as the indexer that reads, as `register_fn` does.
    pub fn register_indexer_get(&mut self, alloc: Global, id: FnId) -> Result<(), DeclFault>
        ensures registers { RegistersFirst (infos_of info self.old.natives) (fn_registration (infos_of info self.old.natives) (codes "index$get$") id) id self.old.globals result self.new.globals }
        ensures natives { self.new.natives ≡ self.old.natives }
        ensures kept { GlobalsAlone (lists_of info self.old) (lists_of info self.new) }
    {
        let name = name_behind(alloc, "index$get$", "")?;
        self.register_fn(alloc, name, id)
    }

    /// Registers the native of a number as the indexer that writes, as `register_fn` does.
    pub fn register_indexer_set(&mut self, alloc: Global, id: FnId) -> Result<(), DeclFault>
        ensures registers { RegistersFirst (infos_of info self.old.natives) (fn_registration (infos_of info self.old.natives) (codes "index$set$") id) id self.old.globals result self.new.globals }
        ensures natives { self.new.natives ≡ self.old.natives }
        ensures kept { GlobalsAlone (lists_of info self.old) (lists_of info self.new) }
    {
        let name = name_behind(alloc, "index$set$", "")?;
        self.register_fn(alloc, name, id)
    }

    /// Registers the natives of two numbers as the indexers that read and write, each as `register_fn`
    /// does, both or none.
    pub fn register_indexer_get_set(
        &mut self,
        alloc: Global,
        get: FnId,
        set: FnId,
    ) -> Result<(), DeclFault>
        ensures registers { RegistersPair (infos_of info self.old.natives) (codes "index$get$") get (codes "index$set$") set self.old.globals result self.new.globals }
        ensures natives { self.new.natives ≡ self.old.natives }
        ensures kept { GlobalsAlone (lists_of info self.old) (lists_of info self.new) }
    {
        let get_name = name_behind(alloc, "index$get$", "")?;
        let set_name = name_behind(alloc, "index$set$", "")?;
        self.register_both(alloc, get_name, get, set_name, set)
    }

    /// Registers the native of a number with these types under a name for all calls: a volatile method
    /// that is handed the context of the call, and pure by its name.
    pub fn register_raw_fn(
        &mut self,
        alloc: Global,
        name: Text,
        types: &[TypeTag],
        id: FnId,
    ) -> Result<(), DeclFault>
        ensures registers { RegistersRawFirst (infos_of info self.old.natives) (global_registration name) types.now (raw_func name types.now id) self.old.globals result self.new.globals }
        ensures natives { self.new.natives ≡ self.old.natives }
        ensures kept { GlobalsAlone (lists_of info self.old) (lists_of info self.new) }
    {
        let func = raw_func(&name, types, id);
        let reg = raw_registration(alloc, name)?;
        self.globals
            .register_raw_in_first(alloc, reg, &self.natives, types, func)
    }

    /// The type of this type name is shown by this name. Only want of memory refuses.
    pub fn register_type_with_name_raw(
        &mut self,
        alloc: Global,
        type_path: Text,
        name: Text,
    ) -> Result<(), DeclFault>
        ensures ok { OnOk result (self.new.globals ≡ in_first (with_type type_path name []) self.old.globals) }
        ensures err { OnErr result (self.new.globals ≡ self.old.globals) }
        ensures refused { IfErr result (λ fault. fault ≡ no_memory) }
        ensures natives { self.new.natives ≡ self.old.natives }
        ensures kept { GlobalsAlone (lists_of info self.old) (lists_of info self.new) }
    {
        self.globals.set_type_in_first(alloc, type_path, name)?;
        Ok(())
    }

    /// The custom type of a number is shown by this name. Only want of memory refuses.
    pub fn register_type_with_name(
        &mut self,
        alloc: Global,
        kind: u32,
        name: Text,
    ) -> Result<(), DeclFault>
        ensures ok { OnOk result (self.new.globals ≡ in_first (with_type (custom_name kind) name []) self.old.globals) }
        ensures err { OnErr result (self.new.globals ≡ self.old.globals) }
        ensures refused { IfErr result (λ fault. fault ≡ no_memory) }
        ensures natives { self.new.natives ≡ self.old.natives }
        ensures kept { GlobalsAlone (lists_of info self.old) (lists_of info self.new) }
    {
        let type_path = TypeTag::Custom(kind).type_name(alloc)?;
        self.register_type_with_name_raw(alloc, type_path, name)
    }

    /// The custom type of a number is shown by its own type name. Only want of memory refuses.
    pub fn register_type(&mut self, alloc: Global, kind: u32) -> Result<(), DeclFault>
        ensures ok { OnOk result (self.new.globals ≡ in_first (with_type (custom_name kind) (custom_name kind) []) self.old.globals) }
        ensures err { OnErr result (self.new.globals ≡ self.old.globals) }
        ensures refused { IfErr result (λ fault. fault ≡ no_memory) }
        ensures natives { self.new.natives ≡ self.old.natives }
        ensures kept { GlobalsAlone (lists_of info self.old) (lists_of info self.new) }
    {
        let name = TypeTag::Custom(kind).type_name(alloc)?;
        self.register_type_with_name(alloc, kind, name)
    }
}

impl Engine {
    /// Puts a module behind the first one of those whose functions all calls find. Only want of memory
    /// refuses.
    pub fn register_global_module(
        &mut self,
        _alloc: Global,
        added: SharedModule,
    ) -> Result<(), OutOfMemory>
        requires { names_held (length self.old.natives.items.items) added ≡ true }
        ensures ok { OnOk result (self.new.globals ≡ second added self.old.globals) }
        ensures err { OnErr result (self.new.globals ≡ self.old.globals) }
        ensures natives { self.new.natives ≡ self.old.natives }
        ensures kept { GlobalsAlone (lists_of info self.old) (lists_of info self.new) }
    {
        self.globals.insert_second(added)
    }

    /// Puts a module under a name for qualified calls, as `ModuleMap::register_static` does.
    pub fn register_static_module(
        &mut self,
        alloc: Global,
        name: Text,
        added: SharedModule,
    ) -> Result<(), DeclFault>
        requires { names_held (length self.old.natives.items.items) added ≡ true }
        ensures places { Places self.old.seeds name added self.old.statics result self.new.statics }
        ensures natives { self.new.natives ≡ self.old.natives }
        ensures kept { StaticsAlone (lists_of info self.old) (lists_of info self.new) }
    {
        let seeds = self.seeds();
        self.statics.register_static(alloc, seeds, name, added)
    }
}

/// A registration that can be made for all calls.
pub trait RegisterIntoEngine {
    ghost use Rattle.rhd_decl.specs.declared.registration.FuncRegistration.{FuncRegistration};

    /// The registration that it is.
    ghost registration: { Self → FuncRegistration };

    /// Registers the native of a number for all calls: where no parameter is told, each is told by its
    /// type. Answers what is said of it.
    fn register_into_engine(
        self,
        alloc: Global,
        engine: &mut Engine,
        id: FnId,
    ) -> Result<FuncMetadata, DeclFault>
        ensures registers { RegistersFirst (infos_of info engine.old.natives) (for_all_calls (infos_of info engine.old.natives) (registration self) id) id engine.old.globals result engine.new.globals }
        ensures metadata { IfOk result (FirstTells (infos_of info engine.old.natives) (for_all_calls (infos_of info engine.old.natives) (registration self) id) id engine.old.globals) }
        ensures natives { engine.new.natives ≡ engine.old.natives }
        ensures kept { GlobalsAlone (lists_of info engine.old) (lists_of info engine.new) };
}

impl RegisterIntoEngine for FuncRegistration {
    ghost registration = { λ reg. reg };

    fn register_into_engine(
        self,
        alloc: Global,
        engine: &mut Engine,
        id: FnId,
    ) -> Result<FuncMetadata, DeclFault> {
        engine.register_told(alloc, self, id)
    }
}
