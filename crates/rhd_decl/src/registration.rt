//! How natives and scripts are declared.

ghost use Rattle.std.specs.Prelude.{◌≡◌, ◌++◌, ◌∷◌, [], IfOk, Some, None, length, not, true, false, map, codes};
ghost use Rattle.std.specs.List.{list_any};
ghost use Rattle.rhd_value.specs.Same.{tag_eq};
ghost use Rattle.rhd_value.specs.declared.tag.TypeTag.TheVariants as tags;
ghost use Rattle.rhd_hash.specs.Parts.{mixed};
ghost use Rattle.rhd_func.specs.Infos.{infos_of};
ghost use Rattle.rhd_func.specs.declared.func.RhaiFunc.TheVariants.{Pure, Method};
ghost use Rattle.rhd_func.specs.declared.access.FnNamespace.TheVariants.{Internal as internal, Global as global};
ghost use Rattle.rhd_decl.specs.NativeKeys.{native_key};
ghost use Rattle.rhd_decl.specs.Registration.{native_decl, registered_func, registered_decl, pure_by_name, is_banned, params_of, return_of, script_key, script_namespace, script_decl};
ghost use Rattle.rhd_decl.specs.Registration.{new_registration, global_registration, setter_registration, getter_name, setter_name};

use crate::declaration::Declaration;
use crate::metadata::{FuncMetadata, SharedMetadata};
use crate::native_keys::native_key;
use rhd_func::{EnvId, FnAccess, FnNamespace, PluginFunc, RhaiFunc, ScriptFuncDef, SharedDef};
use rhd_hash::{Key, Seeds};
use rhd_value::{FnId, OutOfMemory, Text, Texts, TypeTag, Types};
use std::alloc::Global;

/// How a native is to be registered: under which name, and what is said of it.
#[derive(Drop)]
pub struct FuncRegistration {
    pub name: Text,
    pub namespace: FnNamespace,
    /// Whether it may be called on a constant; where nothing is set, by its name.
    pub purity: Option<bool>,
    /// Whether it may answer otherwise the next time; where nothing is set, it doesn't.
    pub volatility: Option<bool>,
    /// How each parameter is written, and behind these, if there is one text more, the type of the answer.
    pub params_info: Texts,
    pub comments: Texts,
}

/// The name of a property's function.
fn prefixed(alloc: Global, prefix: &str, prop: &Text) -> Result<Text, OutOfMemory>
    ensures { IfOk result (λ name. name ≡ prefix.now ++ prop.now) }
{
    let mut name = Text::new(alloc);
    name.push(prefix)?;
    name.push(prop.as_str())?;
    Ok(name)
}

impl FuncRegistration {
    /// Under this name: found under the module's name alone, and no more is said.
    pub fn new(alloc: Global, name: Text) -> Result<FuncRegistration, OutOfMemory>
        ensures { IfOk result (λ reg. reg ≡ new_registration name) }
    {
        Ok(FuncRegistration {
            name,
            namespace: FnNamespace::Internal,
            purity: None,
            volatility: None,
            params_info: Texts::new(alloc),
            comments: Texts::new(alloc),
        })
    }

    /// The getter of a property, which all calls find.
    pub fn new_getter(alloc: Global, prop: &Text) -> Result<FuncRegistration, OutOfMemory>
        ensures { IfOk result (λ reg. reg ≡ global_registration (getter_name prop.now)) }
    {
        let name = prefixed(alloc, "get$", prop)?;
        Ok(FuncRegistration::new(alloc, name)?.in_global_namespace())
    }

    /// The setter of a property, which all calls find. It isn't pure.
    pub fn new_setter(alloc: Global, prop: &Text) -> Result<FuncRegistration, OutOfMemory>
        ensures { IfOk result (λ reg. reg ≡ setter_registration (setter_name prop.now)) }
    {
        let name = prefixed(alloc, "set$", prop)?;
        Ok(
            FuncRegistration::new(alloc, name)?
                .in_global_namespace()
                .with_purity(false),
        )
    }

    /// The indexer that reads, which all calls find.
    pub fn new_index_getter(alloc: Global) -> Result<FuncRegistration, OutOfMemory>
        ensures { IfOk result (λ reg. reg ≡ global_registration (codes "index$get$")) }
    {
        let name = Text::from_str(alloc, "index$get$")?;
        Ok(FuncRegistration::new(alloc, name)?.in_global_namespace())
    }

    /// The indexer that writes, which all calls find. It isn't pure.
    pub fn new_index_setter(alloc: Global) -> Result<FuncRegistration, OutOfMemory>
        ensures { IfOk result (λ reg. reg ≡ setter_registration (codes "index$set$")) }
    {
        let name = Text::from_str(alloc, "index$set$")?;
        Ok(
            FuncRegistration::new(alloc, name)?
                .in_global_namespace()
                .with_purity(false),
        )
    }

    pub fn with_namespace(self, namespace: FnNamespace) -> FuncRegistration
        ensures { result ≡ record self { namespace = namespace } }
    {
        let mut reg = self;
        reg.namespace = namespace;
        reg
    }

    /// Found by all calls.
    pub fn in_global_namespace(self) -> FuncRegistration
        ensures { result ≡ record self { namespace = global } }
    {
        self.with_namespace(FnNamespace::Global)
    }

    /// Found under the module's name alone.
    pub fn in_internal_namespace(self) -> FuncRegistration
        ensures { result ≡ record self { namespace = internal } }
    {
        self.with_namespace(FnNamespace::Internal)
    }

    /// Whether it may be called on a constant.
    pub fn with_purity(self, pure: bool) -> FuncRegistration
        ensures { result ≡ record self { purity = Some pure } }
    {
        let mut reg = self;
        reg.purity = Some(pure);
        reg
    }

    /// Whether it may answer otherwise the next time.
    pub fn with_volatility(self, volatile: bool) -> FuncRegistration
        ensures { result ≡ record self { volatility = Some volatile } }
    {
        let mut reg = self;
        reg.volatility = Some(volatile);
        reg
    }

    /// How each parameter is written, and behind these, if there is one text more, the type of the answer.
    pub fn with_params_info(self, params: Texts) -> FuncRegistration
        ensures { result ≡ record self { params_info = params } }
    {
        let mut reg = self;
        reg.params_info = params;
        reg
    }

    pub fn with_comments(self, comments: Texts) -> FuncRegistration
        ensures { result ≡ record self { comments = comments } }
    {
        let mut reg = self;
        reg.comments = comments;
        reg
    }

    /// An equal one.
    pub fn dup(&self, alloc: Global) -> Result<FuncRegistration, OutOfMemory>
        ensures { IfOk result (λ reg. reg ≡ self.now) }
    {
        Ok(FuncRegistration {
            name: self.name.dup(alloc)?,
            namespace: self.namespace,
            purity: self.purity,
            volatility: self.volatility,
            params_info: self.params_info.dup(alloc)?,
            comments: self.comments.dup(alloc)?,
        })
    }

    /// The function that a native is under this registration, with its number.
    pub fn func_of(&self, native: &Box<dyn PluginFunc>, id: FnId) -> RhaiFunc
        ensures { result ≡ registered_func self.now (info native.now) id }
    {
        let pure = match self.purity {
            Some(pure) => pure,
            None => is_pure_by_name(&self.name, native.param_types().len()),
        };
        let volatile = self.volatility.unwrap_or(false);
        native_func(native, id, pure, volatile)
    }

    /// The key of a native of these types under this registration, and what is said of it.
    pub fn into_pair(
        self,
        alloc: Global,
        seeds: Seeds,
        is_method: bool,
        types: &[TypeTag],
        func: RhaiFunc,
    ) -> Result<(Key, Declaration), OutOfMemory>
        ensures key { IfOk result (λ p. p.0 ≡ native_key is_method self.name types.now) }
        ensures declaration { IfOk result (λ p. p.1 ≡ native_decl seeds self is_method types.now func) }
    {
        let key = native_key(alloc, &self.name, is_method, types)?;
        let mut params_info = self.params_info;
        let return_type = take_return_type(alloc, &mut params_info, types.len());
        let metadata = FuncMetadata {
            hash: key.mixed(seeds),
            namespace: self.namespace,
            access: FnAccess::Public,
            name: self.name,
            num_params: types.len() as u64,
            param_types: Types::from_slice(alloc, key.types())?,
            params_info,
            return_type,
            comments: self.comments,
        };
        let metadata = SharedMetadata::new(alloc, metadata)?;
        Ok((key, Declaration { func, metadata }))
    }
}

/// A native as it is called, with these properties.
fn native_func(native: &Box<dyn PluginFunc>, id: FnId, is_pure: bool, is_volatile: bool) -> RhaiFunc
    ensures method { (info native.now).is_method ≡ true → result ≡ Method id (info native.now).has_context is_pure is_volatile }
    ensures by_value { (info native.now).is_method ≡ false → result ≡ Pure id (info native.now).has_context is_pure is_volatile }
{
    let has_context = native.has_context();
    if native.is_method_call() {
        RhaiFunc::Method {
            func: id,
            has_context,
            is_pure,
            is_volatile,
        }
    } else {
        RhaiFunc::Pure {
            func: id,
            has_context,
            is_pure,
            is_volatile,
        }
    }
}

/// Takes the last text out where there are more than parameters: it is the type of the answer.
fn take_return_type(alloc: Global, params_info: &mut Texts, params: usize) -> Text
    ensures info { params_info.new ≡ params_of params params_info.old }
    ensures answer { result ≡ return_of params params_info.old }
{
    if params_info.len() <= params {
        return Text::new(alloc);
    }
    match params_info.pop() {
        Some(return_type) => return_type,
        None => Text::new(alloc),
    }
}

/// Whether a native of this name and number of parameters is pure where nothing else is said.
pub fn is_pure_by_name(name: &Text, params: usize) -> bool
    ensures { result ≡ pure_by_name name.now params }
{
    let name = name.as_str();
    !((name.as_bytes().starts_with(b"set$") && params == 2)
        || (name == "index$set$" && params == 3))
}

/// Whether the type of an object has an indexing of its own.
fn is_indexed_type(tag: TypeTag) -> bool
    ensures { result ≡ list_any (tag_eq tag) (tags.Array ∷ tags.Map ∷ tags.Int ∷ tags.Text ∷ tags.Str ∷ tags.StdString ∷ []) }
{
    matches!(
        tag,
        TypeTag::Array
            | TypeTag::Map
            | TypeTag::Int
            | TypeTag::Text
            | TypeTag::Str
            | TypeTag::StdString
    )
}

/// Whether it is an indexer of a type whose indexing has its meaning already.
pub fn is_banned(name: &Text, types: &[TypeTag]) -> bool
    ensures { result ≡ is_banned name.now types.now }
{
    let name = name.as_str();
    match types {
        [] => false,
        [first, more @ ..] => {
            ((name == "index$get$" && more.len() == 1) || (name == "index$set$" && more.len() == 2))
                && is_indexed_type(*first)
        }
    }
}

/// The key of a script: by its number of parameters, and by the type of its object if it has one.
#[inline(always)]
pub fn script_key(alloc: Global, def: &ScriptFuncDef) -> Result<Key, OutOfMemory>
    ensures { IfOk result (λ key. key ≡ script_key def.now) }
{
    let params = def.params.len() as u64;
    match &def.this_type {
        None => Ok(Key::Script {
            path: None,
            name: def.name.dup(alloc)?,
            params,
        }),
        Some(this_type) => Ok(Key::Typed {
            path: None,
            name: def.name.dup(alloc)?,
            params,
            this_type: this_type.dup(alloc)?,
        }),
    }
}

/// Whether a script is found without its module's name.
fn script_namespace(def: &ScriptFuncDef) -> FnNamespace
    ensures { result ≡ script_namespace def.now.this_type }
{
    match def.this_type {
        None => FnNamespace::Internal,
        Some(_) => FnNamespace::Global,
    }
}

/// What is said of a script, under the hash of its key: one without a type of its object is internal, a
/// typed one is found by all calls.
pub fn script_declaration(
    alloc: Global,
    seeds: Seeds,
    def: SharedDef,
    env: Option<EnvId>,
) -> Result<Declaration, OutOfMemory>
    ensures { IfOk result (λ d. d ≡ script_decl seeds def env) }
{
    let key = script_key(alloc, def.def())?;
    let script = def.def();
    let metadata = FuncMetadata {
        hash: key.mixed(seeds),
        namespace: script_namespace(script),
        access: script.access,
        name: script.name.dup(alloc)?,
        num_params: script.params.len() as u64,
        param_types: Types::new(alloc),
        params_info: script.params.dup(alloc)?,
        return_type: Text::new(alloc),
        comments: Texts::new(alloc),
    };
    Ok(Declaration {
        func: RhaiFunc::Script { fn_def: def, env },
        metadata: SharedMetadata::new(alloc, metadata)?,
    })
}
