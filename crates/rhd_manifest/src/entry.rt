//! A function that a manifest lists.

ghost use Rattle.std.specs.Prelude.{◌≡◌, IfOk, length};
ghost use Rattle.std.specs.Fn.{FnOnceReturnsAt};
ghost use Rattle.rhd_value.specs.Same.{types_eq};
ghost use Rattle.rhd_hash.specs.Parts.{mixed, path_of, dynamic_hash};
ghost use Rattle.rhd_func.specs.declared.func.RhaiFunc.TheVariants.{StaticPlugin};
ghost use Rattle.rhd_manifest.specs.Entry.{entry_key, entry_key_at, entry_decl};

use rhd_decl::{Declaration, FuncMetadata, SharedMetadata, mapped_types};
use rhd_func::{FnAccess, FnNamespace, RhaiFunc};
use rhd_hash::{Key, Seeds, calc_native_fn_hash};
use rhd_value::{FnId, OutOfMemory, Text, Texts, TypeTag, Types};
use std::alloc::Global;
use std::marker::Model;

/// A native under a name, which a manifest lists. Contracts see its name, its namespace, the number
/// and the types of its native, and whether that takes its first argument by reference.
#[derive(Drop)]
pub struct FnManifestEntry {
    /// The key by which it is found in its module. It has the name.
    key: Key,
    namespace: FnNamespace,
    func: FnId,
    /// The function that it is where it is called.
    plugin: RhaiFunc,
    param_types: Types,
    is_method: bool,
}

impl Model for FnManifestEntry {
    ghost use Rattle.std.specs.Prelude.{◌≡◌};
    ghost use Rattle.rhd_hash.specs.Keys.{key_name};
    ghost use Rattle.rhd_func.specs.declared.func.RhaiFunc.TheVariants.{StaticPlugin};
    ghost use Rattle.rhd_decl.specs.NativeKeys.{native_key};
    ghost use Rattle.rhd_manifest.specs.Entry.{Entry, coded_entry};

    ghost Value = { Entry };

    ghost coded = { coded_entry };

    ghost view = { λ e. record {
      name = key_name e.key;
      namespace = e.namespace;
      func = e.func;
      param_types = e.param_types;
      is_method = e.is_method;
    } };

    ghost invariant = { λ e. (e.key ≡ native_key e.is_method (key_name e.key) e.param_types) × (e.plugin ≡ StaticPlugin e.func) };
}

impl FnManifestEntry {
    /// An entry under a name, for the native of a number that has these types and that takes its
    /// first argument by reference or doesn't.
    #[inline(always)]
    pub fn new(
        alloc: Global,
        name: Text,
        namespace: FnNamespace,
        func: FnId,
        param_types: Types,
        is_method: bool,
    ) -> Result<FnManifestEntry, OutOfMemory>
        ensures { IfOk result (λ e. e ≡ record { name = name; namespace = namespace; func = func; param_types = param_types; is_method = is_method }) }
    {
        let types = mapped_types(alloc, param_types.as_slice(), is_method)?;
        Ok(FnManifestEntry {
            key: Key::Native {
                path: None,
                name,
                types,
            },
            namespace,
            func,
            plugin: RhaiFunc::StaticPlugin { func },
            param_types,
            is_method,
        })
    }

    /// An equal entry.
    pub fn dup(&self, alloc: Global) -> Result<FnManifestEntry, OutOfMemory>
        ensures { IfOk result (λ e. e ≡ self.now) }
    {
        Ok(FnManifestEntry {
            key: self.key.dup(alloc)?,
            namespace: self.namespace,
            func: self.func,
            plugin: RhaiFunc::StaticPlugin { func: self.func },
            param_types: self.param_types.dup(alloc)?,
            is_method: self.is_method,
        })
    }

    /// The name under which it is listed.
    pub fn name(&self) -> &Text
        ensures { result.now ≡ self.now.name }
    {
        self.key.name()
    }

    /// Whether it is found without its module's name.
    pub fn namespace(&self) -> FnNamespace
        ensures { result ≡ self.now.namespace }
    {
        self.namespace
    }

    /// The number of its native.
    pub fn func(&self) -> FnId
        ensures { result ≡ self.now.func }
    {
        self.func
    }

    /// The function that it is where it is called: a native that is listed.
    pub fn plugin(&self) -> &RhaiFunc
        ensures { result.now ≡ StaticPlugin self.now.func }
    {
        &self.plugin
    }

    /// Whether its native takes its first argument by reference.
    pub fn is_method(&self) -> bool
        ensures { result ≡ self.now.is_method }
    {
        self.is_method
    }

    /// What a function makes of the types of its parameters, as its native has them.
    pub fn with_param_types<T, F: FnOnce(&[TypeTag]) -> T>(&self, f: F) -> T
        requires { F.IsAlwaysCallable f }
        ensures { FnOnceReturnsAt F.FnOnce f self.now.param_types result }
    {
        f(self.param_types.as_slice())
    }

    /// The types of its parameters, as its native has them.
    pub fn param_types(&self) -> &[TypeTag]
        ensures { result.now ≡ self.now.param_types }
    {
        self.param_types.as_slice()
    }

    /// Whether the types of its parameters, as its native has them, are these.
    pub fn has_param_types(&self, types: &[TypeTag]) -> bool
        ensures { result ≡ types_eq self.now.param_types types.now }
    {
        self.param_types.as_slice() == types
    }

    /// The number of its parameters.
    pub fn num_params(&self) -> u64
        ensures { result ≡ length self.now.param_types }
    {
        self.param_types.len() as u64
    }

    /// The key by which it is found in its module.
    pub fn key(&self) -> &Key
        ensures { result.now ≡ entry_key self.now }
    {
        &self.key
    }

    /// The hash of its key at a path. An empty path is none; of another one the names behind the first
    /// and the number of all count.
    pub fn calc_hash(&self, seeds: Seeds, path: &[Text]) -> u64
        ensures { result ≡ mixed seeds (entry_key_at (path_of path.now) self.now) }
    {
        calc_native_fn_hash(seeds, path, self.key.name(), self.key.types())
    }

    /// The hash of its name and its number of parameters alone, where it has a parameter of any type.
    pub fn calc_dynamic_hash(&self, seeds: Seeds) -> Option<u64>
        ensures { result ≡ dynamic_hash seeds (entry_key self.now) }
    {
        self.key.dynamic_hash(seeds)
    }

    /// As a declaration: public, a native that is listed, and nothing is said of its parameters but
    /// their types.
    pub fn declaration(&self, alloc: Global, seeds: Seeds) -> Result<Declaration, OutOfMemory>
        ensures { IfOk result (λ d. d ≡ entry_decl seeds self.now) }
    {
        let metadata = FuncMetadata {
            hash: self.key.mixed(seeds),
            namespace: self.namespace,
            access: FnAccess::Public,
            name: self.key.name().dup(alloc)?,
            num_params: self.param_types.len() as u64,
            param_types: Types::from_slice(alloc, self.key.types())?,
            params_info: Texts::new(alloc),
            return_type: Text::new(alloc),
            comments: Texts::new(alloc),
        };
        Ok(Declaration {
            func: RhaiFunc::StaticPlugin { func: self.func },
            metadata: SharedMetadata::new(alloc, metadata)?,
        })
    }
}
