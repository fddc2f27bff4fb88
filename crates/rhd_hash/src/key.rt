//! What a function is found by.

ghost use Rattle.std.specs.Prelude.{◌≡◌, ◌++◌, IfOk, length};
ghost use Rattle.std.specs.Option.{option_copied};
ghost use Rattle.std.specs.Cmp.{partial_equiv_from_equiv};
ghost use Rattle.std.specs.Hash as fed;
ghost use Rattle.std.specs.List.{list_any};
ghost use Rattle.rhd_value.specs.Same.{tag_eq};
ghost use Rattle.rhd_value.specs.declared.tag.TypeTag.TheVariants.{Dynamic};
ghost use Rattle.rhd_hash.specs.Keys.{path_eq, key_eq, key_eq_equiv, key_name, key_params, key_input, key_alike, native_name, is_script_key, is_typed_key, with_path, with_type, key_types, has_dynamic};
ghost use Rattle.rhd_hash.specs.Matching.{types_match, key_matches};

use rhd_value::{OutOfMemory, Text, Texts, TypeTag, Types};
use std::alloc::Global;
use std::hash::{Hash, Hasher};

/// The key of a function: its name, and what tells it from others of that name.
///
/// A path is none for no namespace, else the names after the first.
#[derive(Drop)]
pub enum Key {
    /// A script, by its number of parameters.
    Script {
        path: Option<Texts>,
        name: Text,
        params: u64,
    },
    /// A script method of a type.
    Typed {
        path: Option<Texts>,
        name: Text,
        params: u64,
        this_type: Text,
    },
    /// A native, by the types of its parameters.
    Native {
        path: Option<Texts>,
        name: Text,
        types: Types,
    },
}

#[inline(always)]
fn same_path(a: &Option<Texts>, b: &Option<Texts>) -> bool
    ensures { result ≡ path_eq a.now b.now }
{
    match a {
        None => b.is_none(),
        Some(names) => match b {
            None => false,
            Some(others) => names == others,
        },
    }
}

fn dup_path(alloc: Global, path: &Option<Texts>) -> Result<Option<Texts>, OutOfMemory>
    ensures { IfOk result (λ made. made ≡ path.now) }
{
    match path {
        None => Ok(None),
        Some(names) => Ok(Some(names.dup(alloc)?)),
    }
}

/// Whether one of these types stands for any.
fn any_dynamic(types: &[TypeTag]) -> bool
    ensures { result ≡ list_any (λ t. tag_eq t Dynamic) types.now }
{
    for tag in types {
        if *tag == TypeTag::Dynamic {
            return true;
        }
    }
    false
}

/// Whether each type is its kind, or, behind the first ones, `Dynamic`.
fn types_match(exact: usize, types: &[TypeTag], kinds: &[TypeTag]) -> bool
    ensures { result ≡ types_match exact types.now kinds.now }
{
    match types {
        [] => kinds.is_empty(),
        [first, more @ ..] => match kinds {
            [] => false,
            [kind, others @ ..] => {
                let any = exact == 0 && *first == TypeTag::Dynamic;
                (*first == *kind || any) && types_match(exact.saturating_sub(1), more, others)
            }
        },
    }
}

impl Key {
    /// Whether it is that of a native of this name, without a path, each of whose types is the
    /// argument's kind, or, behind the first `exact` ones, `Dynamic`.
    pub fn matches(&self, exact: usize, name: &Text, kinds: &[TypeTag]) -> bool
        ensures { result ≡ key_matches exact name.now kinds.now self.now }
    {
        match self {
            Key::Script { .. } => false,
            Key::Typed { .. } => false,
            Key::Native {
                path,
                name: own,
                types,
            } => path.is_none() && (*own == *name && types_match(exact, types.as_slice(), kinds)),
        }
    }

    /// An equal key.
    pub fn dup(&self, alloc: Global) -> Result<Key, OutOfMemory>
        ensures { IfOk result (λ key. key ≡ self.now) }
    {
        match self {
            Key::Script { path, name, params } => Ok(Key::Script {
                path: dup_path(alloc, path)?,
                name: name.dup(alloc)?,
                params: *params,
            }),
            Key::Typed {
                path,
                name,
                params,
                this_type,
            } => Ok(Key::Typed {
                path: dup_path(alloc, path)?,
                name: name.dup(alloc)?,
                params: *params,
                this_type: this_type.dup(alloc)?,
            }),
            Key::Native { path, name, types } => Ok(Key::Native {
                path: dup_path(alloc, path)?,
                name: name.dup(alloc)?,
                types: types.dup(alloc)?,
            }),
        }
    }

    /// The key of the same function in a module: below the first name of a path, under these further
    /// names.
    pub fn dup_at(&self, alloc: Global, names: &Texts) -> Result<Key, OutOfMemory>
        ensures { IfOk result (λ key. key ≡ with_path names.now self.now) }
    {
        let path = Some(names.dup(alloc)?);
        match self {
            Key::Script { name, params, .. } => Ok(Key::Script {
                path,
                name: name.dup(alloc)?,
                params: *params,
            }),
            Key::Typed {
                name,
                params,
                this_type,
                ..
            } => Ok(Key::Typed {
                path,
                name: name.dup(alloc)?,
                params: *params,
                this_type: this_type.dup(alloc)?,
            }),
            Key::Native { name, types, .. } => Ok(Key::Native {
                path,
                name: name.dup(alloc)?,
                types: types.dup(alloc)?,
            }),
        }
    }

    /// The name of the function.
    pub fn name(&self) -> &Text
        ensures { result.now ≡ key_name self.now }
    {
        match self {
            Key::Script { name, .. } => name,
            Key::Typed { name, .. } => name,
            Key::Native { name, .. } => name,
        }
    }

    /// The name of a native, where the key has no path.
    pub fn native_name(&self) -> Option<&Text>
        ensures { option_copied result ≡ native_name self.now }
    {
        match self {
            Key::Script { .. } => None,
            Key::Typed { .. } => None,
            Key::Native { path, name, .. } => { if path.is_none() { Some(name) } else { None } }
        }
    }

    /// Whether it is that of a script.
    pub fn is_script(&self) -> bool
        ensures { result ≡ is_script_key self.now }
    {
        match self {
            Key::Script { .. } => true,
            Key::Typed { .. } => true,
            Key::Native { .. } => false,
        }
    }

    /// Whether it is that of a script method of a type.
    pub fn is_typed(&self) -> bool
        ensures { result ≡ is_typed_key self.now }
    {
        match self {
            Key::Script { .. } => false,
            Key::Typed { .. } => true,
            Key::Native { .. } => false,
        }
    }

    /// The types of a native's parameters.
    pub fn types(&self) -> &[TypeTag]
        ensures { result.now ≡ key_types self.now }
    {
        match self {
            Key::Script { .. } => &[],
            Key::Typed { .. } => &[],
            Key::Native { types, .. } => types.as_slice(),
        }
    }

    /// Puts another type at a place of a native's parameters, counted from 0; nothing changes where there
    /// is none.
    pub fn set_type(&mut self, at: usize, tag: TypeTag)
        ensures { self.new ≡ with_type at tag self.old }
    {
        match self {
            Key::Script { .. } => {}
            Key::Typed { .. } => {}
            Key::Native { types, .. } => types.set(at, tag),
        }
    }

    /// Whether it is that of a native with a parameter of any type.
    pub fn has_dynamic(&self) -> bool
        ensures { result ≡ has_dynamic self.now }
    {
        match self {
            Key::Script { .. } => false,
            Key::Typed { .. } => false,
            Key::Native { types, .. } => any_dynamic(types.as_slice()),
        }
    }

    /// The number of parameters, without an object.
    pub fn num_params(&self) -> u64
        ensures { result ≡ key_params self.now }
    {
        match self {
            Key::Script { params, .. } => *params,
            Key::Typed { params, .. } => *params,
            Key::Native { types, .. } => types.len() as u64,
        }
    }
}

impl PartialEq for Key {
    ghost eq = { key_eq };

    ghost laws = { partial_equiv_from_equiv key_eq_equiv };

    fn eq(&self, other: &Key) -> bool {
        match self {
            Key::Script { path, name, params } => match other {
                Key::Script {
                    path: path2,
                    name: name2,
                    params: params2,
                } => same_path(path, path2) && (*name == *name2 && *params == *params2),
                _ => false,
            },
            Key::Typed {
                path,
                name,
                params,
                this_type,
            } => match other {
                Key::Typed {
                    path: path2,
                    name: name2,
                    params: params2,
                    this_type: type2,
                } => {
                    same_path(path, path2)
                        && (*name == *name2 && (*params == *params2 && *this_type == *type2))
                }
                _ => false,
            },
            Key::Native { path, name, types } => match other {
                Key::Native {
                    path: path2,
                    name: name2,
                    types: types2,
                } => same_path(path, path2) && (*name == *name2 && *types == *types2),
                _ => false,
            },
        }
    }
}

impl Eq for Key {
    ghost laws = { key_eq_equiv };
}

/// By the name and the number of parameters.
impl Hash for Key {
    ghost hash_input = { key_input };

    ghost respects_eq = { key_alike };

    fn hash<H: Hasher>(&self, state: &mut H) {
        self.name().as_str().hash(state);
        self.num_params().hash(state);
    }
}
