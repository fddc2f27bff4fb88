//! The hashes of keys, and of the parts that they are made of.

ghost use Rattle.std.specs.Prelude.{◌≡◌, bit_xor};
ghost use Rattle.std.specs.List.{flat_map};
ghost use Rattle.rhd_hash.specs.declared.key.Key.TheVariants.{Script, Native};
ghost use Rattle.rhd_hash.specs.Mix.{mix, after};
ghost use Rattle.rhd_hash.specs.Parts.{tag_bytes, texts_bytes, path_bytes, path_of, path_names, path_count, fn_bytes, var_part, types_part, this_part, mixed, untyped, untyped_key, dynamic_hash};

use crate::key::Key;
use crate::mixer::{Mixer, Seeds, get_hasher};
use rhd_value::{Text, Texts, TypeTag};

impl Mixer {
    /// Takes a type: a byte, and the number of a custom type behind it.
    fn write_tag(&mut self, tag: TypeTag)
        ensures { self.new ≡ after self.old (tag_bytes tag) }
    {
        match tag {
            TypeTag::Unit => self.write_u8(0),
            TypeTag::Bool => self.write_u8(1),
            TypeTag::Int => self.write_u8(2),
            TypeTag::Char => self.write_u8(3),
            TypeTag::Text => self.write_u8(4),
            TypeTag::Array => self.write_u8(5),
            TypeTag::Map => self.write_u8(6),
            TypeTag::FnPtr => self.write_u8(7),
            TypeTag::Custom(number) => {
                self.write_u8(8);
                self.write_u32(number);
            }
            TypeTag::Dynamic => self.write_u8(9),
            TypeTag::Str => self.write_u8(10),
            TypeTag::StdString => self.write_u8(11),
        }
    }

    fn write_tags(&mut self, tags: &[TypeTag])
        ensures { self.new ≡ after self.old (flat_map tag_bytes tags.now) }
    {
        for tag in tags {
            self.write_tag(*tag);
        }
    }

    fn write_texts(&mut self, texts: &[Text])
        ensures { self.new ≡ after self.old (texts_bytes texts.now) }
    {
        for text in texts {
            self.write_text(text);
        }
    }

    /// Takes the names of a path behind the first, and the number of all its names.
    fn write_path(&mut self, names: &[Text], count: u64)
        ensures { self.new ≡ after self.old (path_bytes names.now count) }
    {
        self.write_texts(names);
        self.write_count(count);
    }
}

/// The names of a path behind the first.
fn behind_first(path: &[Text]) -> &[Text]
    ensures { result.now ≡ path_names (path_of path.now) }
{
    match path {
        [] => &[],
        [_first, names @ ..] => names,
    }
}

/// The names that a key keeps of its path.
fn kept_names(path: &Option<Texts>) -> &[Text]
    ensures { result.now ≡ path_names path.now }
{
    match path {
        None => &[],
        Some(names) => names.as_slice(),
    }
}

/// The number of names of a key's path, the first one counted too.
fn kept_count(path: &Option<Texts>) -> u64
    ensures { result ≡ path_count path.now }
{
    match path {
        None => 0,
        Some(names) => names.as_slice().len() as u64 + 1,
    }
}

/// The hash of a function's path, name and number of parameters.
#[inline(always)]
fn fn_hash(seeds: Seeds, names: &[Text], count: u64, name: &Text, num: u64) -> u64
    ensures { result ≡ mix seeds (fn_bytes names.now count name.now num) }
{
    let mut mixer = get_hasher(seeds);
    mixer.write_u8(0x46);
    mixer.write_path(names, count);
    mixer.write_text(name);
    mixer.write_count(num);
    mixer.finish()
}

/// The hash of the types of a native's parameters.
fn types_hash(seeds: Seeds, types: &[TypeTag]) -> u64
    ensures { result ≡ mix seeds (types_part types.now) }
{
    let mut mixer = get_hasher(seeds);
    mixer.write_u8(0x41);
    mixer.write_tags(types);
    mixer.write_count(types.len() as u64);
    mixer.finish()
}

/// The hash of the type of a method's object.
fn this_hash(seeds: Seeds, this_type: &Text) -> u64
    ensures { result ≡ mix seeds (this_part this_type.now) }
{
    let mut mixer = get_hasher(seeds);
    mixer.write_u8(0x54);
    mixer.write_text(this_type);
    mixer.finish()
}

/// The hash of a variable, by its path and name. Of the path the names behind the first and the
/// number of all count.
pub fn calc_var_hash(seeds: Seeds, path: &[Text], name: &Text) -> u64
    ensures { result ≡ mix seeds (var_part (path_of path.now) name.now) }
{
    let mut mixer = get_hasher(seeds);
    mixer.write_u8(0x56);
    mixer.write_path(behind_first(path), path.len() as u64);
    mixer.write_text(name);
    mixer.finish()
}

/// The hash of a script's key, by its path, name and number of parameters. An empty path is no path;
/// of another one the names behind the first and the number of all count.
pub fn calc_fn_hash(seeds: Seeds, path: &[Text], name: &Text, num: u64) -> u64
    ensures { result ≡ mixed seeds (Script (path_of path.now) name.now num) }
{
    fn_hash(seeds, behind_first(path), path.len() as u64, name, num)
}

/// The hash of a native's key, from that of the script's key with as many parameters.
pub fn calc_fn_hash_full(seeds: Seeds, base: u64, types: &[TypeTag]) -> u64
    ensures { result ≡ bit_xor (mix seeds (types_part types.now)) base }
{
    types_hash(seeds, types) ^ base
}

/// The hash of a typed script's key, from that of the script's key without a type.
pub fn calc_typed_method_hash(seeds: Seeds, base: u64, this_type: &Text) -> u64
    ensures { result ≡ bit_xor (mix seeds (this_part this_type.now)) base }
{
    this_hash(seeds, this_type) ^ base
}

/// The hash of a native's key, by its path, name and types.
pub fn calc_native_fn_hash(seeds: Seeds, path: &[Text], name: &Text, types: &[TypeTag]) -> u64
    ensures { result ≡ mixed seeds (Native (path_of path.now) name.now types.now) }
{
    let base = calc_fn_hash(seeds, path, name, types.len() as u64);
    calc_fn_hash_full(seeds, base, types)
}

/// The hash of a function's name and number of parameters alone: that of its key without path and types.
#[tactic(auto, unfolding(crate::specs::Parts::untyped))]
pub fn calc_untyped_fn_hash(seeds: Seeds, name: &Text, num: u64) -> u64
    ensures { result ≡ untyped seeds name.now num }
{
    fn_hash(seeds, &[], 0, name, num)
}

impl Key {
    /// The hash of its name and its number of parameters alone.
    pub fn untyped(&self, seeds: Seeds) -> u64
        ensures { result ≡ untyped_key seeds self.now }
    {
        calc_untyped_fn_hash(seeds, self.name(), self.num_params())
    }

    /// The hash of its name and its number of parameters alone, where it has a parameter of any type.
    pub fn dynamic_hash(&self, seeds: Seeds) -> Option<u64>
        ensures { result ≡ dynamic_hash seeds self.now }
    {
        if self.has_dynamic() {
            Some(self.untyped(seeds))
        } else {
            None
        }
    }

    /// The hash of the key.
    pub fn mixed(&self, seeds: Seeds) -> u64
        ensures { result ≡ mixed seeds self.now }
    {
        match self {
            Key::Script { path, name, params } => {
                fn_hash(seeds, kept_names(path), kept_count(path), name, *params)
            }
            Key::Typed {
                path,
                name,
                params,
                this_type,
            } => {
                let base = fn_hash(seeds, kept_names(path), kept_count(path), name, *params);
                calc_typed_method_hash(seeds, base, this_type)
            }
            Key::Native { path, name, types } => {
                let params = types.len() as u64;
                let base = fn_hash(seeds, kept_names(path), kept_count(path), name, params);
                calc_fn_hash_full(seeds, base, types.as_slice())
            }
        }
    }
}
