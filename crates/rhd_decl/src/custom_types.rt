//! Custom types: how a type is shown.

ghost use Rattle.std.specs.Prelude.{◌≡◌, [], IfOk, OnOk, OnErr};
ghost use Rattle.std.specs.Option.{option_copied};
ghost use Rattle.rhd_value.specs.Kinds.{type_name};
ghost use Rattle.rhd_value.specs.declared.tag.TypeTag.TheVariants.{Custom};
ghost use Rattle.rhd_decl.specs.CustomTypes.{type_info, put_type, type_of};

use rhd_value::{OutOfMemory, Text, Texts, TypeTag};
use std::alloc::{AllocError, Global};
use std::collections::BTreeMap;
use std::collections::btree_map::Iter;
use std::marker::Model;

/// How a type is shown, and what is said of it.
#[derive(Drop)]
pub struct CustomTypeInfo {
    pub type_name: Text,
    /// The name by which it is shown.
    pub display_name: Text,
    pub comments: Texts,
}

impl CustomTypeInfo {
    /// An equal one.
    pub fn dup(&self, alloc: Global) -> Result<CustomTypeInfo, OutOfMemory>
        ensures { IfOk result (λ info. info ≡ self.now) }
    {
        Ok(CustomTypeInfo {
            type_name: self.type_name.dup(alloc)?,
            display_name: self.display_name.dup(alloc)?,
            comments: self.comments.dup(alloc)?,
        })
    }
}

/// A clone is the type itself.
impl Clone for CustomTypeInfo {
    ghost use Rattle.std.specs.Prelude.{◌≡◌};

    ghost is_clone = { λ old copy. copy ≡ old };

    fn clone(&self) -> Result<CustomTypeInfo, AllocError> {
        Ok(CustomTypeInfo {
            type_name: self.type_name.clone()?,
            display_name: self.display_name.clone()?,
            comments: self.comments.clone()?,
        })
    }
}

/// Custom types by their type names. Contracts see the list of them, in ascending order of type name.
#[derive(Drop)]
pub struct CustomTypesCollection {
    types: BTreeMap<Text, CustomTypeInfo>,
}

impl Model for CustomTypesCollection {
    ghost use Rattle.rhd_decl.specs.CustomTypes.{CustomTypes};

    ghost Value = { CustomTypes };

    ghost view = { λ c. c.types.entries };
}

impl CustomTypesCollection {
    /// Without types.
    pub fn new(alloc: Global) -> CustomTypesCollection
        ensures { result ≡ [] }
    {
        CustomTypesCollection {
            types: BTreeMap::new(alloc),
        }
    }

    /// Takes all types out.
    pub fn clear(&mut self)
        ensures { self.new ≡ [] }
    {
        self.types.clear();
    }

    /// A type of this type name is shown by this name, in the place of an earlier one.
    pub fn add(&mut self, alloc: Global, type_name: Text, name: Text) -> Result<(), OutOfMemory>
        ensures ok { OnOk result (self.new ≡ put_type type_name (type_info type_name name []) self.old) }
        ensures err { OnErr result (self.new ≡ self.old) }
    {
        self.add_with_comments(alloc, type_name, name, Texts::new(alloc))
    }

    /// The same with comments.
    pub fn add_with_comments(
        &mut self,
        alloc: Global,
        type_name: Text,
        name: Text,
        comments: Texts,
    ) -> Result<(), OutOfMemory>
        ensures ok { OnOk result (self.new ≡ put_type type_name (type_info type_name name comments) self.old) }
        ensures err { OnErr result (self.new ≡ self.old) }
    {
        let info = CustomTypeInfo {
            type_name: type_name.dup(alloc)?,
            display_name: name,
            comments,
        };
        self.add_raw(alloc, type_name, info)
    }

    /// The custom type of a number is shown by this name, in the place of an earlier one.
    pub fn add_type(&mut self, alloc: Global, kind: u32, name: Text) -> Result<(), OutOfMemory>
        ensures ok { OnOk result (self.new ≡ put_type (type_name (Custom kind)) (type_info (type_name (Custom kind)) name []) self.old) }
        ensures err { OnErr result (self.new ≡ self.old) }
    {
        self.add(alloc, TypeTag::Custom(kind).type_name(alloc)?, name)
    }

    /// The same with comments.
    pub fn add_type_with_comments(
        &mut self,
        alloc: Global,
        kind: u32,
        name: Text,
        comments: Texts,
    ) -> Result<(), OutOfMemory>
        ensures ok { OnOk result (self.new ≡ put_type (type_name (Custom kind)) (type_info (type_name (Custom kind)) name comments) self.old) }
        ensures err { OnErr result (self.new ≡ self.old) }
    {
        let type_name = TypeTag::Custom(kind).type_name(alloc)?;
        self.add_with_comments(alloc, type_name, name, comments)
    }

    /// What is said of the type of a type name, in the place of what was said before.
    pub fn add_raw(
        &mut self,
        _alloc: Global,
        type_name: Text,
        info: CustomTypeInfo,
    ) -> Result<(), OutOfMemory>
        ensures ok { OnOk result (self.new ≡ put_type type_name info self.old) }
        ensures err { OnErr result (self.new ≡ self.old) }
    {
        self.types.insert(type_name, info)?;
        Ok(())
    }

    /// What is said of the type of a type name.
    pub fn get(&self, type_name: &Text) -> Option<&CustomTypeInfo>
        ensures { option_copied result ≡ type_of type_name.now self.now }
    {
        self.types.get(type_name)
    }

    /// The types, in ascending order of type name.
    pub fn iter(&self) -> Iter<'_, Text, CustomTypeInfo>
        ensures { result ≡ self.now }
    {
        self.types.iter()
    }

    /// An equal collection.
    pub fn dup(&self, _alloc: Global) -> Result<CustomTypesCollection, OutOfMemory>
        ensures { IfOk result (λ copy. copy ≡ self.now) }
    {
        Ok(CustomTypesCollection {
            types: self.types.clone()?,
        })
    }
}
