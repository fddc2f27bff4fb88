//! What a module holds besides functions.

ghost use Rattle.std.specs.Prelude.{◌≡◌, [], IfOk, OnOk, OnErr, None, true, false, is_some};
ghost use Rattle.std.specs.Cmp.Lexicographic.{slice_cmp};
ghost use Rattle.std.specs.List.Sorted.{IsStrictlySortedBy};
ghost use Rattle.std.specs.Map.{keys_of};
ghost use Rattle.std.specs.Option.{option_copied, option_map, option_and_then};
ghost use Rattle.std.specs.Ordering.{nat_cmp};
ghost use Rattle.rhd_value.specs.Kinds.{type_name};
ghost use Rattle.rhd_value.specs.Tree.{copied};
ghost use Rattle.rhd_value.specs.Entries.{found};
ghost use Rattle.rhd_value.specs.declared.tag.TypeTag.TheVariants.{Custom};
ghost use Rattle.rhd_decl.specs.CustomTypes.{type_of};
ghost use Rattle.rhd_module.specs.Contents.{with_id, with_doc, with_var, with_type, cleared, with_sub, find_sub, is_empty, counts, script_of};
ghost use Rattle.rhd_module.specs.Tree.{subs_of};

use crate::module::Module;
use rhd_decl::{CustomTypeInfo, CustomTypesCollection};
use rhd_func::{SharedDef, SharedText};
use rhd_value::{Dynamic, Entries, OutOfMemory, Text, Texts, TypeTag};
use rhd_variant::Variant;
use std::alloc::Global;
use std::collections::BTreeMap;
use std::collections::btree_map::Iter;
use std::rc::Rc;

impl Module {
    /// By which name it is known as a source.
    pub fn id(&self) -> Option<&Text>
        ensures { option_copied result ≡ self.now.own.id }
    {
        match &self.id {
            Some(id) => Some(id.text()),
            None => None,
        }
    }

    /// The same with one owner more.
    pub fn share_id(&self, alloc: Global) -> Result<Option<SharedText>, OutOfMemory>
        ensures { IfOk result (λ id. id ≡ self.now.own.id) }
    {
        match &self.id {
            Some(id) => Ok(Some(id.dup(alloc)?)),
            None => Ok(None),
        }
    }

    /// Sets the id. An empty one clears it.
    pub fn set_id(&mut self, alloc: Global, id: Text) -> Result<(), OutOfMemory>
        ensures ok { OnOk result (self.new ≡ with_id id self.old) }
        ensures err { OnErr result (self.new ≡ self.old) }
    {
        if id.len() == 0 {
            self.id = None;
            return Ok(());
        }
        let shared = SharedText::new(alloc, id)?;
        self.id = Some(shared);
        Ok(())
    }

    pub fn clear_id(&mut self)
        ensures { self.new ≡ with_id [] self.old }
    {
        self.id = None;
    }

    /// Its documentation; empty where there is none.
    pub fn doc(&self) -> &Text
        ensures { result.now ≡ self.now.own.doc }
    {
        &self.doc
    }

    pub fn set_doc(&mut self, doc: Text)
        ensures { self.new ≡ with_doc doc self.old }
    {
        self.doc = doc;
    }

    pub fn clear_doc(&mut self)
        ensures { self.new ≡ with_doc [] self.old }
    {
        self.doc = Text::new(self.allocator());
    }

    /// Whether its index is that of its declarations and of those below.
    pub fn is_indexed(&self) -> bool
        ensures { result ≡ self.now.own.indexed }
    {
        self.flags.is_indexed()
    }

    /// Whether it isn't for scripts.
    pub fn is_internal(&self) -> bool
        ensures { result ≡ self.now.own.internal }
    {
        self.flags.is_internal()
    }

    pub fn set_internal(&mut self, value: bool)
        ensures { self.new ≡ record self.old { own = record self.old.own { internal = value } } }
    {
        self.flags.set_internal(value);
    }

    /// Whether it is part of the standard library.
    pub fn is_standard_lib(&self) -> bool
        ensures { result ≡ self.now.own.standard }
    {
        self.flags.is_standard()
    }

    pub fn set_standard_lib(&mut self, value: bool)
        ensures { self.new ≡ record self.old { own = record self.old.own { standard = value } } }
    {
        self.flags.set_standard(value);
    }

    pub fn contains_var(&self, name: &Text) -> bool
        ensures { result ≡ is_some (found name.now self.now.own.vars) }
    {
        self.vars.get(name).is_some()
    }

    /// A copy of a variable's value.
    pub fn get_var(&self, alloc: Global, name: &Text) -> Result<Option<Dynamic>, OutOfMemory>
        ensures { IfOk result (λ value. value ≡ option_map copied (found name.now self.now.own.vars)) }
    {
        match self.vars.get(name) {
            Some(value) => Ok(Some(value.copy(alloc)?)),
            None => Ok(None),
        }
    }

    /// The same as a value of a Rust type, where it is one.
    pub fn get_var_value<T: Variant>(
        &self,
        alloc: Global,
        name: &Text,
    ) -> Result<Option<T>, OutOfMemory>
        ensures { IfOk result (λ value. value ≡ option_and_then (λ t. T.value_of (copied t)) (found name.now self.now.own.vars)) }
    {
        match self.vars.get(name) {
            Some(value) => Ok(T::from_dynamic(value.copy(alloc)?)),
            None => Ok(None),
        }
    }

    /// Sets a variable, in the place of one of an equal name.
    pub fn set_var(&mut self, _alloc: Global, name: Text, value: Dynamic) -> Result<(), OutOfMemory>
        ensures ok { OnOk result (self.new ≡ with_var name value self.old) }
        ensures err { OnErr result (self.new ≡ self.old) }
    {
        self.vars.insert(name, value)
    }

    /// The variables in ascending order of name.
    pub fn iter_var(&self) -> Iter<'_, Text, Dynamic>
        ensures { result ≡ self.now.own.vars }
    {
        self.vars.iter()
    }

    /// The custom type of a number is shown by this name, in the place of an earlier one.
    pub fn set_custom_type(
        &mut self,
        alloc: Global,
        kind: u32,
        name: Text,
    ) -> Result<(), OutOfMemory>
        ensures ok { OnOk result (self.new ≡ with_type (type_name (Custom kind)) name [] self.old) }
        ensures err { OnErr result (self.new ≡ self.old) }
    {
        self.types.add_type(alloc, kind, name)
    }

    /// The same with comments.
    pub fn set_custom_type_with_comments(
        &mut self,
        alloc: Global,
        kind: u32,
        name: Text,
        comments: Texts,
    ) -> Result<(), OutOfMemory>
        ensures ok { OnOk result (self.new ≡ with_type (type_name (Custom kind)) name comments self.old) }
        ensures err { OnErr result (self.new ≡ self.old) }
    {
        self.types
            .add_type_with_comments(alloc, kind, name, comments)
    }

    /// The type of this type name is shown by this name, in the place of an earlier one.
    pub fn set_custom_type_raw(
        &mut self,
        alloc: Global,
        type_name: Text,
        display: Text,
    ) -> Result<(), OutOfMemory>
        ensures ok { OnOk result (self.new ≡ with_type type_name display [] self.old) }
        ensures err { OnErr result (self.new ≡ self.old) }
    {
        self.types.add(alloc, type_name, display)
    }

    /// The same with comments.
    pub fn set_custom_type_with_comments_raw(
        &mut self,
        alloc: Global,
        type_name: Text,
        display: Text,
        comments: Texts,
    ) -> Result<(), OutOfMemory>
        ensures ok { OnOk result (self.new ≡ with_type type_name display comments self.old) }
        ensures err { OnErr result (self.new ≡ self.old) }
    {
        self.types
            .add_with_comments(alloc, type_name, display, comments)
    }

    /// The name by which the type of a type name is shown.
    pub fn get_custom_type_display_by_name(&self, type_name: &Text) -> Option<&Text>
        ensures { option_copied result ≡ option_map (λ info. info.display_name) (type_of type_name.now self.now.own.types) }
    {
        match self.types.get(type_name) {
            Some(info) => Some(&info.display_name),
            None => None,
        }
    }

    /// The name by which the custom type of a number is shown.
    pub fn get_custom_type_display(
        &self,
        alloc: Global,
        kind: u32,
    ) -> Result<Option<&Text>, OutOfMemory>
        ensures { IfOk result (λ name. option_copied name ≡ option_map (λ info. info.display_name) (type_of (type_name (Custom kind)) self.now.own.types)) }
    {
        let type_name = TypeTag::Custom(kind).type_name(alloc)?;
        Ok(self.get_custom_type_display_by_name(&type_name))
    }

    /// What is said of the custom type of a number.
    pub fn get_custom_type_raw(
        &self,
        alloc: Global,
        kind: u32,
    ) -> Result<Option<&CustomTypeInfo>, OutOfMemory>
        ensures { IfOk result (λ info. option_copied info ≡ type_of (type_name (Custom kind)) self.now.own.types) }
    {
        let type_name = TypeTag::Custom(kind).type_name(alloc)?;
        Ok(self.types.get(&type_name))
    }

    /// What is said of the type of a type name.
    pub fn get_custom_type_by_name_raw(&self, type_name: &Text) -> Option<&CustomTypeInfo>
        ensures { option_copied result ≡ type_of type_name.now self.now.own.types }
    {
        self.types.get(type_name)
    }

    /// The custom types in ascending order of type name.
    pub fn iter_custom_types(&self) -> Iter<'_, Text, CustomTypeInfo>
        ensures { result ≡ self.now.own.types }
    {
        self.types.iter()
    }

    pub fn contains_sub_module(&self, name: &Text) -> bool
        ensures { result ≡ is_some (find_sub name.now self.now.subs) }
    {
        self.get_sub_module(name).is_some()
    }

    /// The sub-module of a name.
    pub fn get_sub_module(&self, name: &Text) -> Option<&Rc<Module>>
        ensures { option_map (λ m. m.now.value) result ≡ find_sub name.now self.now.subs }
    {
        self.subs.get(name)
    }

    /// Puts a sub-module under a name, in the place of one of an equal name. The module isn't indexed
    /// any more.
    pub fn set_sub_module(
        &mut self,
        _alloc: Global,
        name: Text,
        child: Rc<Module>,
    ) -> Result<(), OutOfMemory>
        ensures ok { OnOk result (self.new ≡ with_sub name child.value self.old) }
        ensures err { OnErr result (self.new ≡ self.old) }
    {
        self.subs.insert(name, child)?;
        self.flags.set_indexed(false);
        Ok(())
    }

    /// The sub-modules in ascending order of name.
    pub fn iter_sub_modules(&self) -> Iter<'_, Text, Rc<Module>>
        ensures subs { subs_of result ≡ self.now.subs }
        ensures ordered { IsStrictlySortedBy (slice_cmp nat_cmp) (keys_of result) }
    {
        self.subs.iter()
    }

    /// Whether it has no variable, sub-module, declaration and manifest.
    pub fn is_empty(&self) -> bool
        ensures { result ≡ is_empty self.now }
    {
        let no_vars = self.vars.len() == 0;
        let no_subs = self.subs.len() == 0;
        let no_fns = self.eager.len() == 0;
        let no_manifests = self.iter_manifests().len() == 0;
        no_vars & (no_subs & (no_fns & no_manifests))
    }

    /// The script of a name and number of parameters: the untyped one, else the first typed one in order.
    pub fn get_script_fn(&self, name: &Text, params: u64) -> Option<&SharedDef>
        ensures { option_copied result ≡ script_of name.now params self.now }
    {
        self.eager.get_script(name, params)
    }

    /// How many variables, declarations and functions that iterate it has.
    pub fn count(&self) -> (u64, u64, u64)
        ensures { (result.0, (result.1, result.2)) ≡ counts self.now }
    {
        (self.vars.len() as u64, self.eager.len() as u64, 0)
    }

    /// Takes all out but the id and the own flags. The module isn't indexed any more.
    pub fn clear(&mut self)
        ensures { self.new ≡ cleared self.old }
    {
        let alloc = self.allocator();
        self.clear_fns(alloc);
        self.doc = Text::new(alloc);
        self.types.clear();
        self.vars = Entries::new(alloc);
        self.subs.clear();
    }
}
