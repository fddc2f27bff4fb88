//! How types and signatures are shown.

ghost use Rattle.std.specs.Prelude.{◌≡◌, ◌++◌, ◌∷◌, IfOk, OnOk, codes, string_bytes};
ghost use Rattle.std.specs.List.{flat_map, join_by, list_any};
ghost use Rattle.std.specs.Option.{option_copied};
ghost use Rattle.rhd_value.specs.Firsts.{first_of};
ghost use Rattle.rhd_value.specs.Same.{text_eq};
ghost use Rattle.rhd_func.specs.Shapes.{all_args};
ghost use Rattle.rhd_engine.specs.Display.{standard_names, display_in, map_type_name, display, in_signature, signature};
ghost use Rattle.rhd_engine.specs.Of.{lists_of};

use crate::engine::Engine;
use rhd_func::CallShape;
use rhd_layers::SharedModule;
use rhd_value::{Dynamic, OutOfMemory, Text, Value, Values};
use std::alloc::Global;

/// For how many bytes a signature makes room at first.
const ROOM: usize = 64;

/// Whether a type name is one of the eight names of kinds that are no custom types.
fn is_standard_name(name: &Text) -> bool
    ensures { result ≡ list_any (text_eq name.now) standard_names }
{
    matches!(
        name.as_str(),
        "()" | "bool" | "i64" | "char" | "string" | "array" | "map" | "Fn"
    )
}

/// The name by which the first module that has the type of this type name shows it.
fn shown_in<'a>(modules: &'a [SharedModule], name: &Text) -> Option<&'a Text>
    ensures { option_copied result ≡ first_of (display_in name.now) modules.now }
{
    for shared in modules {
        let shown = shared.module().get_custom_type_display_by_name(name);
        if shown.is_some() {
            return shown;
        }
    }
    None
}

impl Engine {
    /// How the type of a type name is shown: a standard name as it is, else by the name that the first
    /// global module has for it, and by its type name where none has one.
    #[tactic(auto, unfolding(crate::specs::Display::map_type_name, crate::specs::Of::lists_of))]
    pub fn map_type_name(&self, alloc: Global, name: &Text) -> Result<Text, OutOfMemory>
        ensures { IfOk result (λ shown. shown ≡ map_type_name (lists_of info self.now) name.now) }
    {
        if is_standard_name(name) {
            return name.dup(alloc);
        }
        match shown_in(self.globals.as_slice(), name) {
            Some(shown) => shown.dup(alloc),
            None => name.dup(alloc),
        }
    }

    /// The type of a value, as a text shows it.
    pub fn display_type(&self, alloc: Global, value: &Dynamic) -> Result<Text, OutOfMemory>
        ensures { IfOk result (λ name. name ≡ display (lists_of info self.now) value.now) }
    {
        let name = value.type_name(alloc)?;
        self.map_type_name(alloc, &name)
    }

    /// Puts the type of a value of a custom type at the end.
    fn push_display(
        &self,
        alloc: Global,
        out: &mut String,
        value: &Dynamic,
    ) -> Result<(), OutOfMemory>
        ensures { OnOk result (string_bytes out.new ≡ string_bytes out.old ++ display (lists_of info self.now) value.now) }
    {
        let name = self.display_type(alloc, value)?;
        out.push_str(name.as_str())?;
        Ok(())
    }

    /// Puts a value's type at the end, as a signature shows it.
    #[tactic(auto, unfolding(crate::specs::Display::map_type_name))]
    fn push_type(&self, alloc: Global, out: &mut String, value: &Dynamic) -> Result<(), OutOfMemory>
        ensures { OnOk result (string_bytes out.new ≡ string_bytes out.old ++ in_signature (lists_of info self.now) value.now) }
    {
        let name = match &value.value {
            Value::Unit => "()",
            Value::Bool(_) => "bool",
            Value::Int(_) => "i64",
            Value::Char(_) => "char",
            Value::Text(_) => "&str | ImmutableString | String",
            Value::Array(_) => "array",
            Value::Map(_) => "map",
            Value::FnPtr(_) => "Fn",
            Value::Custom(..) => return self.push_display(alloc, out, value),
        };
        out.push_str(name)?;
        Ok(())
    }

    /// Puts further types at the end, each after a comma.
    fn push_more_types(
        &self,
        alloc: Global,
        out: &mut String,
        values: &[Dynamic],
    ) -> Result<(), OutOfMemory>
        ensures { OnOk result (string_bytes out.new ≡ string_bytes out.old ++ flat_map (λ v. codes ", " ++ in_signature (lists_of info self.now) v) values.now) }
    {
        for value in values {
            out.push_str(", ")?;
            self.push_type(alloc, out, value)?;
        }
        Ok(())
    }

    /// Puts the types of a first value and of others at the end.
    fn push_first_types(
        &self,
        alloc: Global,
        out: &mut String,
        first: &Dynamic,
        more: &[Dynamic],
    ) -> Result<(), OutOfMemory>
        ensures { OnOk result (string_bytes out.new ≡ string_bytes out.old ++ join_by (in_signature (lists_of info self.now)) (codes ", ") (first.now ∷ more.now)) }
    {
        self.push_type(alloc, out, first)?;
        self.push_more_types(alloc, out, more)
    }

    /// Puts the types of all values at the end.
    fn push_types(
        &self,
        alloc: Global,
        out: &mut String,
        values: &[Dynamic],
    ) -> Result<(), OutOfMemory>
        ensures { OnOk result (string_bytes out.new ≡ string_bytes out.old ++ join_by (in_signature (lists_of info self.now)) (codes ", ") values.now) }
    {
        match values {
            [] => Ok(()),
            [first, more @ ..] => self.push_first_types(alloc, out, first, more),
        }
    }

    /// Puts the types of all arguments at the end.
    fn push_shape(
        &self,
        alloc: Global,
        out: &mut String,
        shape: &CallShape,
    ) -> Result<(), OutOfMemory>
        ensures { OnOk result (string_bytes out.new ≡ string_bytes out.old ++ join_by (in_signature (lists_of info self.now)) (codes ", ") (all_args shape.now)) }
    {
        match shape {
            CallShape::Plain(args) => self.push_types(alloc, out, args.as_slice()),
            CallShape::ByRef(first, args) => {
                self.push_first_types(alloc, out, first, args.as_slice())
            }
            CallShape::Method(object, args) => {
                self.push_first_types(alloc, out, object, args.as_slice())
            }
        }
    }

    /// A call as a fault names it: the name, and the types of all arguments.
    pub fn call_signature(
        &self,
        alloc: Global,
        name: &Text,
        shape: &CallShape,
    ) -> Result<Text, OutOfMemory>
        ensures { IfOk result (λ text. text ≡ signature (lists_of info self.now) name.now (all_args shape.now)) }
    {
        let mut text = String::with_capacity(alloc, ROOM)?;
        text.push_str(name.as_str())?;
        text.push_str(" (")?;
        self.push_shape(alloc, &mut text, shape)?;
        text.push_str(")")?;
        Text::from_string(alloc, text)
    }

    /// The same of a call with these arguments.
    pub fn gen_fn_call_signature(
        &self,
        alloc: Global,
        name: &Text,
        args: &Values,
    ) -> Result<Text, OutOfMemory>
        ensures { IfOk result (λ text. text ≡ signature (lists_of info self.now) name.now args.now) }
    {
        let mut text = String::with_capacity(alloc, ROOM)?;
        text.push_str(name.as_str())?;
        text.push_str(" (")?;
        self.push_types(alloc, &mut text, args.as_slice())?;
        text.push_str(")")?;
        Text::from_string(alloc, text)
    }
}
