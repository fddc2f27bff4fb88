//! Values made anew. A copy is not read-only, and neither is any value in it.
ghost use Rattle.std.specs.Prelude.{◌≡◌, IfOk, map, true, false};
ghost use Rattle.rhd_value.specs.Tree.{copied};
ghost use Rattle.rhd_value.specs.Views.{kind_view};
ghost use Rattle.rhd_value.specs.Remade.{remade, remade_kind, remade_list, remade_entries};

use super::{Dynamic, Entries, FnPtr, Value, Values};
use crate::memory::OutOfMemory;
use crate::tag::Marks;
use std::alloc::Global;

impl Dynamic {
    /// The same tree with no value in it read-only. Other marks stay.
    pub fn copy(&self, alloc: Global) -> Result<Dynamic, OutOfMemory>
        ensures { IfOk result (λ value. value ≡ copied self.now) }
    {
        remake(self, alloc, true)
    }

    /// An equal value.
    pub fn dup(&self, alloc: Global) -> Result<Dynamic, OutOfMemory>
        ensures { IfOk result (λ value. value ≡ self.now) }
    {
        remake(self, alloc, false)
    }
}

impl Value {
    /// An equal one.
    pub fn dup(&self, alloc: Global) -> Result<Value, OutOfMemory>
        ensures { IfOk result (λ value. value ≡ self.now) }
    {
        match self {
            Value::Unit => Ok(Value::Unit),
            Value::Bool(value) => Ok(Value::Bool(*value)),
            Value::Int(value) => Ok(Value::Int(*value)),
            Value::Char(value) => Ok(Value::Char(*value)),
            Value::Text(text) => Ok(Value::Text(text.dup(alloc)?)),
            Value::Array(values) => Ok(Value::Array(values.dup(alloc)?)),
            Value::Map(entries) => Ok(Value::Map(entries.dup(alloc)?)),
            Value::FnPtr(ptr) => Ok(Value::FnPtr(ptr.dup(alloc)?)),
            Value::Custom(number, value) => Ok(Value::Custom(*number, *value)),
        }
    }
}

impl Values {
    /// An equal one.
    #[tactic(auto, using(crate::proofs::Made::remade_list_same))]
    pub fn dup(&self, alloc: Global) -> Result<Values, OutOfMemory>
        ensures { IfOk result (λ values. values ≡ self.now) }
    {
        remake_values(self, alloc, false)
    }
}

impl Entries {
    /// An equal one.
    #[tactic(auto, using(crate::proofs::Made::remade_entries_same))]
    pub fn dup(&self, alloc: Global) -> Result<Entries, OutOfMemory>
        ensures { IfOk result (λ entries. entries ≡ self.now) }
    {
        remake_entries(self, alloc, false)
    }
}

impl FnPtr {
    /// An equal one.
    #[tactic(auto, using(crate::proofs::Made::remade_list_same))]
    pub fn dup(&self, alloc: Global) -> Result<FnPtr, OutOfMemory>
        ensures { IfOk result (λ ptr. ptr ≡ self.now) }
    {
        remake_ptr(self, alloc, false)
    }
}

#[cycle(remake)]
fn remake(value: &Dynamic, alloc: Global, clear: bool) -> Result<Dynamic, OutOfMemory>
    ensures { IfOk result (λ made. made ≡ remade clear value.now) }
{
    Ok(Dynamic {
        value: remake_value(&value.value, alloc, clear)?,
        marks: Marks {
            read_only: value.marks.read_only && !clear,
            shared: value.marks.shared,
            locked: value.marks.locked,
        },
    })
}

#[cycle(remake)]
fn remake_value(value: &Value, alloc: Global, clear: bool) -> Result<Value, OutOfMemory>
    ensures { IfOk result (λ made. kind_view made ≡ remade_kind clear (kind_view value.now)) }
{
    match value {
        Value::Unit => Ok(Value::Unit),
        Value::Bool(value) => Ok(Value::Bool(*value)),
        Value::Int(value) => Ok(Value::Int(*value)),
        Value::Char(value) => Ok(Value::Char(*value)),
        Value::Text(text) => Ok(Value::Text(text.dup(alloc)?)),
        Value::Array(values) => Ok(Value::Array(remake_values(values, alloc, clear)?)),
        Value::Map(entries) => Ok(Value::Map(remake_entries(entries, alloc, clear)?)),
        Value::FnPtr(ptr) => Ok(Value::FnPtr(remake_ptr(ptr, alloc, clear)?)),
        Value::Custom(number, value) => Ok(Value::Custom(*number, *value)),
    }
}

#[cycle(remake)]
fn remake_ptr(ptr: &FnPtr, alloc: Global, clear: bool) -> Result<FnPtr, OutOfMemory>
    ensures { IfOk result (λ made. made ≡ record ptr.now { curry = remade_list clear ptr.now.curry }) }
{
    let name = ptr.fn_name().dup(alloc)?;
    let curry = remake_values(ptr.curry(), alloc, clear)?;
    FnPtr::from_parts(alloc, name, curry, ptr.typ())
}

#[cycle(remake)]
fn remake_values(values: &Values, alloc: Global, clear: bool) -> Result<Values, OutOfMemory>
    ensures { IfOk result (λ made. made ≡ remade_list clear values.now) }
{
    let mut items = Vec::with_capacity(alloc, values.items.len())?;
    for value in &values.items {
        items.push(remake(value, alloc, clear)?)?;
    }
    Ok(Values { items })
}

#[cycle(remake)]
fn remake_entries(entries: &Entries, alloc: Global, clear: bool) -> Result<Entries, OutOfMemory>
    ensures { IfOk result (λ made. made ≡ remade_entries clear entries.now) }
{
    let mut made = Entries::new(alloc);
    for (name, value) in entries.entries.iter() {
        let name = name.dup(alloc)?;
        made.insert(name, remake(value, alloc, clear)?)?;
    }
    Ok(made)
}
