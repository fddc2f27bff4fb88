//! How much a value holds.
ghost use Rattle.std.specs.Prelude.{◌≡◌, map};
ghost use Rattle.rhd_value.specs.Views.{kind_view};
ghost use Rattle.rhd_value.specs.Sums.{sizes_of, sizes_of_kind, sizes_of_list};

use super::{Dynamic, Entries, Value, Values};
use crate::tag::Sizes;

impl Dynamic {
    /// How much the value holds in all, with all that is inside it. Names of pointers and keys of
    /// maps don't count.
    #[cycle(sizes)]
    #[inline(always)]
    pub fn sizes(&self) -> Sizes
        ensures { result ≡ sizes_of self.now }
    {
        sizes_of_value(&self.value)
    }
}

#[cycle(sizes)]
fn sizes_of_value(value: &Value) -> Sizes
    ensures { result ≡ sizes_of_kind (kind_view value.now) }
{
    match value {
        Value::Unit | Value::Bool(_) | Value::Int(_) | Value::Char(_) | Value::Custom(_, _) =>
            Sizes::NONE,
        Value::Text(text) => Sizes {
            array: 0,
            map: 0,
            text: text.len() as u64,
        },
        Value::Array(values) => sizes_of_values(values).plus(Sizes {
            array: values.len() as u64,
            map: 0,
            text: 0,
        }),
        Value::Map(entries) => sizes_of_entries(entries).plus(Sizes {
            array: 0,
            map: entries.len() as u64,
            text: 0,
        }),
        Value::FnPtr(ptr) => sizes_of_values(ptr.curry()),
    }
}

#[cycle(sizes)]
fn sizes_of_values(values: &Values) -> Sizes
    ensures { result ≡ sizes_of_list values.now }
{
    let mut total = Sizes::NONE;
    for value in &values.items {
        total = total.plus(value.sizes());
    }
    total
}

#[cycle(sizes)]
fn sizes_of_entries(entries: &Entries) -> Sizes
    ensures { result ≡ sizes_of_list (map (λ e. e.1) entries.now) }
{
    let mut total = Sizes::NONE;
    for value in entries.entries.values() {
        total = total.plus(value.sizes());
    }
    total
}
