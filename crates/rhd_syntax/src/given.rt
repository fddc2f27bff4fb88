//! Values that a body is given where it runs, and where they are to stand.

ghost use Rattle.std.specs.Prelude.{◌≡◌, ◌++◌, ◌∷◌, [], IfOk, if◌then◌else◌, is_ok};

use rhd_value::OutOfMemory;
use std::alloc::Global;
use std::marker::Model;

/// A value that a body is given where it runs.
#[derive(Clone, Copy, PartialEq, Eq, Debug)]
pub enum Given {
    /// The object of the call.
    This,
    /// The answer of the call made last.
    Last,
    /// The argument of this number, counted from 0.
    Arg(u64),
}

/// Where a given value is to stand.
#[derive(Clone, Copy, PartialEq, Eq, Debug)]
pub struct GivenAt {
    /// The place among the values of the request, counted from 0.
    pub place: usize,
    /// The given value.
    pub given: Given,
}

/// The places of given values, in order. Contracts see the list of them.
#[derive(Drop)]
pub struct Places {
    items: Vec<GivenAt>,
}

impl Model for Places {
    ghost use Rattle.std.specs.Prelude.{List};
    ghost use Rattle.rhd_syntax.specs.declared.given.GivenAt.{GivenAt};

    ghost Value = { List GivenAt };

    ghost view = { λ a. a.items.items };
}

impl Places {
    /// None yet.
    pub fn new(alloc: Global) -> Places
        ensures { result ≡ [] }
    {
        Places {
            items: Vec::new(alloc),
        }
    }

    /// Puts a place last.
    pub fn push(&mut self, place: GivenAt) -> Result<(), OutOfMemory>
        ensures { self.new ≡ (if is_ok result then self.old ++ place ∷ [] else self.old) }
    {
        self.items.push(place)?;
        Ok(())
    }

    /// The places, in order.
    pub fn as_slice(&self) -> &[GivenAt]
        ensures { result.now ≡ self.now }
    {
        self.items.as_slice()
    }

    /// An equal list.
    pub fn dup(&self, alloc: Global) -> Result<Places, OutOfMemory>
        ensures { IfOk result (λ places. places ≡ self.now) }
    {
        let mut places = Places::new(alloc);
        for place in &self.items {
            places.push(*place)?;
        }
        Ok(places)
    }
}
