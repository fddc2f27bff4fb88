//! Texts with several owners.

ghost use Rattle.std.specs.Prelude.{◌≡◌, IfOk};

use rhd_value::{OutOfMemory, Text};
use std::alloc::Global;
use std::marker::Model;
use std::rc::Rc;

/// A text with several owners. Contracts see the text itself.
#[derive(Drop)]
pub struct SharedText {
    text: Rc<Text>,
}

impl Model for SharedText {
    ghost use Rattle.rhd_value.specs.Tree.{Bytes};

    ghost Value = { Bytes };

    ghost view = { λ a. a.text.value };
}

impl SharedText {
    pub fn new(alloc: Global, text: Text) -> Result<SharedText, OutOfMemory>
        ensures { IfOk result (λ shared. shared ≡ text) }
    {
        Ok(SharedText {
            text: Rc::new(alloc, text)?,
        })
    }

    pub fn text(&self) -> &Text
        ensures { result.now ≡ self.now }
    {
        &self.text
    }

    /// One more owner of the same text.
    pub fn dup(&self, _alloc: Global) -> Result<SharedText, OutOfMemory>
        ensures { IfOk result (λ shared. shared ≡ self.now) }
    {
        Ok(SharedText {
            text: self.text.clone()?,
        })
    }
}

/// One more owner of a text, if there is one.
pub fn share(alloc: Global, text: &Option<SharedText>) -> Result<Option<SharedText>, OutOfMemory>
    ensures { IfOk result (λ shared. shared ≡ text.now) }
{
    match text {
        Some(text) => Ok(Some(text.dup(alloc)?)),
        None => Ok(None),
    }
}
