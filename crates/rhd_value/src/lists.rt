//! Lists of texts and of types.

ghost use Rattle.std.specs.Prelude.{◌≡◌, ◌-◌, ◌++◌, ◌∷◌, [], length, take, if◌then◌else◌, is_ok, IfOk, slice_get, slice_set, nat_eq};
ghost use Rattle.std.specs.Option.{option_copied};
ghost use Rattle.std.specs.Cmp.{partial_equiv_from_equiv};
ghost use Rattle.std.specs.Cmp.Lexicographic.{pointwise, nat_list_eq_equiv};
ghost use Rattle.std.proofs.lemmas.Cmp.{lists_equiv};
ghost use Rattle.rhd_value.specs.Same.{types_eq, types_eq_equiv};

use crate::memory::OutOfMemory;
use crate::tag::TypeTag;
use crate::text::Text;
use smallvec::SmallVec;
use std::alloc::{AllocError, Global};
use std::marker::Model;

/// Texts in order. Contracts see the list of them.
#[derive(Drop)]
pub struct Texts {
    items: Vec<Text>,
}

impl Model for Texts {
    ghost use Rattle.std.specs.Prelude.{ℕ, List};

    ghost Value = { List (List ℕ) };

    ghost view = { λ a. a.items.items };
}

impl Texts {
    pub fn new(alloc: Global) -> Texts
        ensures { result ≡ [] }
    {
        Texts {
            items: Vec::new(alloc),
        }
    }

    /// An empty list with room for so many texts.
    pub fn with_capacity(alloc: Global, many: usize) -> Result<Texts, OutOfMemory>
        ensures { IfOk result (λ texts. texts ≡ []) }
    {
        Ok(Texts {
            items: Vec::with_capacity(alloc, many)?,
        })
    }

    /// Takes the last text off; none where there is nothing.
    pub fn pop(&mut self) -> Option<Text>
        ensures last { result ≡ slice_get self.old (length self.old - 1) }
        ensures rest { self.new ≡ take (length self.old - 1) self.old }
    {
        self.items.pop()
    }

    /// Puts a text last.
    #[inline(always)]
    pub fn push(&mut self, text: Text) -> Result<(), OutOfMemory>
        ensures { self.new ≡ (if is_ok result then self.old ++ text ∷ [] else self.old) }
    {
        self.items.push(text)?;
        Ok(())
    }

    pub fn len(&self) -> usize
        ensures { result ≡ length self.now }
    {
        self.items.len()
    }

    /// The text at a place, counted from 0; none where there is nothing.
    pub fn get(&self, at: usize) -> Option<&Text>
        ensures { option_copied result ≡ slice_get self.now at }
    {
        self.items.get(at)
    }

    pub fn as_slice(&self) -> &[Text]
        ensures { result.now ≡ self.now }
    {
        self.items.as_slice()
    }

    /// An equal list.
    pub fn dup(&self, _alloc: Global) -> Result<Texts, OutOfMemory>
        ensures { IfOk result (λ texts. texts ≡ self.now) }
    {
        Ok(self.clone()?)
    }
}

/// A clone is the list itself.
impl Clone for Texts {
    ghost use Rattle.std.specs.Prelude.{◌≡◌};

    ghost is_clone = { λ old copy. copy ≡ old };

    #[inline(always)]
    fn clone(&self) -> Result<Texts, AllocError> {
        Ok(Texts {
            items: self.items.clone()?,
        })
    }
}

impl PartialEq for Texts {
    ghost eq = { pointwise (pointwise nat_eq) };

    ghost laws = { partial_equiv_from_equiv (lists_equiv nat_list_eq_equiv) };

    fn eq(&self, other: &Texts) -> bool {
        self.as_slice() == other.as_slice()
    }
}

impl Eq for Texts {
    ghost laws = { lists_equiv nat_list_eq_equiv };
}

/// How many types a list holds in itself.
const FEW: usize = 4;

/// Types in order. A short list takes no memory. Contracts see the list of them.
pub struct Types {
    items: SmallVec<TypeTag, FEW>,
}

/// A function of its own, so that what drops a list doesn't ask where its types lie.
impl Drop for Types {
    fn drop(self) {
        let Types { items } = self;
        drop(items);
    }
}

impl Model for Types {
    ghost use Rattle.std.specs.Prelude.{List};
    ghost use Rattle.rhd_value.specs.declared.tag.TypeTag.{TypeTag};

    ghost Value = { List TypeTag };

    ghost view = { λ a. a.items.items };
}

impl Types {
    pub fn new(alloc: Global) -> Types
        ensures { result ≡ [] }
    {
        Types {
            items: SmallVec::new(alloc),
        }
    }

    /// A list of these types.
    #[inline(always)]
    pub fn from_slice(alloc: Global, tags: &[TypeTag]) -> Result<Types, OutOfMemory>
        ensures { IfOk result (λ types. types ≡ tags.now) }
    {
        Ok(Types {
            items: SmallVec::from_slice(alloc, tags)?,
        })
    }

    /// Puts a type last.
    #[inline(always)]
    pub fn push(&mut self, tag: TypeTag) -> Result<(), OutOfMemory>
        ensures { self.new ≡ (if is_ok result then self.old ++ tag ∷ [] else self.old) }
    {
        self.items.push(tag)?;
        Ok(())
    }

    pub fn len(&self) -> usize
        ensures { result ≡ length self.now }
    {
        self.items.len()
    }

    /// Puts another type at a place, counted from 0; nothing changes where there is none.
    pub fn set(&mut self, at: usize, tag: TypeTag)
        ensures { self.new ≡ slice_set self.old at tag }
    {
        if let Some(place) = self.items.get_mut(at) {
            *place = tag;
        }
    }

    /// The type at a place, counted from 0; none where there is nothing.
    pub fn get(&self, at: usize) -> Option<TypeTag>
        ensures { result ≡ slice_get self.now at }
    {
        self.as_slice().get(at).copied()
    }

    pub fn as_slice(&self) -> &[TypeTag]
        ensures { result.now ≡ self.now }
    {
        self.items.as_slice()
    }

    /// An equal list.
    pub fn dup(&self, alloc: Global) -> Result<Types, OutOfMemory>
        ensures { IfOk result (λ types. types ≡ self.now) }
    {
        Types::from_slice(alloc, self.as_slice())
    }
}

impl PartialEq for Types {
    ghost eq = { types_eq };

    ghost laws = { partial_equiv_from_equiv types_eq_equiv };

    fn eq(&self, other: &Types) -> bool {
        self.as_slice() == other.as_slice()
    }
}

impl Eq for Types {
    ghost laws = { types_eq_equiv };
}
