//! The table of built-in operators.

ghost use Rattle.std.specs.Prelude.{◌≡◌, [], OnOk, OnErr, IfOk, length};
ghost use Rattle.std.specs.Cmp.{partial_equiv_from_equiv};
ghost use Rattle.std.specs.Map.{lookup};
ghost use Rattle.rhd_value.specs.Same.{tag_argument};
ghost use Rattle.rhd_engine.specs.Held.{builtins_held};
ghost use Rattle.rhd_engine.specs.Operators.{operator_eq, operator_eq_equiv, operator_input, operator_alike, put_builtin};

use indexmap::IndexMap;
use rhd_func::Natives;
use rhd_names::OpToken;
use rhd_value::{FnId, OutOfMemory, TypeTag};
use std::alloc::Global;
use std::hash::{Hash, Hasher};
use std::marker::Model;

/// An operator between two kinds.
#[derive(Clone, Copy, Debug)]
pub struct Operator {
    pub token: OpToken,
    pub left: TypeTag,
    pub right: TypeTag,
}

impl PartialEq for Operator {
    ghost eq = { operator_eq };

    ghost laws = { partial_equiv_from_equiv operator_eq_equiv };

    fn eq(&self, other: &Operator) -> bool {
        self.token == other.token && (self.left == other.left && self.right == other.right)
    }
}

impl Eq for Operator {
    ghost laws = { operator_eq_equiv };
}

/// The number of a custom type; 0 of any other.
fn custom_number(kind: TypeTag) -> u32
    ensures { result ≡ tag_argument kind }
{
    match kind {
        TypeTag::Custom(number) => number,
        _ => 0,
    }
}

/// By the token and the numbers of custom types.
impl Hash for Operator {
    ghost hash_input = { operator_input };

    ghost respects_eq = { operator_alike };

    fn hash<H: Hasher>(&self, state: &mut H) {
        self.token.text().hash(state);
        custom_number(self.left).hash(state);
        custom_number(self.right).hash(state);
    }
}

/// Built-in functions by operator, in the order in which their operators came first. Contracts see
/// the list of them.
#[derive(Drop)]
pub struct Builtins {
    table: IndexMap<Operator, FnId>,
}

impl Model for Builtins {
    ghost use Rattle.std.specs.Prelude.{List};
    ghost use Rattle.rhd_value.specs.declared.tag.FnId.{FnId};
    ghost use Rattle.rhd_engine.specs.declared.builtins.Operator.{Operator};

    ghost Value = { List (Operator × FnId) };

    ghost view = { λ b. b.table.entries };
}

impl Builtins {
    /// A table without functions.
    pub fn new(alloc: Global) -> Builtins
        ensures { result ≡ [] }
    {
        Builtins {
            table: IndexMap::new(alloc),
        }
    }

    /// Puts the function of an operator between two kinds in the place of an earlier one, or last.
    #[tactic(auto, using(crate::proofs::Tables::put_is))]
    pub fn set(
        &mut self,
        _alloc: Global,
        op: OpToken,
        left: TypeTag,
        right: TypeTag,
        id: FnId,
    ) -> Result<(), OutOfMemory>
        ensures ok { OnOk result (self.new ≡ put_builtin (record { token = op; left = left; right = right }) id self.old) }
        ensures err { OnErr result (self.new ≡ self.old) }
    {
        let operator = Operator {
            token: op,
            left,
            right,
        };
        self.table.insert(operator, id)?;
        Ok(())
    }

    /// The function of an operator between two kinds.
    pub fn get(&self, op: OpToken, left: TypeTag, right: TypeTag) -> Option<FnId>
        ensures { result ≡ lookup (operator_eq (record { token = op; left = left; right = right })) self.now }
    {
        let operator = Operator {
            token: op,
            left,
            right,
        };
        self.table.get(&operator).copied()
    }

    /// An equal table.
    #[tactic(auto, using(crate::proofs::Tables::copy_is))]
    pub fn dup(&self, _alloc: Global) -> Result<Builtins, OutOfMemory>
        ensures { IfOk result (λ copy. copy ≡ self.now) }
    {
        let table = self.table.clone()?;
        Ok(Builtins { table })
    }

    /// Whether each function is a native that is held.
    pub fn fits(&self, natives: &Natives) -> bool
        ensures { result ≡ builtins_held (length natives.now.items.items) self.now }
    {
        for (_operator, id) in self.table.iter() {
            if id.0 as usize >= natives.len() {
                return false;
            }
        }
        true
    }
}
