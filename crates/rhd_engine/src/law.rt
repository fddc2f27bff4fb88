//! Laws of built-in operators.

ghost use Rattle.std.specs.Prelude.{◌≡◌, ◌≢◌, List, Some};
ghost use Rattle.std.specs.Map.{lookup};
ghost use Rattle.rhd_value.specs.declared.tag.FnId.{FnId};
ghost use Rattle.rhd_hash.specs.FirstPairs.{IsPut};
ghost use Rattle.rhd_engine.specs.declared.builtins.Operator.{Operator};
ghost use Rattle.rhd_engine.specs.Operators.{operator_eq, put_builtin};

/// A function that is put in is the one of its operator. All others stay as they are, in order.
pub fn a_builtin_leaves_the_others()
    ensures put { (bs : List (Operator × FnId)) (o : Operator) (id : FnId) → IsPut o id bs (put_builtin o id bs) }
    ensures itself { (bs : List (Operator × FnId)) (o : Operator) (id : FnId) → lookup (operator_eq o) (put_builtin o id bs) ≡ Some id }
    ensures others { (bs : List (Operator × FnId)) (o other : Operator) (id : FnId) → other ≢ o → lookup (operator_eq other) (put_builtin o id bs) ≡ lookup (operator_eq other) bs }
{}
