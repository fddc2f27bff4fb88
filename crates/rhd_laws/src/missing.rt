//! Laws of calls that aren't found.

ghost use Rattle.std.specs.Prelude.{◌≡◌, ◌↔◌, ◌≤◌, ℕ, true, List, [], length, None};
ghost use Rattle.rhd_value.specs.Tree.{Bytes, Tree};
ghost use Rattle.rhd_value.specs.declared.fault.EvalAltResult.{EvalAltResult};
ghost use Rattle.rhd_value.specs.declared.tag.Position.{Position};
ghost use Rattle.rhd_func.specs.Shapes.{given};
ghost use Rattle.rhd_engine.specs.Engine.{EngineLists};
ghost use Rattle.rhd_machine.specs.Objects.{objects_of};
ghost use Rattle.rhd_laws.specs.Ran.{Ran};
ghost use Rattle.rhd_call.specs.End.{failed};
ghost use Rattle.rhd_laws.specs.Causes.{IsOwn};
ghost use Rattle.rhd_engine.specs.NotFound.{not_found, not_found_in};
ghost use Rattle.rhd_laws.specs.Unfound.{fault_number, IsProperty, IsIndexer, IsAccess, IsUnfound};
ghost use Rattle.rhd_call.specs.Seen.{seen, begun_node};

use rhd_func::{Bodies, Host, Natives};

/// The fault of a call that isn't found has the number 2 exactly for a getter or a setter with the
/// number of arguments that it takes, 3 exactly for such an indexer, 4 exactly for one of these with
/// another number of arguments, and 1 exactly for any other name. That of a qualified call has the
/// number 1, whatever its name is.
pub fn a_fault_of_a_missing_call_is_by_its_name()
    ensures property { (e : EngineLists) (pos : Position) (name : Bytes) (args : List Tree)
        → (fault_number (not_found e pos name args) ≡ 2) ↔ IsProperty name (length args) }
    ensures index { (e : EngineLists) (pos : Position) (name : Bytes) (args : List Tree) → (fault_number (not_found e pos name args) ≡ 3) ↔ IsIndexer name (length args) }
    ensures number { (e : EngineLists) (pos : Position) (name : Bytes) (args : List Tree)
        → (fault_number (not_found e pos name args) ≡ 4) ↔ ((n : ℕ) × IsAccess name n × (length args ≡ n → ⊥)) }
    ensures other { (e : EngineLists) (pos : Position) (name : Bytes) (args : List Tree)
        → (fault_number (not_found e pos name args) ≡ 1) ↔ ((n : ℕ) → IsAccess name n → ⊥) }
    ensures qualified { (e : EngineLists) (path : List Bytes) (pos : Position) (name : Bytes) (args : List Tree) → fault_number (not_found_in e path pos name args) ≡ 1 }
{}

/// A call that is begun ends with a fault of its own of the numbers 1 to 4 exactly where nothing
/// refuses it, no ask is found, and the host isn't asked or gives nothing; the fault is that of its
/// name and arguments, and of the path of a qualified call. The node shows no function, and nothing
/// runs.
pub fn a_missing_call_ends_with_its_fault<H: Host, B: Bodies>(natives: &Natives)
    ensures ends { let o = objects_of allows_call allows_resume B.allows_start B.allows_next H.allows_missing natives.now in
        (r : Ran o) (fault : EvalAltResult) → (seen r.node).begun ≡ true → fault_number fault ≤ 4
        → IsOwn (seen r.node).end fault ↔ IsUnfound o r.world.engine r.frame r.level r.call r.before.host r.after.host (seen r.node).end fault }
    ensures shown { let o = objects_of allows_call allows_resume B.allows_start B.allows_next H.allows_missing natives.now in
        (r : Ran o) (fault : EvalAltResult) → (seen r.node).begun ≡ true
        → IsUnfound o r.world.engine r.frame r.level r.call r.before.host r.after.host (seen r.node).end fault
        → seen r.node ≡ begun_node r.call r.level None [] [] (failed (given r.call) fault) }
{}
