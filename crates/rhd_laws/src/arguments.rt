//! Laws of the arguments of a call.

ghost use Rattle.std.specs.Prelude.{◌≡◌, ◌↔◌, ℕ, List, slice_get, Some, None};
ghost use Rattle.rhd_value.specs.Tree.{Tree, copied};
ghost use Rattle.rhd_func.specs.declared.request.CallRequest.{CallRequest};
ghost use Rattle.rhd_func.specs.declared.request.CallShape.TheVariants.{Plain};
ghost use Rattle.rhd_func.specs.Shapes.{all_args};
ghost use Rattle.rhd_call.specs.declared.node.CallNode.{CallNode};
ghost use Rattle.rhd_call.specs.declared.pick.Pick.{Pick};
ghost use Rattle.rhd_call.specs.Seen.{seen};
ghost use Rattle.rhd_call.specs.Trees.{InTree};
ghost use Rattle.rhd_engine.specs.Engine.{EngineLists};
ghost use Rattle.rhd_laws.specs.Arguments.{HasFirstGiven, IsCut, GetsCopy, HasItself, IsWritable};
ghost use Rattle.rhd_laws.specs.Matches.{all_received};
ghost use Rattle.rhd_machine.specs.Objects.{objects_of};
ghost use Rattle.rhd_laws.specs.Ran.{Ran};
ghost use Rattle.rhd_machine.specs.Plans.{plan_of};
ghost use Rattle.rhd_machine.specs.Runs.{received_by};

use rhd_func::{Bodies, Host, Natives};

/// A function receives the arguments of its call in order. A native that takes all by value, and a
/// script by reference, gets a copy of the first argument by reference or of the object, at its place,
/// in which nothing is read-only; all else it receives as given. A native method has its first
/// argument itself, and a script the object of a method. In a qualified call an object counts as a
/// first argument by reference.
pub fn a_function_receives_its_arguments()
    ensures copy { (e : EngineLists) (call : CallRequest) (pick : Pick) (value : Tree) → GetsCopy e.natives pick.func (plan_of call).shape
        → slice_get (all_args (plan_of call).shape) 0 ≡ Some value → slice_get (all_received (received_by e (plan_of call) pick)) 0 ≡ Some (copied value) }
    ensures writable { (value : Tree) → IsWritable (copied value) }
    ensures given { (e : EngineLists) (call : CallRequest) (pick : Pick) (n : ℕ) → ((n ≡ 0) × GetsCopy e.natives pick.func (plan_of call).shape → ⊥)
        → slice_get (all_received (received_by e (plan_of call) pick)) n ≡ slice_get (all_args (plan_of call).shape) n }
    ensures itself { (e : EngineLists) (call : CallRequest) (pick : Pick) (value : Tree)
        → ((received_by e (plan_of call) pick).first ≡ Some value) ↔ HasItself e.natives pick.func (plan_of call).shape value }
{}

/// A call of a tree has a first argument after it exactly where it is by reference or of a method,
/// unless the budget was spent within it: then it has none. A plain call never has one.
pub fn a_call_has_a_first_argument_after_it<H: Host, B: Bodies>(natives: &Natives)
    ensures exactly { let o = objects_of allows_call allows_resume B.allows_start B.allows_next H.allows_missing natives.now in
        (r : Ran o) (node : CallNode) → InTree node r.node → (IsCut (seen node) → ⊥)
        → ((value : Tree) × ((seen node).end.first_after ≡ Some value)) ↔ HasFirstGiven (plan_of (seen node).call).shape }
    ensures cut { let o = objects_of allows_call allows_resume B.allows_start B.allows_next H.allows_missing natives.now in
        (r : Ran o) (node : CallNode) → InTree node r.node → IsCut (seen node) → (seen node).end.first_after ≡ None }
    ensures plain { let o = objects_of allows_call allows_resume B.allows_start B.allows_next H.allows_missing natives.now in
        (r : Ran o) (node : CallNode) (args : List Tree) → InTree node r.node → (plan_of (seen node).call).shape ≡ Plain args → (seen node).end.first_after ≡ None }
{}
