//! Laws of whose a fault is.

ghost use Rattle.std.specs.Prelude.{◌≡◌, ◌↔◌, Some, None};
ghost use Rattle.rhd_value.specs.Tree.{Tree};
ghost use Rattle.rhd_value.specs.declared.fault.EvalAltResult.{EvalAltResult};
ghost use Rattle.rhd_call.specs.declared.node.CallNode.{CallNode};
ghost use Rattle.rhd_call.specs.declared.node.Whose.TheVariants.{Call, Called};
ghost use Rattle.rhd_call.specs.declared.node.Whose.TheVariants as owners;
ghost use Rattle.rhd_call.specs.Seen.{seen};
ghost use Rattle.rhd_call.specs.Trees.{InTree};
ghost use Rattle.rhd_laws.specs.Causes.{IsOwn};
ghost use Rattle.rhd_laws.specs.OwnFaults.{IsOwnNumber, IsRefusing, FaultOf, FunctionFails, HostFails};
ghost use Rattle.rhd_laws.specs.Unfound.{fault_number};
ghost use Rattle.rhd_machine.specs.Objects.{objects_of};
ghost use Rattle.rhd_laws.specs.Ran.{Ran};
ghost use Rattle.rhd_machine.specs.Trees.{frame_at};

use rhd_func::{Bodies, Host, Natives};

/// A call's own end is a fault. It has one of the numbers 1 to 7 and 9 to 12, and refuses a value
/// exactly where its number is 7 or 11; no other end refuses one. A fault is the function's exactly
/// where its last step failed with it, and the host's exactly where the host was asked and gave it.
/// So a fault of a call itself is told apart from one of its function with the same number.
pub fn a_fault_of_a_call_is_told_apart<H: Host, B: Bodies>(natives: &Natives)
    ensures own { let o = objects_of allows_call allows_resume B.allows_start B.allows_next H.allows_missing natives.now in
        (r : Ran o) (node : CallNode) → InTree node r.node → (seen node).end.whose ≡ Call → (fault : EvalAltResult) × IsOwn (seen node).end fault }
    ensures number { let o = objects_of allows_call allows_resume B.allows_start B.allows_next H.allows_missing natives.now in
        (r : Ran o) (node : CallNode) (fault : EvalAltResult) → InTree node r.node → IsOwn (seen node).end fault → IsOwnNumber (fault_number fault) }
    ensures refused { let o = objects_of allows_call allows_resume B.allows_start B.allows_next H.allows_missing natives.now in
        (r : Ran o) (node : CallNode) (fault : EvalAltResult) → InTree node r.node → IsOwn (seen node).end fault
        → ((value : Tree) × ((seen node).end.refused ≡ Some value)) ↔ IsRefusing (fault_number fault) }
    ensures others { let o = objects_of allows_call allows_resume B.allows_start B.allows_next H.allows_missing natives.now in
        (r : Ran o) (node : CallNode) → InTree node r.node → ((seen node).end.whose ≡ Call → ⊥) → (seen node).end.refused ≡ None }
    ensures function { let o = objects_of allows_call allows_resume B.allows_start B.allows_next H.allows_missing natives.now in
        (r : Ran o) (node : CallNode) (inside : InTree node r.node) (fault : EvalAltResult)
        → FaultOf Called (seen node).end fault ↔ FunctionFails o r.world (frame_at r.world r.frame inside) (seen node) fault }
    ensures host { let o = objects_of allows_call allows_resume B.allows_start B.allows_next H.allows_missing natives.now in
        (r : Ran o) (node : CallNode) (inside : InTree node r.node) (fault : EvalAltResult) → FaultOf owners.Host (seen node).end fault
        ↔ ((from : H) × (to : H) × HostFails o r.world.engine (frame_at r.world r.frame inside) (seen node).level (seen node).call from to (seen node).end fault) }
{}
