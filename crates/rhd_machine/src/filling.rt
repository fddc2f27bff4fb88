//! How the machine fills the node of a call.

ghost use Rattle.std.specs.Prelude.{ℕ, ◌≡◌, IfOk, OnOk};
ghost use Rattle.rhd_func.specs.declared.request.CallRequest.{CallRequest};
ghost use Rattle.rhd_func.specs.Shapes.{given};
ghost use Rattle.rhd_call.specs.End.{answered, failed, refusing, with_printed};
ghost use Rattle.rhd_call.specs.Seen.{seen, unbegun_node, done_of};
ghost use Rattle.rhd_machine.specs.Filling.{begun_call, unbegun_as, with_end, picking};

use crate::plan::position_of;
use crate::received::given;
use rhd_call::{BoxedExtras, CallNode, Carries, Nodes, Pick, Whose};
use rhd_func::{CallDone, CallRequest};
use rhd_value::{Dynamic, EvalAltResult, OutOfMemory, Text};
use std::alloc::Global;

/// The node of a call that is begun at a level: 1, or one more than that of the call whose function asks
/// for it. Until the call ends, its node shows what it shows where the budget is spent within it.
pub fn begun(alloc: Global, call: CallRequest, level: u32) -> CallNode
    ensures { seen result ≡ begun_call call level }
{
    let fault = EvalAltResult::ErrorTooManyOperations(position_of(&call));
    CallNode {
        call,
        level,
        begun: true,
        whose: Whose::Call,
        pick: None,
        carries: Carries::new(alloc),
        children: Nodes::new(alloc),
        answer: Err(fault),
        extras: BoxedExtras::none(),
    }
}

/// A call that isn't begun, as the budget is spent.
pub fn unbegun(alloc: Global, call: CallRequest, level: u32) -> Result<CallNode, OutOfMemory>
    ensures { IfOk result (λ node. seen node ≡ unbegun_node call level) }
{
    let mut node = begun(alloc, call, level);
    spend(alloc, &mut node)?;
    Ok(node)
}

/// The call of a node that was just made isn't begun, as the budget is spent.
pub fn spend(alloc: Global, node: &mut CallNode) -> Result<(), OutOfMemory>
    ensures { (call : CallRequest) (level : ℕ) → seen node.old ≡ begun_call call level → OnOk result (seen node.new ≡ unbegun_node call level) }
{
    let first = given(alloc, &node.call)?;
    node.extras = BoxedExtras::of_first(alloc, first)?;
    node.begun = false;
    Ok(())
}

/// Ends a call with an answer or a fault, where no value is refused.
#[inline(always)]
pub fn answer_with(
    alloc: Global,
    node: &mut CallNode,
    whose: Whose,
    first: Option<Dynamic>,
    answer: Result<Dynamic, EvalAltResult>,
) -> Result<(), OutOfMemory>
    ensures { OnOk result (seen node.new ≡ with_end (seen node.old) (answered whose first answer)) }
{
    node.extras = BoxedExtras::of_first(alloc, first)?;
    node.answer = answer;
    node.whose = whose;
    Ok(())
}

/// Ends a call with a fault of its own, which refuses a value.
pub fn refuse(
    alloc: Global,
    node: &mut CallNode,
    first: Option<Dynamic>,
    value: Dynamic,
    fault: EvalAltResult,
) -> Result<(), OutOfMemory>
    ensures { OnOk result (seen node.new ≡ with_end (seen node.old) (refusing first value fault)) }
{
    node.extras = BoxedExtras::refusing(alloc, first, value)?;
    node.answer = Err(fault);
    node.whose = Whose::Call;
    Ok(())
}

/// Shows the text that is printed, if one is.
pub fn print(alloc: Global, node: &mut CallNode, printed: Option<Text>) -> Result<(), OutOfMemory>
    ensures { OnOk result (seen node.new ≡ with_end (seen node.old) (with_printed printed (seen node.old).end)) }
{
    node.extras.print(alloc, printed)
}

/// Shows the function that was picked.
#[inline(always)]
pub fn picks(node: &mut CallNode, pick: Pick)
    ensures { seen node.new ≡ picking (seen node.old) pick }
{
    node.pick = Some(pick);
}

/// Ends a call for which nothing runs with a fault of its own.
pub fn fail(alloc: Global, node: &mut CallNode, fault: EvalAltResult) -> Result<(), OutOfMemory>
    ensures { OnOk result (seen node.new ≡ with_end (seen node.old) (failed (given (seen node.old).call) fault)) }
{
    let first = given(alloc, &node.call)?;
    answer_with(alloc, node, Whose::Call, first, Err(fault))
}

/// What the function that asked for the call is told.
pub fn done(alloc: Global, node: &CallNode) -> Result<CallDone, OutOfMemory>
    ensures { IfOk result (λ done. done ≡ done_of node.now) }
{
    let answer = match &node.answer {
        Ok(value) => Ok(value.dup(alloc)?),
        Err(fault) => Err(fault.dup(alloc)?),
    };
    let first = match node.extras.first_after() {
        Some(value) => Some(value.dup(alloc)?),
        None => None,
    };
    Ok(CallDone { answer, first })
}
