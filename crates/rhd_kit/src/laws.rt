//! What is asked, and how often.

ghost use Rattle.std.specs.Prelude.{◌≡◌, ◌<◌, ℕ, ℤ, pos, List, Option, None, Some, slice_get};
ghost use Rattle.rhd_value.specs.Tree.{Bytes, Tree};
ghost use Rattle.rhd_value.specs.declared.tag.Marks.{Marks};
ghost use Rattle.rhd_func.specs.declared.func.ScriptFuncDef.{ScriptFuncDef};
ghost use Rattle.rhd_func.specs.declared.request.NativeCallContext.{NativeCallContext};
ghost use Rattle.rhd_plan.specs.declared.body.BodyPlan.{BodyPlan};
ghost use Rattle.rhd_kit.specs.Asks.{AsksTimes, AsksInOrder, name_and_times};
ghost use Rattle.rhd_kit.specs.Kit.{arguments, call_of, kit_step, kit_next};
ghost use Rattle.rhd_kit.specs.PlanBodies.{body_step, body_next};

/// The native of number 13 asks the call of the name that it is given exactly as often as it is told,
/// as long as no call answers with a fault.
pub fn a_native_asks_as_often_as_it_is_told()
    ensures { (ctx : Option NativeCallContext) (first : Option Tree) (args : List Tree) (name : Bytes) (times : ℕ) (marks others : Marks)
        → arguments first args ≡ name_and_times name marks times others → AsksTimes (kit_next 13 ctx) (call_of ctx name) times (kit_step 13 ctx first args) }
{}

/// A body asks its calls once each, in order, as long as no call answers with a fault, and then ends.
pub fn a_body_asks_its_calls_in_order()
    ensures { (plans : List BodyPlan) (def : ScriptFuncDef) (plan : BodyPlan) (object : Option Tree) (args : List Tree) → slice_get plans def.body.0 ≡ Some plan
        → AsksInOrder (body_next plans def) plan.calls plan.end (record { object = object; latest = None; args = args }) (body_step plans def object args) }
{}
