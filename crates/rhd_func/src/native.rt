//! Natives are known by what they say of themselves and by the relations of their trait.

ghost use Rattle.std.specs.Prelude.{IfOk, ◌≡◌};
ghost use Rattle.std.specs.Option.{option_copied};
ghost use Rattle.rhd_func.specs.GivenBack.{GivesBack};

use crate::request::{CallDone, Carry, NativeCallContext, NativeStep};
use rhd_value::{Dynamic, OutOfMemory, TypeTag, Values};
use std::alloc::Global;

/// A function of the host program.
pub trait PluginFunc: Drop {
    ghost use Rattle.std.specs.Prelude.{List, Option};
    ghost use Rattle.rhd_value.specs.Tree.{Tree};
    ghost use Rattle.rhd_func.specs.Natives.{NativeInfo};
    ghost use Rattle.rhd_func.specs.declared.request.NativeStep.{NativeStep};
    ghost use Rattle.rhd_func.specs.declared.request.Carry.{Carry};
    ghost use Rattle.rhd_func.specs.declared.request.CallDone.{CallDone};
    ghost use Rattle.rhd_func.specs.declared.request.NativeCallContext.{NativeCallContext};

    /// What it says of itself.
    ghost info: { Self → NativeInfo };

    /// With this context, first argument by reference and further arguments it may take this first step.
    ghost allows_call: { Self → Option NativeCallContext → Option Tree → List Tree → NativeStep → Type 0 };

    /// After the answer to the call that it asked for it may take this next step.
    ghost allows_resume: { Self → Option NativeCallContext → Carry → CallDone → NativeStep → Type 0 };

    /// Answers every list of arguments: outside its kinds it fails by a fault of its own. A first
    /// argument is given back exactly where one was given, in the carry of a step that asks.
    fn call(
        &self,
        alloc: Global,
        ctx: Option<&NativeCallContext>,
        first: Option<Dynamic>,
        args: Values,
    ) -> Result<NativeStep, OutOfMemory>
        ensures step { IfOk result (λ step. allows_call self.now (option_copied ctx.entry) first args step) }
        ensures back { IfOk result (GivesBack first) };

    /// Goes on after the answer to the call that it asked for. A first argument is given back exactly
    /// where the carry has one.
    fn resume(
        &self,
        alloc: Global,
        ctx: Option<&NativeCallContext>,
        carry: Carry,
        done: CallDone,
    ) -> Result<NativeStep, OutOfMemory>
        ensures step { IfOk result (λ step. allows_resume self.now (option_copied ctx.entry) carry done step) }
        ensures back { IfOk result (GivesBack carry.first) };

    /// The types of its parameters.
    fn param_types(&self) -> &[TypeTag]
        ensures { result.now ≡ (info self.now).types };

    /// Whether it takes its first argument by reference.
    fn is_method_call(&self) -> bool
        ensures { result ≡ (info self.now).is_method };

    /// Whether it is handed the context of the call.
    fn has_context(&self) -> bool
        ensures { result ≡ (info self.now).has_context };

    /// Whether it may be called on a constant.
    fn is_pure(&self) -> bool
        ensures { result ≡ (info self.now).is_pure };

    /// Whether it may answer otherwise the next time.
    fn is_volatile(&self) -> bool
        ensures { result ≡ (info self.now).is_volatile };
}
