//! The bodies of scripts are known by a state and by relations that lead from state to state.

ghost use Rattle.std.specs.Prelude.{◌≡◌, IfOk, OnErr};
ghost use Rattle.rhd_func.specs.GivenBack.{GivesBack};

use crate::func::ScriptFuncDef;
use crate::request::{CallDone, Carry, NativeCallContext, NativeStep};
use rhd_value::{Dynamic, OutOfMemory, Values};
use std::alloc::Global;

/// What runs the bodies of scripts.
pub trait Bodies {
    ghost use Rattle.std.specs.Prelude.{List, Option};
    ghost use Rattle.rhd_value.specs.Tree.{Tree};
    ghost use Rattle.rhd_func.specs.declared.func.ScriptFuncDef.{ScriptFuncDef};
    ghost use Rattle.rhd_func.specs.declared.request.NativeStep.{NativeStep};
    ghost use Rattle.rhd_func.specs.declared.request.Carry.{Carry};
    ghost use Rattle.rhd_func.specs.declared.request.CallDone.{CallDone};
    ghost use Rattle.rhd_func.specs.declared.request.NativeCallContext.{NativeCallContext};

    /// In this state, with this definition, context, object and further arguments, it may take this
    /// first step, and is then in that state.
    ghost allows_start: { Self → ScriptFuncDef → NativeCallContext → Option Tree → List Tree → NativeStep → Self → Type 0 };

    /// In this state, after the answer to the call that it asked for, it may take this next step, and
    /// is then in that state.
    ghost allows_next: { Self → ScriptFuncDef → NativeCallContext → Carry → CallDone → NativeStep → Self → Type 0 };

    /// Begins the body of a definition. An object is given back exactly where one was given, in the
    /// carry of a step that asks. Where memory runs out, the state is as before.
    fn start(
        &mut self,
        alloc: Global,
        def: &ScriptFuncDef,
        ctx: &NativeCallContext,
        this: Option<Dynamic>,
        args: Values,
    ) -> Result<NativeStep, OutOfMemory>
        ensures step { IfOk result (λ step. allows_start self.old def.now ctx.now this args step self.new) }
        ensures back { IfOk result (GivesBack this) }
        ensures failed { OnErr result (self.new ≡ self.old) };

    /// Goes on with the body of a definition after the answer to the call that it asked for. An object
    /// is given back exactly where the carry has one. Where memory runs out, the state is as before.
    fn resume(
        &mut self,
        alloc: Global,
        def: &ScriptFuncDef,
        ctx: &NativeCallContext,
        carry: Carry,
        done: CallDone,
    ) -> Result<NativeStep, OutOfMemory>
        ensures step { IfOk result (λ step. allows_next self.old def.now ctx.now carry done step self.new) }
        ensures back { IfOk result (GivesBack carry.first) }
        ensures failed { OnErr result (self.new ≡ self.old) };
}
