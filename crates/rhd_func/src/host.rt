//! The host is known by a state and by a relation that leads from state to state.

ghost use Rattle.std.specs.Prelude.{◌≡◌, IfOk, OnErr};

use crate::request::HostAnswer;
use rhd_value::{OutOfMemory, Text, Values};
use std::alloc::Global;

/// What answers the calls that no function answers.
pub trait Host {
    ghost use Rattle.std.specs.Prelude.{List, Bool};
    ghost use Rattle.rhd_value.specs.Tree.{Bytes, Tree};
    ghost use Rattle.rhd_func.specs.declared.request.HostAnswer.{HostAnswer};

    /// In this state, asked for this name with these arguments, of a method or not, it may give this
    /// answer, and is then in that state.
    ghost allows_missing: { Self → Bytes → List Tree → Bool → HostAnswer → Self → Type 0 };

    /// Is asked for a call that no function answers. The arguments begin with the first one by
    /// reference, or with the object, which `is_method` tells.
    fn missing(
        &mut self,
        alloc: Global,
        name: &Text,
        args: &Values,
        is_method: bool,
    ) -> Result<HostAnswer, OutOfMemory>
        ensures answer { IfOk result (λ answer. allows_missing self.old name.now args.now is_method answer self.new) }
        ensures failed { OnErr result (self.new ≡ self.old) };
}
