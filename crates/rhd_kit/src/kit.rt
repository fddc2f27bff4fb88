//! The kit: the natives of the program.

ghost use Rattle.std.specs.Prelude.{◌≡◌, ◌<◌};
ghost use Rattle.rhd_kit.specs.Kit.{is_built};

mod given;
mod steps;
mod table;

use crate::kit::given::Given;
use crate::kit::steps::{act, go_on};
use crate::kit::table::kit_row;
use crate::values::own_fault;
use rhd_func::{CallDone, Carry, NativeCallContext, NativeStep, PluginFunc};
use rhd_value::{Dynamic, OutOfMemory, TypeTag, Values};
use std::alloc::Global;

/// A native of the kit, by its number.
#[derive(Drop)]
pub struct KitFn {
    number: u32,
    ghost held: { number < 20 },
}

impl KitFn {
    pub fn new(number: u32) -> KitFn
        requires { number < 20 }
        ensures { result.number ≡ number }
    {
        KitFn { number }
    }

    /// Whether the native is there yet.
    fn is_built(&self) -> bool
        ensures { result ≡ is_built self.now.number }
    {
        self.number != 16
    }
}

impl PluginFunc for KitFn {
    ghost use Rattle.std.specs.Prelude.{◌≡◌};
    ghost use Rattle.rhd_kit.specs.Kit.{kit_info, kit_step, kit_next};

    ghost info = { λ it. kit_info it.number };

    ghost allows_call = { λ it ctx first args step. step ≡ kit_step it.number ctx first args };

    ghost allows_resume = { λ it ctx carry done step. step ≡ kit_next it.number ctx carry done.answer };

    fn call(
        &self,
        alloc: Global,
        ctx: Option<&NativeCallContext>,
        first: Option<Dynamic>,
        args: Values,
    ) -> Result<NativeStep, OutOfMemory> {
        let given = Given { first, args };
        if !self.is_built() {
            return own_fault(alloc, "not built", given.first);
        }
        let types = kit_row(self.number).types;
        if !given.is_count(types.len()) {
            return own_fault(alloc, "wrong number of arguments", given.first);
        }
        if let Some(fault) = given.unfit_fault(alloc, types)? {
            return Ok(NativeStep::Failed {
                fault,
                first: given.first,
            });
        }
        act(self.number, alloc, ctx, given)
    }

    fn resume(
        &self,
        alloc: Global,
        ctx: Option<&NativeCallContext>,
        carry: Carry,
        done: CallDone,
    ) -> Result<NativeStep, OutOfMemory> {
        go_on(self.number, alloc, ctx, carry, done.answer)
    }

    fn param_types(&self) -> &[TypeTag] {
        kit_row(self.number).types
    }

    fn is_method_call(&self) -> bool {
        kit_row(self.number).is_method
    }

    fn has_context(&self) -> bool {
        kit_row(self.number).has_context
    }

    fn is_pure(&self) -> bool {
        kit_row(self.number).is_pure
    }

    fn is_volatile(&self) -> bool {
        kit_row(self.number).is_volatile
    }
}

/// How many natives the kit has.
pub const KIT_LEN: usize = 20;

/// Puts the kit's natives into an empty table, in the order of their numbers. Where memory ran out,
/// goes on with the expression `$give_up`, which is to leave the function. The function that calls it
/// names `Natives` and `PluginFunc`: a box is made where it is put into a table, and no function hands
/// one out.
#[macro_export]
macro_rules! kit {
    ($alloc:expr, $natives:ident, $give_up:expr) => {
        while $natives.len() < $crate::KIT_LEN {
            let number = $natives.len() as u32;
            let Ok(made) = Box::new($alloc, $crate::KitFn::new(number)) else {
                $give_up
            };
            let native: Box<dyn PluginFunc> = made;
            let Ok(_) = $natives.push($alloc, native) else {
                $give_up
            };
        }
    };
}
