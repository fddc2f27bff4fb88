//! The table of natives.

ghost use Rattle.std.specs.Prelude.{◌≡◌, ◌<◌, ◌+◌, ◌^◌, ◌++◌, ◌∷◌, [], IfOk, IfErr, OnOk, length, slice_get, Some};
ghost use Rattle.std.specs.Option.{option_copied};
ghost use Rattle.rhd_func.specs.Infos.{infos_in};
ghost use Rattle.rhd_func.specs.Natives.{StartAllowed, ResumeAllowed, says};
ghost use Rattle.rhd_func.specs.GivenBack.{GivesBack};

use crate::native::PluginFunc;
use crate::request::{CallDone, Carry, NativeCallContext, NativeStep};
use rhd_value::{Dynamic, FnId, OutOfMemory, Values};
use std::alloc::Global;

/// Natives by number, counted from 0.
#[derive(Drop)]
pub struct Natives {
    pub items: Vec<Box<dyn PluginFunc>>,
}

/// The first step of one native.
fn call_box(
    native: &Box<dyn PluginFunc>,
    alloc: Global,
    ctx: Option<&NativeCallContext>,
    first: Option<Dynamic>,
    args: Values,
) -> Result<NativeStep, OutOfMemory>
    ensures step { IfOk result (λ step. allows_call native.now (option_copied ctx.entry) first args step) }
    ensures back { IfOk result (GivesBack first) }
{
    native.call(alloc, ctx, first, args)
}

/// The next step of one native.
fn resume_box(
    native: &Box<dyn PluginFunc>,
    alloc: Global,
    ctx: Option<&NativeCallContext>,
    carry: Carry,
    done: CallDone,
) -> Result<NativeStep, OutOfMemory>
    ensures step { IfOk result (λ step. allows_resume native.now (option_copied ctx.entry) carry done step) }
    ensures back { IfOk result (GivesBack carry.first) }
{
    native.resume(alloc, ctx, carry, done)
}

/// Whether one native may be called on a constant.
fn pure_of(native: &Box<dyn PluginFunc>) -> bool
    ensures { result ≡ (info native.now).is_pure }
{
    native.is_pure()
}

/// Whether one native takes its first argument by reference.
fn method_of(native: &Box<dyn PluginFunc>) -> bool
    ensures { result ≡ (info native.now).is_method }
{
    native.is_method_call()
}

/// Whether one native is handed the context of the call.
fn context_of(native: &Box<dyn PluginFunc>) -> bool
    ensures { result ≡ (info native.now).has_context }
{
    native.has_context()
}

/// Whether one native may answer otherwise the next time.
fn volatile_of(native: &Box<dyn PluginFunc>) -> bool
    ensures { result ≡ (info native.now).is_volatile }
{
    native.is_volatile()
}

impl Natives {
    pub fn new(alloc: Global) -> Natives
        ensures { result.items.items ≡ [] }
    {
        Natives {
            items: Vec::new(alloc),
        }
    }

    /// Puts a native last, and answers its number. Where memory ran out, hands the native back.
    pub fn push(
        &mut self,
        _alloc: Global,
        f: Box<dyn PluginFunc>,
    ) -> Result<FnId, (OutOfMemory, Box<dyn PluginFunc>)>
        requires { length self.old.items.items + 1 < 2 ^ 32 }
        ensures number { IfOk result (λ id. id.0 ≡ length self.old.items.items) }
        ensures ok { OnOk result (self.new.items.items ≡ self.old.items.items ++ f ∷ []) }
        ensures err { IfErr result (λ e. (self.new.items.items ≡ self.old.items.items) × (e.1 ≡ f)) }
    {
        let id = FnId(self.items.len() as u32);
        match self.items.push(f) {
            Ok(()) => Ok(id),
            Err(failed) => Err((OutOfMemory, failed.value)),
        }
    }

    /// The native of a number; none where it isn't held.
    pub fn get(&self, id: FnId) -> Option<&Box<dyn PluginFunc>>
        ensures { option_copied result ≡ slice_get self.now.items.items id.0 }
    {
        self.items.get(id.0 as usize)
    }

    /// How many natives are held.
    pub fn len(&self) -> usize
        ensures { result ≡ length self.now.items.items }
    {
        self.items.len()
    }

    /// Whether the native of a number may be called on a constant; false where it isn't held.
    pub fn is_pure(&self, id: FnId) -> bool
        ensures { result ≡ says (λ n. n.is_pure) (infos_in info self.now.items.items) id }
    {
        match self.get(id) {
            Some(native) => pure_of(native),
            None => false,
        }
    }

    /// Whether the native of a number takes its first argument by reference; false where it isn't held.
    pub fn is_method(&self, id: FnId) -> bool
        ensures { result ≡ says (λ n. n.is_method) (infos_in info self.now.items.items) id }
    {
        match self.get(id) {
            Some(native) => method_of(native),
            None => false,
        }
    }

    /// Whether the native of a number is handed the context of the call; false where it isn't held.
    pub fn has_context(&self, id: FnId) -> bool
        ensures { result ≡ says (λ n. n.has_context) (infos_in info self.now.items.items) id }
    {
        match self.get(id) {
            Some(native) => context_of(native),
            None => false,
        }
    }

    /// Whether the native of a number may answer otherwise the next time; false where it isn't held.
    pub fn is_volatile(&self, id: FnId) -> bool
        ensures { result ≡ says (λ n. n.is_volatile) (infos_in info self.now.items.items) id }
    {
        match self.get(id) {
            Some(native) => volatile_of(native),
            None => false,
        }
    }

    /// Calls the native of a number. A first argument is given back exactly where one was given.
    pub fn start(
        &self,
        alloc: Global,
        id: FnId,
        ctx: Option<&NativeCallContext>,
        first: Option<Dynamic>,
        args: Values,
    ) -> Result<NativeStep, OutOfMemory>
        requires { id.0 < length self.now.items.items }
        ensures step { IfOk result (StartAllowed allows_call self.now.items.items id (option_copied ctx.entry) first args) }
        ensures back { IfOk result (GivesBack first) }
    {
        call_box(&self.items[id.0 as usize], alloc, ctx, first, args)
    }

    /// Goes on with the native of a number. A first argument is given back exactly where the carry has
    /// one.
    pub fn resume(
        &self,
        alloc: Global,
        id: FnId,
        ctx: Option<&NativeCallContext>,
        carry: Carry,
        done: CallDone,
    ) -> Result<NativeStep, OutOfMemory>
        requires { id.0 < length self.now.items.items }
        ensures step { IfOk result (ResumeAllowed allows_resume self.now.items.items id (option_copied ctx.entry) carry done) }
        ensures back { IfOk result (GivesBack carry.first) }
    {
        resume_box(&self.items[id.0 as usize], alloc, ctx, carry, done)
    }
}
