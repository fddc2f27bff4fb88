//! What a test can't do without: it stops where something is missing.
//!
//! A value of several parts or forms, as a module, a key or a fault, is handed to `drop` or `must`: one that
//! ends with its block is taken apart in the proof of the function that has it.

ghost use Rattle.std.specs.Prelude.{◌≡◌, true, None, Ok};
ghost use Rattle.rhd_module.specs.Tree.{empty_module};

use crate::given::{SEEDS, int, script, text};
use rhd_decl::DeclFault;
use rhd_func::SharedDef;
use rhd_hash::Seeds;
use rhd_layers::SharedModule;
use rhd_module::{FuncRegistration, Module};
use std::alloc::Global;
use std::process::Abort;

/// Stops the test where something doesn't hold.
pub fn holds(rt: &impl Abort, fact: bool, what: &str)
    ensures { fact ≡ true }
{
    assert!(rt; fact, "{what}");
}

/// What a call made. Stops the test where it made nothing.
pub fn must<T, E: Drop>(rt: &impl Abort, made: Result<T, E>, what: &str) -> T
    ensures { made ≡ Ok result }
{
    match made {
        Ok(made) => made,
        Err(_) => panic!(rt; "{what}"),
    }
}

/// Whether two keys clash, so that a call did nothing.
pub fn clashes<T: Drop>(done: Result<T, DeclFault>) -> bool {
    let clash = matches!(&done, Err(DeclFault::HashCollision { .. }));
    drop(done);
    clash
}

/// A script with several owners.
pub fn shared_script(rt: &impl Abort, alloc: Global, word: &str) -> SharedDef {
    must(rt, SharedDef::new(alloc, script(alloc, word)), "a script")
}

/// A module in which nothing is.
pub fn empty(rt: &impl Abort, alloc: Global, seeds: Seeds) -> Module
    ensures { result ≡ empty_module seeds }
{
    must(rt, Module::new(alloc, seeds), "a module")
}

/// The same with several owners.
pub fn shared(rt: &impl Abort, alloc: Global, seeds: Seeds) -> SharedModule
    ensures { result ≡ empty_module seeds }
{
    let module = empty(rt, alloc, seeds);
    must(rt, SharedModule::new(alloc, module), "a shared module")
}

/// A module whose variable `x` is this number.
pub fn with_x(rt: &impl Abort, alloc: Global, number: i64) -> Module {
    let mut module = empty(rt, alloc, SEEDS);
    let set = module.set_var(alloc, text(alloc, "x"), int(number));
    must(rt, set, "a variable");
    module
}

/// A registration under a name for all calls.
pub fn for_all(rt: &impl Abort, alloc: Global, name: &str) -> FuncRegistration
    ensures purity { result.purity ≡ None }
    ensures volatility { result.volatility ≡ None }
{
    let made = FuncRegistration::new(alloc, text(alloc, name));
    must(rt, made, "a registration").in_global_namespace()
}
