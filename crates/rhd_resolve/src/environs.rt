//! Environments: what the functions of a loaded script run in.

ghost use Rattle.std.specs.Prelude.{◌≡◌, ◌≤◌, ◌^◌, ◌-◌, ◌++◌, ◌∷◌, [], List, length, slice_get, if◌then◌else◌, is_ok, IfOk, IfSome, IfNone};
ghost use Rattle.std.specs.Option.{option_copied};
ghost use Rattle.rhd_resolve.specs.declared.environs.EncapsulatedEnviron.{EncapsulatedEnviron};
ghost use Rattle.rhd_resolve.specs.Environs.{next_env, with_env};

use rhd_engine::ImportList;
use rhd_func::EnvId;
use rhd_hash::Seeds;
use rhd_layers::SharedModule;
use rhd_value::OutOfMemory;
use std::alloc::Global;
use std::marker::Model;

/// What a function of a loaded script runs in: a library of all functions of the script, private ones too,
/// and its imports.
#[derive(Drop)]
pub struct EncapsulatedEnviron {
    pub lib: SharedModule,
    pub imports: ImportList,
}

/// The environments of a session by number, with the seeds of its modules and the numbers of its natives
/// and iterators. None is ever taken out. Contracts see its lists.
#[derive(Drop)]
pub struct Environs {
    seeds: Seeds,
    natives: u64,
    iterators: u64,
    items: Vec<EncapsulatedEnviron>,
}

impl Model for Environs {
    ghost use Rattle.rhd_resolve.specs.Codes.{envs_code};
    ghost use Rattle.rhd_resolve.specs.Environs.{Envs};

    ghost Value = { Envs };

    ghost coded = { envs_code };

    ghost view = { λ e. record { seeds = e.seeds; natives = e.natives; iterators = e.iterators; items = e.items.items } };
}

impl Environs {
    /// No environments, for modules of these seeds and for so many natives and iterators.
    pub fn new(
        alloc: Global,
        seeds: Seeds,
        natives: u64,
        iterators: u64,
    ) -> Result<Environs, OutOfMemory>
        ensures { IfOk result (λ envs. envs ≡ record { seeds = seeds; natives = natives; iterators = iterators; items = [] }) }
    {
        Ok(Environs {
            seeds,
            natives,
            iterators,
            items: Vec::new(alloc),
        })
    }

    /// The seeds of the session's modules.
    pub fn seeds(&self) -> Seeds
        ensures { result ≡ self.now.seeds }
    {
        self.seeds
    }

    /// The number of the session's natives.
    pub fn natives(&self) -> u64
        ensures { result ≡ self.now.natives }
    {
        self.natives
    }

    /// The number of the session's iterators.
    pub fn iterators(&self) -> u64
        ensures { result ≡ self.now.iterators }
    {
        self.iterators
    }

    /// The number of environments.
    pub fn len(&self) -> usize
        ensures { result ≡ length self.now.items }
    {
        self.items.len()
    }

    /// The environment of a number; none where there are no more than so many.
    pub fn get(&self, id: EnvId) -> Option<&EncapsulatedEnviron>
        ensures { option_copied result ≡ slice_get self.now.items id.0 }
    {
        self.items.get(id.0 as usize)
    }

    /// The number that the next environment gets; none where there are as many as there may be.
    pub(crate) fn next_id(&self) -> Option<EnvId>
        ensures some { IfSome result (λ id. id ≡ next_env self.now) }
        ensures none { IfNone result (2 ^ 32 - 1 ≤ length self.now.items) }
    {
        if self.items.len() >= u32::MAX as usize {
            return None;
        }
        Some(EnvId(self.items.len() as u32))
    }

    /// Takes the environment off again that was put last, where what came after it failed.
    pub(crate) fn undo_push(&mut self)
        ensures { (items : List EncapsulatedEnviron) (env : EncapsulatedEnviron) → self.old.items ≡ items ++ env ∷ [] → self.new ≡ record self.old { items = items } }
    {
        self.items.pop();
    }

    /// Puts an environment last.
    pub(crate) fn push(&mut self, env: EncapsulatedEnviron) -> Result<(), OutOfMemory>
        ensures { self.new ≡ (if is_ok result then with_env env self.old else self.old) }
    {
        self.items.push(env)?;
        Ok(())
    }
}
