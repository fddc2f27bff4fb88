//! Module algebra: calls that join one module with another.

ghost use Rattle.std.specs.Prelude.{◌≡◌, ℕ, Bool, true, OnOk, OnErr};
ghost use Rattle.rhd_value.specs.Tree.{Bytes};
ghost use Rattle.rhd_func.specs.declared.access.FnAccess.{FnAccess as Access};
ghost use Rattle.rhd_func.specs.declared.access.FnNamespace.{FnNamespace as Namespace};
ghost use Rattle.rhd_module.specs.Algebra.{merged_with, merged_all, scripts_that, passes_by, script_passes_by, IsJoined, Combines, Flattens, Fills, Merges, FilterTells, ScriptFilterTells};

use crate::joining::{
    combined, flattened, has_no_sub_modules, join_below, join_over, merge_that, merged,
    only_declares, retained,
};
use rhd_decl::{DeclFault, Declaration};
use rhd_func::{FnAccess, FnNamespace};
use rhd_module::Module;
use rhd_value::{OutOfMemory, Text};
use std::alloc::Global;

/// A module, which can be joined with others.
pub trait ModuleAlgebra {
    ghost use Rattle.rhd_module.specs.Tree.{ModuleTree};

    /// What it is.
    ghost tree: { Self → ModuleTree };

    /// Puts another module over this one: its manifests above, and its functions, sub-modules and variables
    /// in the place of those of equal keys and names. Its documentation is put behind, after a line break
    /// where there is some. The module isn't indexed any more.
    fn combine(&mut self, alloc: Global, other: &Module) -> Result<(), DeclFault>
        ensures { Combines other.now (tree self.old) result (tree self.new) };

    /// Puts what stands in the tree of another module over this one, from the deepest up: first each of its
    /// sub-modules in the same way, in ascending order of name, and then itself. No sub-module is put in.
    /// The module isn't indexed any more.
    fn combine_flatten(&mut self, alloc: Global, other: &Module) -> Result<(), DeclFault>
        ensures { Flattens other.now (tree self.old) result (tree self.new) };

    /// Puts in what is new of another module: its manifests below, its declarations under keys for which
    /// nothing is declared or listed here, and its sub-modules and variables under new names. Its
    /// documentation is put behind, after a line break where there is some. The module isn't indexed any
    /// more.
    fn fill_with(&mut self, alloc: Global, other: &Module) -> Result<(), DeclFault>
        ensures { Fills other.now (tree self.old) result (tree self.new) };

    /// Registers what another module lists, and its declarations over that, in the place of those of equal
    /// keys. Its variables are put in, and each of its sub-modules, merged into a new one, in the place of
    /// those of equal names. Its documentation is put behind, after a line break where there is some. The
    /// module isn't indexed any more.
    fn merge(&mut self, alloc: Global, other: &Module) -> Result<(), DeclFault>
        ensures { Merges (λ d. true) other.now (tree self.old) result (tree self.new) };

    /// Merges as `merge` does the functions alone that a filter passes, in sub-modules too. It tells by the
    /// namespace, the access, whether it is a script, the name, and the number of parameters.
    fn merge_filtered<F: Fn(FnNamespace, FnAccess, bool, &Text, u64) -> bool>(
        &mut self,
        alloc: Global,
        other: &Module,
        filter: F,
    ) -> Result<(), DeclFault>
        requires { F.IsAlwaysCallable filter }
        ensures joins { (tells : Namespace → Access → Bool → Bytes → ℕ → Bool) → FilterTells (F.post filter) tells → Merges (passes_by tells) other.now (tree self.old) result (tree self.new) }
        ensures err { OnErr result (tree self.new ≡ tree self.old) };

    /// Keeps the scripts alone that a filter passes; natives and manifests go. It tells by the namespace,
    /// the access, the name, and the number of parameters. Sub-modules and variables stay. The module isn't
    /// indexed any more.
    fn retain_script_functions<F: Fn(FnNamespace, FnAccess, &Text, u64) -> bool>(
        &mut self,
        alloc: Global,
        filter: F,
    ) -> Result<(), OutOfMemory>
        requires { F.IsAlwaysCallable filter }
        ensures ok { (tells : Namespace → Access → Bytes → ℕ → Bool) → ScriptFilterTells (F.post filter) tells → OnOk result (tree self.new ≡ scripts_that (script_passes_by tells) (tree self.old)) }
        ensures err { OnErr result (tree self.new ≡ tree self.old) };

    /// A copy into which another module is merged.
    fn plus(&self, alloc: Global, other: &Module) -> Result<Module, DeclFault>
        ensures { IsJoined (merged_all (λ d. true) other.now (tree self.now)) (merged_with (λ d. true) other.now (tree self.now)) result };

    /// Puts another module over this one, as `combine` does.
    fn plus_assign(&mut self, alloc: Global, other: &Module) -> Result<(), DeclFault>
        ensures { Combines other.now (tree self.old) result (tree self.new) };
}

impl ModuleAlgebra for Module {
    ghost tree = { λ m. m };

    fn combine(&mut self, alloc: Global, other: &Module) -> Result<(), DeclFault> {
        combined(self, alloc, other)
    }

    fn combine_flatten(&mut self, alloc: Global, other: &Module) -> Result<(), DeclFault> {
        if has_no_sub_modules(other) {
            return combined(self, alloc, other);
        }
        let made = flattened(alloc, self.seeds(), self.doc(), other)?;
        let doc = made.doc().dup(alloc)?;
        join_over(self, alloc, &made, doc)
    }

    fn fill_with(&mut self, alloc: Global, other: &Module) -> Result<(), DeclFault> {
        join_below(self, alloc, other)
    }

    fn merge(&mut self, alloc: Global, other: &Module) -> Result<(), DeclFault> {
        if only_declares(other) {
            return combined(self, alloc, other);
        }
        merge_that(self, alloc, other, &|_declaration: &Declaration| true)
    }

    fn merge_filtered<F: Fn(FnNamespace, FnAccess, bool, &Text, u64) -> bool>(
        &mut self,
        alloc: Global,
        other: &Module,
        filter: F,
    ) -> Result<(), DeclFault> {
        merge_that(
            self,
            alloc,
            other,
            &|declaration: &Declaration| {
                let metadata = declaration.metadata();
                filter(
                    metadata.namespace,
                    metadata.access,
                    declaration.func.is_script(),
                    &metadata.name,
                    metadata.num_params,
                )
            },
        )
    }

    fn retain_script_functions<F: Fn(FnNamespace, FnAccess, &Text, u64) -> bool>(
        &mut self,
        alloc: Global,
        filter: F,
    ) -> Result<(), OutOfMemory> {
        let kept = retained(
            alloc,
            self,
            &|declaration: &Declaration| {
                let metadata = declaration.metadata();
                declaration.func.is_script()
                    && filter(
                        metadata.namespace,
                        metadata.access,
                        &metadata.name,
                        metadata.num_params,
                    )
            },
        );
        match kept {
            Ok(kept) => {
                self.take_fns(kept);
                Ok(())
            }
            Err(_fault) => Err(OutOfMemory),
        }
    }

    fn plus(&self, alloc: Global, other: &Module) -> Result<Module, DeclFault> {
        merged(alloc, self, other, &|_declaration: &Declaration| true)
    }

    fn plus_assign(&mut self, alloc: Global, other: &Module) -> Result<(), DeclFault> {
        combined(self, alloc, other)
    }
}
