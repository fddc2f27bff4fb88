//! Laws of module algebra, and of what is registered.

ghost use Rattle.std.specs.Prelude.{◌≡◌, List, [], true};
ghost use Rattle.std.specs.Option.{option_or};
ghost use Rattle.std.specs.Cmp.Lexicographic.{slice_cmp};
ghost use Rattle.std.specs.List.Sorted.{IsStrictlySortedBy};
ghost use Rattle.std.specs.Map.{keys_of};
ghost use Rattle.std.specs.Ordering.{nat_cmp};
ghost use Rattle.rhd_hash.specs.declared.key.Key.{Key};
ghost use Rattle.rhd_module.specs.Tree.{ModuleTree, names_of};
ghost use Rattle.rhd_module.specs.Shown.{own_decl};
ghost use Rattle.rhd_value.specs.Tree.{Bytes};
ghost use Rattle.rhd_module.specs.Lazy.{registered_tree};
ghost use Rattle.rhd_module.specs.OwnKeys.{DeclaresOwn, HasOwnKeys, own_at};
ghost use Rattle.rhd_module.specs.Algebra.{combined_with, filled_with, merged_with};
ghost use Rattle.rhd_module.specs.Walk.{qualified};

/// Registering what is listed in a tree changes nothing that is found: in each module of the tree each key
/// finds what it found, and so does each key of a qualified call.
pub fn registering_keeps_what_is_found()
    ensures own { (m : ModuleTree) (path : List Bytes) (key : Key) → HasOwnKeys m → own_at path key (registered_tree m) ≡ own_at path key m }
    ensures qualified { (m : ModuleTree) (key : Key) → HasOwnKeys m → qualified (registered_tree m) key ≡ qualified m key }
{}

/// Once a module is filled with another, each key finds what it found, else what the other has for it.
/// Once another is merged into it, each key finds what the other has, else what it found.
pub fn joining_finds_what_either_has()
    ensures filled { (m other : ModuleTree) (key : Key) → DeclaresOwn other.own → other.own.seeds ≡ m.own.seeds → own_decl (filled_with other m) key ≡ option_or (own_decl m key) (own_decl other key) }
    ensures merged { (m other : ModuleTree) (key : Key) → DeclaresOwn other.own → other.own.seeds ≡ m.own.seeds → own_decl (merged_with (λ d. true) other m) key ≡ option_or (own_decl other key) (own_decl m key) }
{}

/// Where the other module lists nothing, merging and combining leave the same functions and variables.
pub fn merging_combines_what_is_declared()
    ensures functions { (m other : ModuleTree) → other.own.listed ≡ [] → (merged_with (λ d. true) other m).own.eager ≡ (combined_with other m).own.eager }
    ensures variables { (m other : ModuleTree) → (merged_with (λ d. true) other m).own.vars ≡ (combined_with other m).own.vars }
{}

/// It doesn't matter which of two joins is made first: combining is associative on functions, variables,
/// sub-modules, manifests and what these list, where the functions of the second module have keys of their
/// own, and its variables and sub-modules stand in ascending order of name, as they do in each module.
pub fn combining_is_associative()
    ensures functions { (a b c : ModuleTree) → DeclaresOwn b.own → (combined_with c (combined_with b a)).own.eager ≡ (combined_with (combined_with c b) a).own.eager }
    ensures variables { (a b c : ModuleTree) → IsStrictlySortedBy (slice_cmp nat_cmp) (keys_of b.own.vars) → (combined_with c (combined_with b a)).own.vars ≡ (combined_with (combined_with c b) a).own.vars }
    ensures sub_modules { (a b c : ModuleTree) → IsStrictlySortedBy (slice_cmp nat_cmp) (names_of b.subs) → (combined_with c (combined_with b a)).subs ≡ (combined_with (combined_with c b) a).subs }
    ensures manifests { (a b c : ModuleTree) → (combined_with c (combined_with b a)).own.manifests ≡ (combined_with (combined_with c b) a).own.manifests }
    ensures listed { (a b c : ModuleTree) → (combined_with c (combined_with b a)).own.listed ≡ (combined_with (combined_with c b) a).own.listed }
{}
