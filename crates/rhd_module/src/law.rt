//! Laws of modules.

ghost use Rattle.std.specs.Prelude.{◌≡◌, ◌≢◌, ◌↔◌, Some, None};
ghost use Rattle.rhd_hash.specs.declared.key.Key.{Key};
ghost use Rattle.rhd_decl.specs.declared.declaration.Declaration.{Declaration};
ghost use Rattle.rhd_module.specs.Tree.{ModuleTree};
ghost use Rattle.rhd_module.specs.Shown.{shown, own_decl};
ghost use Rattle.rhd_module.specs.Registered.{with_decl};
ghost use Rattle.rhd_hash.specs.FirstPairs.{NoneWith, IsFirstWith, IsPut};

/// A key finds the first declaration that stands under it, and nothing exactly where none does.
pub fn a_key_finds_its_first_declaration()
    ensures found { (m : ModuleTree) (key : Key) (d : Declaration) → (own_decl m key ≡ Some d) ↔ IsFirstWith key d (shown m.own) }
    ensures missing { (m : ModuleTree) (key : Key) → (own_decl m key ≡ None) ↔ NoneWith key (shown m.own) }
{}

/// A declaration that is put in is found by its key. All others stay as they are, in order.
pub fn a_declaration_leaves_the_others()
    ensures put { (m : ModuleTree) (key : Key) (d : Declaration) → IsPut key d m.own.eager (with_decl key d m).own.eager }
    ensures itself { (m : ModuleTree) (key : Key) (d : Declaration) → own_decl (with_decl key d m) key ≡ Some d }
    ensures others { (m : ModuleTree) (key other : Key) (d : Declaration) → other ≢ key → own_decl (with_decl key d m) other ≡ own_decl m other }
{}
