//! Laws of what answers a call.

ghost use Rattle.std.specs.Prelude.{◌≡◌, ◌↔◌, ◌≤◌, ◌<◌, ◌+◌, ◌-◌, ◌^◌, ℕ, true, List, length, map, min, slice_get, Some, None};
ghost use Rattle.std.specs.List.{Contains};
ghost use Rattle.rhd_value.specs.declared.tag.TypeTag.{TypeTag};
ghost use Rattle.rhd_func.specs.declared.request.CallRequest.{CallRequest};
ghost use Rattle.rhd_value.specs.Kinds.{tag_of};
ghost use Rattle.rhd_value.specs.Tree.{Bytes, Tree};
ghost use Rattle.rhd_hash.specs.declared.key.Key.{Key};
ghost use Rattle.rhd_hash.specs.declared.key.Key.TheVariants.{Native};
ghost use Rattle.rhd_module.specs.Shown.{shown};
ghost use Rattle.rhd_module.specs.Tree.{ModuleTree};
ghost use Rattle.rhd_module.specs.Walk.{tree};
ghost use Rattle.rhd_call.specs.declared.pick.Layer.TheVariants.{Library, Global, Import, Static};
ghost use Rattle.rhd_call.specs.declared.pick.Pick.{Pick};
ghost use Rattle.rhd_engine.specs.Engine.{EngineLists, Frame};
ghost use Rattle.rhd_dispatch.specs.Patterns.{patterns};
ghost use Rattle.rhd_dispatch.specs.Searched.{Place, searched, found};
ghost use Rattle.rhd_dispatch.specs.Picks.{root_of};
ghost use Rattle.rhd_laws.specs.Roots.{IsRoot};
ghost use Rattle.rhd_laws.specs.Qualified.{IsAnsweredIn, NoneAnswersIn};
ghost use Rattle.rhd_laws.specs.FirstAsks.{IsAnsweredFirst, IsUnanswered};
ghost use Rattle.rhd_machine.specs.Plans.{is_unqualified, in_module, plan_of};
ghost use Rattle.rhd_machine.specs.Decisions.{decision, refusal};
ghost use Rattle.rhd_laws.specs.Owners.{shown_pick};
ghost use Rattle.rhd_machine.specs.Runs.{received_by};
ghost use Rattle.rhd_value.specs.declared.fault.EvalAltResult.{EvalAltResult};
ghost use Rattle.rhd_call.specs.declared.node.CallNode.{CallNode};
ghost use Rattle.rhd_call.specs.declared.node.Whose.TheVariants as owners;
ghost use Rattle.rhd_machine.specs.Objects.{objects_of};
ghost use Rattle.rhd_laws.specs.Ran.{Ran};
ghost use Rattle.rhd_call.specs.Seen.{seen};
ghost use Rattle.rhd_call.specs.Trees.{InTree};
ghost use Rattle.rhd_machine.specs.Trees.{frame_at};
ghost use Rattle.rhd_laws.specs.Unfound.{fault_number};
ghost use Rattle.rhd_laws.specs.Causes.{IsOwn};
ghost use Rattle.rhd_laws.specs.Matches.{TypesMatch, IsMoreExact, IsInFirstPlace, NoneDeclares, NoneMatches, IsFirstMatch, HasBuiltin, IsAnsweredBy, all_received};

use rhd_func::{Bodies, Host, Natives};

/// The patterns of some kinds are exactly the types that match them place by place. Of two patterns
/// of the kinds of some arguments, one goes before the other exactly where it is the more exact. Each
/// of the first sixteen kinds makes twice as many.
pub fn the_patterns_of_kinds_match_them()
    ensures matching { (kinds types : List TypeTag) → Contains (patterns kinds) types ↔ TypesMatch types kinds }
    ensures order { (args : List Tree) (types others : List TypeTag) (i j : ℕ) → slice_get (patterns (map tag_of args)) i ≡ Some types
        → slice_get (patterns (map tag_of args)) j ≡ Some others → (i < j) ↔ IsMoreExact (map tag_of args) types others }
    ensures count { (kinds : List TypeTag) → length (patterns kinds) ≡ 2 ^ min 16 (length kinds) }
{}

/// An unqualified call looks in the libraries of its frame, latest first, in the global modules in
/// order, in the imports of its frame, latest first, and in the static modules in order. Of m
/// libraries, g global modules and i imports, the library of number n is the place of number
/// m - 1 - n, the global module of number n that of number m + n, the import of number n that of
/// number m + g + (i - 1 - n), and the static module of number n that of number m + g + i + n. The
/// place of a library or global module has what its module shows, which is its declarations and then
/// what its manifests list under other keys, and that of an import or static module what its whole
/// tree shows. The id of the module is the source.
pub fn the_places_of_a_frame()
    ensures libraries { (e : EngineLists) (f : Frame) (n : ℕ) (m : ModuleTree) → slice_get f.lib n ≡ Some m
        → slice_get (searched e f.lib f.imports) (length f.lib - 1 - n) ≡ Some (record { layer = Library n; source = m.own.id; pairs = shown m.own }) }
    ensures global_modules { (e : EngineLists) (f : Frame) (n : ℕ) (m : ModuleTree) → slice_get e.globals n ≡ Some m
        → slice_get (searched e f.lib f.imports) (length f.lib + n) ≡ Some (record { layer = Global n; source = m.own.id; pairs = shown m.own }) }
    ensures imports { (e : EngineLists) (f : Frame) (n : ℕ) (named : Bytes × ModuleTree) → slice_get f.imports n ≡ Some named
        → slice_get (searched e f.lib f.imports) (length f.lib + length e.globals + (length f.imports - 1 - n)) ≡ Some (record { layer = Import n; source = named.1.own.id; pairs = tree named.1 }) }
    ensures statics { (e : EngineLists) (f : Frame) (n : ℕ) (named : Bytes × ModuleTree) → slice_get e.statics n ≡ Some named
        → slice_get (searched e f.lib f.imports) (length f.lib + length e.globals + length f.imports + n) ≡ Some (record { layer = Static n; source = named.1.own.id; pairs = tree named.1 }) }
    ensures count { (e : EngineLists) (f : Frame) → length (searched e f.lib f.imports) ≡ length f.lib + length e.globals + length f.imports + length e.statics }
{}

/// A key is found in the first place of a frame that has a declaration under it, and isn't found
/// exactly where none has. What is found shows the first such declaration of that place.
pub fn a_key_is_found_in_the_first_module()
    ensures found { (e : EngineLists) (f : Frame) (key : Key) (pick : Pick) → (found e f.lib f.imports key ≡ Some pick) ↔ IsInFirstPlace e f key pick }
    ensures missing { (e : EngineLists) (f : Frame) (key : Key) → (found e f.lib f.imports key ≡ None) ↔ NoneDeclares e f key }
{}

/// A function answers an unqualified call exactly where it is of the first declaration that matches
/// the call, or where none matches and the table has this built-in for the call's token and its two
/// arguments. Such a call isn't found exactly where no declaration matches it and the table has no
/// built-in for it. A native that is declared under a call's name receives arguments whose kinds
/// match its types.
pub fn a_pick_matches_its_call()
    ensures answered { (e : EngineLists) (f : Frame) (call : CallRequest) (pick : Pick) → is_unqualified (plan_of call).search ≡ true
        → IsAnsweredFirst e f call pick ↔ IsAnsweredBy e f call pick }
    ensures unanswered { (e : EngineLists) (f : Frame) (call : CallRequest) → is_unqualified (plan_of call).search ≡ true
        → IsUnanswered e f call ↔ (NoneMatches e f call × ((pick : Pick) → HasBuiltin e call pick → ⊥)) }
    ensures shown { (e : EngineLists) (f : Frame) (level : ℕ) (call : CallRequest) (pick : Pick) → is_unqualified (plan_of call).search ≡ true
        → (shown_pick (decision e f level call) ≡ Some pick) ↔ ((refusal e f level call ≡ None) × IsAnsweredBy e f call pick) }
    ensures receives { (e : EngineLists) (f : Frame) (call : CallRequest) (name : Bytes) (types : List TypeTag) (pick : Pick)
        → IsFirstMatch e f call (Native None name types) pick → TypesMatch types (map tag_of (all_received (received_by e (plan_of call) pick))) }
{}

/// A qualified call is answered in the one module at which its path begins: the latest import of the
/// path's first name, or, where no import has that name, the first static module of it. Under the
/// path's further names a function of it answers exactly where it is the script that takes as many
/// parameters as there are arguments in all, or, where there is none, the native whose types match
/// the arguments and before which none goes that matches and is more exact. The call isn't found
/// exactly where there is neither. A qualified call that nothing refuses has such a module.
pub fn a_qualified_call_is_answered_in_its_module()
    ensures begins { (e : EngineLists) (f : Frame) (path : List Bytes) (place : Place) → (root_of e f.imports path ≡ Some place) ↔ IsRoot e f path place }
    ensures unrefused { (e : EngineLists) (f : Frame) (level : ℕ) (call : CallRequest) (path : List Bytes) → (plan_of call).search ≡ in_module path
        → refusal e f level call ≡ None → (place : Place) × (root_of e f.imports path ≡ Some place) }
    ensures answered { (e : EngineLists) (f : Frame) (call : CallRequest) (path : List Bytes) (place : Place) (pick : Pick) → (plan_of call).search ≡ in_module path
        → root_of e f.imports path ≡ Some place → IsAnsweredFirst e f call pick ↔ IsAnsweredIn place path call pick }
    ensures unanswered { (e : EngineLists) (f : Frame) (call : CallRequest) (path : List Bytes) (place : Place) → (plan_of call).search ≡ in_module path
        → root_of e f.imports path ≡ Some place → IsUnanswered e f call ↔ NoneAnswersIn place path call }
    ensures shown { (e : EngineLists) (f : Frame) (level : ℕ) (call : CallRequest) (path : List Bytes) (place : Place) (pick : Pick) → (plan_of call).search ≡ in_module path
        → root_of e f.imports path ≡ Some place
        → (shown_pick (decision e f level call) ≡ Some pick) ↔ ((refusal e f level call ≡ None) × IsAnsweredIn place path call pick) }
{}

/// Each unqualified call of a tree that is begun shows a function exactly where nothing refuses it
/// and that is of the first declaration that matches it in its frame, or else the built-in. Where the
/// host answers a call, or an unqualified one isn't found, no declaration matches it and the table has
/// no built-in for it. A qualified one that is begun shows a function exactly where nothing refuses it
/// and that answers it in the module at which its path begins; where it isn't found, that has none.
pub fn each_call_of_a_tree_shows_its_first_match<H: Host, B: Bodies>(natives: &Natives)
    ensures shown { let o = objects_of allows_call allows_resume B.allows_start B.allows_next H.allows_missing natives.now in
        (r : Ran o) (node : CallNode) (inside : InTree node r.node) (pick : Pick) → (seen node).begun ≡ true
        → is_unqualified (plan_of (seen node).call).search ≡ true → ((seen node).pick ≡ Some pick)
        ↔ ((refusal r.world.engine (frame_at r.world r.frame inside) (seen node).level (seen node).call ≡ None)
        × IsAnsweredBy r.world.engine (frame_at r.world r.frame inside) (seen node).call pick) }
    ensures host { let o = objects_of allows_call allows_resume B.allows_start B.allows_next H.allows_missing natives.now in
        (r : Ran o) (node : CallNode) (inside : InTree node r.node) → (seen node).end.whose ≡ owners.Host
        → NoneMatches r.world.engine (frame_at r.world r.frame inside) (seen node).call × ((pick : Pick) → HasBuiltin r.world.engine (seen node).call pick → ⊥) }
    ensures missing { let o = objects_of allows_call allows_resume B.allows_start B.allows_next H.allows_missing natives.now in
        (r : Ran o) (node : CallNode) (inside : InTree node r.node) (fault : EvalAltResult) → (seen node).begun ≡ true → fault_number fault ≤ 4
        → IsOwn (seen node).end fault → is_unqualified (plan_of (seen node).call).search ≡ true
        → NoneMatches r.world.engine (frame_at r.world r.frame inside) (seen node).call × ((pick : Pick) → HasBuiltin r.world.engine (seen node).call pick → ⊥) }
    ensures qualified { let o = objects_of allows_call allows_resume B.allows_start B.allows_next H.allows_missing natives.now in
        (r : Ran o) (node : CallNode) (inside : InTree node r.node) (path : List Bytes) (place : Place) (pick : Pick) → (seen node).begun ≡ true
        → (plan_of (seen node).call).search ≡ in_module path → root_of r.world.engine (frame_at r.world r.frame inside).imports path ≡ Some place → ((seen node).pick ≡ Some pick)
        ↔ ((refusal r.world.engine (frame_at r.world r.frame inside) (seen node).level (seen node).call ≡ None) × IsAnsweredIn place path (seen node).call pick) }
    ensures missing_in { let o = objects_of allows_call allows_resume B.allows_start B.allows_next H.allows_missing natives.now in
        (r : Ran o) (node : CallNode) (inside : InTree node r.node) (fault : EvalAltResult) (path : List Bytes) (place : Place) → (seen node).begun ≡ true
        → fault_number fault ≤ 4 → IsOwn (seen node).end fault → (plan_of (seen node).call).search ≡ in_module path
        → root_of r.world.engine (frame_at r.world r.frame inside).imports path ≡ Some place → NoneAnswersIn place path (seen node).call }
{}
