//! Laws of calls.

ghost use Rattle.std.specs.Prelude.{◌≡◌, ◌↔◌, ◌⊎◌, ◌+◌, ◌<◌, ◌≤◌, ℕ, Bool, true, false, if◌then◌else◌, List, [], length, Option, Some, None, Ok, Err};
ghost use Rattle.std.specs.List.{Contains, sum_by};
ghost use Rattle.rhd_value.specs.declared.fault.EvalAltResult.{EvalAltResult};
ghost use Rattle.rhd_value.specs.declared.fault.EvalAltResult.TheVariants.{ErrorNonPureMethodCallOnConstant, ErrorDataRace, ErrorMismatchOutputType, ErrorTooManyOperations, ErrorStackOverflow, ErrorDataTooLarge, ErrorModuleNotFound};
ghost use Rattle.rhd_value.specs.declared.tag.Position.{Position};
ghost use Rattle.rhd_value.specs.Tree.{Bytes, Tree, unit};
ghost use Rattle.rhd_value.specs.Kinds.{plain};
ghost use Rattle.rhd_value.specs.declared.tag.TypeTag.{TypeTag};
ghost use Rattle.rhd_names.specs.declared.token.OpToken.{OpToken};
ghost use Rattle.rhd_func.specs.declared.request.CallRequest.{CallRequest};
ghost use Rattle.rhd_func.specs.declared.request.CallShape.{CallShape};
ghost use Rattle.rhd_func.specs.declared.request.CallShape.TheVariants.{ByRef, Method};
ghost use Rattle.rhd_func.specs.Funcs.{is_method, is_script};
ghost use Rattle.rhd_func.specs.Shapes.{given, pos_of};
ghost use Rattle.rhd_hash.specs.declared.key.Key.{Key};
ghost use Rattle.rhd_call.specs.declared.node.CallNode.{CallNode};
ghost use Rattle.rhd_call.specs.declared.node.Whose.TheVariants.{Call, Called};
ghost use Rattle.rhd_call.specs.declared.node.Whose.TheVariants as owners;
ghost use Rattle.rhd_call.specs.declared.pick.Pick.{Pick};
ghost use Rattle.rhd_engine.specs.Engine.{EngineLists, Frame};
ghost use Rattle.rhd_dispatch.specs.Searched.{found};
ghost use Rattle.rhd_dispatch.specs.Races.{locked_place, locked_text};
ghost use Rattle.rhd_dispatch.specs.Picks.{root_of};
ghost use Rattle.rhd_engine.specs.NotFound.{path_text};
ghost use Rattle.rhd_laws.specs.Roots.{HasNoRoot, NamesNoRoot};
ghost use Rattle.rhd_machine.specs.Plans.{is_unqualified, in_module, Plan, plan_of};
ghost use Rattle.rhd_call.specs.End.{End, failed};
ghost use Rattle.rhd_machine.specs.Decisions.{ends, asks_host, runs, refusal, decision, constant_end};
ghost use Rattle.rhd_laws.specs.Causes.{IsOwn, IsForNoConstant, IsFirstLocked, NamesLocked, RefusesKind, RefusesHosts, RefusesSize, RefusesValue, ShowsGivenBack};
ghost use Rattle.rhd_laws.specs.FirstAsks.{IsAnsweredFirst, IsForHost, IsOnConstant, EndsAlone, IsOfFirstPlace, IsOfFirstPattern};
ghost use Rattle.rhd_laws.specs.Hosts.{EndsByHost};
ghost use Rattle.rhd_laws.specs.Owners.{shown_pick, IsAnsweredByHost, IsAnsweredByFunction};
ghost use Rattle.rhd_laws.specs.Unfound.{fault_number, IsUnfound};
ghost use Rattle.rhd_dispatch.specs.Asks.{native, looked};
ghost use Rattle.rhd_machine.specs.Objects.{objects_of};
ghost use Rattle.rhd_laws.specs.Ran.{Ran};
ghost use Rattle.rhd_call.specs.Seen.{seen, begun_node, unbegun_node};
ghost use Rattle.rhd_call.specs.Trees.{InTree, AllBegun, CutTree, begun_in};
ghost use Rattle.rhd_machine.specs.Trees.{frame_at, RunsAt};
ghost use Rattle.rhd_laws.specs.Requests.{ShowsRequests};
ghost use Rattle.rhd_laws.specs.Prints.{Prints};
ghost use Rattle.rhd_laws.specs.PrintedTexts.{ShowsText, AnswersValue};

use rhd_func::{Bodies, Host, Natives};

/// A call shows a function exactly where nothing refuses it and that is what the first ask of the
/// call that is found gives. The function runs, unless it may change its first argument and this is
/// a constant. Nothing runs exactly where the call is refused, or no ask of a call for natives alone
/// or of a qualified call is found, or for such a constant. The host is asked exactly where nothing
/// refuses another call and no ask is found. An unqualified call asks in all modules: for a native
/// by each pattern in rank, and then among the built-ins. A qualified call asks in the module at
/// which its path begins.
pub fn a_call_is_answered_by_the_first_declaration()
    ensures runs { (e : EngineLists) (f : Frame) (level : ℕ) (call : CallRequest) (plan : Plan) (pick : Pick) → (decision e f level call ≡ runs plan pick)
        ↔ ((refusal e f level call ≡ None) × (plan ≡ plan_of call) × IsAnsweredFirst e f call pick × (IsOnConstant e (plan_of call) pick → ⊥)) }
    ensures picked { (e : EngineLists) (f : Frame) (level : ℕ) (call : CallRequest) (pick : Pick)
        → (shown_pick (decision e f level call) ≡ Some pick) ↔ ((refusal e f level call ≡ None) × IsAnsweredFirst e f call pick) }
    ensures ends { (e : EngineLists) (f : Frame) (level : ℕ) (call : CallRequest) (pick : Option Pick) (end : End)
        → (decision e f level call ≡ ends pick end) ↔ EndsAlone e f level call pick end }
    ensures host { (e : EngineLists) (f : Frame) (level : ℕ) (call : CallRequest) (plan : Plan)
        → (decision e f level call ≡ asks_host plan) ↔ ((plan ≡ plan_of call) × IsForHost e f level call) }
    ensures place { (e : EngineLists) (f : Frame) (key : Key) (pick : Pick) → (found e f.lib f.imports key ≡ Some pick) ↔ IsOfFirstPlace e f key pick }
    ensures pattern { (e : EngineLists) (f : Frame) (name : Bytes) (kinds : List TypeTag) (token : Option OpToken) (pick : Pick)
        → (looked e f.lib f.imports (native name kinds token) ≡ Some pick) ↔ IsOfFirstPattern e f name kinds token pick }
{}

/// What a session's node shows: the function of the first ask that is found, where nothing refuses
/// the call; or why nothing ran, or what the host answered; or that the budget was spent before it.
pub fn a_node_shows_the_first_declaration<H: Host, B: Bodies>(natives: &Natives)
    ensures shown { let o = objects_of allows_call allows_resume B.allows_start B.allows_next H.allows_missing natives.now in
        (r : Ran o) (pick : Pick) → (seen r.node).pick ≡ Some pick
        → (refusal r.world.engine r.frame r.level r.call ≡ None) × IsAnsweredFirst r.world.engine r.frame r.call pick }
    ensures alone { let o = objects_of allows_call allows_resume B.allows_start B.allows_next H.allows_missing natives.now in
        (r : Ran o) → (seen r.node).begun ≡ true → (seen r.node).pick ≡ None → EndsAlone r.world.engine r.frame r.level r.call None (seen r.node).end
        ⊎ EndsByHost o r.world.engine r.frame r.level r.call r.before.host r.after.host (seen r.node).end }
    ensures unbegun { let o = objects_of allows_call allows_resume B.allows_start B.allows_next H.allows_missing natives.now in
        (r : Ran o) → (seen r.node).begun ≡ false → (r.before.begun ≡ r.world.engine.limits.budget) × (r.after ≡ r.before) × (seen r.node ≡ unbegun_node r.call r.level) }
{}

/// The calls that a call begins are counted by its tree: the call itself if it is begun, and those of
/// the trees of its children.
pub fn the_calls_begun_are_counted_by_the_tree<H: Host, B: Bodies>(natives: &Natives)
    ensures counted { let o = objects_of allows_call allows_resume B.allows_start B.allows_next H.allows_missing natives.now in
        (r : Ran o) → r.after.begun ≡ r.before.begun + begun_in r.node }
    ensures parts { (node : CallNode) → begun_in node ≡ (if (seen node).begun then 1 else 0) + sum_by begun_in (seen node).children }
{}

/// While the budget lasts, every call of a tree is begun. Where it is spent, the last call of the
/// tree isn't begun, and that call and each one above it end with too many operations.
pub fn a_spent_budget_ends_the_tree<H: Host, B: Bodies>(natives: &Natives)
    ensures lasts { let o = objects_of allows_call allows_resume B.allows_start B.allows_next H.allows_missing natives.now in
        (r : Ran o) → r.cut ≡ false → AllBegun r.node }
    ensures spent { let o = objects_of allows_call allows_resume B.allows_start B.allows_next H.allows_missing natives.now in
        (r : Ran o) → r.cut ≡ true → CutTree r.node }
    ensures stands { let o = objects_of allows_call allows_resume B.allows_start B.allows_next H.allows_missing natives.now in
        (r : Ran o) → r.cut ≡ true → r.after.begun ≡ r.world.engine.limits.budget }
    ensures within { let o = objects_of allows_call allows_resume B.allows_start B.allows_next H.allows_missing natives.now in
        (r : Ran o) → r.before.begun ≤ r.world.engine.limits.budget → r.after.begun ≤ r.world.engine.limits.budget }
    ensures unbegun { let o = objects_of allows_call allows_resume B.allows_start B.allows_next H.allows_missing natives.now in
        (r : Ran o) → ((seen r.node).begun ≡ false) ↔ (r.before.begun ≡ r.world.engine.limits.budget) }
    ensures answered { let o = objects_of allows_call allows_resume B.allows_start B.allows_next H.allows_missing natives.now in
        (r : Ran o) → (r.cut ≡ true) ↔ IsOwn (seen r.node).end (ErrorTooManyOperations (pos_of r.call)) }
{}

/// The children of a node are the requests of its function, in order, each with that very request,
/// and the function goes on with each answer. Without a function there are none, nor are there any
/// of a function that isn't for a constant.
pub fn the_children_of_a_node_are_its_requests<H: Host, B: Bodies>(natives: &Natives)
    ensures shown { let o = objects_of allows_call allows_resume B.allows_start B.allows_next H.allows_missing natives.now in
        (r : Ran o) (pick : Pick) → (seen r.node).pick ≡ Some pick → ShowsRequests o r.world r.frame (seen r.node) pick r.cut
        ⊎ (IsOnConstant r.world.engine (plan_of r.call) pick × ((seen r.node).carries ≡ []) × ((seen r.node).children ≡ [])) }
    ensures alone { let o = objects_of allows_call allows_resume B.allows_start B.allows_next H.allows_missing natives.now in
        (r : Ran o) → (seen r.node).pick ≡ None → ((seen r.node).carries ≡ []) × ((seen r.node).children ≡ []) }
    ensures constant { let o = objects_of allows_call allows_resume B.allows_start B.allows_next H.allows_missing natives.now in
        (r : Ran o) (pick : Pick) → (seen r.node).pick ≡ Some pick → IsOnConstant r.world.engine (plan_of r.call) pick
        → ((seen r.node).carries ≡ []) × ((seen r.node).children ≡ []) }
    ensures as_many { let o = objects_of allows_call allows_resume B.allows_start B.allows_next H.allows_missing natives.now in
        (r : Ran o) → length (seen r.node).carries ≡ length (seen r.node).children }
{}

/// Whose answer a call shows. It is the host's exactly where the host was asked and its value or
/// fault is the answer, and the function's exactly where its last step gave the fault that is the
/// answer, or the value of which the call makes it.
pub fn a_call_says_whose_its_answer_is<H: Host, B: Bodies>(natives: &Natives)
    ensures host { let o = objects_of allows_call allows_resume B.allows_start B.allows_next H.allows_missing natives.now in
        (r : Ran o) → ((seen r.node).end.whose ≡ owners.Host) ↔ IsAnsweredByHost o r.world.engine r.frame r.level r.call r.before.host r.after.host (seen r.node).end }
    ensures function { let o = objects_of allows_call allows_resume B.allows_start B.allows_next H.allows_missing natives.now in
        (r : Ran o) → ((seen r.node).end.whose ≡ owners.Called) ↔ IsAnsweredByFunction o r.world r.frame (seen r.node) }
{}

/// Each call of a tree runs as a call of its own, in the frame in which it is asked for, one level
/// above the call that asked for it.
pub fn each_call_of_a_tree_runs_by_itself<H: Host, B: Bodies>(natives: &Natives)
    ensures runs { let o = objects_of allows_call allows_resume B.allows_start B.allows_next H.allows_missing natives.now in
        (r : Ran o) (node : CallNode) (inside : InTree node r.node) → RunsAt o r.world (frame_at r.world r.frame inside) node }
    ensures levels { let o = objects_of allows_call allows_resume B.allows_start B.allows_next H.allows_missing natives.now in
        (r : Ran o) (node child : CallNode) → InTree node r.node → Contains (seen node).children child → (seen child).level ≡ (seen node).level + 1 }
{}

/// Each call of a tree that is begun has as its pick the function of the first ask that is found in
/// its frame, a declaration or else a built-in, or, where it is qualified, in the module at which its
/// path begins, exactly where nothing refuses the call. Without a pick it is refused, or isn't found,
/// or the host answers it. An answer is the host's exactly where no ask is found and the host gave it.
/// A call that nothing refuses isn't found exactly where declarations, built-ins and the host, where
/// it is asked, all fail.
pub fn each_call_of_a_tree_shows_the_first_declaration<H: Host, B: Bodies>(natives: &Natives)
    ensures shown { let o = objects_of allows_call allows_resume B.allows_start B.allows_next H.allows_missing natives.now in
        (r : Ran o) (node : CallNode) (inside : InTree node r.node) (pick : Pick) → (seen node).begun ≡ true → ((seen node).pick ≡ Some pick)
        ↔ ((refusal r.world.engine (frame_at r.world r.frame inside) (seen node).level (seen node).call ≡ None)
        × IsAnsweredFirst r.world.engine (frame_at r.world r.frame inside) (seen node).call pick) }
    ensures alone { let o = objects_of allows_call allows_resume B.allows_start B.allows_next H.allows_missing natives.now in
        (r : Ran o) (node : CallNode) (inside : InTree node r.node) → (seen node).begun ≡ true → (seen node).pick ≡ None
        → EndsAlone r.world.engine (frame_at r.world r.frame inside) (seen node).level (seen node).call None (seen node).end
        ⊎ ((from : H) × (to : H) × EndsByHost o r.world.engine (frame_at r.world r.frame inside) (seen node).level (seen node).call from to (seen node).end) }
    ensures host { let o = objects_of allows_call allows_resume B.allows_start B.allows_next H.allows_missing natives.now in
        (r : Ran o) (node : CallNode) (inside : InTree node r.node) → ((seen node).end.whose ≡ owners.Host)
        ↔ ((from : H) × (to : H) × IsAnsweredByHost o r.world.engine (frame_at r.world r.frame inside) (seen node).level (seen node).call from to (seen node).end) }
    ensures missing { let o = objects_of allows_call allows_resume B.allows_start B.allows_next H.allows_missing natives.now in
        (r : Ran o) (node : CallNode) (inside : InTree node r.node) (fault : EvalAltResult) → (seen node).begun ≡ true → fault_number fault ≤ 4
        → IsOwn (seen node).end fault
        ↔ ((from : H) × (to : H) × IsUnfound o r.world.engine (frame_at r.world r.frame inside) (seen node).level (seen node).call from to (seen node).end fault) }
    ensures unbegun { let o = objects_of allows_call allows_resume B.allows_start B.allows_next H.allows_missing natives.now in
        (r : Ran o) (node : CallNode) → InTree node r.node → (seen node).begun ≡ false → seen node ≡ unbegun_node (seen node).call (seen node).level }
{}

/// A call is refused for its level exactly where that is above the limit; then it ends with a stack
/// overflow of its own, at its position, and nothing runs. So in the tree of a call no level is more
/// than one above the limit.
pub fn the_level_of_a_call_is_limited<H: Host, B: Bodies>(natives: &Natives)
    ensures refused { (e : EngineLists) (f : Frame) (level : ℕ) (call : CallRequest)
        → (refusal e f level call ≡ Some (failed (given call) (ErrorStackOverflow (pos_of call)))) ↔ (e.limits.level < level) }
    ensures ends { let o = objects_of allows_call allows_resume B.allows_start B.allows_next H.allows_missing natives.now in
        (r : Ran o) → (seen r.node).begun ≡ true
        → ((seen r.node).end ≡ failed (given r.call) (ErrorStackOverflow (pos_of r.call))) ↔ (r.world.engine.limits.level < r.level) }
    ensures own { let o = objects_of allows_call allows_resume B.allows_start B.allows_next H.allows_missing natives.now in
        (r : Ran o) (pos : Position) → (seen r.node).begun ≡ true
        → IsOwn (seen r.node).end (ErrorStackOverflow pos) ↔ ((r.world.engine.limits.level < r.level) × (pos ≡ pos_of r.call)) }
    ensures shown { let o = objects_of allows_call allows_resume B.allows_start B.allows_next H.allows_missing natives.now in
        (r : Ran o) → (seen r.node).begun ≡ true → r.world.engine.limits.level < r.level
        → seen r.node ≡ begun_node r.call r.level None [] [] (failed (given r.call) (ErrorStackOverflow (pos_of r.call))) }
    ensures within { let o = objects_of allows_call allows_resume B.allows_start B.allows_next H.allows_missing natives.now in
        (r : Ran o) (node : CallNode) → r.level ≡ 1 → InTree node r.node → (seen node).level ≤ r.world.engine.limits.level + 1 }
{}

/// An unqualified call whose level is within the limit ends with a data race of its own exactly where
/// an argument that is given by value is locked. The fault names the first such place, and nothing
/// runs. No qualified call ends so.
pub fn a_locked_argument_ends_the_call<H: Host, B: Bodies>(natives: &Natives)
    ensures place { (shape : CallShape) (n : ℕ) → (locked_place shape ≡ Some n) ↔ IsFirstLocked shape n }
    ensures ends { let o = objects_of allows_call allows_resume B.allows_start B.allows_next H.allows_missing natives.now in
        (r : Ran o) (text : Bytes) (pos : Position) → (seen r.node).begun ≡ true
        → IsOwn (seen r.node).end (ErrorDataRace text pos) ↔ ((r.level ≤ r.world.engine.limits.level) × NamesLocked r.call (ErrorDataRace text pos)) }
    ensures shown { let o = objects_of allows_call allows_resume B.allows_start B.allows_next H.allows_missing natives.now in
        (r : Ran o) (n : ℕ) → (seen r.node).begun ≡ true → r.level ≤ r.world.engine.limits.level → is_unqualified (plan_of r.call).search ≡ true
        → IsFirstLocked (plan_of r.call).shape n
        → seen r.node ≡ begun_node r.call r.level None [] [] (failed (given r.call) (ErrorDataRace (locked_text (plan_of r.call).name n) (pos_of r.call))) }
{}

/// A call whose level is within the limit ends with the fault of a missing module of its own exactly
/// where it is qualified, and its path is empty or the path's first name is that of no import of its
/// frame and of no static module. The fault has the names of the path, joined by `::`, and nothing
/// runs.
pub fn a_path_that_begins_at_no_module_ends_the_call<H: Host, B: Bodies>(natives: &Natives)
    ensures root { (e : EngineLists) (f : Frame) (path : List Bytes) → (root_of e f.imports path ≡ None) ↔ HasNoRoot e f path }
    ensures number { (text : Bytes) (pos : Position) → fault_number (ErrorModuleNotFound text pos) ≡ 12 }
    ensures ends { let o = objects_of allows_call allows_resume B.allows_start B.allows_next H.allows_missing natives.now in
        (r : Ran o) (text : Bytes) (pos : Position) → (seen r.node).begun ≡ true → IsOwn (seen r.node).end (ErrorModuleNotFound text pos)
        ↔ ((r.level ≤ r.world.engine.limits.level) × NamesNoRoot r.world.engine r.frame r.call (ErrorModuleNotFound text pos)) }
    ensures shown { let o = objects_of allows_call allows_resume B.allows_start B.allows_next H.allows_missing natives.now in
        (r : Ran o) (path : List Bytes) → (seen r.node).begun ≡ true → r.level ≤ r.world.engine.limits.level → (plan_of r.call).search ≡ in_module path
        → HasNoRoot r.world.engine r.frame path → seen r.node ≡ begun_node r.call r.level None [] [] (failed (given r.call) (ErrorModuleNotFound (path_text path) (pos_of r.call))) }
{}

/// A call ends with a fault for a constant of its own exactly where nothing refuses it and the first
/// ask that is found gives a native or built-in that isn't pure, and that receives a read-only first
/// argument. The node shows the function, and nothing runs.
pub fn a_constant_ends_the_call<H: Host, B: Bodies>(natives: &Natives)
    ensures ends { let o = objects_of allows_call allows_resume B.allows_start B.allows_next H.allows_missing natives.now in
        (r : Ran o) (name : Bytes) (pos : Position) → (seen r.node).begun ≡ true → IsOwn (seen r.node).end (ErrorNonPureMethodCallOnConstant name pos)
        ↔ IsForNoConstant r.world.engine r.frame r.level r.call (ErrorNonPureMethodCallOnConstant name pos) }
    ensures shown { let o = objects_of allows_call allows_resume B.allows_start B.allows_next H.allows_missing natives.now in
        (r : Ran o) (pick : Pick) → (seen r.node).begun ≡ true → refusal r.world.engine r.frame r.level r.call ≡ None → IsAnsweredFirst r.world.engine r.frame r.call pick
        → IsOnConstant r.world.engine (plan_of r.call) pick → seen r.node ≡ begun_node r.call r.level (Some pick) [] [] (constant_end (plan_of r.call)) }
{}

/// A call ends with a mismatch of its own exactly where its function ended with a value, no limit
/// was passed, and the value is no text for a printer that is set, or what the call makes of it isn't
/// of the wanted kind; or where the host's value isn't. It ends with a size of its own exactly where
/// a limit was passed, by the value or by the first argument that a native of an unqualified call
/// had. The node shows the value, and a node shows a refused value in these cases alone.
pub fn a_value_is_refused_for_its_kind_or_size<H: Host, B: Bodies>(natives: &Natives)
    ensures kind { let o = objects_of allows_call allows_resume B.allows_start B.allows_next H.allows_missing natives.now in
        (r : Ran o) (wanted got : Bytes) (pos : Position) → IsOwn (seen r.node).end (ErrorMismatchOutputType wanted got pos)
        ↔ (RefusesKind o r.world r.frame (seen r.node) (ErrorMismatchOutputType wanted got pos)
        ⊎ RefusesHosts o r.world.engine (seen r.node) (ErrorMismatchOutputType wanted got pos)) }
    ensures size { let o = objects_of allows_call allows_resume B.allows_start B.allows_next H.allows_missing natives.now in
        (r : Ran o) (what : Bytes) (pos : Position)
        → IsOwn (seen r.node).end (ErrorDataTooLarge what pos) ↔ RefusesSize o r.world r.frame (seen r.node) (ErrorDataTooLarge what pos) }
    ensures refused { let o = objects_of allows_call allows_resume B.allows_start B.allows_next H.allows_missing natives.now in
        (r : Ran o) (value : Tree) → ((seen r.node).end.refused ≡ Some value) ↔ RefusesValue o r.world r.frame (seen r.node) value }
{}

/// The first argument by reference, or the object, as a call shows it in the end: as it was given
/// where nothing ran, or where the function got a copy of it; else as its function gave it back.
pub fn a_call_shows_its_first_argument<H: Host, B: Bodies>(natives: &Natives)
    ensures alone { let o = objects_of allows_call allows_resume B.allows_start B.allows_next H.allows_missing natives.now in
        (r : Ran o) → (seen r.node).pick ≡ None → (seen r.node).end.first_after ≡ given r.call }
    ensures by_value { let o = objects_of allows_call allows_resume B.allows_start B.allows_next H.allows_missing natives.now in
        (r : Ran o) (pick : Pick) → r.cut ≡ false → (seen r.node).pick ≡ Some pick → is_script pick.func ≡ false → is_method r.world.engine.natives pick.func ≡ false
        → (seen r.node).end.first_after ≡ given r.call }
    ensures script { let o = objects_of allows_call allows_resume B.allows_start B.allows_next H.allows_missing natives.now in
        (r : Ran o) (pick : Pick) (first : Tree) (args : List Tree) → r.cut ≡ false → (seen r.node).pick ≡ Some pick → is_script pick.func ≡ true
        → (plan_of r.call).shape ≡ ByRef first args → (seen r.node).end.first_after ≡ Some first }
    ensures method { let o = objects_of allows_call allows_resume B.allows_start B.allows_next H.allows_missing natives.now in
        (r : Ran o) (pick : Pick) (first : Tree) → r.cut ≡ false → (seen r.node).pick ≡ Some pick → is_method r.world.engine.natives pick.func ≡ true
        → given r.call ≡ Some first
        → ShowsGivenBack o r.world r.frame (seen r.node) pick ⊎ (IsOnConstant r.world.engine (plan_of r.call) pick × ((seen r.node).end.first_after ≡ given r.call)) }
    ensures object { let o = objects_of allows_call allows_resume B.allows_start B.allows_next H.allows_missing natives.now in
        (r : Ran o) (pick : Pick) (object : Tree) (args : List Tree) → r.cut ≡ false → (seen r.node).pick ≡ Some pick → is_script pick.func ≡ true
        → (plan_of r.call).shape ≡ Method object args → ShowsGivenBack o r.world r.frame (seen r.node) pick }
{}

/// A call of a tree shows a printed text exactly where it is unqualified, its function is the native
/// `print` or `debug`, the printer of that name is set, and the function ended with this text within the limits; also
/// where the call then refuses what it answers.
pub fn a_printer_that_is_set_prints_a_text<H: Host, B: Bodies>(natives: &Natives)
    ensures { let o = objects_of allows_call allows_resume B.allows_start B.allows_next H.allows_missing natives.now in
        (r : Ran o) (node : CallNode) (inside : InTree node r.node) (text : Bytes)
        → ((seen node).end.printed ≡ Some text) ↔ ShowsText o r.world (frame_at r.world r.frame inside) (seen node) text }
{}

/// A call of a tree answers a value of its function exactly where that ended with a value that
/// neither a limit nor a printer refuses, the call makes this of it, and it is of the wanted kind. An
/// unqualified call of the native `print` or `debug` that answers gives unit, whether the printer is
/// set or not.
pub fn a_call_answers_what_it_makes_of_a_value<H: Host, B: Bodies>(natives: &Natives)
    ensures value { let o = objects_of allows_call allows_resume B.allows_start B.allows_next H.allows_missing natives.now in
        (r : Ran o) (node : CallNode) (inside : InTree node r.node) (value : Tree)
        → (((seen node).end.whose ≡ Called) × ((seen node).end.answer ≡ Ok value)) ↔ AnswersValue o r.world (frame_at r.world r.frame inside) (seen node) value }
    ensures unit { let o = objects_of allows_call allows_resume B.allows_start B.allows_next H.allows_missing natives.now in
        (r : Ran o) (node : CallNode) (inside : InTree node r.node) (pick : Pick) (set : Bool) (value : Tree) → (seen node).pick ≡ Some pick
        → Prints r.world.engine.printers (plan_of (seen node).call) pick set → (seen node).end.answer ≡ Ok value → value ≡ plain unit }
{}
