//! Laws of the trees of a run.

ghost use Rattle.std.specs.Prelude.{◌≡◌, ℕ, List, length, slice_get, Some, Result};
ghost use Rattle.rhd_func.specs.declared.request.CallRequest.{CallRequest};
ghost use Rattle.rhd_call.specs.declared.command.Command.TheVariants.{Call};
ghost use Rattle.rhd_call.specs.declared.node.CallNode.{CallNode};
ghost use Rattle.rhd_call.specs.declared.reply.Reply.TheVariants.{Called};
ghost use Rattle.rhd_call.specs.Trees.{InTree};
ghost use Rattle.rhd_call.specs.declared.command.Command.{Command};
ghost use Rattle.rhd_call.specs.declared.reply.Reply.{Reply};
ghost use Rattle.rhd_call.specs.declared.reply.Stopped.{Stopped};
ghost use Rattle.rhd_session.specs.Answered.{RunGives};
ghost use Rattle.rhd_machine.specs.World.{Moment};
ghost use Rattle.rhd_session.specs.State.{SessionState};
ghost use Rattle.rhd_session.specs.Of.{objects_with};
ghost use Rattle.rhd_laws.specs.Ran.{RunOf, IsRunOf};
ghost use Rattle.rhd_laws.specs.Reached.{IsTreeAt};
ghost use Rattle.rhd_machine.specs.Trees.{frame_at, RunsAt};

use rhd_func::{Bodies, Host, Natives};
use rhd_resolve::Loader;

/// The replies that are given to commands answer them, or where memory ran out the first of them.
/// Each tree among them is that of the call at the same place of the commands, and runs in the world
/// and the frame that the commands before it leave; and so runs each call of the tree, in the frame
/// in which it is asked for. Each call that is answered is answered by such a tree, and there are as
/// many replies as commands that are answered.
pub fn each_tree_of_a_run_runs_where_the_run_came<H: Host, B: Bodies, L: Loader>(
    natives: &Natives,
    loader: &L,
)
    ensures gives { let o = objects_with allows_call allows_resume B.allows_start B.allows_next H.allows_missing L.allows_load natives.now loader.now in
        (state last : SessionState) (before after : Moment H B) (commands : List Command) (result : Result (List Reply) Stopped)
        → RunGives (record { objects = o; state = state }) before commands result last after → (run : RunOf o) × IsRunOf o state before commands result run }
    ensures tree { let o = objects_with allows_call allows_resume B.allows_start B.allows_next H.allows_missing L.allows_load natives.now loader.now in
        (run : RunOf o) (n : ℕ) (root : CallNode) → slice_get run.replies n ≡ Some (Called root) → IsTreeAt o run n root }
    ensures node { let o = objects_with allows_call allows_resume B.allows_start B.allows_next H.allows_missing L.allows_load natives.now loader.now in
        (run : RunOf o) (n : ℕ) (root node : CallNode) (inside : InTree node root) → slice_get run.replies n ≡ Some (Called root)
        → (tree : IsTreeAt o run n root) × RunsAt o.objects tree.ran.world (frame_at tree.ran.world tree.ran.frame inside) node }
    ensures call { let o = objects_with allows_call allows_resume B.allows_start B.allows_next H.allows_missing L.allows_load natives.now loader.now in
        (run : RunOf o) (n : ℕ) (request : CallRequest) → slice_get run.commands n ≡ Some (Call request)
        → (root : CallNode) × (slice_get run.replies n ≡ Some (Called root)) }
    ensures as_many { let o = objects_with allows_call allows_resume B.allows_start B.allows_next H.allows_missing L.allows_load natives.now loader.now in
        (run : RunOf o) → length run.replies ≡ length run.commands }
{}
