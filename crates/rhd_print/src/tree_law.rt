//! Laws of printed trees of calls.

ghost use Rattle.std.specs.Prelude.{◌≡◌, ◌↔◌, List, ◌∷◌, ◌++◌};
ghost use Rattle.std.specs.List.{Contains, flat_map};
ghost use Rattle.rhd_call.specs.declared.node.CallNode.{CallNode};
ghost use Rattle.rhd_call.specs.declared.reply.Reply.{Reply};
ghost use Rattle.rhd_call.specs.declared.reply.Reply.TheVariants.{Called};
ghost use Rattle.rhd_call.specs.Seen.{seen};
ghost use Rattle.rhd_call.specs.Trees.{InTree};
ghost use Rattle.rhd_print.specs.PrintedReplies.{tree_text, all_printed};
ghost use Rattle.rhd_print.specs.TreeLines.{calls_of, own_line};

/// A tree is printed as the lines of its calls, and of no others: each with the indentation of its
/// level and what this call shows. A call goes before those that it led to, and these go in order.
/// The lines of a tree stand between those of the replies before and after it.
pub fn printed_trees_tell_every_call()
    ensures lines { (root : CallNode) → tree_text root ≡ flat_map own_line (calls_of root) }
    ensures order { (node : CallNode) → calls_of node ≡ node ∷ flat_map calls_of (seen node).children }
    ensures calls { (node root : CallNode) → Contains (calls_of root) node ↔ InTree node root }
    ensures replies { (front others : List Reply) (root : CallNode) → all_printed (front ++ Called root ∷ others) ≡ all_printed front ++ flat_map own_line (calls_of root) ++ all_printed others }
{}
