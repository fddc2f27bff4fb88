//! Laws of calls and of trees of calls: what the definitions of a session say, in the words of its
//! users. Each is a function without a body, whose contract is the law.
#![tactic(auto)]

mod arguments;
mod calls;
mod faults;
mod missing;
mod picks;
mod runs;

pub use arguments::{a_call_has_a_first_argument_after_it, a_function_receives_its_arguments};
pub use calls::{
    a_call_answers_what_it_makes_of_a_value, a_call_is_answered_by_the_first_declaration,
    a_call_says_whose_its_answer_is, a_call_shows_its_first_argument, a_constant_ends_the_call,
    a_locked_argument_ends_the_call, a_node_shows_the_first_declaration,
    a_path_that_begins_at_no_module_ends_the_call, a_printer_that_is_set_prints_a_text,
    a_spent_budget_ends_the_tree, a_value_is_refused_for_its_kind_or_size,
    each_call_of_a_tree_runs_by_itself, each_call_of_a_tree_shows_the_first_declaration,
    the_calls_begun_are_counted_by_the_tree, the_children_of_a_node_are_its_requests,
    the_level_of_a_call_is_limited,
};
pub use faults::a_fault_of_a_call_is_told_apart;
pub use missing::{a_fault_of_a_missing_call_is_by_its_name, a_missing_call_ends_with_its_fault};
pub use picks::{
    a_key_is_found_in_the_first_module, a_pick_matches_its_call,
    a_qualified_call_is_answered_in_its_module, each_call_of_a_tree_shows_its_first_match,
    the_patterns_of_kinds_match_them, the_places_of_a_frame,
};
pub use runs::each_tree_of_a_run_runs_where_the_run_came;
