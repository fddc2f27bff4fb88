//! Session texts: what their lines say, and reading them.
#![tactic(auto)]

mod calls;
mod fault;
mod forms;
mod join_forms;
mod keyword;
mod laws;
mod line;
mod lines;
mod manifest_forms;
mod module_forms;
mod place;
mod reading;
mod requests;

pub use calls::read_call;
pub use fault::TextFault;
pub use laws::{
    every_text_is_read_or_has_a_first_bad_line, lines_are_read_as_they_are_written,
    paths_are_printed_as_they_are_written, printed_values_are_read_again, texts_say_one_thing,
    values_are_what_can_be_written,
};
pub use line::is_skipped;
pub use lines::first_line;
pub use module_forms::scripted_at;
pub use place::Place;
pub use reading::read_text;
pub use rhd_plan::{BodyEnd, BodyPlan, BodyPlans, CallPlan, CallPlans, SessionText};
pub use rhd_print::{print_replies, print_reply, print_value, printed_trees_tell_every_call};
pub use rhd_syntax::{
    Given, GivenAt, Places, read_value, texts_of_lines_are_utf8, values_say_one_thing,
};
