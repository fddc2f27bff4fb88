//! What a line of a session text is made of: words, numbers, texts, values and other operands, and
//! how each is read.
#![tactic(auto)]

mod arguments;
mod brackets;
mod fault;
mod given;
mod heads;
mod kinds;
mod laws;
mod numbers;
mod operand;
mod operands;
mod operators;
mod printers;
mod quoted;
mod utf8;
mod values;
mod wants;
mod words;

pub use arguments::{Argument, Arguments, argument_at, arguments_at};
pub use brackets::begins;
pub use fault::Stop;
pub use given::{Given, GivenAt, Places};
pub use kinds::kinds_at;
pub use laws::{texts_of_lines_are_utf8, values_say_one_thing};
pub use numbers::{long_at, num_at};
pub use operand::read_value;
pub use operands::{name_at, purity_at, texts_at, this_at};
pub use operators::operator_of;
pub use printers::{Printer, printer_at};
pub use quoted::{plain_str_at, text_here, wording_at};
pub use utf8::is_text;
pub use values::value_at;
pub use wants::{value_kind_at, want_at};
pub use words::{flag_at, is_end, same_word, skip_blanks, word_at};
