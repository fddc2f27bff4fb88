//! Names and tokens of the language.
#![tactic(auto)]

mod law;
mod names;
mod token;

pub use law::{
    a_token_is_looked_up_by_its_text, no_anonymous_name_is_an_identifier,
    no_property_is_an_identifier, no_token_is_reserved,
};
pub use names::{
    is_anonymous_fn, is_reserved_keyword_or_symbol, is_valid_function_name, is_valid_identifier,
    make_getter, make_setter,
};
pub use token::{OpToken, lookup_symbol_from_syntax};
