//! Operators that a built-in function may be for.

ghost use Rattle.std.specs.Prelude.{◌≡◌};
ghost use Rattle.rhd_syntax.specs.Operators.{is_binary, is_operator, operator_of};

use rhd_names::{OpToken, lookup_symbol_from_syntax};

fn is_binary(op: OpToken) -> bool
    ensures { result ≡ is_binary op }
{
    matches!(
        op,
        OpToken::Plus
            | OpToken::Minus
            | OpToken::Multiply
            | OpToken::Divide
            | OpToken::Modulo
            | OpToken::PowerOf
            | OpToken::LeftShift
            | OpToken::RightShift
            | OpToken::Ampersand
            | OpToken::Pipe
            | OpToken::XOr
            | OpToken::EqualsTo
            | OpToken::NotEqualsTo
            | OpToken::LessThan
            | OpToken::LessThanEqualsTo
            | OpToken::GreaterThan
            | OpToken::GreaterThanEqualsTo
            | OpToken::And
            | OpToken::Or
    )
}

fn is_operator(op: OpToken) -> bool
    ensures { result ≡ is_operator op }
{
    is_binary(op) || op.is_op_assignment()
}

/// The binary operator or the assignment that a word is.
#[tactic(auto, unfolding(crate::specs::Operators::operator_of))]
pub fn operator_of(word: &str) -> Option<OpToken>
    ensures { result ≡ operator_of word.now }
{
    let op = lookup_symbol_from_syntax(word)?;
    if is_operator(op) { Some(op) } else { None }
}
