//! Tests against tables that stand here once more, and that calls succeed.

use crate::must::must;
use rhd_names::{
    OpToken, is_anonymous_fn, is_reserved_keyword_or_symbol, is_valid_function_name,
    is_valid_identifier, lookup_symbol_from_syntax, make_getter, make_setter,
};
use std::process::Abort;

/// The tokens that are words, and how they are written.
const WORDS: [OpToken; 25] = [
    OpToken::True,
    OpToken::False,
    OpToken::Let,
    OpToken::Const,
    OpToken::If,
    OpToken::Else,
    OpToken::Switch,
    OpToken::Do,
    OpToken::While,
    OpToken::Until,
    OpToken::Loop,
    OpToken::For,
    OpToken::In,
    OpToken::Fn,
    OpToken::Private,
    OpToken::Import,
    OpToken::Export,
    OpToken::As,
    OpToken::Return,
    OpToken::Throw,
    OpToken::Break,
    OpToken::Continue,
    OpToken::Try,
    OpToken::Catch,
    OpToken::Global,
];

const WORD_TEXTS: &str =
    "true false let const if else switch do while until loop for in fn private import export as return throw break continue try catch global";

/// The tokens that are symbols, but for the assignments, and how they are written.
const SYMBOLS: [OpToken; 38] = [
    OpToken::Plus,
    OpToken::Minus,
    OpToken::Multiply,
    OpToken::Divide,
    OpToken::Modulo,
    OpToken::PowerOf,
    OpToken::LeftShift,
    OpToken::RightShift,
    OpToken::Ampersand,
    OpToken::Pipe,
    OpToken::XOr,
    OpToken::EqualsTo,
    OpToken::NotEqualsTo,
    OpToken::LessThan,
    OpToken::LessThanEqualsTo,
    OpToken::GreaterThan,
    OpToken::GreaterThanEqualsTo,
    OpToken::And,
    OpToken::Or,
    OpToken::Equals,
    OpToken::Bang,
    OpToken::ExclusiveRange,
    OpToken::InclusiveRange,
    OpToken::DoubleQuestion,
    OpToken::LeftParen,
    OpToken::RightParen,
    OpToken::LeftBrace,
    OpToken::RightBrace,
    OpToken::LeftBracket,
    OpToken::RightBracket,
    OpToken::Comma,
    OpToken::SemiColon,
    OpToken::Colon,
    OpToken::DoubleColon,
    OpToken::Period,
    OpToken::Elvis,
    OpToken::QuestionBracket,
    OpToken::DoubleArrow,
];

const SYMBOL_TEXTS: &str =
    "+ - * / % ** << >> & | ^ == != < <= > >= && || = ! .. ..= ?? ( ) { } [ ] , ; : :: . ?. ?[ =>";

/// The assignments, and how they are written.
const ASSIGNMENTS: [OpToken; 11] = [
    OpToken::PlusAssign,
    OpToken::MinusAssign,
    OpToken::MultiplyAssign,
    OpToken::DivideAssign,
    OpToken::ModuloAssign,
    OpToken::PowerOfAssign,
    OpToken::LeftShiftAssign,
    OpToken::RightShiftAssign,
    OpToken::AndAssign,
    OpToken::OrAssign,
    OpToken::XOrAssign,
];

const ASSIGNMENT_TEXTS: &str = "+= -= *= /= %= **= <<= >>= &= |= ^=";

const RESERVED_WORDS: &str =
    "type_of is_shared is_def_fn is_def_var print debug Fn eval call curry this var static goto exit match case \
    public protected new use with module package super spawn thread go sync async await yield void null nil default";

const RESERVED_SYMBOLS: &str = "=== !== -> <- := ~ @ $ # ++ -- ?";

/// Texts that are neither tokens nor reserved: those by which a function may be named, and others.
const NAMES: &str = "f True curry_ _a9";

const OTHERS: &str = " _9a __ a-b ==== get$x anon$7f ä";

/// Each text is that of the token at its place, is not reserved and names no function.
fn check_tokens(rt: &impl Abort, texts: &str, tokens: &[OpToken], assigns: bool) {
    let mut tokens = tokens.iter();
    for text in texts.split(' ') {
        let token = tokens.next().copied();
        let same = match token {
            Some(token) => token.text() == text && token.is_op_assignment() == assigns,
            None => false,
        };
        assert!(rt; same, "{text}");
        assert!(rt; lookup_symbol_from_syntax(text) == token, "{text}");
        check_text(rt, text, false, false);
    }
    assert!(rt; tokens.next().is_none());
}

/// Each text is no token.
fn check_others(rt: &impl Abort, texts: &str, reserved: bool, named: bool) {
    for text in texts.split(' ') {
        assert!(rt; lookup_symbol_from_syntax(text).is_none(), "{text}");
        check_text(rt, text, reserved, named);
    }
}

/// Whether the text is reserved, and whether a function may be named so.
fn check_text(rt: &impl Abort, text: &str, reserved: bool, named: bool) {
    assert!(rt; is_reserved_keyword_or_symbol(text) == reserved, "{text}");
    assert!(rt; is_valid_function_name(text) == named, "{text}");
}

#[test]
fn tables(rt: HostRuntime) {
    check_tokens(&rt, WORD_TEXTS, &WORDS, false);
    check_tokens(&rt, SYMBOL_TEXTS, &SYMBOLS, false);
    check_tokens(&rt, ASSIGNMENT_TEXTS, &ASSIGNMENTS, true);
    check_others(&rt, RESERVED_WORDS, true, false);
    check_others(&rt, RESERVED_SYMBOLS, true, false);
    check_others(&rt, NAMES, false, true);
    check_others(&rt, OTHERS, false, false);
}

#[test]
fn properties(rt: HostRuntime) {
    let getter = must(&rt, make_getter(rt.alloc(), "x"), "memory");
    assert!(rt; getter.as_str() == "get$x" && !is_valid_identifier(getter.as_str()));
    let setter = must(&rt, make_setter(rt.alloc(), ""), "memory");
    assert!(rt; setter.as_str() == "set$" && !is_anonymous_fn(setter.as_str()));
}
