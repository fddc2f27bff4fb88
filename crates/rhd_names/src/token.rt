//! Tokens.

ghost use Rattle.std.specs.Prelude.{◌≡◌, filter, find};
ghost use Rattle.std.specs.Str.{bytes_eq};
ghost use Rattle.rhd_names.specs.Tokens.{token_text, all_tokens, token_of, is_assignment};
ghost use Rattle.rhd_names.specs.Candidates.{begins_with_letter, is_word_of, is_symbol_of};

/// A token of the language: a word, an operator, an assignment or another symbol.
#[derive(Clone, Copy, Debug, PartialEq, Eq)]
pub enum OpToken {
    // Words.
    True,
    False,
    Let,
    Const,
    If,
    Else,
    Switch,
    Do,
    While,
    Until,
    Loop,
    For,
    In,
    Fn,
    Private,
    Import,
    Export,
    As,
    Return,
    Throw,
    Break,
    Continue,
    Try,
    Catch,
    Global,
    // Binary operators.
    Plus,
    Minus,
    Multiply,
    Divide,
    Modulo,
    PowerOf,
    LeftShift,
    RightShift,
    Ampersand,
    Pipe,
    XOr,
    EqualsTo,
    NotEqualsTo,
    LessThan,
    LessThanEqualsTo,
    GreaterThan,
    GreaterThanEqualsTo,
    And,
    Or,
    // Assignments.
    PlusAssign,
    MinusAssign,
    MultiplyAssign,
    DivideAssign,
    ModuloAssign,
    PowerOfAssign,
    LeftShiftAssign,
    RightShiftAssign,
    AndAssign,
    OrAssign,
    XOrAssign,
    // Other symbols.
    Equals,
    Bang,
    ExclusiveRange,
    InclusiveRange,
    DoubleQuestion,
    LeftParen,
    RightParen,
    LeftBrace,
    RightBrace,
    LeftBracket,
    RightBracket,
    Comma,
    SemiColon,
    Colon,
    DoubleColon,
    Period,
    Elvis,
    QuestionBracket,
    DoubleArrow,
}

impl OpToken {
    /// How the token is written.
    #[inline(always)]
    pub fn text(self) -> &'static str
        ensures { result.now ≡ token_text self }
    {
        match self {
            OpToken::True => "true",
            OpToken::False => "false",
            OpToken::Let => "let",
            OpToken::Const => "const",
            OpToken::If => "if",
            OpToken::Else => "else",
            OpToken::Switch => "switch",
            OpToken::Do => "do",
            OpToken::While => "while",
            OpToken::Until => "until",
            OpToken::Loop => "loop",
            OpToken::For => "for",
            OpToken::In => "in",
            OpToken::Fn => "fn",
            OpToken::Private => "private",
            OpToken::Import => "import",
            OpToken::Export => "export",
            OpToken::As => "as",
            OpToken::Return => "return",
            OpToken::Throw => "throw",
            OpToken::Break => "break",
            OpToken::Continue => "continue",
            OpToken::Try => "try",
            OpToken::Catch => "catch",
            OpToken::Global => "global",
            OpToken::Plus => "+",
            OpToken::Minus => "-",
            OpToken::Multiply => "*",
            OpToken::Divide => "/",
            OpToken::Modulo => "%",
            OpToken::PowerOf => "**",
            OpToken::LeftShift => "<<",
            OpToken::RightShift => ">>",
            OpToken::Ampersand => "&",
            OpToken::Pipe => "|",
            OpToken::XOr => "^",
            OpToken::EqualsTo => "==",
            OpToken::NotEqualsTo => "!=",
            OpToken::LessThan => "<",
            OpToken::LessThanEqualsTo => "<=",
            OpToken::GreaterThan => ">",
            OpToken::GreaterThanEqualsTo => ">=",
            OpToken::And => "&&",
            OpToken::Or => "||",
            OpToken::PlusAssign => "+=",
            OpToken::MinusAssign => "-=",
            OpToken::MultiplyAssign => "*=",
            OpToken::DivideAssign => "/=",
            OpToken::ModuloAssign => "%=",
            OpToken::PowerOfAssign => "**=",
            OpToken::LeftShiftAssign => "<<=",
            OpToken::RightShiftAssign => ">>=",
            OpToken::AndAssign => "&=",
            OpToken::OrAssign => "|=",
            OpToken::XOrAssign => "^=",
            OpToken::Equals => "=",
            OpToken::Bang => "!",
            OpToken::ExclusiveRange => "..",
            OpToken::InclusiveRange => "..=",
            OpToken::DoubleQuestion => "??",
            OpToken::LeftParen => "(",
            OpToken::RightParen => ")",
            OpToken::LeftBrace => "{",
            OpToken::RightBrace => "}",
            OpToken::LeftBracket => "[",
            OpToken::RightBracket => "]",
            OpToken::Comma => ",",
            OpToken::SemiColon => ";",
            OpToken::Colon => ":",
            OpToken::DoubleColon => "::",
            OpToken::Period => ".",
            OpToken::Elvis => "?.",
            OpToken::QuestionBracket => "?[",
            OpToken::DoubleArrow => "=>",
        }
    }

    /// Whether the token assigns what its operator answers, as `+=` does; `=` alone doesn't.
    pub fn is_op_assignment(self) -> bool
        ensures { result ≡ is_assignment self }
    {
        matches!(
            self,
            OpToken::PlusAssign
                | OpToken::MinusAssign
                | OpToken::MultiplyAssign
                | OpToken::DivideAssign
                | OpToken::ModuloAssign
                | OpToken::PowerOfAssign
                | OpToken::LeftShiftAssign
                | OpToken::RightShiftAssign
                | OpToken::AndAssign
                | OpToken::OrAssign
                | OpToken::XOrAssign
        )
    }
}

/// The words of so many bytes.
fn words(length: usize) -> &'static [OpToken]
    ensures { result.now ≡ filter (λ t. is_word_of length (token_text t)) all_tokens }
{
    match length {
        2 => &[
            OpToken::If,
            OpToken::Do,
            OpToken::In,
            OpToken::Fn,
            OpToken::As,
        ],
        3 => &[OpToken::Let, OpToken::For, OpToken::Try],
        4 => &[OpToken::True, OpToken::Else, OpToken::Loop],
        5 => &[
            OpToken::False,
            OpToken::Const,
            OpToken::While,
            OpToken::Until,
            OpToken::Throw,
            OpToken::Break,
            OpToken::Catch,
        ],
        6 => &[
            OpToken::Switch,
            OpToken::Import,
            OpToken::Export,
            OpToken::Return,
            OpToken::Global,
        ],
        7 => &[OpToken::Private],
        8 => &[OpToken::Continue],
        _ => &[],
    }
}

/// The symbols of so many bytes.
fn symbols(length: usize) -> &'static [OpToken]
    ensures { result.now ≡ filter (λ t. is_symbol_of length (token_text t)) all_tokens }
{
    match length {
        1 => &[
            OpToken::Plus,
            OpToken::Minus,
            OpToken::Multiply,
            OpToken::Divide,
            OpToken::Modulo,
            OpToken::Ampersand,
            OpToken::Pipe,
            OpToken::XOr,
            OpToken::LessThan,
            OpToken::GreaterThan,
            OpToken::Equals,
            OpToken::Bang,
            OpToken::LeftParen,
            OpToken::RightParen,
            OpToken::LeftBrace,
            OpToken::RightBrace,
            OpToken::LeftBracket,
            OpToken::RightBracket,
            OpToken::Comma,
            OpToken::SemiColon,
            OpToken::Colon,
            OpToken::Period,
        ],
        2 => &[
            OpToken::PowerOf,
            OpToken::LeftShift,
            OpToken::RightShift,
            OpToken::EqualsTo,
            OpToken::NotEqualsTo,
            OpToken::LessThanEqualsTo,
            OpToken::GreaterThanEqualsTo,
            OpToken::And,
            OpToken::Or,
            OpToken::PlusAssign,
            OpToken::MinusAssign,
            OpToken::MultiplyAssign,
            OpToken::DivideAssign,
            OpToken::ModuloAssign,
            OpToken::AndAssign,
            OpToken::OrAssign,
            OpToken::XOrAssign,
            OpToken::ExclusiveRange,
            OpToken::DoubleQuestion,
            OpToken::DoubleColon,
            OpToken::Elvis,
            OpToken::QuestionBracket,
            OpToken::DoubleArrow,
        ],
        3 => &[
            OpToken::PowerOfAssign,
            OpToken::LeftShiftAssign,
            OpToken::RightShiftAssign,
            OpToken::InclusiveRange,
        ],
        _ => &[],
    }
}

fn begins_with_letter(text: &[u8]) -> bool
    ensures { result ≡ begins_with_letter text.now }
{
    match text {
        [] => false,
        [first, ..] => first.is_ascii_alphabetic(),
    }
}

/// The tokens as long as a text, words or symbols: the one that is written so is among them.
fn candidates(syntax: &str) -> &'static [OpToken]
    ensures { find (λ t. bytes_eq (token_text t) syntax.now) result.now ≡ token_of syntax.now }
{
    if begins_with_letter(syntax.as_bytes()) {
        words(syntax.len())
    } else {
        symbols(syntax.len())
    }
}

/// Whether the token is written so. For most texts the first byte answers already.
fn is_written(token: OpToken, syntax: &str) -> bool
    ensures { result ≡ bytes_eq (token_text token) syntax.now }
{
    let text = token.text();
    text.as_bytes().first() == syntax.as_bytes().first() && text == syntax
}

/// The first of these tokens that is written so.
fn find_written(tokens: &[OpToken], syntax: &str) -> Option<OpToken>
    ensures { result ≡ find (λ t. bytes_eq (token_text t) syntax.now) tokens.now }
{
    tokens
        .iter()
        .copied()
        .find(|token| is_written(*token, syntax))
}

/// The token that is written so, if there is one.
pub fn lookup_symbol_from_syntax(syntax: &str) -> Option<OpToken>
    ensures { result ≡ token_of syntax.now }
{
    find_written(candidates(syntax), syntax)
}
