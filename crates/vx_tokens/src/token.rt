//! Tokens.

use vx_ast::Place;

/// A reserved word.
#[derive(Clone, Copy)]
pub enum Word {
    Method,
    Field,
    Predicate,
    Function,
    Returns,
    Requires,
    Ensures,
    Decreases,
    Int,
    Bool,
    Ref,
    Perm,
    Var,
    If,
    Elseif,
    Else,
    While,
    Invariant,
    Inhale,
    Exhale,
    Assert,
    Assume,
    Fold,
    Unfold,
    New,
    True,
    False,
    Null,
    Write,
    /// `none`
    Nothing,
    /// `result`
    Outcome,
    Old,
    Acc,
    Unfolding,
    In,
    /// A word of Viper that this language leaves out.
    Foreign,
}

/// A token made of signs.
#[derive(Clone, Copy)]
pub enum Symbol {
    Implies,
    /// `--*`
    Wand,
    Equal,
    NotEqual,
    LessEqual,
    GreaterEqual,
    Becomes,
    And,
    Or,
    Open,
    Close,
    OpenBrace,
    CloseBrace,
    OpenBracket,
    Comma,
    Colon,
    Semicolon,
    Question,
    Not,
    Less,
    Greater,
    Plus,
    Minus,
    Times,
    Slash,
    Backslash,
    Percent,
    Dot,
    At,
}

/// What a token is. A number is at most 2^127 - 1.
#[derive(Clone, Copy)]
pub enum Kind<'t> {
    Name(&'t str),
    Number(u128),
    Word(Word),
    Symbol(Symbol),
}

/// A token of a text, where it begins, and the bytes that spell it.
#[derive(Clone, Copy)]
pub struct Token<'t> {
    pub kind: Kind<'t>,
    pub place: Place,
    pub text: &'t [u8],
}
