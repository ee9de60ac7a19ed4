//! Writing tokens.

ghost use Rattle.std.specs.Prelude.{◌≡◌, ◌++◌, ◌∷◌, [], OnOk, string_bytes};
ghost use Rattle.vx_ast.specs.Written.{name_of};
ghost use Rattle.vx_tokens.specs.Text.{sign_text};
ghost use Rattle.vx_tokens.specs.Tokens.{name, number, word, symbol};
ghost use Rattle.vx_print.specs.Words.{behind, word_text};

use std::alloc::AllocError;
use std::fmt::Write;
use vx_ast::Name;
use vx_tokens::{Symbol, Word};

pub fn word_text(word: Word) -> &'static str
    ensures { result.now ≡ word_text word }
{
    match word {
        Word::Method => "method",
        Word::Field => "field",
        Word::Predicate => "predicate",
        Word::Function => "function",
        Word::Returns => "returns",
        Word::Requires => "requires",
        Word::Ensures => "ensures",
        Word::Decreases => "decreases",
        Word::Int => "Int",
        Word::Bool => "Bool",
        Word::Ref => "Ref",
        Word::Perm => "Perm",
        Word::Var => "var",
        Word::If => "if",
        Word::Elseif => "elseif",
        Word::Else => "else",
        Word::While => "while",
        Word::Invariant => "invariant",
        Word::Inhale => "inhale",
        Word::Exhale => "exhale",
        Word::Assert => "assert",
        Word::Assume => "assume",
        Word::Fold => "fold",
        Word::Unfold => "unfold",
        Word::New => "new",
        Word::True => "true",
        Word::False => "false",
        Word::Null => "null",
        Word::Write => "write",
        Word::Nothing => "none",
        Word::Outcome => "result",
        Word::Old => "old",
        Word::Acc => "acc",
        Word::Unfolding => "unfolding",
        Word::In => "in",
        Word::Foreign => "forall",
    }
}

fn sign_text(symbol: Symbol) -> &'static str
    ensures { result.now ≡ sign_text symbol }
{
    match symbol {
        Symbol::Implies => "==>",
        Symbol::Wand => "--*",
        Symbol::Equal => "==",
        Symbol::NotEqual => "!=",
        Symbol::LessEqual => "<=",
        Symbol::GreaterEqual => ">=",
        Symbol::Becomes => ":=",
        Symbol::And => "&&",
        Symbol::Or => "||",
        Symbol::Open => "(",
        Symbol::Close => ")",
        Symbol::OpenBrace => "{",
        Symbol::CloseBrace => "}",
        Symbol::OpenBracket => "[",
        Symbol::Comma => ",",
        Symbol::Colon => ":",
        Symbol::Semicolon => ";",
        Symbol::Question => "?",
        Symbol::Not => "!",
        Symbol::Less => "<",
        Symbol::Greater => ">",
        Symbol::Plus => "+",
        Symbol::Minus => "-",
        Symbol::Times => "*",
        Symbol::Slash => "/",
        Symbol::Backslash => "\\",
        Symbol::Percent => "%",
        Symbol::Dot => ".",
        Symbol::At => "@",
    }
}

/// Writes a blank and the word.
pub fn put_word(out: &mut String, w: Word) -> Result<(), AllocError>
    ensures { OnOk result (string_bytes out.new ≡ behind (string_bytes out.old) (word w ∷ [])) }
{
    out.push(' ')?;
    out.push_str(word_text(w))
}

/// Writes a blank and the sign.
pub fn put_sign(out: &mut String, s: Symbol) -> Result<(), AllocError>
    ensures { OnOk result (string_bytes out.new ≡ behind (string_bytes out.old) (symbol s ∷ [])) }
{
    out.push(' ')?;
    out.push_str(sign_text(s))
}

/// Writes a blank and the text of a name.
pub fn put_text(out: &mut String, text: &str) -> Result<(), AllocError>
    ensures { OnOk result (string_bytes out.new ≡ behind (string_bytes out.old) (name text.now ∷ [])) }
{
    out.push(' ')?;
    out.push_str(text)
}

/// Writes a blank and the name.
pub fn put_name(out: &mut String, x: &Name) -> Result<(), AllocError>
    ensures { OnOk result (string_bytes out.new ≡ behind (string_bytes out.old) (name (name_of x.now).name ∷ [])) }
{
    put_text(out, &x.text)
}

/// Writes a blank and the numeral.
pub fn put_number(out: &mut String, n: u128) -> Result<(), AllocError>
    ensures { OnOk result (string_bytes out.new ≡ behind (string_bytes out.old) (number n ∷ [])) }
{
    write!(out, " {n}")?;
    Ok(())
}
