//! The words of terms and of commands.
ghost use Rattle.std.specs.Prelude.{◌≡◌};
ghost use Rattle.std.specs.Str.{bytes_eq};
ghost use Rattle.vx_terms.specs.Views.{operator};
ghost use Rattle.cs_commands.specs.Words.{term_word, operator_word, command_word};

use vx_terms::Operator;

/// What a word of a term is.
#[derive(Clone, Copy)]
pub enum Word {
    Truth(bool),
    Not,
    Ite,
    Minus,
    Slash,
    /// An operator of two parts or more, other than the minus.
    Operator(Operator),
    /// Any other word, which may name a symbol.
    Name,
}

/// What a command begins with.
#[derive(Clone, Copy)]
pub enum Verb {
    SetOption,
    SetLogic,
    DeclareSort,
    DeclareFun,
    Assert,
    Push,
    Pop,
    CheckSat,
    GetProof,
    Exit,
    Other,
}

fn is_word(text: &[u8], word: &str) -> bool
    ensures { result ≡ bytes_eq text.now word.now }
{
    text == word.as_bytes()
}

/// The operator of this word, if it is one.
fn operator_of(text: &[u8]) -> Word
    ensures { result ≡ operator_word text.now }
{
    if is_word(text, "and") {
        return Word::Operator(Operator::And);
    }
    if is_word(text, "or") {
        return Word::Operator(Operator::Or);
    }
    if is_word(text, "=>") {
        return Word::Operator(Operator::Implies);
    }
    if is_word(text, "=") {
        return Word::Operator(Operator::Equal);
    }
    if is_word(text, "<") {
        return Word::Operator(Operator::Less);
    }
    if is_word(text, "<=") {
        return Word::Operator(Operator::LessEqual);
    }
    if is_word(text, "+") {
        return Word::Operator(Operator::Add);
    }
    if is_word(text, "*") {
        return Word::Operator(Operator::Multiply);
    }
    if is_word(text, "div") {
        return Word::Operator(Operator::Div);
    }
    if is_word(text, "mod") {
        return Word::Operator(Operator::Mod);
    }
    Word::Name
}

/// What a word of a term is.
pub fn term_word(text: &[u8]) -> Word
    ensures { result ≡ term_word text.now }
{
    if is_word(text, "true") {
        return Word::Truth(true);
    }
    if is_word(text, "false") {
        return Word::Truth(false);
    }
    if is_word(text, "not") {
        return Word::Not;
    }
    if is_word(text, "ite") {
        return Word::Ite;
    }
    if is_word(text, "-") {
        return Word::Minus;
    }
    if is_word(text, "/") {
        return Word::Slash;
    }
    operator_of(text)
}

/// Which command the word begins.
pub fn command_word(text: &[u8]) -> Verb
    ensures { result ≡ command_word text.now }
{
    if is_word(text, "set-option") {
        return Verb::SetOption;
    }
    if is_word(text, "set-logic") {
        return Verb::SetLogic;
    }
    if is_word(text, "declare-sort") {
        return Verb::DeclareSort;
    }
    if is_word(text, "declare-fun") {
        return Verb::DeclareFun;
    }
    if is_word(text, "assert") {
        return Verb::Assert;
    }
    if is_word(text, "push") {
        return Verb::Push;
    }
    if is_word(text, "pop") {
        return Verb::Pop;
    }
    if is_word(text, "check-sat") {
        return Verb::CheckSat;
    }
    if is_word(text, "get-proof") {
        return Verb::GetProof;
    }
    if is_word(text, "exit") {
        return Verb::Exit;
    }
    Verb::Other
}
