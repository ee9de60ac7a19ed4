// The text of a command.
ghost use Rattle.std.specs.Prelude.{◌≡◌, ◌∷◌, ◌++◌, ◌<◌, ◌+◌, ◌^◌, ℕ, suc, List, [], OnOk, OnErr, ℤ, nat_abs, map};
ghost use Rattle.vx_frac.specs.Fraction.{fraction};
ghost use Rattle.vx_terms.specs.Views.{sort, symbol, operator, term, terms};
ghost use Rattle.vx_smt_meaning.specs.Commands as Spec;
ghost use Rattle.vx_smt_meaning.specs.Views.{command, declared_symbol};
ghost use Rattle.vx_smt_meaning.specs.Words.{digits, numeral, decimal, sort_word, symbol_word, operator_word, truth_word};
ghost use Rattle.vx_terms.specs.Sorts as Written;
ghost use Rattle.vx_smt_text.specs.Small.{IsSmallSymbol, IsSmallCommand};
ghost use Rattle.vx_smt_text.specs.Unique.{IsReadable, SpellsOnly};
ghost use Rattle.vx_smt_text.specs.Text.{quotient_text, signed_text, sorts_text, more_sorts, front_text, command_text, set_option_head, set_logic_head, declare_sort_head, declare_fun_head};

use crate::terms::put_term;
use std::alloc::{AllocError, Global};
use vx_frac::Frac;
use vx_smt_meaning::{Command, Declared};
use vx_terms::{Operator, Sort, Symbol};

#[tactic(auto, using(crate::proofs::Digits::digits_none, crate::proofs::Digits::digits_more))]
fn put_digits(text: &mut Vec<u8>, n: u128) -> Result<(), AllocError>
    ensures { OnOk result (text.new.items ≡ text.old.items ++ digits n) }
{
    if n > 0 {
        put_digits(text, n / 10)?;
        text.push(b'0' + (n % 10) as u8)?;
    }
    Ok(())
}

/// Writes a numeral at the end. After want of memory some of it may be written.
#[tactic(auto, unfolding(vx_smt_meaning::specs::Words::numeral))]
pub fn put_numeral(text: &mut Vec<u8>, n: u128) -> Result<(), AllocError>
    ensures { OnOk result (text.new.items ≡ text.old.items ++ numeral n) }
{
    if n == 0 {
        text.push(b'0')?;
        Ok(())
    } else {
        put_digits(text, n)
    }
}

#[tactic(auto, unfolding(vx_smt_meaning::specs::Words::decimal))]
fn put_decimal(text: &mut Vec<u8>, n: u128) -> Result<(), AllocError>
    ensures { OnOk result (text.new.items ≡ text.old.items ++ decimal n) }
{
    put_numeral(text, n)?;
    text.extend_from_slice(b".0")?;
    Ok(())
}

fn put_sort(text: &mut Vec<u8>, a: &Sort) -> Result<(), AllocError>
    ensures { OnOk result (text.new.items ≡ text.old.items ++ sort_word (sort a.now)) }
{
    match a {
        Sort::Int => text.extend_from_slice(b"Int")?,
        Sort::Bool => text.extend_from_slice(b"Bool")?,
        Sort::Real => text.extend_from_slice(b"Real")?,
        Sort::Ref => text.extend_from_slice(b"Ref")?,
        Sort::Snap => text.extend_from_slice(b"Snap")?,
        Sort::Other(x) => text.extend_from_slice(x.as_bytes())?,
    }
    Ok(())
}

fn put_lettered(text: &mut Vec<u8>, letter: u8, n: u64) -> Result<(), AllocError>
    ensures { OnOk result (text.new.items ≡ text.old.items ++ (letter ∷ numeral n)) }
{
    text.push(letter)?;
    put_numeral(text, u128::from(n))
}

pub(crate) fn put_symbol(text: &mut Vec<u8>, f: &Symbol) -> Result<(), AllocError>
    ensures text { OnOk result (text.new.items ≡ text.old.items ++ symbol_word (symbol f.now)) }
    ensures small { OnOk result (IsSmallSymbol (symbol f.now)) }
{
    match f {
        Symbol::Standard(n) => put_lettered(text, b's', u64::from(*n)),
        Symbol::Function(n) => put_lettered(text, b'f', u64::from(*n)),
        Symbol::Variable(n) => put_lettered(text, b'v', *n),
        Symbol::Named(x) => {
            text.extend_from_slice(x.as_bytes())?;
            Ok(())
        }
    }
}

pub(crate) fn put_operator(text: &mut Vec<u8>, o: Operator) -> Result<(), AllocError>
    ensures { OnOk result (text.new.items ≡ text.old.items ++ operator_word (operator o)) }
{
    match o {
        Operator::And => text.extend_from_slice(b"and")?,
        Operator::Or => text.extend_from_slice(b"or")?,
        Operator::Implies => text.extend_from_slice(b"=>")?,
        Operator::Equal => text.extend_from_slice(b"=")?,
        Operator::Less => text.extend_from_slice(b"<")?,
        Operator::LessEqual => text.extend_from_slice(b"<=")?,
        Operator::Add => text.extend_from_slice(b"+")?,
        Operator::Subtract => text.extend_from_slice(b"-")?,
        Operator::Multiply => text.extend_from_slice(b"*")?,
        Operator::Div => text.extend_from_slice(b"div")?,
        Operator::Mod => text.extend_from_slice(b"mod")?,
    }
    Ok(())
}

fn put_quotient(text: &mut Vec<u8>, p: u128, below: u128) -> Result<(), AllocError>
    requires { below + 1 < 2 ^ 128 }
    ensures { OnOk result (text.new.items ≡ text.old.items ++ quotient_text p below) }
{
    if below == 0 {
        put_decimal(text, p)
    } else {
        text.extend_from_slice(b"(/ ")?;
        put_decimal(text, p)?;
        text.push(b' ')?;
        put_decimal(text, below + 1)?;
        text.push(b')')?;
        Ok(())
    }
}

/// Writes a whole number at the end: a numeral, or one behind a minus. After want of memory some of it may be written.
pub fn put_number(text: &mut Vec<u8>, z: i128) -> Result<(), AllocError>
    ensures { OnOk result (text.new.items ≡ text.old.items ++ signed_text z numeral) }
{
    if z < 0 {
        text.extend_from_slice(b"(- ")?;
        put_numeral(text, z.unsigned_abs())?;
        text.push(b')')?;
        Ok(())
    } else {
        put_numeral(text, z.unsigned_abs())
    }
}

pub(crate) fn put_part(text: &mut Vec<u8>, part: Frac) -> Result<(), AllocError>
    ensures text { OnOk result (text.new.items ≡ text.old.items ++ signed_text part.num (λ p. quotient_text p (fraction part).below)) }
    ensures small { OnOk result (suc (fraction part).below < 2 ^ 127) }
{
    let below = part.den().unsigned_abs() - 1;
    if part.num() < 0 {
        text.extend_from_slice(b"(- ")?;
        put_quotient(text, part.num().unsigned_abs(), below)?;
        text.push(b')')?;
        Ok(())
    } else {
        put_quotient(text, part.num().unsigned_abs(), below)
    }
}

fn put_more_sorts(text: &mut Vec<u8>, sorts: &[Sort]) -> Result<(), AllocError>
    ensures { OnOk result (text.new.items ≡ text.old.items ++ more_sorts (map sort sorts.now)) }
{
    for a in sorts {
        text.push(b' ')?;
        put_sort(text, a)?;
    }
    Ok(())
}

fn put_sorts(text: &mut Vec<u8>, sorts: &[Sort]) -> Result<(), AllocError>
    ensures { OnOk result (text.new.items ≡ text.old.items ++ sorts_text (map sort sorts.now)) }
{
    if sorts.is_empty() {
        return Ok(());
    }
    put_sort(text, &sorts[0])?;
    put_more_sorts(text, &sorts[1..])
}

fn put_truth(text: &mut Vec<u8>, b: bool) -> Result<(), AllocError>
    ensures { OnOk result (text.new.items ≡ text.old.items ++ truth_word b) }
{
    if b {
        text.extend_from_slice(b"true")
    } else {
        text.extend_from_slice(b"false")
    }
}

#[tactic(auto, unfolding(crate::specs::Text::set_option_head))]
fn put_set_option_head(text: &mut Vec<u8>) -> Result<(), AllocError>
    ensures { OnOk result (text.new.items ≡ text.old.items ++ set_option_head) }
{
    text.extend_from_slice(b"(set-option ")
}

#[tactic(auto, unfolding(crate::specs::Text::set_logic_head))]
fn put_set_logic_head(text: &mut Vec<u8>) -> Result<(), AllocError>
    ensures { OnOk result (text.new.items ≡ text.old.items ++ set_logic_head) }
{
    text.extend_from_slice(b"(set-logic ")
}

#[tactic(auto, unfolding(crate::specs::Text::declare_sort_head))]
fn put_declare_sort_head(text: &mut Vec<u8>) -> Result<(), AllocError>
    ensures { OnOk result (text.new.items ≡ text.old.items ++ declare_sort_head) }
{
    text.extend_from_slice(b"(declare-sort ")
}

#[tactic(auto, unfolding(crate::specs::Text::declare_fun_head))]
fn put_declare_fun_head(text: &mut Vec<u8>) -> Result<(), AllocError>
    ensures { OnOk result (text.new.items ≡ text.old.items ++ declare_fun_head) }
{
    text.extend_from_slice(b"(declare-fun ")
}

fn put_set_option(text: &mut Vec<u8>, x: &[u8], b: bool) -> Result<(), AllocError>
    ensures { OnOk result (text.new.items ≡ text.old.items ++ front_text (Spec.SetOption x.now b)) }
{
    put_set_option_head(text)?;
    text.extend_from_slice(x)?;
    text.push(b' ')?;
    put_truth(text, b)
}

fn put_set_logic(text: &mut Vec<u8>, x: &[u8]) -> Result<(), AllocError>
    ensures { OnOk result (text.new.items ≡ text.old.items ++ front_text (Spec.SetLogic x.now)) }
{
    put_set_logic_head(text)?;
    text.extend_from_slice(x)
}

fn put_declare_sort(text: &mut Vec<u8>, x: &[u8]) -> Result<(), AllocError>
    ensures { OnOk result (text.new.items ≡ text.old.items ++ front_text (Spec.DeclareSort x.now)) }
{
    put_declare_sort_head(text)?;
    text.extend_from_slice(x)?;
    text.extend_from_slice(b" 0")
}

fn put_declare_fun(text: &mut Vec<u8>, d: &Declared) -> Result<(), AllocError>
    ensures text { OnOk result (text.new.items ≡ text.old.items ++ front_text (Spec.DeclareFun (declared_symbol d.now))) }
    ensures small { OnOk result (IsSmallSymbol (declared_symbol d.now).symbol) }
{
    put_declare_fun_head(text)?;
    put_symbol(text, &d.symbol)?;
    text.extend_from_slice(b" (")?;
    put_sorts(text, &d.takes)?;
    text.extend_from_slice(b") ")?;
    put_sort(text, &d.gives)
}

fn put_front(alloc: Global, text: &mut Vec<u8>, c: &Command) -> Result<(), AllocError>
    ensures text { OnOk result (text.new.items ≡ text.old.items ++ front_text (command c.now)) }
    ensures small { OnOk result (IsSmallCommand (command c.now)) }
{
    match c {
        Command::SetOption(x, b) => put_set_option(text, x.as_bytes(), *b)?,
        Command::SetLogic(x) => put_set_logic(text, x.as_bytes())?,
        Command::DeclareSort(x) => put_declare_sort(text, x.as_bytes())?,
        Command::DeclareFun(d) => put_declare_fun(text, d)?,
        Command::Assert(t) => {
            text.extend_from_slice(b"(assert ")?;
            put_term(alloc, text, t)?;
        }
        Command::Push(n) => {
            text.extend_from_slice(b"(push ")?;
            put_numeral(text, u128::from(*n))?;
        }
        Command::Pop(n) => {
            text.extend_from_slice(b"(pop ")?;
            put_numeral(text, u128::from(*n))?;
        }
        Command::CheckSat => text.extend_from_slice(b"(check-sat")?,
        Command::GetProof => text.extend_from_slice(b"(get-proof")?,
        Command::Exit => text.extend_from_slice(b"(exit")?,
    }
    Ok(())
}

/// Writes a command at the end, and a line feed. After want of memory nothing is written.
#[tactic(auto, using(crate::proofs::Once::put_only))]
pub fn write(alloc: Global, c: &Command, out: &mut Vec<u8>) -> Result<(), AllocError>
    ensures ok { OnOk result (out.new.items ≡ out.old.items ++ command_text (command c.now)) }
    ensures only { OnOk result ((sorts : Written.Symbol → Written.Sort) → IsReadable sorts (command c.now)
        → (text : List ℕ) × (out.new.items ≡ out.old.items ++ text) × SpellsOnly sorts text (command c.now ∷ [])) }
    ensures small { OnOk result (IsSmallCommand (command c.now)) }
    ensures err { OnErr result (out.new.items ≡ out.old.items) }
{
    let mut text = Vec::new(alloc);
    put_front(alloc, &mut text, c)?;
    text.extend_from_slice(b")\n")?;
    out.extend_from_slice(&text)
}
