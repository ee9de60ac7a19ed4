//! Terms read from their tokens, from left to right. The lists that are open stand in a `Vec`.
ghost use Rattle.std.specs.Prelude.{◌≡◌, ◌∷◌, ℕ, List, [], OnOk, MatchOption};
ghost use Rattle.vx_sexp.specs.declared.token.Kind.TheVariants.{Decimal};
ghost use Rattle.vx_sexp.specs.declared.token.Token.TheVariants.{Open, Close, Atom};
ghost use Rattle.vx_terms.specs.Views.{term};
ghost use Rattle.cs_commands.specs.Outcomes.{Gives};
ghost use Rattle.cs_commands.specs.Words.{term_word};
ghost use Rattle.cs_commands.specs.Terms as clean;
ghost use Rattle.cs_commands.specs.Views.{scope, head, frame, stack, StepGives, PlaceGives, Shortens};

use crate::build::{built, constant};
use crate::fault::CommandFault;
use crate::head::{Head, head_at};
use crate::live::{Live, declaration};
use crate::number::number_below;
use crate::word::{Word, term_word};
use cs_reader::{Scope, Stop, spelled};
use std::alloc::{AllocError, Global};
use std::rc::Rc;
use vx_sexp::{Kind, Token};
use vx_terms::Term;

/// A list that isn't closed yet, with its parts so far.
#[derive(Drop)]
pub struct Frame<'d> {
    pub head: Head<'d>,
    pub parts: Vec<Rc<Term>>,
    /// Whether each part is a decimal.
    pub decimals: bool,
}

/// What a token leads to: the whole term and what follows it, or further tokens within the open lists.
#[derive(Drop)]
pub enum Step<'t> {
    Whole(Rc<Term>, &'t [Token]),
    On(&'t [Token]),
}

#[tactic(auto, using(crate::proofs::Stacks::stack_more))]
fn put_frame<'d>(frames: &mut Vec<Frame<'d>>, one: Frame<'d>) -> Result<(), AllocError>
    ensures { OnOk result (stack frames.new.items ≡ frame one.entry ∷ stack frames.old.items) }
{
    frames.push(one)?;
    Ok(())
}

#[tactic(auto, using(crate::proofs::Stacks::stack_more))]
fn take_frame<'d>(frames: &mut Vec<Frame<'d>>) -> Option<Frame<'d>>
    ensures { MatchOption result (stack frames.old.items ≡ []) (λ one. stack frames.old.items ≡ frame one ∷ stack frames.new.items) }
{
    frames.pop()
}

/// A numeral.
fn numeral(alloc: Global, text: &[u8]) -> Result<Rc<Term>, CommandFault>
    ensures { Gives (λ t. term t.value) result (clean.numeral text.now) }
{
    match number_below(1 << 127, text) {
        Some(number) => Ok(Rc::new(alloc, Term::Number(number as i128))?),
        None => Err(CommandFault::Wide),
    }
}

/// A decimal, which is the one token.
#[tactic(auto, using(crate::proofs::Leaves::one_spelled))]
fn decimal(alloc: Global, one: &[Token]) -> Result<Rc<Term>, CommandFault>
    ensures { (x : List ℕ) → one.now ≡ Atom Decimal x ∷ [] → Gives (λ t. term t.value) result (clean.part x) }
{
    match spelled(alloc, &Scope::Any, one) {
        Ok(t) => Ok(t),
        Err(Stop::Form) => Err(CommandFault::Wide),
        Err(Stop::Want) => Err(CommandFault::Want),
    }
}

/// A word alone.
fn alone(alloc: Global, live: &Live<'_, '_>, name: &[u8]) -> Result<Rc<Term>, CommandFault>
    ensures { Gives (λ t. term t.value) result (clean.alone (scope live.now) name.now (term_word name.now)) }
{
    match term_word(name) {
        Word::Truth(holds) => Ok(Rc::new(alloc, Term::Truth(holds))?),
        Word::Name => {
            let declared = declaration(alloc, live, name)?;
            match declared {
                Some(by) => constant(alloc, by),
                None => Err(CommandFault::Name),
            }
        }
        Word::Not | Word::Ite | Word::Minus | Word::Slash | Word::Operator(_) => Err(
            CommandFault::Sort,
        ),
    }
}

/// The term of an atom.
fn leaf(
    alloc: Global,
    live: &Live<'_, '_>,
    kind: Kind,
    name: &[u8],
    one: &[Token],
) -> Result<Rc<Term>, CommandFault>
    requires { one.now ≡ Atom kind name.now ∷ [] }
    ensures { Gives (λ t. term t.value) result (clean.leaf (scope live.now) kind name.now) }
{
    match kind {
        Kind::Numeral => numeral(alloc, name),
        Kind::Decimal => decimal(alloc, one),
        Kind::Symbol => alone(alloc, live, name),
        Kind::Hexadecimal => Err(CommandFault::Name),
        Kind::Binary => Err(CommandFault::Name),
        Kind::Keyword => Err(CommandFault::Name),
        Kind::Quoted => Err(CommandFault::Name),
        Kind::Text => Err(CommandFault::Name),
    }
}

fn is_decimal(kind: Kind) -> bool
    ensures { result ≡ clean.is_decimal kind }
{
    match kind {
        Kind::Decimal => true,
        Kind::Numeral
        | Kind::Hexadecimal
        | Kind::Binary
        | Kind::Symbol
        | Kind::Keyword
        | Kind::Quoted
        | Kind::Text => false,
    }
}

/// Puts a term where it belongs: it is the whole, or the next part of the innermost open list.
fn place<'d, 't>(
    frames: &mut Vec<Frame<'d>>,
    decimal: bool,
    t: Rc<Term>,
    rest: &'t [Token],
) -> Result<Step<'t>, CommandFault>
    ensures placed { PlaceGives result (stack frames.new.items) rest.now (clean.placed decimal (term t.value) (stack frames.old.items)) }
{
    match take_frame(frames) {
        None => Ok(Step::Whole(t, rest)),
        Some(mut frame) => {
            frame.parts.push(t)?;
            frame.decimals = frame.decimals && decimal;
            put_frame(frames, frame)?;
            Ok(Step::On(rest))
        }
    }
}

/// A list begins, with this head.
fn begin<'d>(alloc: Global, frames: &mut Vec<Frame<'d>>, of: Head<'d>) -> Result<(), AllocError>
    ensures { OnOk result (stack frames.new.items ≡ clean.opened (head of.entry) ∷ stack frames.old.items) }
{
    let parts = Vec::new(alloc);
    put_frame(
        frames,
        Frame {
            head: of,
            parts,
            decimals: true,
        },
    )
}

/// A list begins.
fn open<'d, 't>(
    alloc: Global,
    live: &Live<'_, 'd>,
    frames: &mut Vec<Frame<'d>>,
    rest: &'t [Token],
) -> Result<Step<'t>, CommandFault>
    ensures read { StepGives (scope live.now) result (stack frames.new.items) (clean.term_from (scope live.now) (stack frames.old.items) (Open ∷ rest.now)) }
    ensures falls { Shortens result (Open ∷ rest.now) }
{
    match rest.split_first() {
        None => Err(CommandFault::Sort),
        Some((first, behind)) => {
            let head = head_at(alloc, live, first)?;
            begin(alloc, frames, head)?;
            Ok(Step::On(behind))
        }
    }
}

/// A list ends.
fn close<'d, 't>(
    alloc: Global,
    live: &Live<'_, 'd>,
    frames: &mut Vec<Frame<'d>>,
    rest: &'t [Token],
) -> Result<Step<'t>, CommandFault>
    ensures read { StepGives (scope live.now) result (stack frames.new.items) (clean.term_from (scope live.now) (stack frames.old.items) (Close ∷ rest.now)) }
    ensures falls { Shortens result (Close ∷ rest.now) }
{
    match take_frame(frames) {
        None => Err(CommandFault::Sort),
        Some(frame) => {
            let t = built(alloc, frame.head, frame.decimals, &frame.parts)?;
            place(frames, false, t, rest)
        }
    }
}

/// What the next token leads to.
fn go_on<'d, 't>(
    alloc: Global,
    live: &Live<'_, 'd>,
    frames: &mut Vec<Frame<'d>>,
    tokens: &'t [Token],
) -> Result<Step<'t>, CommandFault>
    ensures read { StepGives (scope live.now) result (stack frames.new.items) (clean.term_from (scope live.now) (stack frames.old.items) tokens.now) }
    ensures falls { Shortens result tokens.now }
{
    match tokens.split_first() {
        None => Err(CommandFault::Sort),
        Some((Token::Open, rest)) => open(alloc, live, frames, rest),
        Some((Token::Close, rest)) => close(alloc, live, frames, rest),
        Some((Token::Atom(kind, name), rest)) => {
            let t = leaf(alloc, live, *kind, name.as_slice(), &tokens[..1])?;
            place(frames, is_decimal(*kind), t, rest)
        }
    }
}

/// The term that the tokens begin with, and what follows it.
///
/// # Errors
/// The first fault, or want of memory.
pub fn term_at<'t>(
    alloc: Global,
    live: &Live<'_, '_>,
    tokens: &'t [Token],
) -> Result<(Rc<Term>, &'t [Token]), CommandFault>
    ensures { Gives (λ x. (term x.0.value, x.1.now)) result (clean.term_from (scope live.now) [] tokens.now) }
{
    let mut frames = Vec::new(alloc);
    let mut rest = tokens;
    loop {
        match go_on(alloc, live, &mut frames, rest) {
            Ok(next) => match next {
                Step::Whole(t, behind) => return Ok((t, behind)),
                Step::On(behind) => rest = behind,
            },
            Err(fault) => return Err(fault),
        }
    }
}
