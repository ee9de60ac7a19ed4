//! Reading expressions.

ghost use Rattle.std.specs.Prelude.{◌≡◌, ◌≤◌, ◌<◌, ◌-◌, IfOk, ◌∷◌, [], length};
ghost use Rattle.vx_tokens.specs.Tokens.{kind_of, token_of, tokens_in};
ghost use Rattle.vx_ast.specs.Written.{placed, written_all, written_expr, written_optional};
ghost use Rattle.vx_grammar.specs.Reading as reading;
ghost use Rattle.vx_expr_parser.specs.Gives.{Gives};
ghost use Rattle.vx_expr_parser.specs.Parts.{behind_operator, prefixed_by};
ghost use Rattle.vx_expr_parser.specs.Views.{exprs_of, access_of, instance_of};

use crate::dots::dots;
use crate::made::{accessed, applied, chosen, joined, leaf, old, prefixed, unfolded, variable};
use crate::names::name;
use crate::operators::{level_of, operator_of};
use crate::reading::{Read, closed, expect, is_symbol, same};
use crate::stop::Stop;
use std::alloc::{AllocError, Global};
use std::rc::Rc;
use vx_ast::{BinaryOperator, Expr, ExprKind, Instance, Name, Place, UnaryOperator};
use vx_tokens::{Kind, Symbol, Token, Word};

/// What `acc` holds, and how much of it.
#[derive(Drop)]
struct Access {
    held: Expr,
    amount: Option<Rc<Expr>>,
}

/// An expression that may nest room deeper.
#[cycle(expr)]
#[tactic(auto, unfolding(vx_grammar::specs::Reading::choice_at, vx_grammar::specs::Reading::chosen_by))]
pub fn choice<'t>(alloc: Global, room: u32, tokens: &'t [Token<'t>]) -> Read<'t, Expr>
    requires { room < 1000 }
    ensures { Gives (λ x. (written_expr x.0, tokens_in x.1.now)) result (reading.choice_at (reading.below room) (tokens_in tokens.now)) }
{
    let Some(first) = tokens.first() else {
        return Err(Stop::Unexpected(tokens));
    };
    let (condition, rest) = implication(alloc, room, tokens)?;
    match rest.split_first() {
        Some((question, inner)) if is_symbol(Symbol::Question, question.kind) => {
            let condition = Rc::new(alloc, condition)?;
            sides(alloc, room, first.place, condition, question, rest, inner)
        }
        _ => Ok((condition, rest)),
    }
}

// The sides of a choice, behind its condition and the question mark at which `here` begins.
#[cycle(expr)]
#[tactic(auto, unfolding(vx_grammar::specs::Reading::sides_by))]
fn sides<'t>(
    alloc: Global,
    room: u32,
    place: Place,
    condition: Rc<Expr>,
    question: &'t Token<'t>,
    here: &'t [Token<'t>],
    tokens: &'t [Token<'t>],
) -> Read<'t, Expr>
    requires room { room < 1000 }
    requires first { tokens_in here.now ≡ token_of question.now ∷ tokens_in tokens.now }
    ensures { Gives (λ x. (written_expr x.0, tokens_in x.1.now)) result
        (reading.sides_by (reading.below room) place (written_expr condition.value) (token_of question.now) (tokens_in tokens.now)) }
{
    let (left, rest) = shared_choice(alloc, room, here, tokens)?;
    let (right, rest) = second(alloc, room, rest)?;
    Ok((chosen(place, condition, left, right), rest))
}

// A colon, and the side behind it.
#[cycle(expr)]
#[tactic(auto, unfolding(vx_grammar::specs::Reading::second_by))]
fn second<'t>(alloc: Global, room: u32, tokens: &'t [Token<'t>]) -> Read<'t, Rc<Expr>>
    requires { room < 1000 }
    ensures { Gives (λ x. (written_expr x.0.value, tokens_in x.1.now)) result (reading.second_by (reading.below room) (tokens_in tokens.now)) }
{
    let (_, inner) = expect(Symbol::Colon, tokens)?;
    shared_choice(alloc, room, tokens, inner)
}

#[cycle(expr)]
#[tactic(auto, unfolding(vx_grammar::specs::Reading::implication_at, vx_grammar::specs::Reading::implied_by))]
fn implication<'t>(alloc: Global, room: u32, tokens: &'t [Token<'t>]) -> Read<'t, Expr>
    requires { room < 1000 }
    ensures { Gives (λ x. (written_expr x.0, tokens_in x.1.now)) result (reading.implication_at (reading.below room) (tokens_in tokens.now)) }
{
    let Some(first) = tokens.first() else {
        return Err(Stop::Unexpected(tokens));
    };
    let (left, rest) = chain(alloc, room, 6, tokens)?;
    match rest.split_first() {
        Some((arrow, inner)) if is_symbol(Symbol::Implies, arrow.kind) => {
            implied(alloc, room, first.place, left, arrow, rest, inner)
        }
        _ => Ok((left, rest)),
    }
}

// What an implication leads to, behind its left side and the arrow at which `here` begins.
#[cycle(expr)]
#[tactic(auto, unfolding(vx_grammar::specs::Reading::implies_by))]
fn implied<'t>(
    alloc: Global,
    room: u32,
    place: Place,
    left: Expr,
    arrow: &'t Token<'t>,
    here: &'t [Token<'t>],
    tokens: &'t [Token<'t>],
) -> Read<'t, Expr>
    requires room { room < 1000 }
    requires first { tokens_in here.now ≡ token_of arrow.now ∷ tokens_in tokens.now }
    ensures { Gives (λ x. (written_expr x.0, tokens_in x.1.now)) result
        (reading.implies_by (reading.below room) place (written_expr left) (token_of arrow.now) (tokens_in tokens.now)) }
{
    let left = Rc::new(alloc, left)?;
    let (right, rest) = nested_implication(alloc, room, here, tokens)?;
    let right = Rc::new(alloc, right)?;
    let whole = joined(place, BinaryOperator::Implies, left, right);
    Ok((whole, rest))
}

// A chain of operators of the level, or of what binds tighter.
#[cycle(expr)]
#[tactic(auto, unfolding(vx_grammar::specs::Reading::chain_at))]
fn chain<'t>(alloc: Global, room: u32, level: u32, tokens: &'t [Token<'t>]) -> Read<'t, Expr>
    requires room { room < 1000 }
    requires level { level ≤ 6 }
    ensures { Gives (λ x. (written_expr x.0, tokens_in x.1.now)) result (reading.chain_at (reading.below room) level (tokens_in tokens.now)) }
{
    if level == 0 {
        return unary(alloc, room, tokens);
    }
    let Some(first) = tokens.first() else {
        return Err(Stop::Unexpected(tokens));
    };
    let (left, rest) = chain(alloc, room, level - 1, tokens)?;
    rest_of_chain(alloc, room, level, first.place, left, rest)
}

#[cycle(expr)]
#[tactic(auto, unfolding(vx_grammar::specs::Reading::rest_at, vx_grammar::specs::Reading::rest_by))]
fn rest_of_chain<'t>(
    alloc: Global,
    room: u32,
    level: u32,
    place: Place,
    left: Expr,
    tokens: &'t [Token<'t>],
) -> Read<'t, Expr>
    requires room { room < 1000 }
    requires low { 1 ≤ level }
    requires level { level ≤ 6 }
    ensures { Gives (λ x. (written_expr x.0, tokens_in x.1.now)) result (reading.rest_at (reading.below room) (level - 1) place (written_expr left) (tokens_in tokens.now)) }
{
    let Some((first, inner)) = tokens.split_first() else {
        return Ok((left, tokens));
    };
    match operator_of(first.kind) {
        Some(op) if level_of(op) == level => {
            operated(alloc, room, level, place, left, op, first, tokens, inner)
        }
        _ => Ok((left, tokens)),
    }
}

// What stands behind an operator of the level, at which `here` begins.
#[cycle(expr)]
#[tactic(auto, unfolding(vx_grammar::specs::Reading::operator_by))]
fn operated<'t>(
    alloc: Global,
    room: u32,
    level: u32,
    place: Place,
    left: Expr,
    op: BinaryOperator,
    first: &'t Token<'t>,
    here: &'t [Token<'t>],
    tokens: &'t [Token<'t>],
) -> Read<'t, Expr>
    requires room { room < 1000 }
    requires low { 1 ≤ level }
    requires level { level ≤ 6 }
    requires first { tokens_in here.now ≡ token_of first.now ∷ tokens_in tokens.now }
    ensures { Gives (λ x. (written_expr x.0, tokens_in x.1.now)) result
        (reading.operator_by (reading.below room) (level - 1) place (written_expr left) (token_of first.now) (tokens_in tokens.now) op) }
{
    let left = Rc::new(alloc, left)?;
    match room.checked_sub(1) {
        Some(less) => further(alloc, less, level, place, left, op, tokens),
        None => Err(Stop::TooDeep(here)),
    }
}

// The right side of an operator of the level, and further ones.
#[cycle(expr)]
fn further<'t>(
    alloc: Global,
    room: u32,
    level: u32,
    place: Place,
    left: Rc<Expr>,
    op: BinaryOperator,
    tokens: &'t [Token<'t>],
) -> Read<'t, Expr>
    requires room { room < 1000 }
    requires low { 1 ≤ level }
    requires level { level ≤ 6 }
    ensures { Gives (λ x. (written_expr x.0, tokens_in x.1.now)) result (behind_operator (reading.below room) (level - 1) place (written_expr left.value) op (tokens_in tokens.now)) }
{
    let (right, rest) = chain(alloc, room, level - 1, tokens)?;
    let left = joined(place, op, left, Rc::new(alloc, right)?);
    rest_of_chain(alloc, room, level, place, left, rest)
}

#[cycle(expr)]
#[tactic(auto, unfolding(vx_grammar::specs::Reading::unary_at, vx_grammar::specs::Reading::unary_by))]
fn unary<'t>(alloc: Global, room: u32, tokens: &'t [Token<'t>]) -> Read<'t, Expr>
    requires { room < 1000 }
    ensures { Gives (λ x. (written_expr x.0, tokens_in x.1.now)) result (reading.unary_at (reading.below room) (tokens_in tokens.now)) }
{
    let Some((first, inner)) = tokens.split_first() else {
        return Err(Stop::Unexpected(tokens));
    };
    let place = first.place;
    match first.kind {
        Kind::Symbol(Symbol::Not) => {
            operand(alloc, room, place, UnaryOperator::Not, tokens, inner)
        }
        Kind::Symbol(Symbol::Minus) => {
            operand(alloc, room, place, UnaryOperator::Negate, tokens, inner)
        }
        Kind::Word(Word::Unfolding) => unfolding(alloc, room, first, inner),
        _ => postfix(alloc, room, first, tokens, inner),
    }
}

// The operand of a prefix, at which `here` begins.
#[cycle(expr)]
fn operand<'t>(
    alloc: Global,
    room: u32,
    place: Place,
    op: UnaryOperator,
    here: &'t [Token<'t>],
    tokens: &'t [Token<'t>],
) -> Read<'t, Expr>
    requires { room < 1000 }
    ensures { Gives (λ x. (written_expr x.0, tokens_in x.1.now)) result (prefixed_by place op (reading.below room (reading.chain 0) (tokens_in here.now) (tokens_in tokens.now))) }
{
    let (e, rest) = nested_operand(alloc, room, here, tokens)?;
    Ok((prefixed(alloc, place, op, e)?, rest))
}

/// What a dot may stand behind, and dots.
#[cycle(expr)]
#[tactic(auto, unfolding(vx_grammar::specs::Reading::postfix_by))]
pub fn postfix<'t>(
    alloc: Global,
    room: u32,
    first: &'t Token<'t>,
    tokens: &'t [Token<'t>],
    inner: &'t [Token<'t>],
) -> Read<'t, Expr>
    requires room { room < 1000 }
    requires first { tokens_in tokens.now ≡ token_of first.now ∷ tokens_in inner.now }
    ensures { Gives (λ x. (written_expr x.0, tokens_in x.1.now)) result (reading.postfix_by (reading.below room) (token_of first.now) (kind_of first.now.kind) (tokens_in inner.now)) }
{
    let (e, rest) = primary(alloc, room, first, tokens, inner)?;
    dots(alloc, room, first.place, e, rest)
}

// What a dot may stand behind.
#[cycle(expr)]
#[tactic(auto, unfolding(vx_grammar::specs::Reading::primary_by))]
fn primary<'t>(
    alloc: Global,
    room: u32,
    first: &'t Token<'t>,
    tokens: &'t [Token<'t>],
    inner: &'t [Token<'t>],
) -> Read<'t, Expr>
    requires room { room < 1000 }
    requires first { tokens_in tokens.now ≡ token_of first.now ∷ tokens_in inner.now }
    ensures { Gives (λ x. (written_expr x.0, tokens_in x.1.now)) result (reading.primary_by (reading.below room) (token_of first.now) (kind_of first.now.kind) (tokens_in inner.now)) }
{
    let place = first.place;
    match first.kind {
        Kind::Name(name) => named(alloc, room, first, name, inner),
        Kind::Number(value) => Ok((leaf(place, ExprKind::Number(value)), inner)),
        Kind::Word(Word::True) => Ok((leaf(place, ExprKind::Boolean(true)), inner)),
        Kind::Word(Word::False) => Ok((leaf(place, ExprKind::Boolean(false)), inner)),
        Kind::Word(Word::Null) => Ok((leaf(place, ExprKind::Null), inner)),
        Kind::Word(Word::Write) => Ok((leaf(place, ExprKind::Write), inner)),
        Kind::Word(Word::Nothing) => Ok((leaf(place, ExprKind::Nothing), inner)),
        Kind::Word(Word::Outcome) => Ok((leaf(place, ExprKind::Outcome), inner)),
        Kind::Word(Word::Old) => old_value(alloc, room, first, inner),
        Kind::Word(Word::Acc) => permission(alloc, room, first, inner),
        Kind::Symbol(Symbol::Open) => grouped(alloc, room, tokens),
        _ => Err(Stop::Unexpected(tokens)),
    }
}

// What stands behind `old`.
#[cycle(expr)]
#[tactic(auto, unfolding(vx_grammar::specs::Reading::old_by))]
fn old_value<'t>(
    alloc: Global,
    room: u32,
    first: &'t Token<'t>,
    tokens: &'t [Token<'t>],
) -> Read<'t, Expr>
    requires { room < 1000 }
    ensures { Gives (λ x. (written_expr x.0, tokens_in x.1.now)) result (reading.old_by (reading.below room) (token_of first.now) (tokens_in tokens.now)) }
{
    let (e, rest) = grouped(alloc, room, tokens)?;
    Ok((old(alloc, first.place, e)?, rest))
}

// What stands behind `acc`.
#[cycle(expr)]
#[tactic(auto, unfolding(vx_grammar::specs::Reading::access_by))]
fn permission<'t>(
    alloc: Global,
    room: u32,
    first: &'t Token<'t>,
    tokens: &'t [Token<'t>],
) -> Read<'t, Expr>
    requires { room < 1000 }
    ensures { Gives (λ x. (written_expr x.0, tokens_in x.1.now)) result (reading.access_by (reading.below room) (token_of first.now) (tokens_in tokens.now)) }
{
    let (access, rest) = enclosed_access(alloc, room, tokens)?;
    Ok((
        accessed(alloc, first.place, access.held, access.amount)?,
        rest,
    ))
}

// A variable, or an application.
#[cycle(expr)]
#[tactic(auto, unfolding(vx_grammar::specs::Reading::named_by))]
fn named<'t>(
    alloc: Global,
    room: u32,
    first: &'t Token<'t>,
    name: &str,
    tokens: &'t [Token<'t>],
) -> Read<'t, Expr>
    requires { room < 1000 }
    ensures { Gives (λ x. (written_expr x.0, tokens_in x.1.now)) result (reading.named_by (reading.below room) (token_of first.now) name.now (tokens_in tokens.now)) }
{
    match tokens.first() {
        Some(open) if is_symbol(Symbol::Open, open.kind) => call(alloc, room, first, name, tokens),
        _ => Ok((variable(alloc, first.place, name)?, tokens)),
    }
}

// An application.
#[cycle(expr)]
#[tactic(auto, unfolding(vx_grammar::specs::Reading::call_by))]
fn call<'t>(
    alloc: Global,
    room: u32,
    first: &'t Token<'t>,
    name: &str,
    tokens: &'t [Token<'t>],
) -> Read<'t, Expr>
    requires { room < 1000 }
    ensures { Gives (λ x. (written_expr x.0, tokens_in x.1.now)) result (reading.call_by (reading.below room) (token_of first.now) name.now (tokens_in tokens.now)) }
{
    let (arguments, rest) = enclosed_arguments(alloc, room, tokens)?;
    let name = String::from_str(alloc, name)?;
    Ok((applied(first.place, name, arguments), rest))
}

/// An expression between parentheses.
#[cycle(expr)]
#[tactic(auto, unfolding(vx_grammar::specs::Reading::enclosed))]
pub fn grouped<'t>(alloc: Global, room: u32, tokens: &'t [Token<'t>]) -> Read<'t, Expr>
    requires { room < 1000 }
    ensures { Gives (λ x. (written_expr x.0, tokens_in x.1.now)) result (reading.enclosed (reading.below room) reading.choice (tokens_in tokens.now)) }
{
    let (_, inner) = expect(Symbol::Open, tokens)?;
    let (e, rest) = nested_choice(alloc, room, tokens, inner)?;
    closed(e, rest)
}

/// Arguments between parentheses.
#[cycle(expr)]
#[tactic(auto, unfolding(vx_grammar::specs::Reading::enclosed))]
pub fn enclosed_arguments<'t>(
    alloc: Global,
    room: u32,
    tokens: &'t [Token<'t>],
) -> Read<'t, Vec<Rc<Expr>>>
    requires { room < 1000 }
    ensures { Gives (λ x. (written_all x.0.items, tokens_in x.1.now)) result (reading.enclosed (reading.below room) reading.arguments (tokens_in tokens.now)) }
{
    let (_, inner) = expect(Symbol::Open, tokens)?;
    let (arguments, rest) = nested_arguments(alloc, room, tokens, inner)?;
    closed(arguments, rest)
}

// What `acc` holds, between parentheses.
#[cycle(expr)]
#[tactic(auto, unfolding(vx_grammar::specs::Reading::enclosed))]
fn enclosed_access<'t>(alloc: Global, room: u32, tokens: &'t [Token<'t>]) -> Read<'t, Access>
    requires { room < 1000 }
    ensures { Gives (λ x. (access_of x.0, tokens_in x.1.now)) result (reading.enclosed (reading.below room) reading.access (tokens_in tokens.now)) }
{
    let (_, inner) = expect(Symbol::Open, tokens)?;
    let (access, rest) = nested_access(alloc, room, tokens, inner)?;
    closed(access, rest)
}

#[cycle(expr)]
#[tactic(auto, unfolding(vx_grammar::specs::Reading::arguments_at))]
fn arguments<'t>(alloc: Global, room: u32, tokens: &'t [Token<'t>]) -> Read<'t, Vec<Rc<Expr>>>
    requires { room < 1000 }
    ensures { Gives (λ x. (written_all x.0.items, tokens_in x.1.now)) result (reading.arguments_at (reading.below room) (tokens_in tokens.now)) }
{
    match tokens.first() {
        None => Err(Stop::Unexpected(tokens)),
        Some(first) if is_symbol(Symbol::Close, first.kind) => Ok((Vec::new(alloc), tokens)),
        Some(_) => some_arguments(alloc, room, tokens),
    }
}

// One argument at least.
#[cycle(expr)]
#[tactic(auto, unfolding(vx_grammar::specs::Reading::some_arguments))]
fn some_arguments<'t>(alloc: Global, room: u32, tokens: &'t [Token<'t>]) -> Read<'t, Vec<Rc<Expr>>>
    requires { room < 1000 }
    ensures { Gives (λ x. (written_all x.0.items, tokens_in x.1.now)) result (reading.some_arguments (reading.below room) (tokens_in tokens.now)) }
{
    let (e, rest) = choice(alloc, room, tokens)?;
    more_arguments(alloc, room, one(alloc, e)?, rest)
}

fn one(alloc: Global, e: Expr) -> Result<Vec<Rc<Expr>>, AllocError>
    ensures { IfOk result (λ es. exprs_of es.items ≡ written_expr e ∷ []) }
{
    let mut es = Vec::new(alloc);
    es.push(Rc::new(alloc, e)?)?;
    Ok(es)
}

// What follows an argument, each behind a comma.
#[cycle(expr)]
fn more_arguments<'t>(
    alloc: Global,
    room: u32,
    mut arguments: Vec<Rc<Expr>>,
    tokens: &'t [Token<'t>],
) -> Read<'t, Vec<Rc<Expr>>>
    requires { room < 1000 }
    ensures { Gives (λ x. (exprs_of x.0.items, tokens_in x.1.now)) result
        (reading.run (reading.argument_turn (reading.below room)) (length (tokens_in tokens.now)) (exprs_of arguments.items) (tokens_in tokens.now)) }
{
    let mut rest = tokens;
    for _ in 0..tokens.len() {
        let Some((first, inner)) = rest.split_first() else {
            return Ok((arguments, rest));
        };
        if !is_symbol(Symbol::Comma, first.kind) {
            return Ok((arguments, rest));
        }
        let (next, after) = choice(alloc, room, inner)?;
        arguments.push(Rc::new(alloc, next)?)?;
        rest = same(after);
    }
    Ok((arguments, rest))
}

#[cycle(expr)]
#[tactic(auto, unfolding(vx_grammar::specs::Reading::access_at))]
fn access_inside<'t>(alloc: Global, room: u32, tokens: &'t [Token<'t>]) -> Read<'t, Access>
    requires { room < 1000 }
    ensures { Gives (λ x. (access_of x.0, tokens_in x.1.now)) result (reading.access_at (reading.below room) (tokens_in tokens.now)) }
{
    let (held, rest) = choice(alloc, room, tokens)?;
    let (amount, rest) = amount(alloc, room, rest)?;
    Ok((Access { held, amount }, rest))
}

// An amount behind a comma, or none.
#[cycle(expr)]
#[tactic(auto, unfolding(vx_grammar::specs::Reading::amount_at))]
fn amount<'t>(alloc: Global, room: u32, tokens: &'t [Token<'t>]) -> Read<'t, Option<Rc<Expr>>>
    requires { room < 1000 }
    ensures { Gives (λ x. (written_optional x.0, tokens_in x.1.now)) result (reading.amount_at (reading.below room) (tokens_in tokens.now)) }
{
    match tokens.split_first() {
        Some((comma, inner)) if is_symbol(Symbol::Comma, comma.kind) => {
            some_amount(alloc, room, inner)
        }
        _ => Ok((None, tokens)),
    }
}

#[cycle(expr)]
#[tactic(auto, unfolding(vx_grammar::specs::Reading::amount_by))]
fn some_amount<'t>(alloc: Global, room: u32, tokens: &'t [Token<'t>]) -> Read<'t, Option<Rc<Expr>>>
    requires { room < 1000 }
    ensures { Gives (λ x. (written_optional x.0, tokens_in x.1.now)) result (reading.amount_by (reading.below room) (tokens_in tokens.now)) }
{
    let (e, rest) = choice(alloc, room, tokens)?;
    Ok((Some(Rc::new(alloc, e)?), rest))
}

// ---- instances and unfoldings

/// An instance, with an amount where it stands in `acc`.
#[cycle(expr)]
#[tactic(auto, unfolding(vx_grammar::specs::Reading::instance_at))]
pub fn instance<'t>(alloc: Global, room: u32, tokens: &'t [Token<'t>]) -> Read<'t, Instance>
    requires { room < 1000 }
    ensures { Gives (λ x. (instance_of x.0, tokens_in x.1.now)) result (reading.instance_at (reading.below room) (tokens_in tokens.now)) }
{
    let Some((first, inner)) = tokens.split_first() else {
        return Err(Stop::Unexpected(tokens));
    };
    match first.kind {
        Kind::Name(text) => alone(alloc, room, first.place, text, inner),
        Kind::Word(Word::Acc) => enclosed_holding(alloc, room, inner),
        _ => Err(Stop::Unexpected(tokens)),
    }
}

// What stands behind the name of an instance without an amount.
#[cycle(expr)]
#[tactic(auto, unfolding(vx_grammar::specs::Reading::bare_by))]
fn alone<'t>(
    alloc: Global,
    room: u32,
    place: Place,
    text: &str,
    tokens: &'t [Token<'t>],
) -> Read<'t, Instance>
    requires { room < 1000 }
    ensures { Gives (λ x. (instance_of x.0, tokens_in x.1.now)) result (reading.bare_by (reading.below room) (placed place text.now) (tokens_in tokens.now)) }
{
    let (arguments, rest) = enclosed_arguments(alloc, room, tokens)?;
    let text = String::from_str(alloc, text)?;
    let instance = Instance {
        predicate: Name { text, place },
        arguments,
        amount: None,
    };
    Ok((instance, rest))
}

// What `acc` holds, between parentheses.
#[cycle(expr)]
#[tactic(auto, unfolding(vx_grammar::specs::Reading::enclosed))]
fn enclosed_holding<'t>(alloc: Global, room: u32, tokens: &'t [Token<'t>]) -> Read<'t, Instance>
    requires { room < 1000 }
    ensures { Gives (λ x. (instance_of x.0, tokens_in x.1.now)) result (reading.enclosed (reading.below room) reading.holding (tokens_in tokens.now)) }
{
    let (_, inner) = expect(Symbol::Open, tokens)?;
    let (instance, rest) = nested_holding(alloc, room, tokens, inner)?;
    closed(instance, rest)
}

#[cycle(expr)]
fn nested_holding<'t>(
    alloc: Global,
    room: u32,
    here: &'t [Token<'t>],
    tokens: &'t [Token<'t>],
) -> Read<'t, Instance>
    requires { room < 1000 }
    ensures { Gives (λ x. (instance_of x.0, tokens_in x.1.now)) result (reading.below room reading.holding (tokens_in here.now) (tokens_in tokens.now)) }
{
    match room.checked_sub(1) {
        Some(less) => holding(alloc, less, tokens),
        None => Err(Stop::TooDeep(here)),
    }
}

#[cycle(expr)]
#[tactic(auto, unfolding(vx_grammar::specs::Reading::holding_at))]
fn holding<'t>(alloc: Global, room: u32, tokens: &'t [Token<'t>]) -> Read<'t, Instance>
    requires { room < 1000 }
    ensures { Gives (λ x. (instance_of x.0, tokens_in x.1.now)) result (reading.holding_at (reading.below room) (tokens_in tokens.now)) }
{
    let (predicate, rest) = name(alloc, tokens)?;
    let (arguments, rest) = enclosed_arguments(alloc, room, rest)?;
    let (amount, rest) = amount(alloc, room, rest)?;
    let instance = Instance {
        predicate,
        arguments,
        amount,
    };
    Ok((instance, rest))
}

fn begins_body(kind: Kind) -> bool
    ensures { result ≡ reading.begins_body (kind_of kind.entry) }
{
    matches!(kind, Kind::Word(Word::In))
}

// What stands behind `unfolding`.
#[cycle(expr)]
#[tactic(auto, unfolding(vx_grammar::specs::Reading::unfolding_by))]
fn unfolding<'t>(
    alloc: Global,
    room: u32,
    first: &'t Token<'t>,
    tokens: &'t [Token<'t>],
) -> Read<'t, Expr>
    requires { room < 1000 }
    ensures { Gives (λ x. (written_expr x.0, tokens_in x.1.now)) result (reading.unfolding_by (reading.below room) (token_of first.now) (tokens_in tokens.now)) }
{
    let (instance, rest) = instance(alloc, room, tokens)?;
    let (body, rest) = behind_in(alloc, room, rest)?;
    Ok((unfolded(first.place, instance, body), rest))
}

// `in`, and the body behind it.
#[cycle(expr)]
#[tactic(auto, unfolding(vx_grammar::specs::Reading::behind_in))]
fn behind_in<'t>(alloc: Global, room: u32, tokens: &'t [Token<'t>]) -> Read<'t, Rc<Expr>>
    requires { room < 1000 }
    ensures { Gives (λ x. (written_expr x.0.value, tokens_in x.1.now)) result (reading.behind_in (reading.below room) (tokens_in tokens.now)) }
{
    match tokens.split_first() {
        Some((first, inner)) if begins_body(first.kind) => {
            shared_choice(alloc, room, tokens, inner)
        }
        _ => Err(Stop::Unexpected(tokens)),
    }
}

// ---- parts that the token before them nests one deeper

/// An expression that the token at which `here` begins nests one deeper.
#[cycle(expr)]
pub fn nested_choice<'t>(
    alloc: Global,
    room: u32,
    here: &'t [Token<'t>],
    tokens: &'t [Token<'t>],
) -> Read<'t, Expr>
    requires { room < 1000 }
    ensures { Gives (λ x. (written_expr x.0, tokens_in x.1.now)) result (reading.below room reading.choice (tokens_in here.now) (tokens_in tokens.now)) }
{
    match room.checked_sub(1) {
        Some(less) => choice(alloc, less, tokens),
        None => Err(Stop::TooDeep(here)),
    }
}

// The same, as what stands in a node.
#[cycle(expr)]
fn shared_choice<'t>(
    alloc: Global,
    room: u32,
    here: &'t [Token<'t>],
    tokens: &'t [Token<'t>],
) -> Read<'t, Rc<Expr>>
    requires { room < 1000 }
    ensures { Gives (λ x. (written_expr x.0.value, tokens_in x.1.now)) result (reading.below room reading.choice (tokens_in here.now) (tokens_in tokens.now)) }
{
    let (e, rest) = nested_choice(alloc, room, here, tokens)?;
    Ok((Rc::new(alloc, e)?, rest))
}

#[cycle(expr)]
fn nested_implication<'t>(
    alloc: Global,
    room: u32,
    here: &'t [Token<'t>],
    tokens: &'t [Token<'t>],
) -> Read<'t, Expr>
    requires { room < 1000 }
    ensures { Gives (λ x. (written_expr x.0, tokens_in x.1.now)) result (reading.below room reading.implication (tokens_in here.now) (tokens_in tokens.now)) }
{
    match room.checked_sub(1) {
        Some(less) => implication(alloc, less, tokens),
        None => Err(Stop::TooDeep(here)),
    }
}

#[cycle(expr)]
fn nested_operand<'t>(
    alloc: Global,
    room: u32,
    here: &'t [Token<'t>],
    tokens: &'t [Token<'t>],
) -> Read<'t, Expr>
    requires { room < 1000 }
    ensures { Gives (λ x. (written_expr x.0, tokens_in x.1.now)) result (reading.below room (reading.chain 0) (tokens_in here.now) (tokens_in tokens.now)) }
{
    match room.checked_sub(1) {
        Some(less) => chain(alloc, less, 0, tokens),
        None => Err(Stop::TooDeep(here)),
    }
}

#[cycle(expr)]
fn nested_arguments<'t>(
    alloc: Global,
    room: u32,
    here: &'t [Token<'t>],
    tokens: &'t [Token<'t>],
) -> Read<'t, Vec<Rc<Expr>>>
    requires { room < 1000 }
    ensures { Gives (λ x. (written_all x.0.items, tokens_in x.1.now)) result (reading.below room reading.arguments (tokens_in here.now) (tokens_in tokens.now)) }
{
    match room.checked_sub(1) {
        Some(less) => arguments(alloc, less, tokens),
        None => Err(Stop::TooDeep(here)),
    }
}

#[cycle(expr)]
fn nested_access<'t>(
    alloc: Global,
    room: u32,
    here: &'t [Token<'t>],
    tokens: &'t [Token<'t>],
) -> Read<'t, Access>
    requires { room < 1000 }
    ensures { Gives (λ x. (access_of x.0, tokens_in x.1.now)) result (reading.below room reading.access (tokens_in here.now) (tokens_in tokens.now)) }
{
    match room.checked_sub(1) {
        Some(less) => access_inside(alloc, less, tokens),
        None => Err(Stop::TooDeep(here)),
    }
}
