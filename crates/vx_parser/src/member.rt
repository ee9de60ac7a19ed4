//! Reading members.

ghost use Rattle.std.specs.Prelude.{◌≡◌, ◌<◌, ◌+◌, ◌^◌, ◌&&◌, not, OnOk};
ghost use Rattle.vx_ast.specs.Written.{name_of, optional_block, optional_expr, written_expr, written_member};
ghost use Rattle.vx_tokens.specs.Tokens.{kind_of, token_of, tokens_in};
ghost use Rattle.vx_grammar.specs.MemberReading as reading;
ghost use Rattle.vx_grammar.specs.StmtReading.{is_measure};
ghost use Rattle.std.specs.Prelude.{Err};
ghost use Rattle.vx_expr_parser.specs.Gives.{Gives};
ghost use Rattle.vx_parser.specs.Halting.{GivesMember, MemberStops, Answer, HaltedAnswer};
ghost use Rattle.vx_parser.specs.Parts.{head_behind, method_behind};
ghost use Rattle.vx_parser.specs.Views.{clauses_of, declarations_of, head_of};

use crate::stop::MemberStop;
use std::alloc::{AllocError, Global};
use std::rc::Rc;
use vx_ast::{
    Block, Clause, Declaration, Expr, Function, Member, MemberKind, Method, Name, Place, Predicate,
    ValueType,
};
use vx_expr_parser::{
    Read, Stop, declaration, expect, is_symbol, name, nested_choice, parameters, value_type,
};
use vx_stmt_parser::{begins_measure, block, clause, is_measure, skip_semicolon};
use vx_tokens::{Kind, Symbol, Token, Word};

/// The nesting limit.
const LIMIT: u32 = 200;

/// The clauses of a method or a function so far, how many of them are of each kind, and whether a measure is among them.
#[derive(Drop)]
struct Clauses {
    clauses: Vec<Clause>,
    preconditions: usize,
    postconditions: usize,
    is_measured: bool,
}

/// What stands in front of a function's body.
#[derive(Drop)]
struct Head {
    name: Name,
    parameters: Vec<Declaration>,
    value_type: ValueType,
    clauses: Clauses,
}

fn begins_returns(kind: Kind) -> bool
    ensures { result ≡ reading.begins_returns (kind_of kind.entry) }
{
    matches!(kind, Kind::Word(Word::Returns))
}

#[tactic(auto, unfolding(vx_grammar::specs::MemberReading::returns_at))]
fn returns<'t>(alloc: Global, tokens: &'t [Token<'t>]) -> Read<'t, Vec<Declaration>>
    ensures { Gives (λ x. (declarations_of x.0.items, tokens_in x.1.now)) result (reading.returns_at (tokens_in tokens.now)) }
{
    match tokens.split_first() {
        Some((first, inner)) if begins_returns(first.kind) => parameters(alloc, inner),
        _ => Ok((Vec::new(alloc), tokens)),
    }
}

fn begins_requires(kind: Kind) -> bool
    ensures { result ≡ reading.begins_requires (kind_of kind.entry) }
{
    matches!(kind, Kind::Word(Word::Requires))
}

fn begins_ensures(kind: Kind) -> bool
    ensures { result ≡ reading.begins_ensures (kind_of kind.entry) }
{
    matches!(kind, Kind::Word(Word::Ensures))
}

impl Clauses {
    fn new(alloc: Global) -> Clauses
        ensures { clauses_of result ≡ reading.no_clauses }
    {
        Clauses {
            clauses: Vec::new(alloc),
            preconditions: 0,
            postconditions: 0,
            is_measured: false,
        }
    }

    // A measure begins, one may come, and none came before.
    fn is_due(&self, may: bool, kind: Kind) -> bool
        ensures { result ≡ (may && not (clauses_of self.now).measured && is_measure (kind_of kind.entry)) }
    {
        may && !self.is_measured && is_measure(kind)
    }

    fn add_precondition(&mut self, e: Rc<Expr>) -> Result<(), AllocError>
        requires { self.now.preconditions + 1 < 2 ^ 64 }
        ensures { OnOk result (clauses_of self.new ≡ reading.with_requires (clauses_of self.old) (written_expr e.value)) }
    {
        self.clauses.push(Clause::Requires(e))?;
        self.preconditions += 1;
        Ok(())
    }

    fn add_postcondition(&mut self, e: Rc<Expr>) -> Result<(), AllocError>
        requires { self.now.postconditions + 1 < 2 ^ 64 }
        ensures { OnOk result (clauses_of self.new ≡ reading.with_ensures (clauses_of self.old) (written_expr e.value)) }
    {
        self.clauses.push(Clause::Ensures(e))?;
        self.postconditions += 1;
        Ok(())
    }

    fn add_measure(&mut self, e: Rc<Expr>) -> Result<(), AllocError>
        ensures { OnOk result (clauses_of self.new ≡ reading.with_measure (clauses_of self.old) (written_expr e.value)) }
    {
        self.clauses.push(Clause::Decreases(e))?;
        self.is_measured = true;
        Ok(())
    }
}

// The clauses of a contract, where a measure may come, or none may.
#[tactic(auto, unfolding(vx_grammar::specs::MemberReading::clauses_at))]
fn contract<'t>(alloc: Global, may: bool, tokens: &'t [Token<'t>]) -> Read<'t, Clauses>
    ensures { Gives (λ x. (clauses_of x.0, tokens_in x.1.now)) result (reading.clauses_at reading.limit may (tokens_in tokens.now)) }
{
    let mut clauses = Clauses::new(alloc);
    let mut rest = tokens;
    for _ in 0..tokens.len() {
        let Some((first, inner)) = rest.split_first() else {
            return Ok((clauses, rest));
        };
        if begins_requires(first.kind) {
            let (e, after) = clause(alloc, LIMIT, clauses.preconditions, rest, inner)?;
            clauses.add_precondition(e)?;
            rest = skip_semicolon(after);
        } else if begins_ensures(first.kind) {
            let (e, after) = clause(alloc, LIMIT, clauses.postconditions, rest, inner)?;
            clauses.add_postcondition(e)?;
            rest = skip_semicolon(after);
        } else if clauses.is_due(may, first.kind) {
            let (e, after) = clause(alloc, LIMIT, 0, rest, inner)?;
            clauses.add_measure(e)?;
            rest = skip_semicolon(after);
        } else {
            return Ok((clauses, rest));
        }
    }
    Ok((clauses, rest))
}

/// What stands behind a token that begins a member.
#[tactic(auto, unfolding(vx_grammar::specs::MemberReading::member_at))]
pub fn member<'t>(
    alloc: Global,
    first: &'t Token<'t>,
    tokens: &'t [Token<'t>],
) -> Result<(Member, &'t [Token<'t>]), MemberStop<'t>>
    ensures { GivesMember (λ x. (written_member x.0, tokens_in x.1.now)) result (reading.member_at reading.limit (token_of first.now) (tokens_in tokens.now)) }
{
    match first.kind {
        Kind::Word(Word::Field) => halting(field(alloc, first.place, tokens)),
        Kind::Word(Word::Predicate) => halting(predicate(alloc, first.place, tokens)),
        Kind::Word(Word::Function) => function(alloc, first.place, tokens),
        Kind::Word(Word::Method) => halting(method(alloc, first.place, tokens)),
        _ => Err(MemberStop::Stopped(Stop::Unexpected(tokens))),
    }
}

// What a member without a stop of its own gives.
fn halting<'t>(read: Read<'t, Member>) -> Result<(Member, &'t [Token<'t>]), MemberStop<'t>>
    ensures { (total : Answer) → Gives (λ x. (written_member x.0, tokens_in x.1.now)) read.entry total
        → GivesMember (λ x. (written_member x.0, tokens_in x.1.now)) result (reading.halting total) }
{
    match read {
        Ok(whole) => Ok(whole),
        Err(stop) => Err(MemberStop::Stopped(stop)),
    }
}

// What stands behind `field`.
#[tactic(auto, unfolding(vx_grammar::specs::MemberReading::field_at))]
fn field<'t>(alloc: Global, place: Place, tokens: &'t [Token<'t>]) -> Read<'t, Member>
    ensures { Gives (λ x. (written_member x.0, tokens_in x.1.now)) result (reading.field_at place (tokens_in tokens.now)) }
{
    let (
        Declaration {
            name,
            value_type,
            type_place: _,
        },
        rest,
    ) = declaration(alloc, tokens)?;
    let kind = MemberKind::Field(value_type);
    Ok((Member { place, name, kind }, rest))
}

fn begins_braces(tokens: &[Token]) -> bool
    ensures { result ≡ reading.begins_braces (tokens_in tokens.now) }
{
    match tokens.split_first() {
        Some((first, _)) => is_symbol(Symbol::OpenBrace, first.kind),
        None => false,
    }
}

// An expression between braces.
#[tactic(auto, unfolding(vx_grammar::specs::MemberReading::braced_at))]
fn braced<'t>(alloc: Global, tokens: &'t [Token<'t>]) -> Read<'t, Rc<Expr>>
    ensures { Gives (λ x. (written_expr x.0.value, tokens_in x.1.now)) result (reading.braced_at reading.limit (tokens_in tokens.now)) }
{
    let (_, inner) = expect(Symbol::OpenBrace, tokens)?;
    let (e, rest) = nested_choice(alloc, LIMIT, tokens, inner)?;
    let e = Rc::new(alloc, e)?;
    let (_, rest) = expect(Symbol::CloseBrace, rest)?;
    Ok((e, rest))
}

// The body of a predicate, or none.
#[tactic(auto, unfolding(vx_grammar::specs::MemberReading::given_at, vx_grammar::specs::MemberReading::some_braced))]
fn given<'t>(alloc: Global, tokens: &'t [Token<'t>]) -> Read<'t, Option<Rc<Expr>>>
    ensures { Gives (λ x. (optional_expr x.0, tokens_in x.1.now)) result (reading.given_at reading.limit (tokens_in tokens.now)) }
{
    if begins_braces(tokens) {
        let (e, rest) = braced(alloc, tokens)?;
        return Ok((Some(e), rest));
    }
    Ok((None, tokens))
}

// What stands behind `predicate`.
#[tactic(auto, unfolding(vx_grammar::specs::MemberReading::predicate_at))]
fn predicate<'t>(alloc: Global, place: Place, tokens: &'t [Token<'t>]) -> Read<'t, Member>
    ensures { Gives (λ x. (written_member x.0, tokens_in x.1.now)) result (reading.predicate_at reading.limit place (tokens_in tokens.now)) }
{
    let (name, rest) = name(alloc, tokens)?;
    let (parameters, rest) = parameters(alloc, rest)?;
    let (body, rest) = given(alloc, rest)?;
    let kind = MemberKind::Predicate(Predicate { parameters, body });
    Ok((Member { place, name, kind }, rest))
}

// What stands in front of a function's body.
#[tactic(auto, unfolding(vx_grammar::specs::MemberReading::head_at))]
fn heading<'t>(alloc: Global, tokens: &'t [Token<'t>]) -> Read<'t, Head>
    ensures { Gives (λ x. (head_of x.0, tokens_in x.1.now)) result (reading.head_at reading.limit (tokens_in tokens.now)) }
{
    let (name, rest) = name(alloc, tokens)?;
    let (parameters, rest) = parameters(alloc, rest)?;
    heading_behind(alloc, name, parameters, rest)
}

// What stands between a function's parameters and its body.
fn heading_behind<'t>(
    alloc: Global,
    name: Name,
    parameters: Vec<Declaration>,
    tokens: &'t [Token<'t>],
) -> Read<'t, Head>
    ensures { Gives (λ x. (head_of x.0, tokens_in x.1.now)) result (head_behind reading.limit (name_of name) (declarations_of parameters.items) (tokens_in tokens.now)) }
{
    let (_, rest) = expect(Symbol::Colon, tokens)?;
    let ((value_type, _), rest) = value_type(rest)?;
    let (clauses, rest) = contract(alloc, true, rest)?;
    let head = Head {
        name,
        parameters,
        value_type,
        clauses,
    };
    Ok((head, rest))
}

// What stands behind `function`.
#[tactic(auto, unfolding(vx_grammar::specs::MemberReading::function_at))]
fn function<'t>(
    alloc: Global,
    place: Place,
    tokens: &'t [Token<'t>],
) -> Result<(Member, &'t [Token<'t>]), MemberStop<'t>>
    ensures { GivesMember (λ x. (written_member x.0, tokens_in x.1.now)) result (reading.function_at reading.limit place (tokens_in tokens.now)) }
{
    match heading(alloc, tokens) {
        Ok((head, rest)) if begins_braces(rest) => halting(defined(alloc, place, head, rest)),
        Ok((_head, rest)) => Err(no_body(rest)),
        Err(stop) => Err(MemberStop::Stopped(stop)),
    }
}

// Where a function's body is due, and none begins.
fn no_body<'t>(tokens: &'t [Token<'t>]) -> MemberStop<'t>
    ensures { (total : HaltedAnswer) → total ≡ Err (reading.no_body_at (tokens_in tokens.now)) → MemberStops result total }
{
    match tokens.split_first() {
        Some((first, _)) if is_measure(first.kind) => MemberStop::MeasuredTwice(tokens),
        _ => MemberStop::Bodiless(tokens),
    }
}

// A function's body, and all of it.
#[tactic(auto, unfolding(vx_grammar::specs::MemberReading::function_by))]
fn defined<'t>(alloc: Global, place: Place, head: Head, tokens: &'t [Token<'t>]) -> Read<'t, Member>
    ensures { Gives (λ x. (written_member x.0, tokens_in x.1.now)) result (reading.function_by reading.limit place (head_of head) (tokens_in tokens.now)) }
{
    let (body, rest) = braced(alloc, tokens)?;
    Ok((function_made(place, head, body), rest))
}

fn function_made(place: Place, head: Head, body: Rc<Expr>) -> Member
    ensures { written_member result ≡ reading.function_of place (head_of head) (written_expr body.value) }
{
    let Head {
        name,
        parameters,
        value_type,
        clauses,
    } = head;
    let function = Function {
        parameters,
        value_type,
        clauses: clauses.clauses,
        body,
    };
    let kind = MemberKind::Function(function);
    Member { place, name, kind }
}

// The body of a method, or none. No measure may stand there.
#[tactic(auto, unfolding(vx_grammar::specs::MemberReading::body_at, vx_grammar::specs::MemberReading::some_block))]
fn body<'t>(alloc: Global, tokens: &'t [Token<'t>]) -> Read<'t, Option<Rc<Block>>>
    ensures { Gives (λ x. (optional_block x.0, tokens_in x.1.now)) result (reading.body_at reading.limit (tokens_in tokens.now)) }
{
    if begins_braces(tokens) {
        let (body, rest) = block(alloc, LIMIT, tokens)?;
        return Ok((Some(Rc::new(alloc, body)?), rest));
    }
    if begins_measure(tokens) {
        return Err(Stop::Measured(tokens));
    }
    Ok((None, tokens))
}

// What stands behind `method`.
#[tactic(auto, unfolding(vx_grammar::specs::MemberReading::method_at))]
fn method<'t>(alloc: Global, place: Place, tokens: &'t [Token<'t>]) -> Read<'t, Member>
    ensures { Gives (λ x. (written_member x.0, tokens_in x.1.now)) result (reading.method_at reading.limit place (tokens_in tokens.now)) }
{
    let (name, rest) = name(alloc, tokens)?;
    let (parameters, rest) = parameters(alloc, rest)?;
    let (returns, rest) = returns(alloc, rest)?;
    contracted(alloc, place, name, parameters, returns, rest)
}

// What stands behind the results of a method.
fn contracted<'t>(
    alloc: Global,
    place: Place,
    name: Name,
    parameters: Vec<Declaration>,
    returns: Vec<Declaration>,
    tokens: &'t [Token<'t>],
) -> Read<'t, Member>
    ensures { Gives (λ x. (written_member x.0, tokens_in x.1.now)) result
        (method_behind reading.limit place (name_of name) (declarations_of parameters.items) (declarations_of returns.items) (tokens_in tokens.now)) }
{
    let (clauses, rest) = contract(alloc, false, tokens)?;
    let (body, rest) = body(alloc, rest)?;
    Ok((made(place, name, parameters, returns, clauses, body), rest))
}

fn made(
    place: Place,
    name: Name,
    parameters: Vec<Declaration>,
    returns: Vec<Declaration>,
    clauses: Clauses,
    body: Option<Rc<Block>>,
) -> Member
    ensures { written_member result ≡ reading.method_of place (name_of name) (declarations_of parameters.items) (declarations_of returns.items)
        (clauses_of clauses) (optional_block body) }
{
    let method = Method {
        parameters,
        returns,
        clauses: clauses.clauses,
        body,
    };
    let kind = MemberKind::Method(method);
    Member { place, name, kind }
}
