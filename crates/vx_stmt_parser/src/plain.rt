//! Reading statements without a block.

ghost use Rattle.std.specs.Prelude.{◌≡◌, ◌<◌, IfOk, Some, None, map, ◌∷◌};
ghost use Rattle.vx_ast.specs.Written.{name_of, written_all, written_expr, written_declaration, written_right, Declare, Invoke};
ghost use Rattle.vx_tokens.specs.Tokens.{kind_of, token_of, tokens_in};
ghost use Rattle.vx_expr_parser.specs.Gives.{Gives};
ghost use Rattle.vx_grammar.specs.Statements.{claim_meant, folding_meant};
ghost use Rattle.vx_stmt_parser.specs.Plain.{claim_of, folding_of};
ghost use Rattle.vx_expr_parser.specs.Views.{instance_of};
ghost use Rattle.vx_stmt_parser.specs.Views.{stmt_of};
ghost use Rattle.vx_tokens.specs.Tokens.{name as a_name};
ghost use Rattle.vx_grammar.specs.StmtReading as reading;

use std::alloc::{AllocError, Global};
use std::rc::Rc;
use vx_ast::{Declaration, Expr, ExprKind, Instance, Name, Place, Right, Stmt, StmtKind};
use vx_expr_parser::{
    Read, Stop, choice, declaration, enclosed_arguments, expect, instance, is_symbol, more_names,
    name, one_name, postfix, right,
};
use vx_tokens::{Symbol, Token};

/// What is done with an assertion.
#[derive(Clone, Copy)]
pub enum Claim {
    Inhale,
    Exhale,
    Assert,
    Assume,
}

/// What is done with an instance.
#[derive(Clone, Copy)]
pub enum Folding {
    Fold,
    Unfold,
}

// What stands behind `var`.
#[tactic(auto, unfolding(vx_grammar::specs::StmtReading::declare_at, vx_grammar::specs::StmtReading::initial_at))]
pub fn declare<'t>(
    alloc: Global,
    room: u32,
    place: Place,
    tokens: &'t [Token<'t>],
) -> Read<'t, Stmt>
    requires { room < 1000 }
    ensures { Gives (λ x. (stmt_of x.0, tokens_in x.1.now)) result (reading.declare_at room place (tokens_in tokens.now)) }
{
    let (declaration, rest) = declaration(alloc, tokens)?;
    match rest.split_first() {
        Some((becomes, inner)) if is_symbol(Symbol::Becomes, becomes.kind) => {
            initial(alloc, room, place, declaration, inner)
        }
        _ => Ok((declared(place, declaration), rest)),
    }
}

// The first value of a variable.
#[tactic(auto, unfolding(vx_grammar::specs::StmtReading::initial_by))]
fn initial<'t>(
    alloc: Global,
    room: u32,
    place: Place,
    declaration: Declaration,
    tokens: &'t [Token<'t>],
) -> Read<'t, Stmt>
    requires { room < 1000 }
    ensures { Gives (λ x. (stmt_of x.0, tokens_in x.1.now)) result (reading.initial_by room place (written_declaration declaration) (tokens_in tokens.now)) }
{
    let (right, rest) = right(alloc, room, tokens)?;
    Ok((declared_as(place, declaration, right), rest))
}

fn declared(place: Place, declaration: Declaration) -> Stmt
    ensures { stmt_of result ≡ Declare place (written_declaration declaration) None }
{
    Stmt {
        place,
        kind: StmtKind::Declare(declaration, None),
    }
}

fn declared_as(place: Place, declaration: Declaration, right: Right) -> Stmt
    ensures { stmt_of result ≡ Declare place (written_declaration declaration) (Some (written_right right)) }
{
    let kind = StmtKind::Declare(declaration, Some(right));
    Stmt { place, kind }
}

// What stands behind a variable, an application or a field's location.
fn by_target<'t>(
    alloc: Global,
    room: u32,
    place: Place,
    target: Expr,
    tokens: &'t [Token<'t>],
) -> Read<'t, Stmt>
    requires { room < 1000 }
    ensures { Gives (λ x. (stmt_of x.0, tokens_in x.1.now)) result (reading.by_target room place (written_expr target) (tokens_in tokens.now)) }
{
    let Expr { place: at, kind } = target;
    match kind {
        ExprKind::Variable(text) => {
            let target = Name { text, place: at };
            assign(alloc, room, place, target, tokens)
        }
        ExprKind::Call(text, arguments) => {
            let method = Name { text, place: at };
            Ok((invoked(place, Vec::new(alloc), method, arguments), tokens))
        }
        ExprKind::Read(e, field) => store(alloc, room, place, e, field, tokens),
        _ => Err(Stop::Unexpected(tokens)),
    }
}

fn invoked(place: Place, targets: Vec<Name>, method: Name, arguments: Vec<Rc<Expr>>) -> Stmt
    ensures { stmt_of result ≡ Invoke place (map name_of targets.items) (name_of method) (written_all arguments.items) }
{
    let kind = StmtKind::Call(targets, method, arguments);
    Stmt { place, kind }
}

// What stands behind a field's location.
#[tactic(auto, unfolding(vx_grammar::specs::StmtReading::store_at))]
fn store<'t>(
    alloc: Global,
    room: u32,
    place: Place,
    receiver: Rc<Expr>,
    field: Name,
    tokens: &'t [Token<'t>],
) -> Read<'t, Stmt>
    requires { room < 1000 }
    ensures { Gives (λ x. (stmt_of x.0, tokens_in x.1.now)) result (reading.store_at room place (written_expr receiver.value) (name_of field) (tokens_in tokens.now)) }
{
    let (_, rest) = expect(Symbol::Becomes, tokens)?;
    let (e, rest) = choice(alloc, room, rest)?;
    let kind = StmtKind::Write(receiver, field, Rc::new(alloc, e)?);
    Ok((Stmt { place, kind }, rest))
}

// What stands behind the name of a first target.
#[tactic(auto, unfolding(vx_grammar::specs::StmtReading::assign_at))]
fn assign<'t>(
    alloc: Global,
    room: u32,
    place: Place,
    target: Name,
    tokens: &'t [Token<'t>],
) -> Read<'t, Stmt>
    requires { room < 1000 }
    ensures { Gives (λ x. (stmt_of x.0, tokens_in x.1.now)) result (reading.assign_at room place (name_of target) (tokens_in tokens.now)) }
{
    let (targets, rest) = more_names(alloc, one_name(alloc, target)?, tokens)?;
    let (_, rest) = expect(Symbol::Becomes, rest)?;
    assigned_by(alloc, room, place, targets, rest)
}

// What stands behind targets and `:=`.
fn assigned_by<'t>(
    alloc: Global,
    room: u32,
    place: Place,
    mut targets: Vec<Name>,
    tokens: &'t [Token<'t>],
) -> Read<'t, Stmt>
    requires { room < 1000 }
    ensures { Gives (λ x. (stmt_of x.0, tokens_in x.1.now)) result (reading.assigned_by room place (map name_of targets.items) (tokens_in tokens.now)) }
{
    if targets.len() > 1 {
        return invoke(alloc, room, place, targets, tokens);
    }
    match targets.pop() {
        Some(target) => assign_one(alloc, room, place, target, tokens),
        None => Err(Stop::Unexpected(tokens)),
    }
}

#[tactic(auto, unfolding(vx_grammar::specs::StmtReading::assign_one))]
fn assign_one<'t>(
    alloc: Global,
    room: u32,
    place: Place,
    target: Name,
    tokens: &'t [Token<'t>],
) -> Read<'t, Stmt>
    requires { room < 1000 }
    ensures { Gives (λ x. (stmt_of x.0, tokens_in x.1.now)) result (reading.assign_one room place (name_of target) (tokens_in tokens.now)) }
{
    let (right, rest) = right(alloc, room, tokens)?;
    let kind = StmtKind::Assign(target, right);
    Ok((Stmt { place, kind }, rest))
}

// A method's name and its arguments.
#[tactic(auto, unfolding(vx_grammar::specs::StmtReading::invoke_at))]
fn invoke<'t>(
    alloc: Global,
    room: u32,
    place: Place,
    targets: Vec<Name>,
    tokens: &'t [Token<'t>],
) -> Read<'t, Stmt>
    requires { room < 1000 }
    ensures { Gives (λ x. (stmt_of x.0, tokens_in x.1.now)) result (reading.invoke_at room place (map name_of targets.items) (tokens_in tokens.now)) }
{
    let (method, rest) = name(alloc, tokens)?;
    let (arguments, rest) = enclosed_arguments(alloc, room, rest)?;
    Ok((invoked(place, targets, method, arguments), rest))
}

// What stands behind the word of a claim.
#[tactic(auto, unfolding(vx_grammar::specs::StmtReading::claim_at))]
pub fn claiming<'t>(
    alloc: Global,
    room: u32,
    claim: Claim,
    place: Place,
    tokens: &'t [Token<'t>],
) -> Read<'t, Stmt>
    requires { room < 1000 }
    ensures { Gives (λ x. (stmt_of x.0, tokens_in x.1.now)) result (reading.claim_at room (claim_of claim) place (tokens_in tokens.now)) }
{
    let (e, rest) = choice(alloc, room, tokens)?;
    Ok((claimed(alloc, claim, place, e)?, rest))
}

fn claimed(alloc: Global, claim: Claim, place: Place, e: Expr) -> Result<Stmt, AllocError>
    ensures { IfOk result (λ stmt. stmt_of stmt ≡ claim_meant (claim_of claim) place (written_expr e)) }
{
    let e = Rc::new(alloc, e)?;
    let kind = match claim {
        Claim::Inhale => StmtKind::Inhale(e),
        Claim::Exhale => StmtKind::Exhale(e),
        Claim::Assert => StmtKind::Assert(e),
        Claim::Assume => StmtKind::Assume(e),
    };
    Ok(Stmt { place, kind })
}

// What stands behind `fold` or `unfold`.
#[tactic(auto, unfolding(vx_grammar::specs::StmtReading::fold_at))]
pub fn instance_statement<'t>(
    alloc: Global,
    room: u32,
    folding: Folding,
    place: Place,
    tokens: &'t [Token<'t>],
) -> Read<'t, Stmt>
    requires { room < 1000 }
    ensures { Gives (λ x. (stmt_of x.0, tokens_in x.1.now)) result (reading.fold_at room (folding_of folding) place (tokens_in tokens.now)) }
{
    let (instance, rest) = instance(alloc, room, tokens)?;
    Ok((folded(folding, place, instance), rest))
}

fn folded(folding: Folding, place: Place, instance: Instance) -> Stmt
    ensures { stmt_of result ≡ folding_meant (folding_of folding) place (instance_of instance) }
{
    let kind = match folding {
        Folding::Fold => StmtKind::Fold(instance),
        Folding::Unfold => StmtKind::Unfold(instance),
    };
    Stmt { place, kind }
}

// A statement that begins with a name.
#[tactic(auto, unfolding(vx_grammar::specs::StmtReading::target_at))]
pub fn targeted<'t>(
    alloc: Global,
    room: u32,
    first: &'t Token<'t>,
    name: &str,
    tokens: &'t [Token<'t>],
    inner: &'t [Token<'t>],
) -> Read<'t, Stmt>
    requires room { room < 1000 }
    requires first { tokens_in tokens.now ≡ token_of first.now ∷ tokens_in inner.now }
    requires name { kind_of first.now.kind ≡ a_name name.now }
    ensures { Gives (λ x. (stmt_of x.0, tokens_in x.1.now)) result (reading.target_at room (token_of first.now) name.now (tokens_in inner.now)) }
{
    let (target, rest) = postfix(alloc, room, first, tokens, inner)?;
    by_target(alloc, room, first.place, target, rest)
}
