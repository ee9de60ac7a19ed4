//! Members, settled.

ghost use Rattle.std.specs.Prelude.{◌≡◌, IfOk, map};
ghost use Rattle.vx_ast.specs.Apart.{KeepsApart};
ghost use Rattle.vx_ast.specs.Written as written;
ghost use Rattle.vx_ast.specs.Written.{written_declaration, written_kind, written_member, written_program, optional_block, optional_expr};
ghost use Rattle.vx_ast.specs.Resolve as resolve;
ghost use Rattle.vx_ast.specs.Resolve.{Names as NamesOf};
ghost use Rattle.vx_resolved.specs.Resolved as view;
ghost use Rattle.vx_ast.specs.Syntax as Syntax;
ghost use Rattle.vx_resolved.specs.Settled.{settled};
ghost use Rattle.vx_settling.specs.Names.{names_in};

use crate::assertions::assertion;
use crate::clauses::clauses;
use crate::expr::shared;
use crate::functions::function;
use crate::groups::groups_of;
use crate::names::{Names, all_names};
use crate::stmt::block;
use std::alloc::{AllocError, Global};
use std::rc::Rc;
use vx_ast::{Declaration, Expr, Member, MemberKind, Method, Place, Predicate, Program};
use vx_resolved::{Assertion, Block, Settled};

// A variable, settled.
fn declaration(alloc: Global, d: &Declaration) -> Result<vx_resolved::Declaration, AllocError>
    ensures { IfOk result (λ r. (names : NamesOf) → view.declaration r ≡ resolve.declaration names (written_declaration d.now)) }
{
    Ok(vx_resolved::Declaration {
        name: shared(alloc, &d.name.text)?,
        of: d.value_type,
    })
}

pub(crate) fn declarations(
    alloc: Global,
    all: &[Declaration],
) -> Result<Vec<vx_resolved::Declaration>, AllocError>
    ensures { IfOk result (λ v. (names : NamesOf) → map view.declaration v.items ≡ map (resolve.declaration names) (map written_declaration all.now)) }
{
    let mut settled = Vec::new(alloc);
    for d in all {
        settled.push(declaration(alloc, d)?)?;
    }
    Ok(settled)
}

fn body(
    alloc: Global,
    names: &Names,
    b: &Option<Rc<vx_ast::Block>>,
) -> Result<Option<Rc<Block>>, AllocError>
    ensures { IfOk result (λ r. view.optional_block r ≡ resolve.optional_block (names_in names.now) (optional_block b.now)) }
{
    match b {
        None => Ok(None),
        Some(b) => Ok(Some(block(alloc, names, b)?)),
    }
}

// A method, settled.
fn method(
    alloc: Global,
    names: &Names,
    place: Place,
    m: &Method,
) -> Result<vx_resolved::Kind, AllocError>
    ensures { IfOk result (λ r. view.kind r ≡ resolve.kind (names_in names.now) place (written_kind (MemberKind.Method m.now))) }
{
    let parameters = declarations(alloc, &m.parameters)?;
    let returns = declarations(alloc, &m.returns)?;
    let contract = clauses(alloc, names, &m.clauses)?;
    let body = body(alloc, names, &m.body)?;
    let settled = vx_resolved::Method {
        place,
        parameters,
        returns,
        preconditions: contract.preconditions,
        postconditions: contract.postconditions,
        body,
    };
    Ok(vx_resolved::Kind::Method(Rc::new(alloc, settled)?))
}

fn held(
    alloc: Global,
    names: &Names,
    e: &Option<Rc<Expr>>,
) -> Result<Option<Rc<Assertion>>, AllocError>
    ensures { IfOk result (λ r. view.optional_assertion r ≡ resolve.optional_assertion (names_in names.now) (optional_expr e.now)) }
{
    match e {
        None => Ok(None),
        Some(e) => Ok(Some(assertion(alloc, names, e)?)),
    }
}

// A predicate, settled.
fn predicate(
    alloc: Global,
    names: &Names,
    place: Place,
    d: &Predicate,
) -> Result<vx_resolved::Kind, AllocError>
    ensures { IfOk result (λ r. view.kind r ≡ resolve.kind (names_in names.now) place (written_kind (MemberKind.Predicate d.now))) }
{
    let parameters = declarations(alloc, &d.parameters)?;
    let body = held(alloc, names, &d.body)?;
    let settled = vx_resolved::Predicate {
        place,
        parameters,
        body,
    };
    Ok(vx_resolved::Kind::Predicate(Rc::new(alloc, settled)?))
}

// What a member is, settled.
fn kind(
    alloc: Global,
    names: &Names,
    place: Place,
    k: &MemberKind,
) -> Result<vx_resolved::Kind, AllocError>
    ensures { IfOk result (λ r. view.kind r ≡ resolve.kind (names_in names.now) place (written_kind k.now)) }
{
    match k {
        MemberKind::Field(of) => Ok(vx_resolved::Kind::Field(*of)),
        MemberKind::Predicate(of) => predicate(alloc, names, place, of),
        MemberKind::Function(of) => function(alloc, names, place, of),
        MemberKind::Method(of) => method(alloc, names, place, of),
    }
}

// A member, settled.
fn member(alloc: Global, names: &Names, m: &Member) -> Result<vx_resolved::Member, AllocError>
    ensures { IfOk result (λ r. view.member r ≡ resolve.member (names_in names.now) (written_member m.now)) }
{
    let kind = kind(alloc, names, m.place, &m.kind)?;
    let name = shared(alloc, &m.name.text)?;
    Ok(vx_resolved::Member { name, kind })
}

fn members(
    alloc: Global,
    names: &Names,
    all: &[Member],
) -> Result<Vec<vx_resolved::Member>, AllocError>
    ensures { IfOk result (λ v. map view.member v.items ≡ map (resolve.member (names_in names.now)) (map written_member all.now)) }
{
    let mut settled = Vec::new(alloc);
    for m in all {
        settled.push(member(alloc, names, m)?)?;
    }
    Ok(settled)
}

// A program's members, settled.
fn program(alloc: Global, p: &Program) -> Result<vx_resolved::Program, AllocError>
    ensures { IfOk result (λ r. view.program r ≡ resolve.program (written_program p.now)) }
{
    let names = all_names(alloc, &p.members)?;
    let members = members(alloc, &names, &p.members)?;
    Ok(vx_resolved::Program { members })
}

/// So many members have numbers of 32 bits.
const MOST: usize = u32::MAX as usize;

/// The settled program of one whose members are kept apart.
///
/// # Errors
/// Memory runs out; so does what members' numbers can hold.
pub fn settle(alloc: Global, p: &Program) -> Result<Settled, AllocError>
    requires apart { KeepsApart (resolve.program (written_program p.now)) }
    ensures { IfOk result (λ t. settled t ≡ resolve.program (written_program p.now)) }
{
    let program = program(alloc, p)?;
    if program.members.len() > MOST {
        return Err(AllocError);
    }
    let groups = groups_of(alloc, &program)?;
    Settled::new(alloc, program, groups)
}
