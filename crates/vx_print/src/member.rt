//! Writing members.

ghost use Rattle.std.specs.Prelude.{◌≡◌, ◌++◌, ◌∷◌, [], OnOk, IfOk, string_bytes, map, vec_items};
ghost use Rattle.vx_ast.specs.Written.{written_program, written_member, written_kind, written_declaration, written_clause, optional_expr, optional_block, name_of, written_expr};
ghost use Rattle.std.specs.Str.{IsUtf8};
ghost use Rattle.vx_print.specs.Canonical as canonical;
ghost use Rattle.vx_print.specs.Views.{written_predicate, written_function, written_method};
ghost use Rattle.vx_print.specs.Words.{behind, word_text};

use crate::expr::put_whole;
use crate::stmt::{put_block, put_clause, put_declaration, type_word};
use crate::token::{put_name, put_sign, put_word, word_text};
use std::alloc::{AllocError, Global};
use std::rc::Rc;
use vx_ast::{
    Block, Clause, Declaration, Expr, Function, Member, MemberKind, Method, Name, Predicate,
    Program,
};
use vx_tokens::{Symbol, Word};

// A comma and a declaration.
#[tactic(auto, using(crate::proofs::Behind::behind_append))]
fn put_next(out: &mut String, d: &Declaration) -> Result<(), AllocError>
    ensures { OnOk result (string_bytes out.new ≡ behind (string_bytes out.old) (canonical.next_declaration (written_declaration d.now))) }
{
    put_sign(out, Symbol::Comma)?;
    put_declaration(out, d)
}

// With a comma between two.
#[tactic(auto, using(crate::proofs::Behind::behind_append))]
fn put_declarations(out: &mut String, all: &[Declaration]) -> Result<(), AllocError>
    ensures { OnOk result (string_bytes out.new ≡ behind (string_bytes out.old) (canonical.declarations_tokens (map written_declaration all.now))) }
{
    let Some((first, rest)) = all.split_first() else {
        return Ok(());
    };
    put_declaration(out, first)?;
    for d in rest {
        put_next(out, d)?;
    }
    Ok(())
}

#[tactic(auto, using(crate::proofs::Behind::behind_append))]
fn put_parameters(out: &mut String, all: &[Declaration]) -> Result<(), AllocError>
    ensures { OnOk result (string_bytes out.new ≡ behind (string_bytes out.old) (canonical.parenthesized (canonical.declarations_tokens (map written_declaration all.now)))) }
{
    put_sign(out, Symbol::Open)?;
    put_declarations(out, all)?;
    put_sign(out, Symbol::Close)
}

#[tactic(auto, using(crate::proofs::Behind::behind_append))]
fn put_returns(out: &mut String, all: &[Declaration]) -> Result<(), AllocError>
    ensures { OnOk result (string_bytes out.new ≡ behind (string_bytes out.old) (canonical.returns_tokens (map written_declaration all.now))) }
{
    if all.is_empty() {
        return Ok(());
    }
    put_word(out, Word::Returns)?;
    put_parameters(out, all)
}

// An expression between braces.
#[tactic(auto, using(crate::proofs::Behind::behind_append))]
fn put_body(out: &mut String, e: &Expr) -> Result<(), AllocError>
    ensures { OnOk result (string_bytes out.new ≡ behind (string_bytes out.old) (canonical.braced (canonical.whole_tokens (written_expr e.now)))) }
{
    put_sign(out, Symbol::OpenBrace)?;
    put_whole(out, e)?;
    put_sign(out, Symbol::CloseBrace)
}

fn put_optional_body(out: &mut String, body: &Option<Rc<Expr>>) -> Result<(), AllocError>
    ensures { OnOk result (string_bytes out.new ≡ behind (string_bytes out.old) (canonical.optional_expr_tokens (optional_expr body.now))) }
{
    match body {
        None => Ok(()),
        Some(e) => put_body(out, e),
    }
}

fn put_contract_clause(out: &mut String, c: &Clause) -> Result<(), AllocError>
    ensures { OnOk result (string_bytes out.new ≡ behind (string_bytes out.old) (canonical.contract_clause (written_clause c.now))) }
{
    match c {
        Clause::Requires(e) => put_clause(out, Word::Requires, e),
        Clause::Ensures(e) => put_clause(out, Word::Ensures, e),
        Clause::Decreases(e) => put_clause(out, Word::Decreases, e),
    }
}

// In text order.
#[tactic(auto, using(crate::proofs::Behind::behind_append))]
fn put_contract(out: &mut String, clauses: &[Clause]) -> Result<(), AllocError>
    ensures { OnOk result (string_bytes out.new ≡ behind (string_bytes out.old) (canonical.contract_tokens (map written_clause clauses.now))) }
{
    for c in clauses {
        put_contract_clause(out, c)?;
    }
    Ok(())
}

fn put_optional_block(out: &mut String, body: &Option<Rc<Block>>) -> Result<(), AllocError>
    ensures { OnOk result (string_bytes out.new ≡ behind (string_bytes out.old) (canonical.optional_block_tokens (optional_block body.now))) }
{
    match body {
        None => Ok(()),
        Some(b) => put_block(out, b),
    }
}

#[tactic(auto, using(crate::proofs::Behind::behind_append))]
fn put_predicate(out: &mut String, p: &Predicate) -> Result<(), AllocError>
    ensures { OnOk result (string_bytes out.new ≡ behind (string_bytes out.old) (canonical.predicate_tokens (written_predicate p.now))) }
{
    put_parameters(out, &p.parameters)?;
    put_optional_body(out, &p.body)
}

#[tactic(auto, using(crate::proofs::Behind::behind_append))]
fn put_function(out: &mut String, f: &Function) -> Result<(), AllocError>
    ensures { OnOk result (string_bytes out.new ≡ behind (string_bytes out.old) (canonical.function_tokens (written_function f.now))) }
{
    put_parameters(out, &f.parameters)?;
    put_sign(out, Symbol::Colon)?;
    put_word(out, type_word(f.value_type))?;
    put_contract(out, &f.clauses)?;
    put_body(out, &f.body)
}

#[tactic(auto, using(crate::proofs::Behind::behind_append))]
fn put_method(out: &mut String, m: &Method) -> Result<(), AllocError>
    ensures { OnOk result (string_bytes out.new ≡ behind (string_bytes out.old) (canonical.method_tokens (written_method m.now))) }
{
    put_parameters(out, &m.parameters)?;
    put_returns(out, &m.returns)?;
    put_contract(out, &m.clauses)?;
    put_optional_block(out, &m.body)
}

// What stands behind a member's first word.
#[tactic(auto, using(crate::proofs::Behind::behind_append))]
fn put_rest(out: &mut String, name: &Name, kind: &MemberKind) -> Result<(), AllocError>
    ensures { OnOk result (string_bytes out.new ≡ behind (string_bytes out.old) (canonical.member_rest (name_of name.now).name (written_kind kind.now))) }
{
    put_name(out, name)?;
    match kind {
        MemberKind::Field(of) => {
            put_sign(out, Symbol::Colon)?;
            put_word(out, type_word(*of))
        }
        MemberKind::Predicate(p) => put_predicate(out, p),
        MemberKind::Function(f) => put_function(out, f),
        MemberKind::Method(m) => put_method(out, m),
    }
}

fn first_word(kind: &MemberKind) -> Word
    ensures { result ≡ canonical.member_word (written_kind kind.now) }
{
    match kind {
        MemberKind::Field(_) => Word::Field,
        MemberKind::Predicate(_) => Word::Predicate,
        MemberKind::Function(_) => Word::Function,
        MemberKind::Method(_) => Word::Method,
    }
}

// A member without its line feed.
#[tactic(auto, using(crate::proofs::Behind::behind_front))]
fn put_tokens(out: &mut String, m: &Member) -> Result<(), AllocError>
    ensures { OnOk result (string_bytes out.new ≡ string_bytes out.old ++ behind (word_text (canonical.member_word (written_kind m.now.kind)))
        (canonical.member_rest (name_of m.now.name).name (written_kind m.now.kind))) }
{
    out.push_str(word_text(first_word(&m.kind)))?;
    put_rest(out, &m.name, &m.kind)?;
    Ok(())
}

// A member on a line of its own.
fn put_member(out: &mut String, m: &Member) -> Result<(), AllocError>
    ensures { OnOk result (string_bytes out.new ≡ string_bytes out.old ++ canonical.member_line (written_member m.now)) }
{
    put_tokens(out, m)?;
    out.push_str("\n")
}

/// The canonical text of a program.
pub fn print(alloc: Global, program: &Program) -> Result<Vec<u8>, AllocError>
    ensures canonical { IfOk result (λ text. vec_items text ≡ canonical.canonical_text (written_program program.now)) }
    // The bytes are a text.
    ensures utf8 { IfOk result (λ text. IsUtf8 (vec_items text)) }
{
    let mut out = String::new(alloc);
    for m in &program.members {
        put_member(&mut out, m)?;
    }
    Ok(out.into_bytes())
}
