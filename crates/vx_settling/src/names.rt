//! What the names of a program stand for.

ghost use Rattle.std.specs.Prelude.{◌≡◌, ◌++◌, ◌∷◌, ◌||◌, ◌&&◌, List, IfOk, OnOk, map};
ghost use Rattle.vx_ast.specs.Syntax as syntax;
ghost use Rattle.vx_ast.specs.Syntax.{Name, same_name};
ghost use Rattle.vx_ast.specs.Written as written;
ghost use Rattle.vx_ast.specs.Written.{written_member};
ghost use Rattle.vx_ast.specs.Resolve as resolve;
ghost use Rattle.vx_resolved.specs.Resolved.{names_of as listed};
ghost use Rattle.vx_settling.specs.Names.{has_name, names_in};

use crate::expr::shared;
use std::alloc::{AllocError, Global};
use std::collections::HashSet;
use std::rc::Rc;
use vx_ast::{Member, MemberKind};

/// Names that many statements can share.
pub type SharedNames = Vec<Rc<String>>;

/// The names of a program's fields in the order of its members, and those of its predicates and of its methods.
#[derive(Drop)]
pub struct Names {
    pub(crate) fields: Rc<SharedNames>,
    pub(crate) predicates: HashSet<String>,
    pub(crate) methods: HashSet<String>,
}

impl Names {
    /// The names of all fields, shared.
    pub fn fields(&self) -> Result<Rc<SharedNames>, AllocError>
        ensures { IfOk result (λ xs. listed xs.value.items ≡ (names_in self.now).fields) }
    {
        Rc::clone(&self.fields)
    }

    /// Whether a name is a predicate's.
    pub fn is_predicate(&self, name: &str) -> bool
        ensures { result ≡ (names_in self.now).is_predicate name.now }
    {
        self.predicates.contains(name)
    }

    /// Whether a name is a method's.
    pub fn is_method(&self, name: &str) -> bool
        ensures { result ≡ (names_in self.now).is_method name.now }
    {
        self.methods.contains(name)
    }
}

/// One name more.
#[tactic(auto, using(crate::proofs::Lists::name_behind))]
pub fn add_name(alloc: Global, name: &str, names: &mut SharedNames) -> Result<(), AllocError>
    ensures { OnOk result ((rest : List syntax.Name) → listed names.new.items ++ rest ≡ listed names.old.items ++ name.now ∷ rest) }
{
    names.push(shared(alloc, name)?)?;
    Ok(())
}

/// Names, to be shared.
pub fn shared_names(alloc: Global, names: SharedNames) -> Result<Rc<SharedNames>, AllocError>
    ensures { IfOk result (λ xs. listed xs.value.items ≡ listed names.items) }
{
    Ok(Rc::new(alloc, names)?)
}

// The name of a member, if it is a field.
fn add_field(alloc: Global, m: &Member, names: &mut SharedNames) -> Result<(), AllocError>
    ensures { OnOk result ((rest : List written.Member) → listed names.new.items ++ resolve.fields_of rest
        ≡ listed names.old.items ++ resolve.fields_of (written_member m.now ∷ rest)) }
{
    match &m.kind {
        MemberKind::Field(_) => add_name(alloc, &m.name.text, names),
        MemberKind::Predicate(_) | MemberKind::Function(_) | MemberKind::Method(_) => Ok(()),
    }
}

// The names of all fields among members.
fn fields_of(alloc: Global, all: &[Member]) -> Result<Rc<SharedNames>, AllocError>
    ensures { IfOk result (λ xs. listed xs.value.items ≡ resolve.fields_of (map written_member all.now)) }
{
    let mut names = Vec::new(alloc);
    for m in all {
        add_field(alloc, m, &mut names)?;
    }
    shared_names(alloc, names)
}

// A name is put into a set.
fn insert(alloc: Global, name: &str, names: &mut HashSet<String>) -> Result<(), AllocError>
    ensures { OnOk result ((x : Name) → has_name names.new x ≡ (same_name x name.now || has_name names.old x)) }
{
    let name = String::from_str(alloc, name)?;
    names.insert(name)?;
    Ok(())
}

// The name of a member, if it is a predicate.
fn add_predicate(alloc: Global, m: &Member, names: &mut HashSet<String>) -> Result<(), AllocError>
    ensures { OnOk result ((x : Name) → has_name names.new x
        ≡ ((resolve.is_predicate (written_member m.now).kind && same_name x (written_member m.now).name.name) || has_name names.old x)) }
{
    match &m.kind {
        MemberKind::Predicate(_) => insert(alloc, &m.name.text, names),
        MemberKind::Field(_) | MemberKind::Function(_) | MemberKind::Method(_) => Ok(()),
    }
}

// The name of a member, if it is a method.
fn add_method(alloc: Global, m: &Member, names: &mut HashSet<String>) -> Result<(), AllocError>
    ensures { OnOk result ((x : Name) → has_name names.new x
        ≡ ((resolve.is_method (written_member m.now).kind && same_name x (written_member m.now).name.name) || has_name names.old x)) }
{
    match &m.kind {
        MemberKind::Method(_) => insert(alloc, &m.name.text, names),
        MemberKind::Field(_) | MemberKind::Predicate(_) | MemberKind::Function(_) => Ok(()),
    }
}

// The names of all predicates among members.
fn predicates_of(alloc: Global, all: &[Member]) -> Result<HashSet<String>, AllocError>
    ensures { IfOk result (λ names. (x : Name) → has_name names x ≡ resolve.has_member resolve.is_predicate (map written_member all.now) x) }
{
    let mut names: HashSet<String> = HashSet::new(alloc);
    for m in all {
        add_predicate(alloc, m, &mut names)?;
    }
    Ok(names)
}

// The names of all methods among members.
fn methods_of(alloc: Global, all: &[Member]) -> Result<HashSet<String>, AllocError>
    ensures { IfOk result (λ names. (x : Name) → has_name names x ≡ resolve.has_member resolve.is_method (map written_member all.now) x) }
{
    let mut names: HashSet<String> = HashSet::new(alloc);
    for m in all {
        add_method(alloc, m, &mut names)?;
    }
    Ok(names)
}

/// What the names of these members stand for.
pub fn all_names(alloc: Global, all: &[Member]) -> Result<Names, AllocError>
    ensures { IfOk result (λ names. names_in names ≡ resolve.names_of (map written_member all.now)) }
{
    let fields = fields_of(alloc, all)?;
    let predicates = predicates_of(alloc, all)?;
    let methods = methods_of(alloc, all)?;
    Ok(Names {
        fields,
        predicates,
        methods,
    })
}
