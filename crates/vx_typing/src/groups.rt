//! Which members lead back to themselves, and what typing asks of them.

ghost use Rattle.std.specs.Prelude.{◌≡◌, ◌<◌, ◌^◌, ◌||◌, ◌&&◌, [], ℕ, Bool, IfSome, OnOk, IfOk, false, get_or, option_map, length, map, Some};
ghost use Rattle.vx_ast.specs.declared.MemberId.{MemberId as Id};
ghost use Rattle.vx_ast.specs.Written.{written_expr, written_clause, written_kind, written_member, Program};
ghost use Rattle.vx_ast.specs.Written as written;
ghost use Rattle.vx_graph.specs.Groups.{roots, root_at, is_same};
ghost use Rattle.vx_graph.specs.Listed.{is_in};
ghost use Rattle.vx_graph.specs.Reach.{leads};
ghost use Rattle.vx_graph.specs.Views.{rows};
ghost use Rattle.vx_typing.specs.GroupFaults as first;
ghost use Rattle.vx_typing.specs.Programs as programs;
ghost use Rattle.vx_typing.specs.Groups.{number_of, is_number, are_of, mentions};
ghost use Rattle.vx_typing.specs.Groups as groups;
ghost use Rattle.vx_typing.specs.Uses as uses;
ghost use Rattle.vx_typing.specs.Measures as measures;
ghost use Rattle.vx_expressions.specs.Settings as settings;
ghost use Rattle.vx_typing.specs.Members.{table_of};
ghost use Rattle.vx_expressions.specs.Gives.{Gives};
ghost use Rattle.vx_typing.specs.Numbered.{AreRoots, AreMarks, Tells, marks, shown};
ghost use Rattle.vx_typing.specs.Seen.{seen};
ghost use Rattle.vx_expressions.specs.Views.{table, signature};

use crate::uses::{Named, uses_before, uses_by, uses_of_body};
use std::alloc::{AllocError, Global};
use vx_ast::{Clause, Expr, ExprKind, Function, Member, MemberId, MemberKind, Place};
use vx_expressions::{Members, Signature, TypeFault, member};
use vx_graph::{Edges, Groups, all_groups};

/// A member's number in file order.
pub(crate) fn number(members: &Members, name: &str) -> Option<MemberId>
    requires { length members.now.entries < 2 ^ 32 }
    ensures { (p : Program) → table members.now.entries ≡ table_of p → option_map (λ m. m.0) result ≡ number_of p name.now }
{
    match members.get_index_of(name) {
        Some(n) => Some(MemberId(n as u32)),
        None => None,
    }
}

// One more number, if it is one.
fn add_number(row: &mut Vec<MemberId>, number: Option<MemberId>) -> Result<(), AllocError>
    ensures { OnOk result ((b : ℕ) → is_in row.new.items b ≡ (is_in row.old.items b || is_number (option_map (λ m. m.0) number) b)) }
{
    if let Some(m) = number {
        row.push(m)?;
    }
    Ok(())
}

// The numbers of the members that are named.
fn row(alloc: Global, members: &Members, uses: &[Named]) -> Result<Vec<MemberId>, AllocError>
    requires { length members.now.entries < 2 ^ 32 }
    ensures { IfOk result (λ row. (p : Program) → table members.now.entries ≡ table_of p → (b : ℕ) → is_in row.items b ≡ are_of p b (seen uses.now)) }
{
    let mut row = Vec::new(alloc);
    for u in uses {
        add_number(&mut row, number(members, u.name))?;
    }
    Ok(row)
}

// What a member names, as numbers.
fn row_of(alloc: Global, members: &Members, m: &Member) -> Result<Vec<MemberId>, AllocError>
    requires { length members.now.entries < 2 ^ 32 }
    ensures { IfOk result (λ row. (p : Program) → table members.now.entries ≡ table_of p → (b : ℕ) → is_in row.items b ≡ are_of p b (uses.uses_by (written_kind m.now.kind) [])) }
{
    let mut found = Vec::new(alloc);
    uses_by(&mut found, &m.kind)?;
    row(alloc, members, &found)
}

// What each member names.
fn rows_of(
    alloc: Global,
    members: &Members,
    all: &[Member],
) -> Result<Vec<Vec<MemberId>>, AllocError>
    requires { length members.now.entries < 2 ^ 32 }
    ensures { IfOk result (λ rows. (p : Program) → table members.now.entries ≡ table_of p → Tells p rows.items (map written_member all.now)) }
{
    let mut rows = Vec::new(alloc);
    for m in all {
        rows.push(row_of(alloc, members, m)?)?;
    }
    Ok(rows)
}

/// Which members lead to which.
pub fn edges_of(alloc: Global, members: &Members, all: &[Member]) -> Result<Edges, AllocError>
    requires few { length all.now < 2 ^ 32 }
    requires table { table members.now.entries ≡ table_of (map written_member all.now) }
    ensures count { IfOk result (λ e. length (rows e) ≡ length all.now) }
    ensures edges { IfOk result (λ e. (a b : ℕ) → leads (rows e) a b ≡ mentions (map written_member all.now) a b) }
{
    let rows = rows_of(alloc, members, all)?;
    let edges = Edges::of(alloc, rows)?;
    Ok(edges)
}

// The groups of the members.
fn groups_of(alloc: Global, edges: &Edges) -> Result<Groups, AllocError>
    ensures { (p : Program) → length (rows edges.now) ≡ length p → ((a b : ℕ) → leads (rows edges.now) a b ≡ mentions p a b) → IfOk result (λ g. AreRoots p (roots g)) }
{
    let groups = all_groups(alloc, edges)?;
    Ok(groups)
}

/// The members of a program, by number and by name, and their groups.
#[derive(Clone, Copy)]
pub struct Graph<'s, 'a> {
    pub all: &'s [Member],
    pub members: &'s Members<'a>,
    pub groups: &'s Groups,
}

// Whether a measure is an instance.
fn is_instance(members: &Members, e: &Expr) -> bool
    ensures { result ≡ measures.is_instance (table members.now.entries) (written_expr e.now) }
{
    match &e.kind {
        ExprKind::Call(name, _) => is_predicate(member(members, name)),
        ExprKind::Number(_)
        | ExprKind::Boolean(_)
        | ExprKind::Null
        | ExprKind::Write
        | ExprKind::Nothing
        | ExprKind::Outcome
        | ExprKind::Variable(_)
        | ExprKind::Read(_, _)
        | ExprKind::Unary(_, _)
        | ExprKind::Binary(_, _, _)
        | ExprKind::Conditional(_, _, _)
        | ExprKind::Old(_)
        | ExprKind::Access(_, _)
        | ExprKind::Unfolding(_, _, _, _) => false,
    }
}

fn is_predicate(found: Option<Signature>) -> bool
    ensures { result ≡ settings.is_predicate (option_map signature found.entry) }
{
    match found {
        Some(Signature::Predicate(_, _)) => true,
        Some(Signature::Field(_)) => false,
        Some(Signature::Function(_, _)) => false,
        Some(Signature::Method(_, _)) => false,
        None => false,
    }
}

// The first measure.
fn measure_of(cs: &[Clause]) -> Option<&Expr>
    ensures { shown result ≡ written.measure_of (map written_clause cs.now) }
{
    for c in cs {
        match c {
            Clause::Requires(_) => {}
            Clause::Ensures(_) => {}
            Clause::Decreases(e) => return Some(e),
        }
    }
    None
}

// Whether it is a measure by an instance, or not.
fn has_measure(members: &Members, by_instance: bool, measure: Option<&Expr>) -> bool
    ensures { result ≡ first.has_measure (table members.now.entries) by_instance (shown measure.entry) }
{
    match measure {
        None => false,
        Some(e) => is_instance(members, e) == by_instance,
    }
}

fn measures_by(members: &Members, by_instance: bool, kind: &MemberKind) -> bool
    ensures { result ≡ first.measures_by (table members.now.entries) by_instance (Some (written_kind kind.now)) }
{
    match kind {
        MemberKind::Function(f) => has_measure(members, by_instance, measure_of(&f.clauses)),
        MemberKind::Field(_) => false,
        MemberKind::Predicate(_) => false,
        MemberKind::Method(_) => false,
    }
}

// Which groups have a function that measures by an instance, and which have one that measures by a number: a mark for
// each member, which counts where it is the root of a group.
#[derive(Drop)]
struct Kinds {
    by_instance: Vec<bool>,
    by_number: Vec<bool>,
}

impl Kinds {
    // Whether a function of the group measures so.
    fn has(&self, root: MemberId, by_instance: bool) -> bool
        requires { root.0 < length (marks self.now by_instance) }
        ensures { result ≡ get_or (marks self.now by_instance) root.0 false }
    {
        if by_instance {
            self.by_instance[root.0 as usize]
        } else {
            self.by_number[root.0 as usize]
        }
    }
}

// One more member of the group of this root measures so, or doesn't.
fn mark(marks: &mut Vec<bool>, root: Option<MemberId>, measures: bool)
    requires { IfSome root (λ r. r.0 < length marks.old.items) }
    ensures members { length marks.new.items ≡ length marks.old.items }
    ensures marks { (r : Id) → get_or marks.new.items r.0 false ≡ ((is_same (Some r) root && measures) || get_or marks.old.items r.0 false) }
{
    if let Some(r) = root {
        marks[r.0 as usize] |= measures;
    }
}

// How the functions of each group measure.
fn kinds_of(alloc: Global, g: Graph) -> Result<Kinds, AllocError>
    requires few { length g.all.now < 2 ^ 32 }
    requires table { table g.members.now.entries ≡ table_of (map written_member g.all.now) }
    requires groups { AreRoots (map written_member g.all.now) (roots g.groups.now) }
    ensures { IfOk result (λ k. (b : Bool) → AreMarks (map written_member g.entry.all.now) (roots g.entry.groups.now) b (length g.entry.all.now) (marks k b)) }
{
    let mut by_instance = vec![in alloc; false; g.all.len()]?;
    let mut by_number = vec![in alloc; false; g.all.len()]?;
    for n in 0..g.all.len() {
        let root = g.groups.root(MemberId(n as u32));
        let kind = &g.all[n].kind;
        mark(&mut by_instance, root, measures_by(g.members, true, kind));
        mark(&mut by_number, root, measures_by(g.members, false, kind));
    }
    Ok(Kinds {
        by_instance,
        by_number,
    })
}

// The kind of a measure.
fn own_measure(members: &Members, at: Place, measure: Option<&Expr>) -> Result<bool, TypeFault>
    ensures { Gives (λ b. b) result (first.own_measure (table members.now.entries) at (shown measure.entry)) }
{
    match measure {
        None => Err(TypeFault::NoMeasure(at)),
        Some(e) => Ok(is_instance(members, e)),
    }
}

// A function that reaches itself has a measure, and none of its group measures otherwise.
fn group_measured(
    g: Graph,
    kinds: &Kinds,
    root: MemberId,
    at: Place,
    measure: Option<&Expr>,
) -> Result<(), TypeFault>
    requires table { table g.members.now.entries ≡ table_of (map written_member g.all.now) }
    requires kinds { (b : Bool) → AreMarks (map written_member g.all.now) (roots g.groups.now) b (length g.all.now) (marks kinds.now b) }
    requires root { root.0 < length g.all.now }
    ensures { (a : ℕ) → root_at (roots g.entry.groups.now) a ≡ Some root
        → Gives (λ x. tt) result (first.group_measured (map written_member g.entry.all.now) a at (shown measure.entry)) }
{
    let by_instance = own_measure(g.members, at, measure)?;
    if kinds.has(root, !by_instance) {
        return Err(TypeFault::MixedMeasures(at));
    }
    Ok(())
}

fn function_measured(
    g: Graph,
    kinds: &Kinds,
    member: MemberId,
    at: Place,
    f: &Function,
) -> Result<(), TypeFault>
    requires table { table g.members.now.entries ≡ table_of (map written_member g.all.now) }
    requires groups { AreRoots (map written_member g.all.now) (roots g.groups.now) }
    requires kinds { (b : Bool) → AreMarks (map written_member g.all.now) (roots g.groups.now) b (length g.all.now) (marks kinds.now b) }
    requires member { member.0 < length g.all.now }
    ensures { Gives (λ x. tt) result (first.measured (map written_member g.entry.all.now) member.0 at (written_kind (MemberKind.Function f.now))) }
{
    match g.groups.root(member) {
        Some(root) => group_measured(g, kinds, root, at, measure_of(&f.clauses)),
        None => Ok(()),
    }
}

fn measured(g: Graph, kinds: &Kinds, member: MemberId, m: &Member) -> Result<(), TypeFault>
    requires table { table g.members.now.entries ≡ table_of (map written_member g.all.now) }
    requires groups { AreRoots (map written_member g.all.now) (roots g.groups.now) }
    requires kinds { (b : Bool) → AreMarks (map written_member g.all.now) (roots g.groups.now) b (length g.all.now) (marks kinds.now b) }
    requires member { member.0 < length g.all.now }
    ensures { Gives (λ x. tt) result (first.measured (map written_member g.entry.all.now) member.0 m.now.place (written_kind m.now.kind)) }
{
    match &m.kind {
        MemberKind::Function(f) => function_measured(g, kinds, member, m.place, f),
        MemberKind::Field(_) => Ok(()),
        MemberKind::Predicate(_) => Ok(()),
        MemberKind::Method(_) => Ok(()),
    }
}

// Each function that reaches itself, in file order.
fn all_measured(g: Graph, kinds: &Kinds) -> Result<(), TypeFault>
    requires few { length g.all.now < 2 ^ 32 }
    requires table { table g.members.now.entries ≡ table_of (map written_member g.all.now) }
    requires groups { AreRoots (map written_member g.all.now) (roots g.groups.now) }
    requires kinds { (b : Bool) → AreMarks (map written_member g.all.now) (roots g.groups.now) b (length g.all.now) (marks kinds.now b) }
    ensures { Gives (λ x. tt) result (first.measures (map written_member g.entry.all.now) 0 (map written_member g.entry.all.now)) }
{
    for n in 0..g.all.len() {
        measured(g, kinds, MemberId(n as u32), &g.all[n])?;
    }
    Ok(())
}

// Whether the member of this name is in the group of a member.
fn is_own(g: Graph, member: MemberId, name: &str) -> bool
    requires few { length g.all.now < 2 ^ 32 }
    requires table { table g.members.now.entries ≡ table_of (map written_member g.all.now) }
    requires groups { AreRoots (map written_member g.all.now) (roots g.groups.now) }
    requires member { member.0 < length g.all.now }
    ensures { result ≡ groups.is_own (map written_member g.entry.all.now) member.0 name.now }
{
    match number(g.members, name) {
        Some(other) => g.groups.are_together(member, other),
        None => false,
    }
}

// None of these is of a member's own group: all of them, or those that are unfolded.
fn none_own(g: Graph, member: MemberId, every: bool, uses: &[Named]) -> Result<(), TypeFault>
    requires few { length g.all.now < 2 ^ 32 }
    requires table { table g.members.now.entries ≡ table_of (map written_member g.all.now) }
    requires groups { AreRoots (map written_member g.all.now) (roots g.groups.now) }
    requires member { member.0 < length g.all.now }
    ensures { Gives (λ x. tt) result (first.none_own (map written_member g.entry.all.now) member.0 every (seen uses.now)) }
{
    for u in uses {
        let own = is_own(g, member, u.name);
        if (every | u.unfolds) & own {
            return Err(TypeFault::NotHere(u.place));
        }
    }
    Ok(())
}

// No function's precondition uses its own group, and no predicate's body unfolds its own.
fn apart(alloc: Global, g: Graph, member: MemberId, kind: &MemberKind) -> Result<(), TypeFault>
    requires few { length g.all.now < 2 ^ 32 }
    requires table { table g.members.now.entries ≡ table_of (map written_member g.all.now) }
    requires groups { AreRoots (map written_member g.all.now) (roots g.groups.now) }
    requires member { member.0 < length g.all.now }
    ensures { Gives (λ x. tt) result (first.apart (map written_member g.entry.all.now) member.0 (written_kind kind.now)) }
{
    match kind {
        MemberKind::Function(f) => {
            let mut found = Vec::new(alloc);
            uses_before(&mut found, &f.clauses)?;
            none_own(g, member, true, &found)
        }
        MemberKind::Predicate(d) => {
            let mut found = Vec::new(alloc);
            uses_of_body(&mut found, &d.body)?;
            none_own(g, member, false, &found)
        }
        MemberKind::Field(_) => Ok(()),
        MemberKind::Method(_) => Ok(()),
    }
}

fn all_apart(alloc: Global, g: Graph) -> Result<(), TypeFault>
    requires few { length g.all.now < 2 ^ 32 }
    requires table { table g.members.now.entries ≡ table_of (map written_member g.all.now) }
    requires groups { AreRoots (map written_member g.all.now) (roots g.groups.now) }
    ensures { Gives (λ x. tt) result (first.all_apart (map written_member g.entry.all.now) 0 (map written_member g.entry.all.now)) }
{
    for n in 0..g.all.len() {
        apart(alloc, g, MemberId(n as u32), &g.all[n].kind)?;
    }
    Ok(())
}

/// Measures, and then what leads back to its own group. The groups of all members are found at once.
pub fn check_groups(
    alloc: Global,
    members: &Members,
    edges: &Edges,
    all: &[Member],
) -> Result<(), TypeFault>
    requires few { length all.now < 2 ^ 32 }
    requires table { table members.now.entries ≡ table_of (map written_member all.now) }
    requires count { length (rows edges.now) ≡ length all.now }
    requires edges { (a b : ℕ) → leads (rows edges.now) a b ≡ mentions (map written_member all.now) a b }
    ensures { Gives (λ x. tt) result (programs.groups (map written_member all.now)) }
{
    let groups = groups_of(alloc, edges)?;
    let g = Graph {
        all,
        members,
        groups: &groups,
    };
    let kinds = kinds_of(alloc, g)?;
    all_measured(g, &kinds)?;
    all_apart(alloc, g)
}

/// The same, by what the members mention.
pub fn check_all_groups(alloc: Global, members: &Members, all: &[Member]) -> Result<(), TypeFault>
    requires few { length all.now < 2 ^ 32 }
    requires table { table members.now.entries ≡ table_of (map written_member all.now) }
    ensures { Gives (λ x. tt) result (programs.groups (map written_member all.now)) }
{
    let edges = edges_of(alloc, members, all)?;
    check_groups(alloc, members, &edges, all)
}
