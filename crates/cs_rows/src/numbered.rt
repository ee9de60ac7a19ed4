//! Terms by number, and the clauses that steps derive over them.

use crate::names::{operator_text, put_symbol, sort_text};
use crate::reading::{Written, certificate_of, term_of};
use crate::told::{put_fraction, put_refusal};
use cs_certificate::Clause;
use cs_numbers::{NumberedTerms, add, extend, nodes_of, number, place_of};
use cs_proof::{Duty, Stack, Step, prepared, step_of};
use cs_reader::{Certificate, SymbolIndex, Symbols};
use cs_table::{Head, Node, Stop, Table};
use std::alloc::{AllocError, Global};
use std::rc::Rc;
use vx_smt_meaning::Declared;
use vx_table::Text;
use vx_terms::Term;

// What is numbered, and the numbers of the assertions.
#[derive(Drop)]
struct Numbered {
    terms: NumberedTerms,
    nodes: Table,
    roots: Vec<u32>,
}

fn put_head(text: &mut Text, head: &Head) {
    match head {
        Head::Truth(value) => text.put(if *value { "true" } else { "false" }),
        Head::Number(number) => text.whole(*number),
        Head::Part(part) => put_fraction(text, *part),
        Head::Constant(symbol, _) => put_symbol(text, symbol),
        Head::Apply(symbol, _) => put_symbol(text, symbol),
        Head::Binary(operator) => text.put(operator_text(*operator)),
        Head::Not => text.put("not"),
        Head::Ite => text.put("ite"),
        Head::All => text.put("and"),
        Head::Some => text.put("or"),
    }
}

fn put_parts(text: &mut Text, parts: &[u32]) {
    for part in parts {
        text.put(" ");
        text.natural(u128::from(*part));
    }
}

// A numbered term: its head over the numbers of its parts, and its sort.
fn put_node(text: &mut Text, number: usize, node: &Node) {
    text.break_line();
    text.natural(number as u128);
    text.put(" ");
    if node.parts.is_empty() {
        put_head(text, &node.head);
    } else {
        text.put("(");
        put_head(text, &node.head);
        put_parts(text, &node.parts);
        text.put(")");
    }
    text.put(" ");
    text.put(sort_text(&node.sort));
}

fn want(stop: Result<(), Stop>) -> Result<(), AllocError> {
    stop.map_err(|_| AllocError)
}

/// The numbered terms of the assertions, and of a further one where it is spelled; false: it is no term.
///
/// # Errors
/// Want of memory.
pub fn put_numbers(
    alloc: Global,
    assertions: &[Rc<Term>],
    known: &[Declared],
    further: &str,
    text: &mut Text,
) -> Result<bool, AllocError> {
    let mut terms = number(alloc, assertions)?;
    if !further.is_empty() {
        let Some(further) = term_of(alloc, known, further)? else {
            return Ok(false);
        };
        add(&mut terms, &further)?;
    }
    let Ok(nodes) = nodes_of(alloc, &terms) else {
        return Err(AllocError);
    };
    for (number, node) in nodes.iter().enumerate() {
        put_node(text, number, node);
    }
    Ok(true)
}

// The numbers of the terms of the assertions.
fn numbered_of(alloc: Global, assertions: &[Rc<Term>]) -> Result<Numbered, Stop> {
    let terms = number(alloc, assertions)?;
    let mut roots = Vec::new(alloc);
    for assertion in assertions {
        roots.push(place_of(&terms, assertion)?)?;
    }
    let mut nodes = Table::new(alloc)?;
    extend(alloc, &mut nodes, &terms)?;
    Ok(Numbered {
        terms,
        nodes,
        roots,
    })
}

// A clause: its literals, if it has any.
fn put_clause(text: &mut Text, clause: &Clause) {
    if clause.literals.is_empty() {
        text.put(" the empty clause");
    }
    for literal in &clause.literals {
        text.put(if literal.positive { " p" } else { " n" });
        text.natural(u128::from(literal.number));
    }
}

fn put_derived(text: &mut Text, clause: &Clause, by: &str) {
    text.put("derives");
    put_clause(text, clause);
    text.put(by);
}

// What a step that is no `term` step derives, or what it still has to show.
fn put_prepared(alloc: Global, all: &Numbered, step: &Step, text: &mut Text) {
    match prepared(alloc, &all.nodes, &all.roots, step) {
        Ok((Duty::Derived, clause)) => put_derived(text, &clause, ""),
        Ok((Duty::Sum(_, _), clause)) => put_derived(text, &clause, " by a sum"),
        Ok((Duty::Hints(_, _), clause)) => put_derived(text, &clause, " by hints"),
        Ok((Duty::Named | Duty::Missed, _)) => text.put("derives nothing"),
        Err(Stop::Miss) => text.put("misses its rule"),
        Err(Stop::Want) => text.cut(),
    }
}

// What a step does: a `term` step numbers its term.
fn put_done(
    alloc: Global,
    all: &mut Numbered,
    step: &Step,
    text: &mut Text,
) -> Result<(), AllocError> {
    text.break_line();
    let Step::Term(term) = step else {
        put_prepared(alloc, all, step, text);
        return Ok(());
    };
    add(&mut all.terms, term)?;
    want(extend(alloc, &mut all.nodes, &all.terms))?;
    text.put("numbers ");
    text.natural(all.nodes.nodes.len() as u128);
    text.put(" terms");
    Ok(())
}

fn put_steps(
    alloc: Global,
    stack: &Stack,
    certificate: Certificate,
    text: &mut Text,
) -> Result<(), AllocError> {
    let declared: &[Declared] = &stack.symbols;
    let index = SymbolIndex::of(alloc, declared)?;
    let symbols = Symbols::new(declared, &index);
    let Ok(mut all) = numbered_of(alloc, &stack.assertions) else {
        return Err(AllocError);
    };
    for read in certificate.steps {
        let Ok(step) = step_of(alloc, &symbols, read) else {
            return Err(AllocError);
        };
        put_done(alloc, &mut all, &step, text)?;
    }
    Ok(())
}

/// The clause of each step of a reply over these assertions; false: it is none.
///
/// # Errors
/// Want of memory.
pub fn put_derives(
    alloc: Global,
    stack: &Stack,
    reply: &str,
    text: &mut Text,
) -> Result<bool, AllocError> {
    match certificate_of(alloc, reply)? {
        Some(Written::Steps(certificate)) => put_steps(alloc, stack, certificate, text)?,
        Some(Written::Refused(refusal)) => put_refusal(text, &refusal),
        None => return Ok(false),
    }
    Ok(true)
}
