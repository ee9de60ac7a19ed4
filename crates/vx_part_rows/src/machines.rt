//! Two machines on one member of a program, each of which stands suspended while the other goes on.

ghost use Rattle.vx_resolved.specs.Settled.{settled};
ghost use Rattle.vx_machine.specs.Runs.{Follows};

use crate::texts::put_place;
use std::alloc::{AllocError, Global};
use std::rc::Rc;
use vx_ast::{MemberId, Place};
use vx_machine::{Ask, Machine, Outcome};
use vx_parser::parse;
use vx_report::{code_word, reply_word};
use vx_resolved::Settled;
use vx_rules::{Code, Reply};
use vx_settled::typed_programs_keep_apart;
use vx_settling::settle;
use vx_smt_meaning::Command;
use vx_smt_text::write;
use vx_stack::Query;
use vx_table::{Row, Step, Text};
use vx_terms::Term;
use vx_typing::{Typed, check};

// On, with this reply where one is awaited.
fn on(
    alloc: Global,
    machine: &mut Machine,
    program: &Settled,
    reply: Reply,
) -> Result<Ask, AllocError>
    requires { Follows (settled program.now) machine.old }
    ensures { Follows (settled program.now) machine.new }
{
    if machine.awaits() {
        return machine.next(alloc, program, Some(reply));
    }
    machine.next(alloc, program, None)
}

// A term as a command asserts it, on a line.
fn put_asserted(alloc: Global, term: Rc<Term>, out: &mut Text) {
    let mut bytes = Vec::new(alloc);
    match write(alloc, &Command::Assert(term), &mut bytes) {
        Ok(()) => out.bytes(&bytes),
        Err(_) => out.cut(),
    }
}

// The path of a question as it is asserted, and its condition.
fn put_question(alloc: Global, query: &Query, out: &mut Text) -> Result<(), AllocError> {
    for entry in query.path.entries(alloc)? {
        out.put("    ");
        put_asserted(alloc, entry.term, out);
    }
    out.put("    follows: ");
    put_asserted(alloc, query.condition.clone()?, out);
    Ok(())
}

// Where a condition failed, its code and the reply.
fn put_failure(place: Place, code: Code, reply: Reply, out: &mut Text) {
    out.put("failed at ");
    put_place(place, out);
    out.put(" ");
    out.put(code_word(code));
    out.put(" (");
    out.put(reply_word(reply));
    out.put(")");
}

// A question's place and code, or an outcome.
fn put_told(ask: &Ask, out: &mut Text) {
    match ask {
        Ask::Check(query) => {
            out.put("asks ");
            put_place(query.place, out);
            out.put(" ");
            out.put(code_word(query.code));
        }
        Ask::Done(Outcome::Passed) => out.put("passed"),
        Ask::Done(Outcome::Failed { place, code, reply }) => {
            put_failure(*place, *code, *reply, out);
        }
        Ask::Done(Outcome::Limit { checks }) => {
            out.put("limit of ");
            out.natural(u128::from(*checks));
            out.put(" checks");
        }
    }
}

fn put_ask(alloc: Global, step: Step, ask: &Ask, out: &mut Text) -> Result<(), AllocError> {
    out.put(if step.other { "  other: " } else { "  first: " });
    put_told(ask, out);
    out.put("\n");
    match ask {
        Ask::Check(query) => put_question(alloc, query, out),
        Ask::Done(_) => Ok(()),
    }
}

// One step, of the one machine or of the other.
fn take_step(
    alloc: Global,
    first: &mut Machine,
    other: &mut Machine,
    program: &Settled,
    step: Step,
) -> Result<Ask, AllocError>
    requires first { Follows (settled program.now) first.old }
    requires other { Follows (settled program.now) other.old }
    ensures first { Follows (settled program.now) first.new }
    ensures other { Follows (settled program.now) other.new }
{
    if step.other {
        return on(alloc, other, program, step.reply);
    }
    on(alloc, first, program, step.reply)
}

/// A typed program, settled: typing keeps its members apart.
///
/// # Errors
/// Want of memory.
fn settled_from(alloc: Global, typed: &Typed) -> Result<Settled, AllocError> {
    typed_programs_keep_apart();
    typed.typed();
    settle(alloc, typed.program())
}

// The steps of both machines.
fn put_steps(
    alloc: Global,
    program: &Settled,
    row: &Row,
    out: &mut Text,
) -> Result<(), AllocError> {
    if program.len() <= row.member as usize {
        return Ok(());
    }
    let mut first = Machine::start(alloc, program, MemberId(row.member), row.limit)?;
    let mut other = Machine::start(alloc, program, MemberId(row.member), row.limit)?;
    for step in &row.steps {
        let ask = take_step(alloc, &mut first, &mut other, program, *step)?;
        put_ask(alloc, *step, &ask, out)?;
    }
    Ok(())
}

/// What two machines on a row's member ask, step by step.
///
/// # Errors
/// Want of memory.
pub fn put_machines(alloc: Global, row: &Row, out: &mut Text) -> Result<(), AllocError> {
    let Ok(program) = parse(alloc, &row.text) else {
        out.put("  no program\n");
        return Ok(());
    };
    let Ok(typed) = check(alloc, &program) else {
        out.put("  no typed program\n");
        return Ok(());
    };
    let Ok(program) = settled_from(alloc, &typed) else {
        out.put("  no program that is settled\n");
        return Ok(());
    };
    put_steps(alloc, &program, row, out)
}
