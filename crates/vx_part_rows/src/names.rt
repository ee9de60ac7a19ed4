//! What words mean, and what names stand for.

use std::alloc::{AllocError, Global};
use vx_ends::Parts;
use vx_parser::parse;
use vx_table::{Row, Text};
use vx_typing::{Signature, Typed, check};
use vx_words::{Order, WordsFault, read_words};

fn put_file(word: &str, file: &Option<vx_words::Text>, out: &mut Text) {
    out.put(word);
    out.put(" ");
    out.put(file.as_ref().map_or("standard input", |name| name.as_str()));
}

fn put_parts(solver: &Parts, out: &mut Text) {
    for part in solver.texts() {
        out.put(" [");
        out.put(part);
        out.put("]");
    }
}

// How many lanes there are, where there is more than one.
fn put_jobs(jobs: u32, out: &mut Text) {
    if jobs > 1 {
        out.put(" in ");
        out.natural(u128::from(jobs));
        out.put(" lanes");
    }
}

fn put_methods(word: &str, methods: u32, out: &mut Text) {
    out.put(word);
    out.put(" ");
    out.natural(u128::from(methods));
}

fn put_meaning(order: &Order, out: &mut Text) {
    match order {
        Order::Verify { file, solver, jobs } => {
            put_file("verify", file, out);
            out.put(" by");
            put_parts(solver, out);
            put_jobs(*jobs, out);
        }
        Order::Check { file } => put_file("check", file, out),
        Order::Print { file } => put_file("print", file, out),
        Order::Gen { methods } => put_methods("gen", *methods, out),
        Order::Run { file, method, seed } => {
            out.put("run ");
            out.put(method.as_str());
            out.put(" of ");
            out.put(file.as_str());
            out.put(" with seed ");
            out.natural(u128::from(*seed));
        }
        Order::Work { methods, jobs } => {
            put_methods("work", *methods, out);
            put_jobs(*jobs, out);
        }
    }
}

/// What the words mean.
///
/// # Errors
/// Want of memory.
pub fn put_order(alloc: Global, row: &Row, out: &mut Text) -> Result<(), AllocError> {
    let words = row.command(alloc)?;
    out.put("  ");
    match read_words(alloc, &words) {
        Ok(order) => put_meaning(&order, out),
        Err(WordsFault::Usage) => out.put("usage"),
        Err(WordsFault::Want) => return Err(AllocError),
    }
    out.put("\n");
    Ok(())
}

fn kind_of(signature: &Signature) -> &'static str {
    match signature {
        Signature::Field(_) => "a field",
        Signature::Predicate(_, _) => "a predicate",
        Signature::Function(_, _) => "a function",
        Signature::Method(_, _) => "a method",
    }
}

// What a name stands for.
fn put_name(typed: &Typed, name: &str, members: usize, out: &mut Text) {
    out.put("  ");
    out.put(name);
    match (typed.signature(name), typed.number(name)) {
        (Some(signature), Some(number)) => {
            out.put(": ");
            out.put(kind_of(&signature));
            out.put(", number ");
            out.natural(u128::from(number.0));
            out.put(" of ");
            out.natural(members as u128);
        }
        _ => out.put(": nothing"),
    }
    out.put("\n");
}

/// What the words stand for as names of members.
pub fn put_names(alloc: Global, row: &Row, out: &mut Text) {
    let Ok(program) = parse(alloc, &row.text) else {
        out.put("  no program\n");
        return;
    };
    let Ok(typed) = check(alloc, &program) else {
        out.put("  no typed program\n");
        return;
    };
    for name in row.words.texts() {
        put_name(&typed, name, program.members.len(), out);
    }
}
