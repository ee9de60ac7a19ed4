// The order that the matches of a subcommand give.
ghost use Rattle.std.specs.Prelude.{◌≡◌, ◌≤◌, option_map, IfOk, IfSome, codes};
ghost use Rattle.clap.specs.Words.{rows_of, found_of, first_of};
ghost use Rattle.vx_words.specs.Orders.{verify_in, jobs_in, count_in, work_in, seed_in, run_in, order_from, ReadsAs, IsLanes, IsWithinLimit};
ghost use Rattle.vx_words.specs.declared.order.Order.TheVariants as TheOrders;

use crate::numbers::{jobs_of, methods_of, seed_of};
use crate::solver::parts_of;
use crate::{Order, Text, WordsFault};
use clap::ArgMatches;
use std::alloc::{AllocError, Global};

// The first value of an argument.
fn text_of<'a>(matches: &ArgMatches<'a>, id: &str) -> Option<&'a str>
    ensures { option_map (λ s. s.now) result ≡ first_of id.now (rows_of (found_of matches.now)) }
{
    matches.get_str(id)
}

fn file_of(alloc: Global, matches: &ArgMatches) -> Result<Option<Text>, AllocError>
    ensures { IfOk result (λ file. file ≡ first_of (codes "file") (rows_of (found_of matches.now))) }
{
    match text_of(matches, "file") {
        Some(text) => Ok(Some(Text::copy(alloc, text)?)),
        None => Ok(None),
    }
}

// How many lanes are wanted.
fn lanes_of(matches: &ArgMatches) -> Option<u32>
    ensures number { result ≡ jobs_in (rows_of (found_of matches.now)) }
    ensures limit { IfSome result IsLanes }
{
    jobs_of(text_of(matches, "jobs").unwrap_or("1"))
}

fn verify_of(alloc: Global, matches: &ArgMatches) -> Result<Order, WordsFault>
    ensures meaning { ReadsAs (verify_in (rows_of (found_of matches.now))) result }
    ensures limit { IfOk result IsWithinLimit }
{
    let solver = parts_of(alloc, text_of(matches, "solver").unwrap_or("builtin"))?;
    if solver.len() == 0 {
        return Err(WordsFault::Usage);
    }
    let file = file_of(alloc, matches)?;
    match lanes_of(matches) {
        Some(jobs) => Ok(Order::Verify { file, solver, jobs }),
        None => Err(WordsFault::Usage),
    }
}

// How many methods are to be generated.
fn count_of(matches: &ArgMatches) -> Option<u32>
    ensures number { result ≡ count_in (rows_of (found_of matches.now)) }
    ensures limit { IfSome result (λ methods. methods ≤ 2000) }
{
    match text_of(matches, "methods") {
        Some(text) => methods_of(text),
        None => None,
    }
}

// The order to generate methods, and to verify them.
fn gen_of(matches: &ArgMatches) -> Result<Order, WordsFault>
    ensures meaning { ReadsAs (option_map TheOrders.Gen (count_in (rows_of (found_of matches.now)))) result }
    ensures limit { IfOk result IsWithinLimit }
{
    match count_of(matches) {
        Some(methods) => Ok(Order::Gen { methods }),
        None => Err(WordsFault::Usage),
    }
}

fn work_of(matches: &ArgMatches) -> Result<Order, WordsFault>
    ensures meaning { ReadsAs (work_in (rows_of (found_of matches.now))) result }
    ensures limit { IfOk result IsWithinLimit }
{
    match (count_of(matches), lanes_of(matches)) {
        (Some(methods), Some(jobs)) => Ok(Order::Work { methods, jobs }),
        _ => Err(WordsFault::Usage),
    }
}

// The seed of a run.
fn seed_from(matches: &ArgMatches) -> Option<u64>
    ensures number { result ≡ seed_in (rows_of (found_of matches.now)) }
{
    match text_of(matches, "seed") {
        Some(text) => seed_of(text),
        None => None,
    }
}

fn run_of(alloc: Global, matches: &ArgMatches) -> Result<Order, WordsFault>
    ensures meaning { ReadsAs (run_in (rows_of (found_of matches.now))) result }
    ensures limit { IfOk result IsWithinLimit }
{
    let file = text_of(matches, "file");
    let method = text_of(matches, "method");
    match (file, method, seed_from(matches)) {
        (Some(file), Some(method), Some(seed)) => Ok(Order::Run {
            file: Text::copy(alloc, file)?,
            method: Text::copy(alloc, method)?,
            seed,
        }),
        _ => Err(WordsFault::Usage),
    }
}

/// The order of a subcommand, by its name and its matches.
pub fn order_of(alloc: Global, name: &str, matches: &ArgMatches) -> Result<Order, WordsFault>
    ensures meaning { ReadsAs (order_from name.now (rows_of (found_of matches.now))) result }
    ensures limit { IfOk result IsWithinLimit }
{
    if name == "verify" {
        return verify_of(alloc, matches);
    }
    if name == "gen" {
        return gen_of(matches);
    }
    if name == "work" {
        return work_of(matches);
    }
    if name == "run" {
        return run_of(alloc, matches);
    }
    let file = file_of(alloc, matches)?;
    if name == "check" {
        return Ok(Order::Check { file });
    }
    if name == "print" {
        return Ok(Order::Print { file });
    }
    Err(WordsFault::Usage)
}
