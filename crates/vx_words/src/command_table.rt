// The table of commands, as it is given to the parser.
ghost use Rattle.std.specs.Prelude.{◌≡◌, IfOk, false, codes};
ghost use Rattle.clap.specs.Words.{rule_of, app_of, shape_of, with_subcommand};
ghost use Rattle.clap.specs.declared.builder.command.Command.TheViews.{out-Command as fields_of};
ghost use Rattle.vx_words.specs.Table.{plain_rule, option_rule, verify_shape, file_shape, gen_shape, work_shape, run_shape, top_app, vsil_app};

use clap::{Arg, ArgAction, Command};
use std::alloc::{AllocError, Global};

fn plain<'a>(alloc: Global, id: &'a str) -> Arg<'a>
    ensures rule { rule_of result ≡ plain_rule id.entry.now }
    ensures local { result.global ≡ false }
{
    Arg::new(alloc, id).action(ArgAction::Set)
}

fn option<'a>(alloc: Global, id: &'a str) -> Arg<'a>
    ensures rule { rule_of result ≡ option_rule id.entry.now }
    ensures local { result.global ≡ false }
{
    Arg::new(alloc, id).long(id).action(ArgAction::Set)
}

fn verify<'a>(alloc: Global) -> Result<Command<'a>, AllocError>
    ensures { IfOk result (λ c. (shape_of c ≡ verify_shape) × ((fields_of c).has_globals ≡ false)) }
{
    Command::new(alloc, "verify")
        .arg(plain(alloc, "file"))?
        .arg(option(alloc, "solver"))?
        .arg(option(alloc, "jobs"))
}

// A command that takes a file, or none.
fn of_a_file<'a>(alloc: Global, name: &'a str) -> Result<Command<'a>, AllocError>
    ensures { IfOk result (λ c. (shape_of c ≡ file_shape name.entry.now) × ((fields_of c).has_globals ≡ false)) }
{
    Command::new(alloc, name).arg(plain(alloc, "file"))
}

fn generate<'a>(alloc: Global) -> Result<Command<'a>, AllocError>
    ensures { IfOk result (λ c. (shape_of c ≡ gen_shape) × ((fields_of c).has_globals ≡ false)) }
{
    Command::new(alloc, "gen").arg(plain(alloc, "methods"))
}

fn work<'a>(alloc: Global) -> Result<Command<'a>, AllocError>
    ensures { IfOk result (λ c. (shape_of c ≡ work_shape) × ((fields_of c).has_globals ≡ false)) }
{
    Command::new(alloc, "work")
        .arg(plain(alloc, "methods"))?
        .arg(option(alloc, "jobs"))
}

fn run<'a>(alloc: Global) -> Result<Command<'a>, AllocError>
    ensures { IfOk result (λ c. (shape_of c ≡ run_shape) × ((fields_of c).has_globals ≡ false)) }
{
    Command::new(alloc, "run")
        .arg(plain(alloc, "file"))?
        .arg(plain(alloc, "method"))?
        .arg(plain(alloc, "seed"))
}

// The program without its commands.
fn top<'a>(alloc: Global) -> Command<'a>
    ensures { app_of result ≡ top_app }
{
    Command::new(alloc, "vsil")
        .disable_help_flag(true)
        .disable_help_subcommand(true)
        .disable_version_flag(true)
        .subcommand_required(true)
}

// One command more.
fn with<'a>(whole: Command<'a>, part: Command<'a>) -> Result<Command<'a>, AllocError>
    requires { (fields_of part).has_globals ≡ false }
    ensures { IfOk result (λ c. app_of c ≡ with_subcommand (app_of whole.entry) (shape_of part.entry)) }
{
    whole.subcommand(part)
}

// The program with the command to verify.
fn verifying<'a>(alloc: Global) -> Result<Command<'a>, AllocError>
    ensures { IfOk result (λ c. app_of c ≡ with_subcommand top_app verify_shape) }
{
    let part = verify(alloc)?;
    with(top(alloc), part)
}

// One command more that takes a file, or none.
fn with_file<'a>(
    alloc: Global,
    whole: Command<'a>,
    name: &'a str,
) -> Result<Command<'a>, AllocError>
    ensures { IfOk result (λ c. app_of c ≡ with_subcommand (app_of whole.entry) (file_shape name.entry.now)) }
{
    let part = of_a_file(alloc, name)?;
    with(whole, part)
}

/// The table of commands.
pub fn table<'a>(alloc: Global) -> Result<Command<'a>, AllocError>
    ensures { IfOk result (λ c. app_of c ≡ vsil_app) }
{
    let verifies = verifying(alloc)?;
    let checks = with_file(alloc, verifies, "check")?;
    let prints = with_file(alloc, checks, "print")?;
    let generate = generate(alloc)?;
    let generates = with(prints, generate)?;
    let work = work(alloc)?;
    let works = with(generates, work)?;
    let run = run(alloc)?;
    with(works, run)
}
