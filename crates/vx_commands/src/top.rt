//! The top call: from the words of the command line to what is put, and the exit status.

ghost use Rattle.std.specs.Prelude.{◌≡◌, ◌≤◌, [], IfOk, Some, option_copied};
ghost use Rattle.vx_ast.specs.Written.{written_program};
ghost use Rattle.vx_typing.specs.Typed.{written_of};
ghost use Rattle.vx_words.specs.Orders.{order_of, IsLanes, IsWithinLimit};
ghost use Rattle.vx_commands.specs.Refusals.{IsSpelledBy};
ghost use Rattle.vx_commands.specs.Outside.{change, texts, taken, children, spawners, AsksOnly};
ghost use Rattle.vx_commands.specs.Texts.{Says, IsToldOf, IsGenerated};
ghost use Rattle.vx_commands.specs.WholeRuns.{SaysRun};
ghost use Rattle.vx_commands.specs.Promised.{IsText, Promise};
ghost use Rattle.vx_commands.specs.Steps.{AsksEither, IsVerified, Obeys};

use crate::answers::{TOO_LONG, UNREAD, USAGE};
use crate::generated::{text_of, work};
use crate::output::{Ended, Output, put};
use crate::reading::{Checked, Loaded, Parsed, load, read, type_of};
use crate::reports::report_by;
use crate::saying::Saying;
use crate::whole_runs::run_text;
use std::alloc::{AllocError, Global};
use vx_ast::Program;
use vx_companion::Builtin;
use vx_ends::{Files, Parts, Sink, Spawner};
use vx_report::Status;
use vx_typing::Typed;
use vx_verifier::typed_programs_are_whole;
use vx_words::{Order, Text, WordsFault, read_words};

// The name of a file, or none.
fn name_of(file: &Option<Text>) -> Option<&str>
    ensures { option_copied result ≡ file.now }
{
    file.as_ref().map(|name| name.as_str())
}

// One of the lines that tell why there is no text.
fn said(alloc: Global, line: &str, status: Status) -> Result<Output, AllocError>
    ensures { IfOk result (IsText (λ s bytes. (s ≡ status) × (bytes ≡ line.now))) }
{
    let bytes = Vec::from_slice(alloc, line.as_bytes())?;
    Ok(Output::text(alloc, bytes, status))
}

// Verifies a typed program of a text.
fn verify_typed<W: Spawner>(
    alloc: Global,
    text: &[u8],
    typed: &Typed,
    solver: &Parts,
    jobs: u32,
    spawner: &mut W,
    builtin: &mut Builtin,
) -> Result<Output, AllocError>
    requires spelled { IsSpelledBy text.now (written_of typed.now) }
    requires lanes { IsLanes jobs }
    ensures { let shown = spawners (children W.starts W.owed W.ended W.faults W.steady) builtin.old builtin.new spawner.old spawner.new in
        AsksEither solver.now jobs (IsVerified text.now solver.now jobs shown) shown result }
{
    typed.typed();
    typed_programs_are_whole(typed);
    report_by(alloc, typed, jobs, solver, spawner, builtin)
}

// Verifies the program of a text, if it is typed.
fn verify_program<W: Spawner>(
    alloc: Global,
    text: &[u8],
    program: &Program,
    solver: &Parts,
    jobs: u32,
    spawner: &mut W,
    builtin: &mut Builtin,
) -> Result<Output, AllocError>
    requires spelled { IsSpelledBy text.now (written_program program.now) }
    requires lanes { IsLanes jobs }
    ensures { let shown = spawners (children W.starts W.owed W.ended W.faults W.steady) builtin.old builtin.new spawner.old spawner.new in
        AsksEither solver.now jobs (IsVerified text.now solver.now jobs shown) shown result }
{
    match type_of(alloc, program)? {
        Checked::Typed(typed) => verify_typed(alloc, text, &typed, solver, jobs, spawner, builtin),
        Checked::Refused(line) => Ok(Output::line(alloc, line, Status::Refused)),
    }
}

// Verifies the program of a text, if there is one.
fn verify_text<W: Spawner>(
    alloc: Global,
    text: &[u8],
    solver: &Parts,
    jobs: u32,
    spawner: &mut W,
    builtin: &mut Builtin,
) -> Result<Output, AllocError>
    requires { IsLanes jobs }
    ensures { let shown = spawners (children W.starts W.owed W.ended W.faults W.steady) builtin.old builtin.new spawner.old spawner.new in
        AsksEither solver.now jobs (IsVerified text.now solver.now jobs shown) shown result }
{
    match read(alloc, text)? {
        Parsed::Program(program) => {
            verify_program(alloc, text, &program, solver, jobs, spawner, builtin)
        }
        Parsed::Refused(line) => Ok(Output::line(alloc, line, Status::Refused)),
    }
}

// Verifies a file, or standard input.
fn verify_file<F: Files, W: Spawner>(
    alloc: Global,
    file: &Option<Text>,
    solver: &Parts,
    jobs: u32,
    files: &mut F,
    spawner: &mut W,
    builtin: &mut Builtin,
) -> Result<Output, AllocError>
    requires { IsLanes jobs }
    ensures { Obeys (Some (Order.Verify file.now solver.now jobs)) (change (texts F.holds F.asked F.faults) files.old files.new)
        (spawners (children W.starts W.owed W.ended W.faults W.steady) builtin.old builtin.new spawner.old spawner.new) result }
{
    match load(alloc, files, name_of(file))? {
        Loaded::Text(text) => verify_text(alloc, &text, solver, jobs, spawner, builtin),
        Loaded::Unread => said(alloc, UNREAD, Status::Unread),
        Loaded::TooLong => said(alloc, TOO_LONG, Status::Unread),
    }
}

// What a command without a report says of a file, or of standard input.
fn say_file<F: Files>(
    alloc: Global,
    saying: Saying,
    file: &Option<Text>,
    files: &mut F,
) -> Result<Output, AllocError>
    ensures said { IfOk result (IsText (IsToldOf (Says saying) file.now (change (texts F.holds F.asked F.faults) files.old files.new))) }
    ensures asked { AsksOnly file.now (change (texts F.holds F.asked F.faults) files.old files.new) }
{
    match load(alloc, files, name_of(file))? {
        Loaded::Text(text) => saying.of(alloc, &text),
        Loaded::Unread => said(alloc, UNREAD, Status::Unread),
        Loaded::TooLong => said(alloc, TOO_LONG, Status::Unread),
    }
}

// What the whole run of a method of a file comes to.
fn run_file<F: Files>(
    alloc: Global,
    file: &Text,
    method: &Text,
    seed: u64,
    files: &mut F,
) -> Result<Output, AllocError>
    ensures said { IfOk result (IsText (IsToldOf (SaysRun method.now seed) (Some file.now) (change (texts F.holds F.asked F.faults) files.old files.new))) }
    ensures asked { AsksOnly (Some file.now) (change (texts F.holds F.asked F.faults) files.old files.new) }
{
    match load(alloc, files, Some(file.as_str()))? {
        Loaded::Text(text) => run_text(alloc, &text, method, seed),
        Loaded::Unread => said(alloc, UNREAD, Status::Unread),
        Loaded::TooLong => said(alloc, TOO_LONG, Status::Unread),
    }
}

// The text of so many generated methods.
fn generated(alloc: Global, methods: u32) -> Result<Output, AllocError>
    requires { methods ≤ 2000 }
    ensures { IfOk result (IsText (IsGenerated methods)) }
{
    let text = text_of(alloc, methods)?;
    Ok(Output::line(alloc, text, Status::Done))
}

// What is to be put for an order.
fn obey<F: Files, W: Spawner>(
    alloc: Global,
    order: &Order,
    files: &mut F,
    spawner: &mut W,
    builtin: &mut Builtin,
) -> Result<Output, AllocError>
    requires { IsWithinLimit order.now }
    ensures { Obeys (Some order.now) (change (texts F.holds F.asked F.faults) files.old files.new)
        (spawners (children W.starts W.owed W.ended W.faults W.steady) builtin.old builtin.new spawner.old spawner.new) result }
{
    match order {
        Order::Verify { file, solver, jobs } => {
            verify_file(alloc, file, solver, *jobs, files, spawner, builtin)
        }
        Order::Check { file } => say_file(alloc, Saying::Typed, file, files),
        Order::Print { file } => say_file(alloc, Saying::Canonical, file, files),
        Order::Gen { methods } => generated(alloc, *methods),
        Order::Work { methods, jobs } => work(alloc, *methods, *jobs, builtin),
        Order::Run { file, method, seed } => run_file(alloc, file, method, *seed, files),
    }
}

// What is to be put for the words.
fn answer<F: Files, W: Spawner>(
    alloc: Global,
    words: &Parts,
    files: &mut F,
    spawner: &mut W,
    builtin: &mut Builtin,
) -> Result<Output, AllocError>
    ensures { Obeys (order_of words.now) (change (texts F.holds F.asked F.faults) files.old files.new)
        (spawners (children W.starts W.owed W.ended W.faults W.steady) builtin.old builtin.new spawner.old spawner.new) result }
{
    match read_words(alloc, words) {
        Ok(order) => obey(alloc, &order, files, spawner, builtin),
        Err(WordsFault::Usage) => said(alloc, USAGE, Status::Usage),
        Err(WordsFault::Want) => Err(AllocError),
    }
}

// The end where memory runs out.
fn without_memory(alloc: Global) -> Ended
    ensures status { result.status ≡ Status.Want }
    ensures runs { result.runs.items ≡ [] }
{
    Ended {
        status: Status::Want,
        runs: Vec::new(alloc),
    }
}

/// Does what the words say; the first is the program's name. All text goes to `out`, built whole before its first byte
/// is put. Children are started by `spawner`, or, where the solver is `builtin` or none is named, by `builtin`.
pub fn run<F: Files, K: Sink, W: Spawner>(
    alloc: Global,
    words: &Parts,
    files: &mut F,
    out: &mut K,
    spawner: &mut W,
    builtin: &mut Builtin,
) -> Ended
    ensures { Promise (order_of words.now) (record {
      files = change (texts F.holds F.asked F.faults) files.old files.new;
      sink = change (taken K.taken K.faults) out.old out.new;
      spawners = spawners (children W.starts W.owed W.ended W.faults W.steady) builtin.old builtin.new spawner.old spawner.new;
    }) result }
{
    match answer(alloc, words, files, spawner, builtin) {
        Ok(output) => put(out, output),
        Err(AllocError) => without_memory(alloc),
    }
}
