//! The texts that the program puts, but for the report.

ghost use Rattle.std.specs.Prelude.{◌≡◌, ◌++◌, ◌∷◌, [], IfOk, OnOk, codes, string_bytes, option_copied};
ghost use Rattle.std.specs.Fmt.{decimal};
ghost use Rattle.vx_tokens.specs.Text.{first_place};
ghost use Rattle.vx_parser.specs.declared.fault.TextFault.TheVariants as faults;
ghost use Rattle.vx_report.specs.Reports.{place_text};
ghost use Rattle.vx_expressions.specs.declared.fault.TypeFault.TheVariants as untyped;
ghost use Rattle.vx_commands.specs.Refusals as spec;

use std::alloc::{AllocError, Global};
use vx_ast::Place;
use vx_parser::TextFault;
use vx_report::write_place;
use vx_typing::{TypeFault, word_of};

/// What is put where the words are no command.
pub const USAGE: &str =
    "usage: vsil [verify [FILE] [--solver TEXT] [--jobs N] [--certify] | check [FILE] | print [FILE] | gen N | work N [--jobs J] | run FILE METHOD SEED]\n";

/// What is put where the text can't be read.
pub const UNREAD: &str = "error: cannot read\n";

/// What is put where the text is too long.
pub const TOO_LONG: &str = "error: longer than 4194304 bytes\n";

// The place of what stands nowhere.
const FIRST: Place = Place { line: 1, column: 1 };

// `: CODE NAME`
fn push_title(line: &mut String, code: &str, name: &str) -> Result<(), AllocError>
    ensures { OnOk result (string_bytes line.new ≡ string_bytes line.old ++ spec.title code.now name.now) }
{
    line.push_str(": ")?;
    line.push_str(code)?;
    line.push_str(" ")?;
    line.push_str(name)
}

// `error at L:C: CODE NAME`
fn refusal(alloc: Global, place: Place, code: &str, name: &str) -> Result<String, AllocError>
    ensures { IfOk result (λ line. string_bytes line ≡ codes "error at " ++ place_text place ++ spec.title code.now name.now) }
{
    let mut line = String::from_str(alloc, "error at ")?;
    write_place(&mut line, place)?;
    push_title(&mut line, code, name)?;
    Ok(line)
}

// An argument behind a blank.
fn push_argument(line: &mut String, argument: &str) -> Result<(), AllocError>
    ensures { OnOk result (string_bytes line.new ≡ string_bytes line.old ++ (codes " " ++ argument.now)) }
{
    line.push_str(" ")?;
    line.push_str(argument)
}

fn push_optional(line: &mut String, argument: Option<&str>) -> Result<(), AllocError>
    ensures { OnOk result (string_bytes line.new ≡ string_bytes line.old ++ spec.behind_blanks (spec.listed (option_copied argument.entry))) }
{
    match argument {
        None => Ok(()),
        Some(argument) => push_argument(line, argument),
    }
}

/// The line of a text that isn't spelled. Want of memory has none.
pub fn text_refusal(alloc: Global, fault: &TextFault) -> Result<String, AllocError>
    ensures told { IfOk result (λ _. fault.now ≡ faults.Want → ⊥) }
    ensures line { IfOk result (λ line. string_bytes line ≡ spec.text_line fault.now) }
{
    match fault {
        TextFault::Want => Err(AllocError),
        _ => text_line(alloc, fault),
    }
}

fn text_line(alloc: Global, fault: &TextFault) -> Result<String, AllocError>
    ensures { IfOk result (λ line. string_bytes line ≡ spec.text_line fault.now) }
{
    let mut line = refusal(alloc, fault.place(), fault.code(), fault.name())?;
    push_optional(&mut line, fault.argument())?;
    line.push_str("\n")?;
    Ok(line)
}

/// The line of a program that isn't typed. Want of memory has none.
pub fn type_refusal(alloc: Global, fault: &TypeFault) -> Result<String, AllocError>
    ensures told { IfOk result (λ _. fault.now ≡ untyped.Want → ⊥) }
    ensures line { IfOk result (λ line. string_bytes line ≡ spec.type_line fault.now) }
{
    match fault {
        TypeFault::Want => Err(AllocError),
        _ => type_line(alloc, fault),
    }
}

/// The line of a whole run where no method has this name.
pub fn no_method(alloc: Global, name: &str) -> Result<String, AllocError>
    ensures { IfOk result (λ line. string_bytes line ≡ spec.line first_place (codes "E40") (codes "NoMethod") (name.now ∷ [])) }
{
    let mut line = refusal(alloc, FIRST, "E40", "NoMethod")?;
    push_argument(&mut line, name)?;
    line.push_str("\n")?;
    Ok(line)
}

/// The line of a whole run where the method has no body.
pub fn no_body(alloc: Global) -> Result<String, AllocError>
    ensures { IfOk result (λ line. string_bytes line ≡ spec.line first_place (codes "E41") (codes "NoBody") []) }
{
    let mut line = refusal(alloc, FIRST, "E41", "NoBody")?;
    line.push_str("\n")?;
    Ok(line)
}

fn push_two(line: &mut String, first: &str, second: &str) -> Result<(), AllocError>
    ensures { OnOk result (string_bytes line.new ≡ string_bytes line.old ++ spec.behind_blanks (first.now ∷ second.now ∷ [])) }
{
    push_argument(line, first)?;
    push_argument(line, second)
}

fn push_counts(line: &mut String, first: usize, second: usize) -> Result<(), AllocError>
    ensures { OnOk result (string_bytes line.new ≡ string_bytes line.old ++ spec.behind_blanks (decimal first ∷ decimal second ∷ [])) }
{
    write!(line, " {} {}", first, second)?;
    Ok(())
}

fn push_arguments(line: &mut String, fault: &TypeFault) -> Result<(), AllocError>
    ensures { OnOk result (string_bytes line.new ≡ string_bytes line.old ++ spec.behind_blanks (spec.type_arguments fault.now)) }
{
    match fault {
        TypeFault::Unknown(_, name) => push_optional(line, Some(name.as_str())),
        TypeFault::Twice(_, name) => push_optional(line, Some(name.as_str())),
        TypeFault::Mismatch(_, expected, found) => push_two(line, expected.word(), word_of(*found)),
        TypeFault::Arity(_, expected, found) => push_counts(line, *expected, *found),
        TypeFault::Impure(_)
        | TypeFault::NoMeasure(_)
        | TypeFault::MixedMeasures(_)
        | TypeFault::AmountNotConstant(_)
        | TypeFault::NotHere(_)
        | TypeFault::NotAssignable(_)
        | TypeFault::OldHere(_)
        | TypeFault::ResultHere(_)
        | TypeFault::UnfoldAbstract(_)
        | TypeFault::Want => Ok(()),
    }
}

fn place_or_first(place: Option<Place>) -> Place
    ensures { result ≡ spec.place_or_first place }
{
    match place {
        None => FIRST,
        Some(place) => place,
    }
}

fn type_line(alloc: Global, fault: &TypeFault) -> Result<String, AllocError>
    ensures { IfOk result (λ line. string_bytes line ≡ spec.type_line fault.now) }
{
    let place = place_or_first(fault.place());
    let mut line = refusal(alloc, place, fault.code(), fault.name())?;
    push_arguments(&mut line, fault)?;
    line.push_str("\n")?;
    Ok(line)
}
