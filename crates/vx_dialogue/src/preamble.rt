// What each dialogue begins with.
ghost use Rattle.std.specs.Prelude.{◌≡◌, [], ◌∷◌, ◌++◌, IfOk, OnOk, map, true};
ghost use Rattle.vx_terms.specs.Sorts.{SnapSort};
ghost use Rattle.vx_terms.specs.Views.{sort};
ghost use Rattle.vx_smt_meaning.specs.Commands as Spec;
ghost use Rattle.vx_smt_meaning.specs.Views.{command};
ghost use Rattle.vx_smt_meaning.specs.Standard.{standard, pairs, wraps, unwraps, standard_symbols};
ghost use Rattle.vx_dialogue.specs.Preamble.{declarations, print_success, produce_proofs, options, logic, front};

use std::alloc::{AllocError, Global};
use vx_smt_meaning::{Command, Declared};
use vx_terms::{Sort, Symbol};

fn put_option(alloc: Global, commands: &mut Vec<Command>, name: &str) -> Result<(), AllocError>
    ensures { OnOk result (map command commands.new.items ≡ map command commands.old.items ++ Spec.SetOption name.now true ∷ []) }
{
    let name = String::from_str(alloc, name)?;
    commands.push(Command::SetOption(name, true))?;
    Ok(())
}

#[tactic(auto, unfolding(crate::specs::Preamble::print_success))]
fn put_print_success(alloc: Global, commands: &mut Vec<Command>) -> Result<(), AllocError>
    ensures { OnOk result (map command commands.new.items ≡ map command commands.old.items ++ Spec.SetOption print_success true ∷ []) }
{
    put_option(alloc, commands, ":print-success")
}

#[tactic(auto, unfolding(crate::specs::Preamble::produce_proofs))]
fn put_produce_proofs(alloc: Global, commands: &mut Vec<Command>) -> Result<(), AllocError>
    ensures { OnOk result (map command commands.new.items ≡ map command commands.old.items ++ Spec.SetOption produce_proofs true ∷ []) }
{
    put_option(alloc, commands, ":produce-proofs")
}

fn put_options(alloc: Global, commands: &mut Vec<Command>, certify: bool) -> Result<(), AllocError>
    ensures { OnOk result (map command commands.new.items ≡ map command commands.old.items ++ options certify) }
{
    put_print_success(alloc, commands)?;
    if certify {
        put_produce_proofs(alloc, commands)?;
    }
    Ok(())
}

fn put_sort(alloc: Global, commands: &mut Vec<Command>, name: &str) -> Result<(), AllocError>
    ensures { OnOk result (map command commands.new.items ≡ map command commands.old.items ++ Spec.DeclareSort name.now ∷ []) }
{
    let name = String::from_str(alloc, name)?;
    commands.push(Command::DeclareSort(name))?;
    Ok(())
}

fn put_logic(alloc: Global, commands: &mut Vec<Command>) -> Result<(), AllocError>
    ensures { OnOk result (map command commands.new.items ≡ map command commands.old.items ++ logic) }
{
    let name = String::from_str(alloc, "ALL")?;
    commands.push(Command::SetLogic(name))?;
    put_sort(alloc, commands, "Ref")?;
    put_sort(alloc, commands, "Snap")
}

fn put_symbol(
    commands: &mut Vec<Command>,
    number: u32,
    takes: Vec<Sort>,
    gives: Sort,
) -> Result<(), AllocError>
    ensures { OnOk result (map command commands.new.items ≡ map command commands.old.items ++ Spec.DeclareFun (standard number (map sort takes.items) (sort gives)) ∷ []) }
{
    commands.push(Command::DeclareFun(Declared {
        symbol: Symbol::Standard(number),
        takes,
        gives,
    }))?;
    Ok(())
}

fn put_unary(
    alloc: Global,
    commands: &mut Vec<Command>,
    number: u32,
    taken: Sort,
    gives: Sort,
) -> Result<(), AllocError>
    ensures { OnOk result (map command commands.new.items ≡ map command commands.old.items ++ Spec.DeclareFun (standard number (sort taken ∷ []) (sort gives)) ∷ []) }
{
    let mut takes = Vec::new(alloc);
    takes.push(taken)?;
    put_symbol(commands, number, takes, gives)
}

fn put_pairing(alloc: Global, commands: &mut Vec<Command>) -> Result<(), AllocError>
    ensures { OnOk result (map command commands.new.items ≡ map command commands.old.items ++ Spec.DeclareFun (standard 2 (SnapSort ∷ SnapSort ∷ []) SnapSort) ∷ []) }
{
    let mut takes = Vec::new(alloc);
    takes.push(Sort::Snap)?;
    takes.push(Sort::Snap)?;
    put_symbol(commands, 2, takes, Sort::Snap)
}

fn put_pairs(alloc: Global, commands: &mut Vec<Command>) -> Result<(), AllocError>
    ensures { OnOk result (map command commands.new.items ≡ map command commands.old.items ++ declarations pairs) }
{
    put_symbol(commands, 0, Vec::new(alloc), Sort::Ref)?;
    put_symbol(commands, 1, Vec::new(alloc), Sort::Snap)?;
    put_pairing(alloc, commands)?;
    put_unary(alloc, commands, 3, Sort::Snap, Sort::Snap)?;
    put_unary(alloc, commands, 4, Sort::Snap, Sort::Snap)
}

fn put_wraps(alloc: Global, commands: &mut Vec<Command>) -> Result<(), AllocError>
    ensures { OnOk result (map command commands.new.items ≡ map command commands.old.items ++ declarations wraps) }
{
    put_unary(alloc, commands, 5, Sort::Int, Sort::Snap)?;
    put_unary(alloc, commands, 6, Sort::Bool, Sort::Snap)?;
    put_unary(alloc, commands, 7, Sort::Real, Sort::Snap)?;
    put_unary(alloc, commands, 8, Sort::Ref, Sort::Snap)
}

fn put_unwraps(alloc: Global, commands: &mut Vec<Command>) -> Result<(), AllocError>
    ensures { OnOk result (map command commands.new.items ≡ map command commands.old.items ++ declarations unwraps) }
{
    put_unary(alloc, commands, 9, Sort::Snap, Sort::Int)?;
    put_unary(alloc, commands, 10, Sort::Snap, Sort::Bool)?;
    put_unary(alloc, commands, 11, Sort::Snap, Sort::Real)?;
    put_unary(alloc, commands, 12, Sort::Snap, Sort::Ref)
}

#[tactic(auto, using(std::proofs::Common::append_assoc))]
fn put_standard(alloc: Global, commands: &mut Vec<Command>) -> Result<(), AllocError>
    ensures { OnOk result (map command commands.new.items ≡ map command commands.old.items ++ declarations standard_symbols) }
{
    put_pairs(alloc, commands)?;
    put_wraps(alloc, commands)?;
    put_unwraps(alloc, commands)
}

/// The commands before the symbols f are declared.
pub fn front_commands(alloc: Global, certify: bool) -> Result<Vec<Command>, AllocError>
    ensures { IfOk result (λ commands. map command commands.items ≡ front certify) }
{
    let mut commands = Vec::new(alloc);
    put_options(alloc, &mut commands, certify)?;
    put_logic(alloc, &mut commands)?;
    put_standard(alloc, &mut commands)?;
    Ok(commands)
}
