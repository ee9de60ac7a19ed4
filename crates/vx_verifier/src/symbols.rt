//! The symbols of a program's functions, as each dialogue about it declares them.

ghost use Rattle.std.specs.Prelude.{◌≡◌, ◌++◌, ◌∷◌, ℕ, suc, List, IfOk, OnOk, length, map};
ghost use Rattle.vx_terms.specs.Sorts.{SnapSort};
ghost use Rattle.vx_terms.specs.Views.{sort};
ghost use Rattle.vx_smt_meaning.specs.Commands as smt;
ghost use Rattle.vx_smt_meaning.specs.Views.{declared_symbol};
ghost use Rattle.vx_resolved.specs.Resolved as resolved;
ghost use Rattle.vx_resolved.specs.Settled.{settled};
ghost use Rattle.vx_live.specs.Functions as spec;

use std::alloc::{AllocError, Global};
use vx_resolved::{Declaration, Function, Kind, Settled};
use vx_smt_meaning::Declared;
use vx_states::sort_of_value;
use vx_terms::{Sort, Symbol};

// The sorts that a function's symbol takes: that of its precondition's snapshot, then those of its arguments.
fn sorts_taken(alloc: Global, parameters: &[Declaration]) -> Result<Vec<Sort>, AllocError>
    ensures { IfOk result (λ takes. map sort takes.items ≡ SnapSort ∷ spec.sorts_of_types (map resolved.declaration parameters.now)) }
{
    let mut takes = Vec::new(alloc);
    takes.push(Sort::Snap)?;
    for d in parameters {
        takes.push(sort_of_value(d.of))?;
    }
    Ok(takes)
}

// The symbol of a function with this number.
fn function_symbol(alloc: Global, number: u32, f: &Function) -> Result<Declared, AllocError>
    ensures { IfOk result (λ d. declared_symbol d ≡ spec.function_symbol number (resolved.function f.now)) }
{
    let takes = sorts_taken(alloc, &f.parameters)?;
    Ok(Declared {
        symbol: Symbol::Function(number),
        takes,
        gives: sort_of_value(f.of),
    })
}

// The symbol of a function is put behind those of the functions before it.
fn put_function(alloc: Global, f: &Function, symbols: &mut Vec<Declared>) -> Result<(), AllocError>
    ensures { OnOk result ((rest : ℕ → List smt.Declared) → map declared_symbol symbols.new.items ++ rest (length symbols.new.items)
        ≡ map declared_symbol symbols.old.items ++ spec.function_symbol (length symbols.old.items) (resolved.function f.now) ∷ rest (suc (length symbols.old.items))) }
{
    // A file has at most 65,536 members.
    let Ok(number) = u32::try_from(symbols.len()) else {
        return Err(AllocError);
    };
    symbols.push(function_symbol(alloc, number, f)?)?;
    Ok(())
}

// So is that of a member, where it is a function.
fn put_member(alloc: Global, kind: &Kind, symbols: &mut Vec<Declared>) -> Result<(), AllocError>
    ensures { OnOk result ((rest : ℕ → List smt.Declared) → map declared_symbol symbols.new.items ++ rest (length symbols.new.items)
        ≡ map declared_symbol symbols.old.items ++ spec.with_kind (length symbols.old.items) (resolved.kind kind.now) rest) }
{
    match kind {
        Kind::Field(_) => Ok(()),
        Kind::Predicate(_) => Ok(()),
        Kind::Function(f) => put_function(alloc, f, symbols),
        Kind::Method(_) => Ok(()),
    }
}

/// The symbols of a program's functions, in file order.
pub fn function_symbols(alloc: Global, program: &Settled) -> Result<Vec<Declared>, AllocError>
    ensures { IfOk result (λ ds. map declared_symbol ds.items ≡ spec.function_symbols (settled program.now)) }
{
    let mut symbols = Vec::new(alloc);
    for number in 0..program.len() {
        put_member(alloc, &program.member(number).kind, &mut symbols)?;
    }
    Ok(symbols)
}
