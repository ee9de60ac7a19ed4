//! The clauses of a contract, settled.

ghost use Rattle.std.specs.Prelude.{◌≡◌, ◌++◌, ◌∷◌, List, IfOk, OnOk, map};
ghost use Rattle.vx_ast.specs.Written as written;
ghost use Rattle.vx_ast.specs.Written.{written_clause};
ghost use Rattle.vx_resolved.specs.Resolved as view;
ghost use Rattle.vx_settling.specs.Parts.{required, ensured};
ghost use Rattle.vx_settling.specs.Names.{names_in};

use crate::assertions::{Assertions, add_assertion};
use crate::names::Names;
use std::alloc::{AllocError, Global};
use vx_ast::Clause;

/// What clauses require and what they ensure, each in order.
#[derive(Drop)]
pub struct Contract {
    pub preconditions: Assertions,
    pub postconditions: Assertions,
}

// One clause more.
fn add(
    alloc: Global,
    names: &Names,
    clause: &Clause,
    contract: &mut Contract,
) -> Result<(), AllocError>
    ensures requires_settled { OnOk result ((rest : List written.Clause)
        → view.assertions contract.new.preconditions.items ++ required (names_in names.now) rest
        ≡ view.assertions contract.old.preconditions.items ++ required (names_in names.now) (written_clause clause.now ∷ rest)) }
    ensures ensures_settled { OnOk result ((rest : List written.Clause) → view.assertions contract.new.postconditions.items ++ ensured (names_in names.now) rest
        ≡ view.assertions contract.old.postconditions.items ++ ensured (names_in names.now) (written_clause clause.now ∷ rest)) }
{
    match clause {
        Clause::Requires(e) => add_assertion(alloc, names, e, &mut contract.preconditions),
        Clause::Ensures(e) => add_assertion(alloc, names, e, &mut contract.postconditions),
        Clause::Decreases(_) => Ok(()),
    }
}

/// The clauses of a method.
pub fn clauses(alloc: Global, names: &Names, all: &[Clause]) -> Result<Contract, AllocError>
    ensures requires_settled { IfOk result (λ c. view.assertions c.preconditions.items ≡ required (names_in names.now) (map written_clause all.now)) }
    ensures ensures_settled { IfOk result (λ c. view.assertions c.postconditions.items ≡ ensured (names_in names.now) (map written_clause all.now)) }
{
    let mut contract = Contract {
        preconditions: Vec::new(alloc),
        postconditions: Vec::new(alloc),
    };
    for clause in all {
        add(alloc, names, clause, &mut contract)?;
    }
    Ok(contract)
}

/// What the clauses of a function require.
pub fn preconditions(alloc: Global, names: &Names, all: &[Clause]) -> Result<Assertions, AllocError>
    ensures { IfOk result (λ v. view.assertions v.items ≡ required (names_in names.now) (map written_clause all.now)) }
{
    let contract = clauses(alloc, names, all)?;
    Ok(contract.preconditions)
}
