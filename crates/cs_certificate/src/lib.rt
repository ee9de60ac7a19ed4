//! Certificates of unsatisfiability: the rule of each step, their law, terms by their numbers, and unit propagation along hints.
#![tactic(auto)]

mod literal;
mod marks;
mod propagate;

ghost use Rattle.cs_certificate.specs.Examples.{Examples};
ghost use Rattle.cs_certificate.specs.Law.{Law, LiveLaw};
ghost use Rattle.cs_certificate.specs.Laws.{LooksUp, TellsEqualities};
ghost use Rattle.cs_certificate.specs.Steps.{ByNumbers};
ghost use Rattle.cs_certificate.specs.Worked.{Worked};

pub use literal::{Clause, Left, Literal};
pub use marks::Marks;
pub use propagate::{by_terms, refutes_by};

/// The assertions under a finished certificate are true in no interpretation.
pub fn finished_refutes()
    ensures any_stack { Law }
    ensures live { LiveLaw }
{}

/// The certificate of `v2 = v0 + 1` and not `v0 < v2` is finished.
pub fn worked_row()
    ensures { Worked }
{}

/// A term is found by its head and the numbers of its parts, and an equality by those of its sides.
pub fn numbers_name_terms()
    ensures look_up { LooksUp }
    ensures equalities { TellsEqualities }
{}

/// The clause of a step by numbers is that of its terms.
pub fn clauses_by_numbers()
    ensures { ByNumbers }
{}

/// Each kind of step with a clause and without one.
pub fn examples()
    ensures { Examples }
{}
