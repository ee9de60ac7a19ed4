//! The literal amounts.

ghost use Rattle.std.specs.Prelude.{◌≡◌, IfOk};
ghost use Rattle.vx_terms.specs.Build.{less, less_equal, whole_amount, zero_amount};
ghost use Rattle.vx_terms.specs.Terms.{same};
ghost use Rattle.vx_heap.specs.Views.{held_term};
ghost use Rattle.vx_terms.specs.Views.{term};

use std::alloc::{AllocError, Global};
use std::rc::Rc;
use vx_frac::Frac;
use vx_terms::{Term, make, numbers};

/// Whether an amount is literally 0.
pub fn is_zero(amount: &Term) -> bool
    ensures { result ≡ same (term amount.now) zero_amount }
{
    amount.is_same(&Term::Part(Frac::whole(0)))
}

/// No amount.
pub fn zero(alloc: Global) -> Result<Rc<Term>, AllocError>
    ensures { IfOk result (λ t. held_term t ≡ zero_amount) }
{
    make::real(alloc, Frac::whole(0))
}

/// All of a location or instance.
pub fn whole(alloc: Global) -> Result<Rc<Term>, AllocError>
    ensures { IfOk result (λ t. held_term t ≡ whole_amount) }
{
    make::real(alloc, Frac::whole(1))
}

/// That an amount is above 0.
pub fn positive(alloc: Global, amount: &Rc<Term>) -> Result<Rc<Term>, AllocError>
    ensures { IfOk result (λ t. held_term t ≡ less zero_amount (held_term amount.now)) }
{
    numbers::lt(alloc, &zero(alloc)?, amount)
}

/// That an amount isn't negative.
pub fn not_negative(alloc: Global, amount: &Rc<Term>) -> Result<Rc<Term>, AllocError>
    ensures { IfOk result (λ t. held_term t ≡ less_equal zero_amount (held_term amount.now)) }
{
    numbers::le(alloc, &zero(alloc)?, amount)
}

/// That an amount is at most the whole.
pub fn at_most_whole(alloc: Global, amount: &Rc<Term>) -> Result<Rc<Term>, AllocError>
    ensures { IfOk result (λ t. held_term t ≡ less_equal (held_term amount.now) whole_amount) }
{
    numbers::le(alloc, amount, &whole(alloc)?)
}
