//! An index of terms by their keys.

ghost use Rattle.std.specs.Prelude.{◌≡◌, ◌||◌, ℕ, false, if◌then◌else◌, IfOk};
ghost use Rattle.vx_states.specs.Index.{down, finds, is_even, IsAlike, IsExtended};
ghost use Rattle.vx_states.specs.Keys.{key_of};
ghost use Rattle.vx_terms.specs.Terms as terms;
ghost use Rattle.vx_terms.specs.Terms.{same};
ghost use Rattle.vx_heap.specs.Views.{held_term};
ghost use Rattle.vx_terms.specs.Views.{term};

use crate::key::key;
use std::alloc::{AllocError, Global};
use std::rc::Rc;
use vx_terms::Term;

/// So many bits of a key are told apart.
const LEVELS: u8 = 16;

/// Terms, to be found by their keys: it branches by a key's bits, the lowest first, where terms have to be told apart, and is shared
/// where it stays.
pub enum Index {
    Nothing,
    /// A term, and others that stand in one place with it.
    Holds(Rc<Term>, Rc<Index>),
    /// Those whose keys are even here, and those whose keys are odd.
    Branch(Rc<Index>, Rc<Index>),
}

impl Drop for Index {
    fn drop(mut self) {
        loop {
            let more = match self {
                Index::Nothing => return,
                Index::Holds(_term, more) => more,
                Index::Branch(_even, odd) => odd,
            };
            match Rc::into_inner(more) {
                Some(next) => self = next,
                None => return,
            }
        }
    }
}

impl Index {
    /// The same index once more.
    pub fn copy(&self) -> Result<Index, AllocError>
        ensures { IfOk result (λ copy. IsAlike copy self.now) }
    {
        Ok(match self {
            Index::Nothing => Index::Nothing,
            Index::Holds(t, more) => Index::Holds(t.clone()?, more.clone()?),
            Index::Branch(even, odd) => Index::Branch(even.clone()?, odd.clone()?),
        })
    }

    /// Whether a term stands in it under this key.
    pub fn holds(&self, key: u16, t: &Term) -> bool
        ensures { result ≡ finds self.now key (term t.now) }
    {
        let mut rest = self;
        let mut bits = key;
        loop {
            match rest {
                Index::Nothing => return false,
                Index::Holds(u, more) => {
                    if t.is_same(u) {
                        return true;
                    }
                    rest = more;
                }
                Index::Branch(even, odd) => {
                    rest = if bits % 2 == 0 { even } else { odd };
                    bits /= 2;
                }
            }
        }
    }
}

// One term by itself.
fn alone(alloc: Global, t: &Rc<Term>) -> Result<Index, AllocError>
    ensures { IfOk result (λ r. (k : ℕ) (w : terms.Term) → finds r k w ≡ (same w (held_term t.now) || false)) }
{
    let nothing = Rc::new(alloc, Index::Nothing)?;
    Ok(Index::Holds(t.clone()?, nothing))
}

/// The key of a term without so many of its lowest bits.
fn key_below(t: &Term, level: u8) -> u16
    ensures { result ≡ down level (key_of (term t.now) 4) }
{
    let mut rest = key(t);
    for _bit in 0..level {
        rest /= 2;
    }
    rest
}

// Two terms of which one has an even key, and the other an odd one.
fn apart(alloc: Global, even: &Rc<Term>, odd: &Rc<Term>) -> Result<Index, AllocError>
    ensures { IfOk result (λ r. (k : ℕ) (w : terms.Term) → finds r k w ≡ (if is_even k then (same w (held_term even.now) || false) else (same w (held_term odd.now) || false))) }
{
    let even = Rc::new(alloc, alone(alloc, even)?)?;
    let odd = Rc::new(alloc, alone(alloc, odd)?)?;
    Ok(Index::Branch(even, odd))
}

// Two terms from this level on, and their keys there: it branches as far as they have the same bits.
fn two(
    alloc: Global,
    level: u8,
    key: u16,
    t: &Rc<Term>,
    other: u16,
    u: &Rc<Term>,
) -> Result<Index, AllocError>
    requires key { key ≡ down level (key_of (held_term t.now) 4) }
    requires other { other ≡ down level (key_of (held_term u.now) 4) }
    ensures { IfOk result (λ r. (w : terms.Term) → finds r (down level (key_of w 4)) w ≡ ((same w (held_term u.now) || false) || same w (held_term t.now))) }
{
    if level >= LEVELS {
        let rest = Rc::new(alloc, alone(alloc, u)?)?;
        return Ok(Index::Holds(t.clone()?, rest));
    }
    if key % 2 == 0 {
        if other % 2 == 0 {
            let even = two(alloc, level + 1, key / 2, t, other / 2, u)?;
            let nothing = Rc::new(alloc, Index::Nothing)?;
            return Ok(Index::Branch(Rc::new(alloc, even)?, nothing));
        }
        return apart(alloc, t, u);
    }
    if other % 2 == 0 {
        return apart(alloc, u, t);
    }
    let odd = two(alloc, level + 1, key / 2, t, other / 2, u)?;
    let nothing = Rc::new(alloc, Index::Nothing)?;
    Ok(Index::Branch(nothing, Rc::new(alloc, odd)?))
}

// The index with a further term in front.
fn in_front(alloc: Global, index: &Index, t: &Rc<Term>) -> Result<Index, AllocError>
    ensures { IfOk result (λ r. (level : ℕ) → IsExtended index.now r level (held_term t.now)) }
{
    let more = Rc::new(alloc, index.copy()?)?;
    Ok(Index::Holds(t.clone()?, more))
}

/// The index with a further term, from this level on, and the term's key there. It branches where terms have to be told apart.
pub fn with_term(
    alloc: Global,
    index: &Index,
    level: u8,
    key: u16,
    t: &Rc<Term>,
) -> Result<Index, AllocError>
    requires { key ≡ down level (key_of (held_term t.now) 4) }
    ensures { IfOk result (λ r. IsExtended index.now r level (held_term t.now)) }
{
    if level >= LEVELS {
        return in_front(alloc, index, t);
    }
    match index {
        Index::Nothing => in_front(alloc, index, t),
        Index::Holds(u, more) => match &**more {
            Index::Nothing => two(alloc, level, key, t, key_below(u, level), u),
            Index::Holds(_, _) | Index::Branch(_, _) => in_front(alloc, index, t),
        },
        Index::Branch(even, odd) => {
            if key % 2 == 0 {
                let even = with_term(alloc, even, level + 1, key / 2, t)?;
                Ok(Index::Branch(Rc::new(alloc, even)?, odd.clone()?))
            } else {
                let odd = with_term(alloc, odd, level + 1, key / 2, t)?;
                Ok(Index::Branch(even.clone()?, Rc::new(alloc, odd)?))
            }
        }
    }
}
