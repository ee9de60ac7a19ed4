//! Terms that are added to sums.
ghost use Rattle.std.specs.Prelude.{◌≡◌, ◌≤◌, ◌<◌, ◌^◌, length};
ghost use Rattle.vx_frac.specs.Fraction.{fraction};
ghost use Rattle.vx_terms.specs.Sorts.{Sort};
ghost use Rattle.cs_table.specs.Views.{nodes};
ghost use Rattle.cs_certificate.specs.Linear.{minus_one};
ghost use Rattle.cs_farkas.specs.Sums as clean;
ghost use Rattle.cs_farkas.specs.Rows.{one_more, add_part, add_all};
ghost use Rattle.cs_farkas.specs.Views.{Ends, sums, width, sort_of, part};

use crate::calls::{Break, times};
use crate::reading::{Reading, reading_of};
use crate::rows::{Numbers, Part, Relation};
use crate::sums::Sums;
use cs_table::Node;
use vx_frac::Frac;

/// A factor with the other sign.
fn turned(factor: Frac) -> Result<Frac, Break>
    ensures { Ends fraction result (clean.times (fraction factor) minus_one) }
{
    times(factor, Frac::whole(-1))
}

/// Adds a term of at most so many layers, read with a factor, times the multiplier.
#[cycle(terms)]
fn read_term(
    all: &[Node],
    layers: u32,
    multiplier: Frac,
    factor: Frac,
    term: u32,
    to: &mut Sums,
) -> Result<(), Break>
    requires { length all.now ≤ width to.old }
    ensures value { Ends (λ u. sums to.new) result (clean.read_term (nodes all.now) layers (fraction multiplier) (fraction factor) term (sums to.old)) }
    ensures width { width to.new ≡ width to.old }
{
    let Some(layers) = layers.checked_sub(1) else {
        return Err(Break::Miss);
    };
    let Some(node) = all.get(term as usize) else {
        return Err(Break::Miss);
    };
    let reading = reading_of(all, node);
    read_as(all, layers, multiplier, factor, term, reading, to)
}

/// Adds a term that is so read, whose parts have at most so many layers.
#[cycle(terms)]
fn read_as(
    all: &[Node],
    layers: u32,
    multiplier: Frac,
    factor: Frac,
    term: u32,
    reading: Reading,
    to: &mut Sums,
) -> Result<(), Break>
    requires width { length all.now ≤ width to.old }
    requires term { term < length all.now }
    ensures value { Ends (λ u. sums to.new) result (clean.read_as (clean.read_term (nodes all.now) layers (fraction multiplier)) (fraction multiplier)
        (fraction factor) term (sums to.old) (Rattle.cs_farkas.specs.Views.reading reading)) }
    ensures width { width to.new ≡ width to.old }
{
    match reading {
        Reading::Literal(literal) => {
            let amount = times(factor, literal)?;
            to.add_constant(multiplier, amount)
        }
        Reading::Sum(a, b) => {
            read_term(all, layers, multiplier, factor, a, to)?;
            read_term(all, layers, multiplier, factor, b, to)
        }
        Reading::Difference(a, b) => {
            read_term(all, layers, multiplier, factor, a, to)?;
            let turned = turned(factor)?;
            read_term(all, layers, multiplier, turned, b, to)
        }
        Reading::Multiple(literal, a) => {
            let scaled = times(factor, literal)?;
            read_term(all, layers, multiplier, scaled, a, to)
        }
        Reading::Column => to.add_column(multiplier, factor, term),
    }
}

/// Of Int, below 0 is at most 0 with 1 more.
fn add_one_more(numbers: Numbers, part: &Part, to: &mut Sums) -> Result<(), Break>
    ensures value { Ends (λ u. sums to.new) result (one_more (sort_of numbers) (Rattle.cs_farkas.specs.Views.part part.now) (sums to.old)) }
    ensures width { width to.new ≡ width to.old }
{
    match (numbers, part.bound.relation) {
        (Numbers::Int, Relation::BelowZero) => to.add_constant(part.multiplier, Frac::whole(1)),
        (Numbers::Int, Relation::AtMostZero)
        | (Numbers::Int, Relation::IsZero)
        | (Numbers::Real, Relation::AtMostZero)
        | (Numbers::Real, Relation::BelowZero)
        | (Numbers::Real, Relation::IsZero) => Ok(()),
    }
}

/// Adds a constraint, left less right, times its multiplier.
fn add_part(all: &[Node], numbers: Numbers, part: &Part, to: &mut Sums) -> Result<(), Break>
    requires fits { length all.now < 2 ^ 32 }
    requires width { length all.now ≤ width to.old }
    ensures value { Ends (λ u. sums to.new) result (add_part (nodes all.now) (sort_of numbers) (Rattle.cs_farkas.specs.Views.part part.now) (sums to.old)) }
    ensures width { width to.new ≡ width to.old }
{
    let layers = all.len() as u32;
    read_term(
        all,
        layers,
        part.multiplier,
        Frac::whole(1),
        part.bound.left,
        to,
    )?;
    read_term(
        all,
        layers,
        part.multiplier,
        Frac::whole(-1),
        part.bound.right,
        to,
    )?;
    add_one_more(numbers, part, to)
}

/// Adds all constraints, in order.
///
/// # Errors
/// `Miss` where a term has no node, or nests deeper than there are nodes; `Over` where a fraction leaves 128 bits.
pub fn add_all(all: &[Node], numbers: Numbers, parts: &[Part], to: &mut Sums) -> Result<(), Break>
    requires fits { length all.now < 2 ^ 32 }
    requires width { length all.now ≤ width to.old }
    ensures value { Ends (λ u. sums to.new) result (add_all (nodes all.now) (sort_of numbers) (Rattle.std.specs.Prelude.map part parts.now) (sums to.old)) }
    ensures width { width to.new ≡ width to.old }
{
    for part in parts {
        if let Err(stop) = add_part(all, numbers, part, to) {
            return Err(stop);
        }
    }
    Ok(())
}
