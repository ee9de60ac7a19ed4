//! Applications of one symbol whose arguments have the same elements, and whose values differ: then two arguments that are
//! numbers have one value by chance, and have to be told apart. So it is with products of terms that are no literals.

use crate::elements::Sources;
use cs_claims::held::key_of_applied;
use cs_index::{Index, mix, mix_wide};
use cs_model::Element;
use cs_record::numbered::Record;
use cs_sums::{Stop, numbers_of};
use cs_table::Node;
use std::alloc::Global;

/// An application, and the elements of its arguments and of itself.
#[derive(Drop)]
struct Seen {
    number: u32,
    arguments: Vec<Element>,
    value: Element,
}

fn key_of_element(key: u64, of: Element) -> u64 {
    match of {
        Element::Int(number) => mix_wide(key, number.unsigned_abs()),
        Element::Bool(holds) => mix(key, u64::from(holds)),
        Element::Real(part) => mix_wide(
            mix_wide(key, part.num().unsigned_abs()),
            part.den().unsigned_abs(),
        ),
        Element::Node(class) => mix(key, u64::from(class)),
        Element::Empty => key,
    }
}

fn key_of(mut key: u64, arguments: &[Element]) -> u64 {
    for argument in arguments {
        key = key_of_element(key, *argument);
    }
    key
}

/// Whether a term is one of numbers.
fn is_number(record: &Record, number: u32) -> Result<bool, Stop> {
    Ok(numbers_of(&record.node(number)?.sort).is_some())
}

/// Whether one of the terms is of Int or Real.
fn has_number(record: &Record, numbers: &[u32]) -> Result<bool, Stop> {
    for number in numbers {
        if is_number(record, *number)? {
            return Ok(true);
        }
    }
    Ok(false)
}

/// The first numbers, side by side, that the classes don't join.
fn unjoined(
    sources: &Sources<'_>,
    left: &[u32],
    right: &[u32],
) -> Result<Option<(u32, u32)>, Stop> {
    let held = &sources.claims.held;
    for (a, b) in left.iter().zip(right) {
        if is_number(sources.record, *a)? && held.class_of(*a)? != held.class_of(*b)? {
            return Ok(Some((*a, *b)));
        }
    }
    Ok(None)
}

/// The applications seen so far, by keys of their symbols and arguments.
#[derive(Drop)]
struct Applications {
    seen: Vec<Seen>,
    index: Index,
}

impl Applications {
    /// The two arguments to be told apart, if an application clashes with an earlier one.
    fn clash_of(
        &self,
        sources: &Sources<'_>,
        key: u64,
        node: &Node,
        new: &Seen,
    ) -> Result<Option<(u32, u32)>, Stop> {
        for at in self.index.under(key) {
            let Some(old) = self.seen.get(*at as usize) else {
                return Err(Stop::Miss);
            };
            let other = sources.record.node(old.number)?;
            if other.head.is_same(&node.head)
                && old.arguments == new.arguments
                && old.value != new.value
            {
                return unjoined(sources, &other.parts, &node.parts);
            }
        }
        Ok(None)
    }

    /// Takes an application; the two arguments to be told apart, if it clashes with an earlier one.
    fn take(
        &mut self,
        alloc: Global,
        sources: &Sources<'_>,
        number: u32,
    ) -> Result<Option<(u32, u32)>, Stop> {
        let node = sources.record.node(number)?;
        let Some(key) = key_of_applied(&sources.record.table, node) else {
            return Ok(None);
        };
        if !has_number(sources.record, &node.parts)? {
            return Ok(None);
        }
        let new = Seen {
            number,
            arguments: sources.elements(alloc, &node.parts)?,
            value: sources.element(number)?,
        };
        let key = key_of(key, &new.arguments);
        let found = self.clash_of(sources, key, node, &new)?;
        let Ok(at) = u32::try_from(self.seen.len()) else {
            return Err(Stop::Want);
        };
        self.index.add(key, at)?;
        self.seen.push(new)?;
        Ok(found)
    }
}

/// Two terms of numbers that have one value and have to be told apart, if there are such among the first terms.
///
/// # Errors
/// `Over` where a fraction leaves 128 bits; `Want` where memory runs out.
pub fn clash(alloc: Global, sources: &Sources<'_>, count: u32) -> Result<Option<(u32, u32)>, Stop> {
    let mut applications = Applications {
        seen: Vec::new(alloc),
        index: Index::new(alloc),
    };
    for number in 0..count {
        if let Some(pair) = applications.take(alloc, sources, number)? {
            return Ok(Some(pair));
        }
    }
    Ok(None)
}
