//! The elements of numbered terms: of Bool terms their truths, of others their classes.
ghost use Rattle.std.specs.Prelude.{◌≡◌, false, get_or, map, IfOk};
ghost use Rattle.vx_terms.specs.Views.{sort};
ghost use Rattle.cs_table.specs.Views as views;
ghost use Rattle.cs_model.specs.Elements as clean;
ghost use Rattle.cs_tables.specs.Told.{told, told_at};

use cs_model::Element;
use cs_table::Node;
use std::alloc::{AllocError, Global};
use vx_terms::Sort;

/// The truth at a number, or false.
fn truth(truths: &[bool], number: usize) -> bool
    ensures { result ≡ get_or truths.now number false }
{
    match truths.get(number) {
        Some(truth) => *truth,
        None => false,
    }
}

/// The class at a number, or 0.
fn class(classes: &[u32], number: usize) -> u32
    ensures { result ≡ get_or classes.now number 0 }
{
    match classes.get(number) {
        Some(class) => *class,
        None => 0,
    }
}

/// The element of the term of a sort and number.
fn of_sort(truths: &[bool], classes: &[u32], number: usize, of: &Sort) -> Element
    ensures { clean.element result ≡ told truths.now classes.now number (sort of.now) }
{
    match of {
        Sort::Bool => Element::Bool(truth(truths, number)),
        Sort::Int | Sort::Real | Sort::Ref | Sort::Snap | Sort::Other(_) => {
            Element::Node(class(classes, number))
        }
    }
}

/// The element of the term of a number.
pub fn element(nodes: &[Node], truths: &[bool], classes: &[u32], number: usize) -> Element
    ensures { clean.element result ≡ told_at (views.nodes nodes.now) truths.now classes.now number }
{
    match nodes.get(number) {
        Some(node) => of_sort(truths, classes, number, &node.sort),
        None => Element::Empty,
    }
}

/// The elements of the terms of some numbers.
pub fn elements(
    alloc: Global,
    nodes: &[Node],
    truths: &[bool],
    classes: &[u32],
    numbers: &[u32],
) -> Result<Vec<Element>, AllocError>
    ensures { IfOk result (λ v. clean.elements v.items ≡ map (told_at (views.nodes nodes.now) truths.now classes.now) numbers.now) }
{
    let mut found = Vec::new(alloc);
    for number in numbers {
        found.push(element(nodes, truths, classes, *number as usize))?;
    }
    Ok(found)
}
