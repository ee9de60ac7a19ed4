//! Tables with an entry of each constant and each application.
ghost use Rattle.std.specs.Prelude.{◌≡◌, ◌++◌, ◌∷◌, [], List, IfOk};
ghost use Rattle.vx_terms.specs.Views.{sort, symbol};
ghost use Rattle.vx_terms.specs.Terms.{Term};
ghost use Rattle.vx_terms.specs.Interpretations.{AllTrue};
ghost use Rattle.cs_certificate.specs.Terms.{numbered};
ghost use Rattle.cs_certificate.specs.Nodes.{Represents};
ghost use Rattle.cs_table.specs.Views as views;
ghost use Rattle.cs_model.specs.Elements as clean;
ghost use Rattle.cs_model.specs.Models.{interpretation};
ghost use Rattle.cs_classes.specs.Elements.{Assignment};
ghost use Rattle.cs_classes.specs.Models.{Tabulates};
ghost use Rattle.cs_classes.specs.Laws.{IsAssigned};
ghost use Rattle.cs_tables.specs.Told.{Tells, told_at};
ghost use Rattle.cs_tables.specs.Lines as written;
ghost use Rattle.cs_tables.specs.Made.{IsMade};
ghost use Rattle.cs_numbers.specs.Laws.{IsTable};
ghost use Rattle.cs_numbers.specs.Listed.{terms_in};

use crate::elements::{element, elements};
use cs_model::{Element, Entry, Model};
use cs_numbers::{NumberedTerms, nodes_of};
use cs_table::{Head, Node, Stop};
use std::alloc::{AllocError, Global};
use vx_terms::{Sort, Symbol};

/// An entry of a symbol and a sort.
fn entry(
    of: &Symbol,
    at: &Sort,
    arguments: Vec<Element>,
    value: Element,
) -> Result<Entry, AllocError>
    ensures { IfOk result (λ x. written.line x ≡ record { symbol = symbol of.now; sort = sort at.now; arguments = clean.elements arguments.items; value = clean.element value }) }
{
    Ok(Entry {
        symbol: of.copy()?,
        sort: at.copy()?,
        arguments,
        value,
    })
}

/// The entries, and one more where the node of this number is a constant or an application.
fn with_node(
    alloc: Global,
    nodes: &[Node],
    truths: &[bool],
    classes: &[u32],
    entries: Vec<Entry>,
    number: usize,
    node: &Node,
) -> Result<Vec<Entry>, AllocError>
    ensures { IfOk result (λ v. written.lines v.items ≡ written.lines entries.items
        ++ written.line_of (told_at (views.nodes nodes.now) truths.now classes.now) number (views.head node.now.head) node.now.parts.items) }
{
    let mut entries = entries;
    match &node.head {
        Head::Constant(symbol, sort) | Head::Apply(symbol, sort) => {
            let arguments = elements(alloc, nodes, truths, classes, &node.parts)?;
            let value = element(nodes, truths, classes, number);
            entries.push(entry(symbol, sort, arguments, value)?)?;
            Ok(entries)
        }
        Head::Truth(_) | Head::Number(_) | Head::Part(_) | Head::Binary(_) => Ok(entries),
        Head::Not | Head::Ite | Head::All | Head::Some => Ok(entries),
    }
}

/// The entries of the nodes that are constants and applications, in order.
fn entries_of(
    alloc: Global,
    nodes: &[Node],
    truths: &[bool],
    classes: &[u32],
) -> Result<Vec<Entry>, AllocError>
    ensures { IfOk result (λ v. written.lines v.items ≡ written.lines_from (told_at (views.nodes nodes.now) truths.now classes.now) 0 (views.nodes nodes.now)) }
{
    let mut entries = Vec::new(alloc);
    for (number, node) in nodes.iter().enumerate() {
        entries = with_node(alloc, nodes, truths, classes, entries, number, node)?;
    }
    Ok(entries)
}

/// The tables of an assignment over the terms that nodes represent: an entry of each constant and each application. An element is the
/// truth at the term's number where the term is Bool, and else the class there.
pub fn tables_over(
    alloc: Global,
    nodes: &[Node],
    truths: &[bool],
    classes: &[u32],
) -> Result<Model, AllocError>
    ensures tables { (all : List Term) (s : Assignment) → Represents (views.nodes nodes.now) all → Tells all truths.now classes.now s
        → IfOk result (λ m. Tabulates all s m.entries.items) }
    ensures models { (assertions : List Term) (s : Assignment) → IsAssigned assertions s → Represents (views.nodes nodes.now) (numbered assertions)
        → Tells (numbered assertions) truths.now classes.now s → IfOk result (λ m. AllTrue (interpretation m.entries.items) assertions) }
{
    let entries = entries_of(alloc, nodes, truths, classes)?;
    Ok(Model { entries })
}

/// The tables of an assignment over numbered terms: those over their nodes.
///
/// # Errors
/// `Miss` where a part of a term has no number; `Want` where memory runs out.
pub fn tables_of(
    alloc: Global,
    terms: &NumberedTerms,
    truths: &[bool],
    classes: &[u32],
) -> Result<Model, Stop>
    ensures tables { (s : Assignment) → IsTable (terms_in terms.now) → Tells (terms_in terms.now) truths.now classes.now s
        → IsMade (λ m. Tabulates (terms_in terms.now) s m.entries.items) result }
    ensures models { (assertions : List Term) (s : Assignment) → terms_in terms.now ≡ numbered assertions → IsAssigned assertions s
        → Tells (numbered assertions) truths.now classes.now s → IsMade (λ m. AllTrue (interpretation m.entries.items) assertions) result }
{
    let nodes = nodes_of(alloc, terms)?;
    Ok(tables_over(alloc, &nodes, truths, classes)?)
}
