//! The look-up of terms by their heads and the numbers of their parts.
ghost use Rattle.std.specs.Prelude.{◌≡◌};
ghost use Rattle.cs_index.specs.Found.{passes_at};
ghost use Rattle.cs_certificate.specs.Nodes as clean;
ghost use Rattle.cs_table.specs.Table.{nodes_in};
ghost use Rattle.cs_table.specs.Views.{head, nodes};

use crate::key::key_over;
use crate::{Head, Node, Table};
use vx_terms::Operator;

/// Whether the node of this number has this head over these parts.
fn is_at(all: &[Node], number: u32, of: &Head, parts: &[u32]) -> bool
    ensures { result ≡ passes_at (clean.is_node (head of.now) parts.now) (nodes all.now) number }
{
    match all.get(number as usize) {
        Some(node) => node.is_over(of, parts),
        None => false,
    }
}

/// The number of the term with this head over these parts.
#[tactic(auto, using(crate::proofs::Looked::looked_up))]
pub fn number_of(all: &Table, of: &Head, parts: &[u32]) -> Option<u32>
    ensures { result ≡ clean.number_of (nodes_in all.now) (head of.now) parts.now }
{
    for number in all.index.under(key_over(of, parts)) {
        if is_at(&all.nodes, *number, of, parts) {
            return Some(*number);
        }
    }
    None
}

/// The number of the equality of two terms: of its two orders the one that is numbered first.
pub fn equality(all: &Table, a: u32, b: u32) -> Option<u32>
    ensures { result ≡ clean.equality (nodes_in all.now) a b }
{
    let equal = Head::Binary(Operator::Equal);
    let one = number_of(all, &equal, &[a, b]);
    let other = number_of(all, &equal, &[b, a]);
    match (one, other) {
        (Some(m), Some(n)) => Some(m.min(n)),
        (Some(m), None) => Some(m),
        (None, n) => n,
    }
}
