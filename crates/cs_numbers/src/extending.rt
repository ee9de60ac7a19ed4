//! The nodes of numbered terms, in a table.
ghost use Rattle.std.specs.Prelude.{◌≤◌, length, drop, OnOk};
ghost use Rattle.cs_table.specs.Gives.{Gives};
ghost use Rattle.cs_table.specs.Table.{nodes_in};
ghost use Rattle.cs_numbers.specs.Listed.{terms_in};
ghost use Rattle.cs_numbers.specs.Numbering.{nodes_after};

use crate::NumberedTerms;
use crate::table::node_at;
use cs_table::{Stop, Table};
use std::alloc::Global;

/// The nodes of the terms that have none yet.
///
/// # Errors
/// `Miss` where a part of one has no number; `Want` where memory runs out.
pub fn extend(alloc: Global, all: &mut Table, terms: &NumberedTerms) -> Result<(), Stop>
    ensures value { Gives (λ u. nodes_in all.new) result (nodes_after (nodes_in all.old) (terms_in terms.now) (drop (length all.old.nodes.items) (terms_in terms.now))) }
    ensures grown { OnOk result (length all.old.nodes.items ≤ length all.new.nodes.items) }
{
    for number in all.nodes.len()..terms.terms.len() {
        let node = node_at(alloc, terms, number as u32)?;
        all.push(node)?;
    }
    Ok(())
}
