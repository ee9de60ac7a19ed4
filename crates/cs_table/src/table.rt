//! The table of numbered terms.
ghost use Rattle.std.specs.Prelude.{◌≡◌, ◌<◌, ◌^◌, ◌++◌, [], ◌∷◌, length, IfOk, IfErr, OnOk};
ghost use Rattle.cs_index.specs.Found.{IsIndexed};
ghost use Rattle.cs_table.specs.Keys.{node_key};
ghost use Rattle.cs_table.specs.Views.{nodes};

use crate::key::key_over;
use crate::{Head, Node, Stop};
use cs_index::Index;
use std::alloc::Global;

/// Numbered terms. They are found by their heads and the numbers of their parts.
#[derive(Drop)]
pub struct Table {
    pub nodes: Vec<Node>,
    pub(crate) index: Index,
    ghost small: { length nodes.items < 2 ^ 32 },
    ghost indexed: { IsIndexed node_key (Rattle.cs_table.specs.Views.nodes nodes.items) index },
}

impl Table {
    /// No terms. No memory, so it gives no error.
    #[tactic(auto, using(cs_index::proofs::Indexed::indexed_none))]
    pub fn new(alloc: Global) -> Result<Table, Stop>
        ensures { IfOk result (λ t. t.nodes.items ≡ []) }
    {
        Ok(Table {
            nodes: Vec::new(alloc),
            index: Index::new(alloc),
        })
    }

    /// Its nodes alone. No memory.
    pub fn into_nodes(self) -> Vec<Node>
        ensures { result ≡ self.nodes }
    {
        let Table { nodes, index: _ } = self;
        nodes
    }

    /// A further term.
    ///
    /// # Errors
    /// `Want` where memory runs out, or where there are 2^32 - 1 terms.
    #[tactic(auto, using(cs_index::proofs::Indexed::indexed_more, cs_index::proofs::Indexed::indexed_same))]
    pub fn push(&mut self, node: Node) -> Result<(), Stop>
        ensures pushed { OnOk result (self.new.nodes.items ≡ self.old.nodes.items ++ node ∷ []) }
        ensures want { IfErr result (λ e. e ≡ Stop.Want) }
    {
        let number = self.nodes.len();
        if number >= u32::MAX as usize {
            return Err(Stop::Want);
        }
        let key = key_over(&node.head, &node.parts);
        self.nodes.push(node)?;
        match self.index.add(key, number as u32) {
            Ok(()) => Ok(()),
            Err(_) => {
                let _again = self.nodes.pop();
                Err(Stop::Want)
            }
        }
    }
}
