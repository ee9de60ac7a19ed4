//! The atoms of the search: the Bool terms among the numbered ones, one after another. So no atom is decided that no clause can have.
ghost use Rattle.std.specs.Prelude.{List, ◌≡◌, ◌<◌, ◌^◌, length, map, slice_get, IfOk};
ghost use Rattle.std.specs.List.{All};
ghost use Rattle.vx_terms.specs.Sorts.{BoolSort};
ghost use Rattle.cs_certificate.specs.Nodes as clean;
ghost use Rattle.cs_table.specs.Table.{nodes_in};
ghost use Rattle.cs_table.specs.Views.{nodes};
ghost use Rattle.cs_ground.specs.Atoms.{MissesNothing, IsBool, AreBool, AreAtoms, named, all_named};

use cs_certificate::Literal;
use cs_table::{Node, Stop, Table};
use std::alloc::{AllocError, Global};
use vx_terms::Sort;

/// The atoms of some numbered terms.
#[derive(Drop)]
pub struct Atoms {
    /// By atom the number of its term.
    pub terms: Vec<u32>,
    /// By number of a term how many atoms are before it; so of a Bool term its atom.
    pub places: Vec<u32>,
    ghost few: { length terms.items < 2 ^ 32 },
}

/// The numbers of the Bool terms, and at each number how many come before it.
fn numbers_of(alloc: Global, nodes: &[Node]) -> Result<(Vec<u32>, Vec<u32>), AllocError>
    requires { length nodes.now < 2 ^ 32 }
    ensures atoms { IfOk result (λ v. AreAtoms (Rattle.cs_table.specs.Views.nodes nodes.now) v.0.items v.1.items) }
    ensures few { IfOk result (λ v. length v.0.items < 2 ^ 32) }
{
    let mut terms = Vec::new(alloc);
    let mut places = Vec::new(alloc);
    for (number, node) in nodes.iter().enumerate() {
        places.push(terms.len() as u32)?;
        if node.sort.is_same(&Sort::Bool) {
            terms.push(number as u32)?;
        }
    }
    Ok((terms, places))
}

/// The number at a place, where there is one.
fn at(numbers: &[u32], place: u32) -> Option<u32>
    ensures { result ≡ slice_get numbers.now place }
{
    numbers.get(place as usize).copied()
}

impl Atoms {
    /// The atoms of numbered terms.
    pub fn new(alloc: Global, nodes: &Table) -> Result<Atoms, AllocError>
        ensures { IfOk result (λ a. AreAtoms (nodes_in nodes.now) a.terms.items a.places.items) }
    {
        let (terms, places) = numbers_of(alloc, &nodes.nodes)?;
        Ok(Atoms { terms, places })
    }

    /// The literal of a Bool term as one of its atom.
    ///
    /// # Errors
    /// `Miss` where the term isn't Bool.
    pub fn atom(&self, of: Literal) -> Result<Literal, Stop>
        ensures same { IfOk result (λ l. named self.now.terms.items l ≡ of) }
        ensures within { IfOk result (λ l. l.number < length self.now.terms.items) }
        ensures found { (all : List clean.Node) → AreAtoms all self.now.terms.items self.now.places.items → IsBool all of.number → MissesNothing result }
    {
        match at(&self.places, of.number) {
            None => Err(Stop::Miss),
            Some(atom) => match at(&self.terms, atom) {
                None => Err(Stop::Miss),
                Some(number) => {
                    if number != of.number {
                        return Err(Stop::Miss);
                    }
                    Ok(Literal {
                        positive: of.positive,
                        number: atom,
                    })
                }
            },
        }
    }

    /// Literals of Bool terms as those of their atoms.
    ///
    /// # Errors
    /// `Miss` where a term isn't Bool; `Want` where memory runs out.
    pub fn atoms(&self, alloc: Global, of: &[Literal]) -> Result<Vec<Literal>, Stop>
        ensures same { IfOk result (λ v. all_named self.now.terms.items v.items ≡ of.now) }
        ensures within { IfOk result (λ v. All (λ l. l.number < length self.now.terms.items) v.items) }
        ensures found { (all : List clean.Node) → AreAtoms all self.now.terms.items self.now.places.items → AreBool all of.now → MissesNothing result }
    {
        let mut all = Vec::new(alloc);
        for literal in of {
            all.push(self.atom(*literal)?)?;
        }
        Ok(all)
    }
}

/// The literal of the term that an atom stands for.
fn name(terms: &[u32], literal: &Literal) -> Literal
    requires { literal.now.number < length terms.now }
    ensures { result ≡ named terms.now literal.now }
{
    Literal {
        positive: literal.positive,
        number: terms[literal.number as usize],
    }
}

/// The literals of the terms that atoms stand for.
pub fn names(alloc: Global, terms: &[u32], literals: &[Literal]) -> Result<Vec<Literal>, AllocError>
    requires { All (λ l. l.number < length terms.now) literals.now }
    ensures { IfOk result (λ v. v.items ≡ all_named terms.now literals.now) }
{
    let mut all = Vec::new(alloc);
    for literal in literals {
        all.push(name(terms, literal))?;
    }
    Ok(all)
}
