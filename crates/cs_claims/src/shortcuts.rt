//! Equalities of terms that contradictions lead over, which become atoms: of a path's first term and each further one. What the
//! path's neighbours say of them is a clause of three literals, so a later contradiction needn't go over the path again.

use crate::claims::{Claim, Claims, value_of};
use cs_cong::Derived;
use cs_proof::Step;
use cs_record::atoms::Atoms;
use cs_record::draft::Lemma;
use cs_record::numbered::{Record, wide};
use cs_search::Value;
use cs_table::{Stop, chain, equality};
use std::alloc::Global;
use std::collections::HashSet;

/// So many broken claims come before the first shortcut: most checks have fewer.
const FIRST: u32 = 16;

/// An edge of a path, behind the part from its first term on.
#[derive(Clone, Copy)]
struct Corner {
    first: u32,
    here: u32,
    next: u32,
}

/// Which shortcuts are told.
#[derive(Drop)]
pub struct Shortcuts {
    // how many claims were broken
    broken: u32,
    // by the equality of the first term and a further one, and that of this one and the next
    told: HashSet<(u32, u32)>,
}

/// The equality of two terms, if it is an atom that is true.
fn true_equality(record: &Record, atoms: &Atoms, values: &[Value], a: u32, b: u32) -> Option<u32> {
    let number = equality(&record.table, a, b)?;
    if value_of(values, atoms.find(number)) == Some(true) {
        Some(number)
    } else {
        None
    }
}

/// The path by which two terms are equal, where it has three edges or more.
fn path_of(
    alloc: Global,
    record: &Record,
    claims: &Claims,
    broken: Claim,
) -> Result<Option<Vec<u32>>, Stop> {
    let (a, b) = claims.ends(record, broken)?;
    let mut steps = claims.held.explain(alloc, a, b)?.steps;
    match steps.pop() {
        Some(Derived::Path(path)) if path.len() > 3 => Ok(Some(path)),
        _ => Ok(None),
    }
}

/// The clause of a corner. Its step is recorded.
fn joined(alloc: Global, record: &mut Record, corner: Corner) -> Result<Lemma, Stop> {
    record.equality_of(alloc, corner.first, corner.next)?;
    let terms = [corner.first, corner.here, corner.next];
    let literals = chain(alloc, &record.table, &terms)?;
    let number = record.derive(Step::Chain(wide(alloc, &terms)?))?;
    Ok(Lemma { literals, number })
}

impl Shortcuts {
    /// None is told.
    pub fn new(alloc: Global) -> Shortcuts {
        Shortcuts {
            broken: 0,
            told: HashSet::new(alloc),
        }
    }

    /// The first corner of a path that isn't told, up to an edge that is no atom.
    fn corner(
        &mut self,
        record: &Record,
        atoms: &Atoms,
        values: &[Value],
        path: &[u32],
    ) -> Result<Option<Corner>, Stop> {
        let Some(first) = path.first() else {
            return Ok(None);
        };
        let mut before = None;
        for pair in path.windows(2) {
            let [here, next] = pair else {
                return Ok(None);
            };
            let Some(edge) = true_equality(record, atoms, values, *here, *next) else {
                return Ok(None);
            };
            let corner = Corner {
                first: *first,
                here: *here,
                next: *next,
            };
            if let Some(before) = before {
                if self.told.insert((before, edge))? {
                    return Ok(Some(corner));
                }
            }
            before = equality(&record.table, *first, *next);
        }
        Ok(None)
    }

    /// The next shortcut along the path that breaks a claim. None is told for the first claims that are broken.
    ///
    /// # Errors
    /// `Miss` where the claim isn't broken; `Want` where memory runs out.
    pub fn next(
        &mut self,
        alloc: Global,
        record: &mut Record,
        claims: &Claims,
        atoms: &Atoms,
        values: &[Value],
        broken: Claim,
    ) -> Result<Option<Lemma>, Stop> {
        self.broken = self.broken.saturating_add(1);
        if self.broken <= FIRST {
            return Ok(None);
        }
        let Some(path) = path_of(alloc, record, claims, broken)? else {
            return Ok(None);
        };
        match self.corner(record, atoms, values, &path)? {
            Some(corner) => Ok(Some(joined(alloc, record, corner)?)),
            None => Ok(None),
        }
    }
}
