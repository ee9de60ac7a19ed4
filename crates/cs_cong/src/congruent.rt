//! Terms of one head whose parts are equal are equal.
ghost use Rattle.std.specs.Prelude.{◌≡◌, ◌<◌, length, All};
ghost use Rattle.cs_cong.specs.Merged.{current};
ghost use Rattle.cs_cong.specs.Joined.{all_same, are_congruent};
ghost use Rattle.cs_cong.specs.Signatures.{signature_key};

use crate::merges::Merges;
use cs_index::mix;

/// A term: its head, of which each has a number, over the numbers of its parts.
#[derive(Drop)]
pub struct Applied {
    pub head: u32,
    pub parts: Vec<u32>,
}

/// What is asserted of two terms: that they are equal, or that they aren't.
#[derive(Clone, Copy)]
pub struct Claim {
    pub left: u32,
    pub right: u32,
    pub equal: bool,
}

/// Whether the parts have the same representatives, place by place.
#[tactic(auto, using(crate::proofs::Same::unequal, crate::proofs::Same::same_here, crate::proofs::Same::other_here, crate::proofs::Same::at_end))]
fn are_same(merges: &Merges, xs: &[u32], ys: &[u32]) -> bool
    requires left { All (λ x. x < length merges.now.links.items) xs.now }
    requires right { All (λ y. y < length merges.now.links.items) ys.now }
    ensures { result ≡ all_same (current merges.now.log.items) xs.now ys.now }
{
    if xs.len() != ys.len() {
        return false;
    }
    for at in 0..xs.len() {
        if merges.now(xs[at]) != merges.now(ys[at]) {
            return false;
        }
    }
    true
}

/// Whether two terms have one head, and parts with the same representatives.
pub fn is_alike(terms: &[Applied], merges: &Merges, left: usize, right: usize) -> bool
    requires terms { length terms.now ≡ length merges.now.links.items }
    requires parts { All (λ t. All (λ p. p < length terms.now) t.parts.items) terms.now }
    requires left { left < length terms.now }
    requires right { right < length terms.now }
    ensures { result ≡ are_congruent terms.now (current merges.now.log.items) left right }
{
    let a = &terms[left];
    let b = &terms[right];
    if a.head != b.head {
        return false;
    }
    are_same(merges, &a.parts, &b.parts)
}

/// A key of the signature of a term: of its head and the representatives of its parts.
pub fn key_of(merges: &Merges, term: &Applied) -> u64
    requires { All (λ p. p < length merges.now.links.items) term.now.parts.items }
    ensures { result ≡ signature_key (current merges.now.log.items) term.now }
{
    let mut key = u64::from(term.head);
    for part in &term.parts {
        key = mix(key, u64::from(merges.now(*part)));
    }
    key
}
