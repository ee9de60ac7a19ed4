//! What a certificate is checked against.

use std::rc::Rc;
use vx_smt_meaning::Declared;
use vx_terms::Term;

/// The live assertions, in order, and the live symbols.
#[derive(Drop)]
pub struct Stack {
    pub assertions: Vec<Rc<Term>>,
    pub symbols: Vec<Declared>,
}
