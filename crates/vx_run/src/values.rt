//! Values of a run.
use vx_frac::Frac;

/// A value; 0 is the null reference.
#[derive(Clone, Copy)]
pub enum Value {
    Int(i128),
    Bool(bool),
    Ref(u64),
    Perm(Frac),
}
