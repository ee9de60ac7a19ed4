//! Why a certificate is refused.

use vx_frac::{Frac, Op};

/// Why a certificate is refused. Steps are counted from 0.
#[derive(Clone, Copy)]
pub enum Refusal {
    /// C1: the step doesn't meet its rule.
    BadStep(u32),
    /// C2: a fraction of the step leaves 128 bits, at this call on these operands.
    Over(u32, Op, Frac, Frac),
    /// C3: no empty clause was derived.
    NotEmpty,
    /// C4: the step isn't of the written form.
    BadForm(u32),
}
