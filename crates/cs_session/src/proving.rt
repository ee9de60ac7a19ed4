//! What is answered to `get-proof`.
ghost use Rattle.std.specs.Prelude.{◌≡◌, ◌∷◌, ◌++◌, [], true, false, map, IfOk};
ghost use Rattle.cs_proof.specs.Views.{written};
ghost use Rattle.cs_session.specs.Replies.{IsOne, Shows};

use crate::reply::{Complaint, Reply};
use cs_proof::{Step, Want};
use std::alloc::{AllocError, Global};
use vx_sexp::{Bytes, cut};

/// Whether the text is one s-expression, and nothing follows it.
fn is_one(text: &[u8]) -> bool
    ensures one { result ≡ true → IsOne text.now }
    ensures other { result ≡ false → IsOne text.now → ⊥ }
{
    match cut(text) {
        Ok(taken) => taken == text.len(),
        Err(_) => false,
    }
}

// the text, and a line feed
fn line_of(text: Vec<u8>) -> Result<Bytes, AllocError>
    ensures { IfOk result (λ line. line ≡ text.items ++ 10 ∷ []) }
{
    let mut line = text;
    line.push(b'\n')?;
    Ok(Bytes::of(line))
}

/// The line of a certificate of these steps, where its text is one s-expression.
///
/// # Errors
/// Memory runs out.
pub fn shown(alloc: Global, steps: &[Step]) -> Result<Reply, Want>
    ensures { IfOk result (λ r. Shows (map written steps.now) r) }
{
    let mut text = Vec::new(alloc);
    cs_text::write(alloc, steps, &mut text)?;
    if !is_one(&text) {
        return Ok(Reply::Failed(Complaint::NoProof));
    }
    Ok(Reply::Proof(line_of(text)?))
}
