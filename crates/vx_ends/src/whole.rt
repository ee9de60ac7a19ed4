// Loops over one call of an end.
ghost use Rattle.std.specs.Prelude.{◌≡◌, ◌<◌, ◌+◌, ◌++◌, OnOk, IsErr, IsTrue, List, ℕ, length};
ghost use Rattle.vx_ends.specs.Causes.{HasCause, IsCalm};
ghost use Rattle.vx_ends.specs.Dialogue.{sent, got, Grows, SendsOn};
ghost use Rattle.vx_ends.specs.Calls.{PutsSome};
ghost use Rattle.vx_ends.specs.Talks.{SaysSome};

use crate::{Duplex, Link, LinkFault, PutFault, Sink};
use std::alloc::Global;

/// Sends all of a text; where that fails, a beginning of it, and not all.
///
/// # Errors
/// `Failed` where the link fails; `Want` where memory runs out.
pub fn send_all<L: Link>(alloc: Global, link: &mut L, text: &[u8]) -> Result<(), LinkFault>
    ensures sent { OnOk result (sent (L.dialogue link.new) ≡ sent (L.dialogue link.old) ++ text.now) }
    ensures begun { (rest : List ℕ) × (sent (L.dialogue link.new) ++ rest ≡ sent (L.dialogue link.old) ++ text.now) }
    ensures part { IsErr result → length (sent (L.dialogue link.new)) < length (sent (L.dialogue link.old)) + length text.now }
    ensures got { got (L.dialogue link.new) ≡ got (L.dialogue link.old) }
    ensures grows { Grows (L.dialogue link.old) (L.dialogue link.new) }
    ensures pieces { SendsOn (L.dialogue link.old) (L.dialogue link.new) }
    ensures cause { HasCause LinkFault.Failed (L.faults link.old) (L.faults link.new) result }
    ensures fixed { L.steady link.new ≡ L.steady link.old }
    ensures steady { IsTrue (L.steady link.old) → L.faults link.old ≡ 0 → IsCalm LinkFault.Failed (L.faults link.old) (L.faults link.new) result }
{
    let mut done = 0;
    while done < text.len() {
        done += link.send(alloc, &text[done..])?;
    }
    Ok(())
}

/// Puts all of a text.
///
/// # Errors
/// `Failed` where the sink fails; a beginning of the text may be put.
pub fn put_all<K: Sink>(out: &mut K, text: &[u8]) -> Result<(), PutFault>
    ensures taken { PutsSome text.now (K.taken out.old) (K.taken out.new) result }
    ensures calm { OnOk result (K.faults out.new ≡ K.faults out.old) }
    ensures cause { HasCause PutFault.Failed (K.faults out.old) (K.faults out.new) result }
{
    let mut done = 0;
    while done < text.len() {
        done += out.put(&text[done..])?;
    }
    Ok(())
}

/// Puts all of a text.
///
/// # Errors
/// `Failed` where a put fails; a beginning of the text may be put.
pub fn say_all<D: Duplex>(ends: &mut D, text: &[u8]) -> Result<(), PutFault>
    ensures says { SaysSome text.now (D.taken ends.old) (D.taken ends.new) (D.dialogue ends.old) (D.dialogue ends.new) result }
    ensures calm { OnOk result (D.put_faults ends.new ≡ D.put_faults ends.old) }
    ensures cause { HasCause PutFault.Failed (D.put_faults ends.old) (D.put_faults ends.new) result }
    ensures given { D.given ends.new ≡ D.given ends.old }
    ensures end { D.at_end ends.new ≡ D.at_end ends.old }
    ensures reads { D.read_faults ends.new ≡ D.read_faults ends.old }
    ensures names { D.names ends.new ≡ D.names ends.old }
{
    let mut done = 0;
    while done < text.len() {
        done += ends.put(&text[done..])?;
    }
    Ok(())
}
