// The next item that a child gives.
ghost use Rattle.std.specs.Prelude.{◌≡◌, ◌≤◌, ◌<◌, ◌++◌, length, drop, take, OnOk, IfOk, IfErr, Ok, Err, true, false, ℕ, List};
ghost use Rattle.vx_ends.specs.Dialogue.{sent, got, Grows, GetsOn};
ghost use Rattle.vx_ends.specs.Causes.{HasCause};
ghost use Rattle.vx_sexp.specs.Pieces.{EndsAt, Reached};
ghost use Rattle.vx_dialogue.specs.Items.{longest, IsItem, Keeps, ReadsItem, IsNoExpression, IsOpenYet, TellsNoItem, IsUnlawful, TellsNoReply, GivesNoItem, GivesNoReply, without_blanks, kept_of, is_lawful};
ghost use Rattle.vx_dialogue.specs.Steady.{IsSteady, Owes};
ghost use Rattle.vx_smt_meaning.specs.Replies.{is_word_item, is_headed_by, is_refusal, answer_of};

use crate::Talk;
use std::alloc::{AllocError, Global};
use vx_ends::Link;
use vx_sexp::{Bytes, Kind, Reading, Sexp, SexpFault, Token, blank, read};
use vx_smt_meaning::Reply;

/// The most bytes of an item, with the blanks before it.
pub const LONGEST: usize = 16_777_216;

/// The most bytes that are got at once at first; then as many as are there already.
const PIECE: usize = 4096;

#[tactic(auto, using(std::proofs::lemmas::List::take_all))]
fn copy_front(alloc: Global, bytes: &[u8], most: usize) -> Result<Bytes, AllocError>
    ensures { IfOk result (λ k. k ≡ take most bytes.now) }
{
    if bytes.len() <= most {
        Bytes::copy(alloc, bytes)
    } else {
        Bytes::copy(alloc, &bytes[..most])
    }
}

fn trimmed(bytes: &[u8]) -> &[u8]
    ensures { result.now ≡ without_blanks bytes.now }
{
    for i in 0..bytes.len() {
        if !blank(bytes[i]) {
            return &bytes[i..];
        }
    }
    &bytes[bytes.len()..]
}

// the bytes that are kept of what is no lawful reply
fn kept(alloc: Global, bytes: &[u8]) -> Result<Bytes, AllocError>
    ensures { IfOk result (λ k. k ≡ kept_of bytes.now) }
{
    copy_front(alloc, trimmed(bytes), 4096)
}

// the item that the bytes begin with
fn whole_item(alloc: Global, bytes: &[u8]) -> Result<(Sexp, usize), Talk>
    requires { (end : ℕ) × EndsAt end bytes.now × (end ≤ longest) }
    ensures item { IfOk result (λ x. (x.1 ≤ length bytes.now) × IsItem bytes.now x.0 (drop x.1 bytes.now)) }
    ensures want { IfErr result (λ talk. talk ≡ Talk.Want) }
{
    match read(alloc, bytes) {
        Ok(found) => Ok(found),
        Err(SexpFault::Want) => Err(Talk::Want),
        Err(SexpFault::Unfinished(_)) => unreachable!(),
        Err(SexpFault::BadToken(_)) => unreachable!(),
        Err(SexpFault::Deep(_)) => unreachable!(),
    }
}

// what is told of bytes that begin with no expression
fn garbled(alloc: Global, bytes: &[u8]) -> Talk
    requires { IsNoExpression bytes.now }
    ensures { TellsNoItem result bytes.now }
{
    match kept(alloc, bytes) {
        Ok(kept) => Talk::Garbled(kept),
        Err(_) => Talk::Want,
    }
}

// what is told of bytes that begin with an expression which is too long; it ends here
fn too_long(alloc: Global, bytes: &[u8], end: usize) -> Talk
    requires ends { EndsAt end bytes.now }
    requires long { longest < end }
    ensures { TellsNoItem result bytes.now }
{
    match kept(alloc, &bytes[..end]) {
        Ok(kept) => Talk::Garbled(kept),
        Err(_) => Talk::Want,
    }
}

/// Whether the first item of what is not read yet is whole. No is answered only where it can still become so. How long it may be
/// doesn't go by the pieces that it comes in.
fn is_whole(alloc: Global, reading: &mut Reading, unread: &[u8]) -> Result<bool, Talk>
    requires { Reached reading.old unread.now }
    ensures whole { result ≡ Ok true → (end : ℕ) × EndsAt end unread.now × (end ≤ longest) }
    ensures open { result ≡ Ok false → IsOpenYet unread.now × ((more : List ℕ) → Reached reading.new (unread.now ++ more)) }
    ensures none { IfErr result (λ talk. TellsNoItem talk unread.now) }
{
    match reading.go_on(unread) {
        Ok(end) => {
            if end > LONGEST {
                Err(too_long(alloc, unread, end))
            } else {
                Ok(true)
            }
        }
        Err(SexpFault::Unfinished(_)) => {
            if unread.len() > LONGEST {
                Err(garbled(alloc, unread))
            } else {
                Ok(false)
            }
        }
        Err(SexpFault::BadToken(_)) => Err(garbled(alloc, unread)),
        Err(SexpFault::Deep(_)) => Err(garbled(alloc, unread)),
        Err(SexpFault::Want) => Err(Talk::Want),
    }
}

/// Gets more of what is not read yet.
fn get_more<L: Link>(alloc: Global, link: &mut L, unread: &mut Vec<u8>) -> Result<(), Talk>
    ensures keeps { OnOk result (Keeps (got (L.dialogue link.old)) unread.old.items (got (L.dialogue link.new)) unread.new.items) }
    ensures longer { OnOk result (length unread.old.items < length unread.new.items) }
    ensures none { IfErr result (λ talk. IsOpenYet unread.old.items → GivesNoItem talk (got (L.dialogue link.old)) unread.old.items (got (L.dialogue link.new))) }
    ensures pieces { GetsOn (L.dialogue link.old) (L.dialogue link.new) }
    ensures cause { HasCause Talk.Pipe (L.faults link.old) (L.faults link.new) result }
    ensures steady { IsOpenYet unread.old.items → IsSteady L.steady L.faults link.old → Owes 1 (L.dialogue link.old) unread.old.items → IsSteady L.steady L.faults link.new }
{
    let piece = link.receive(alloc, unread.len().max(PIECE))?;
    unread.extend_from_slice(&piece)?;
    Ok(())
}

/// The first item of what is not read yet, and how many bytes it takes; more is got until it is whole.
pub fn next_item<L: Link>(
    alloc: Global,
    link: &mut L,
    unread: &mut Vec<u8>,
) -> Result<(Sexp, usize), Talk>
    ensures item { IfOk result (λ x. (x.1 ≤ length unread.new.items) × IsItem unread.new.items x.0 (drop x.1 unread.new.items)) }
    ensures keeps { OnOk result (Keeps (got (L.dialogue link.old)) unread.old.items (got (L.dialogue link.new)) unread.new.items) }
    ensures fault { IfErr result (λ talk. GivesNoItem talk (got (L.dialogue link.old)) unread.old.items (got (L.dialogue link.new))) }
    ensures sent { sent (L.dialogue link.new) ≡ sent (L.dialogue link.old) }
    ensures grows { Grows (L.dialogue link.old) (L.dialogue link.new) }
    ensures pieces { GetsOn (L.dialogue link.old) (L.dialogue link.new) }
    ensures cause { HasCause Talk.Pipe (L.faults link.old) (L.faults link.new) result }
    ensures steady { IsSteady L.steady L.faults link.old → Owes 1 (L.dialogue link.old) unread.old.items → IsSteady L.steady L.faults link.new }
{
    let mut reading = Reading::new();
    'reading: loop {
        match is_whole(alloc, &mut reading, unread) {
            Ok(true) => return whole_item(alloc, unread),
            Ok(false) => get_more(alloc, link, unread)?,
            Err(talk) => return Err(talk),
        }
    }
}

/// What reply is wanted.
#[derive(Clone, Copy)]
pub enum Wanted {
    Success,
    Answer,
    Proof,
}

pub fn is_word(tokens: &[Token], text: &[u8]) -> bool
    ensures { result ≡ is_word_item text.now tokens.now }
{
    match tokens {
        [Token::Atom(Kind::Symbol, bytes)] => bytes.as_slice() == text,
        _ => false,
    }
}

fn is_headed(tokens: &[Token], text: &[u8]) -> bool
    ensures { result ≡ is_headed_by text.now tokens.now }
{
    match tokens {
        [Token::Open, Token::Atom(Kind::Symbol, bytes), ..] => bytes.as_slice() == text,
        _ => false,
    }
}

#[tactic(auto, unfolding(vx_smt_meaning::specs::Replies::is_refusal))]
fn refuses(tokens: &[Token]) -> bool
    ensures { result ≡ is_refusal tokens.now }
{
    is_word(tokens, b"unsupported") || is_headed(tokens, b"error")
}

/// The answer that an item is.
pub fn answer(tokens: &[Token]) -> Option<Reply>
    ensures { result ≡ answer_of tokens.now }
{
    match tokens {
        [Token::Atom(Kind::Symbol, bytes)] => Reply::of(bytes.as_slice()),
        _ => None,
    }
}

#[tactic(auto, unfolding(crate::specs::Items::is_lawful))]
fn allows(wanted: Wanted, tokens: &[Token]) -> bool
    ensures { result ≡ is_lawful wanted tokens.now }
{
    match wanted {
        Wanted::Success => is_word(tokens, b"success"),
        Wanted::Answer => answer(tokens).is_some(),
        Wanted::Proof => !refuses(tokens),
    }
}

// what is told of bytes that begin with an item which is no lawful reply
fn unlawful(alloc: Global, bytes: &[u8], is_refusal: bool) -> Talk
    ensures { IsUnlawful result is_refusal (kept_of bytes.now) }
{
    match kept(alloc, bytes) {
        Ok(kept) => {
            if is_refusal {
                Talk::Refused(kept)
            } else {
                Talk::Garbled(kept)
            }
        }
        Err(_) => Talk::Want,
    }
}

/// Takes the item that the bytes begin with, if it is a lawful reply. It ends here.
fn take_lawful(
    alloc: Global,
    unread: &mut Vec<u8>,
    wanted: Wanted,
    item: Sexp,
    end: usize,
) -> Result<Sexp, Talk>
    requires { (end ≤ length unread.old.items) × IsItem unread.old.items item (drop end unread.old.items) }
    ensures item { IfOk result (λ item. IsItem unread.old.items item unread.new.items × (is_lawful wanted item ≡ true)) }
    ensures none { IfErr result (λ talk. TellsNoReply talk wanted unread.old.items) }
{
    if allows(wanted, item.tokens()) {
        let rest = unread[end..].to_vec(alloc)?;
        *unread = rest;
        return Ok(item);
    }
    Err(unlawful(alloc, &unread[..end], refuses(item.tokens())))
}

/// Reads the next item, a lawful reply.
pub fn expect<L: Link>(
    alloc: Global,
    link: &mut L,
    unread: &mut Vec<u8>,
    wanted: Wanted,
) -> Result<Sexp, Talk>
    ensures item { IfOk result (λ item. ReadsItem (got (L.dialogue link.old)) unread.old.items (got (L.dialogue link.new)) unread.new.items item × (is_lawful wanted item ≡ true)) }
    ensures fault { IfErr result (λ talk. GivesNoReply talk wanted (got (L.dialogue link.old)) unread.old.items (got (L.dialogue link.new))) }
    ensures sent { sent (L.dialogue link.new) ≡ sent (L.dialogue link.old) }
    ensures grows { Grows (L.dialogue link.old) (L.dialogue link.new) }
    ensures pieces { GetsOn (L.dialogue link.old) (L.dialogue link.new) }
    ensures cause { HasCause Talk.Pipe (L.faults link.old) (L.faults link.new) result }
    ensures open { result ≡ Err Talk.Closed → ⊥ }
    ensures steady { IsSteady L.steady L.faults link.old → Owes 1 (L.dialogue link.old) unread.old.items → IsSteady L.steady L.faults link.new }
{
    let (item, end) = match next_item(alloc, link, unread) {
        Ok(found) => found,
        Err(talk) => return Err(talk),
    };
    take_lawful(alloc, unread, wanted, item, end)
}
