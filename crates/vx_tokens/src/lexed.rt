//! All tokens of a text.

ghost use Rattle.std.specs.Prelude.{◌≡◌, ◌≤◌, ◌<◌, ◌^◌, ◌+◌, length, IfOk, List};
ghost use Rattle.std.specs.List.{AllByRecursion};
ghost use Rattle.vx_tokens.specs.Text.{after, first_place, unmarked, Scans, Ending as End};
ghost use Rattle.vx_tokens.specs.Standing.{TokenAt};
ghost use Rattle.vx_tokens.specs.Scanning.{scan};
ghost use Rattle.vx_tokens.specs.Views.{lexed_of, ending_of};
ghost use Rattle.vx_tokens.specs.Tokens.{kind_of, tokens_in, Token as Tok};

use crate::next::{Next, front};
use crate::token::Token;
use std::alloc::{AllocError, Global};
use vx_ast::Place;

/// The longest text that is read, in bytes.
pub const MAX_TEXT: usize = 4194304;

/// How a text goes on behind its last token.
#[derive(Clone, Copy)]
pub enum Ending {
    AtEnd(Place),
    WideLiteral(Place),
    BadCharacter(Place),
    /// A block comment does not end. The place is that of the text's end.
    OpenComment(Place),
}

/// The tokens of a text, up to its end or to its first fault.
#[derive(Drop)]
pub struct Lexed<'t> {
    pub tokens: Vec<Token<'t>>,
    pub ending: Ending,
}

// The place after the bytes.
fn after(place: Place, bytes: &[u8]) -> Place
    requires line { place.line + length bytes.now < 2 ^ 32 }
    requires column { place.column + length bytes.now < 2 ^ 32 }
    ensures line { result.line ≤ place.line + length bytes.now }
    ensures column { result.column ≤ place.column + length bytes.now }
    ensures value { result ≡ after place bytes.now }
{
    let mut place = place;
    for byte in bytes {
        if *byte == b'\n' {
            place = Place {
                line: place.line + 1,
                column: 1,
            };
        } else if *byte < 128 || 192 <= *byte {
            place = Place {
                line: place.line,
                column: place.column + 1,
            };
        }
    }
    place
}

// What follows U+FEFF at the start.
fn unmarked(text: &[u8]) -> &[u8]
    ensures short { length result.now ≤ length text.now }
    ensures value { result.now ≡ unmarked text.now }
{
    match text {
        [239, 187, 191, rest @ ..] => rest,
        _ => text,
    }
}

/// The place behind the text, where its first token would stand at line 1 and column 1.
pub fn end_of(text: &[u8]) -> Place
    requires { length text.now ≤ 4194304 }
    ensures { result ≡ after first_place (unmarked text.now) }
{
    after(Place { line: 1, column: 1 }, unmarked(text))
}

/// The tokens of a text, and how it goes on behind them.
pub fn lex<'t>(alloc: Global, text: &'t [u8]) -> Result<Lexed<'t>, AllocError>
    requires { length text.now ≤ 4194304 }
    // The text is made of these tokens, and then goes on so.
    ensures scans { IfOk result (λ l. Scans first_place (unmarked text.now) (tokens_in l.tokens.items) (ending_of l.ending)) }
    // It is made of no others.
    ensures only { IfOk result (λ l. (ts : List Tok) (e : End) → Scans first_place (unmarked text.now) ts e → (tokens_in l.tokens.items ≡ ts) × (ending_of l.ending ≡ e)) }
    // Each token's text is what spells it at its place.
    ensures texts { IfOk result (λ l. AllByRecursion (λ t. TokenAt (unmarked text.now) t.place (kind_of t.kind) t.text.now) l.tokens.items) }
{
    scanned(alloc, unmarked(text))
}

fn scanned<'t>(alloc: Global, text: &'t [u8]) -> Result<Lexed<'t>, AllocError>
    requires { length text.now ≤ 4194304 }
    ensures scanned { IfOk result (λ l. lexed_of l ≡ scan 0 first_place text.now) }
    ensures texts { IfOk result (λ l. AllByRecursion (λ t. TokenAt text.now t.place (kind_of t.kind) t.text.now) l.tokens.items) }
{
    let mut tokens = Vec::new(alloc);
    let mut place = Place { line: 1, column: 1 };
    let mut rest = text;
    loop {
        let len = match front(rest) {
            Next::Finish => return Ok(Lexed {
                tokens,
                ending: Ending::AtEnd(place),
            }),
            Next::Pass(len) => len,
            Next::Found(kind, len) => {
                let text = &rest[..len];
                tokens.push(Token { kind, place, text })?;
                len
            }
            Next::Wide(_) => return Ok(Lexed {
                tokens,
                ending: Ending::WideLiteral(place),
            }),
            Next::Unclosed => {
                let ending = Ending::OpenComment(after(place, rest));
                return Ok(Lexed { tokens, ending });
            }
            Next::Bad => return Ok(Lexed {
                tokens,
                ending: Ending::BadCharacter(place),
            }),
        };
        let (passed, more) = rest.split_at(len);
        place = after(place, passed);
        rest = more;
    }
}
