//! From the bytes of a text to its tokens.
#![tactic(auto)]

mod lexed;
mod next;
mod token;

pub use lexed::{Ending, Lexed, MAX_TEXT, end_of, lex};
pub use token::{Kind, Symbol, Token, Word};
