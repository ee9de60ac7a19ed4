//! Why a text is no program.

ghost use Rattle.std.specs.Prelude.{◌≡◌, option_copied};
ghost use Rattle.vx_parser.specs.Faults.{place_of, code_of, name_of, argument_of};
ghost use Rattle.vx_parser.specs.declared.fault.TextFault.TheVariants.{Want};

use std::alloc::{AllocError, AllocFailed};
use thiserror::Error;
use vx_ast::Place;

/// Why a text is no program, and where. Memory may also run out.
#[derive(Debug, Error, Drop)]
pub enum TextFault {
    /// The first byte that belongs to no character.
    #[error("not UTF-8")]
    NotUtf8(Place),
    /// A character that begins no token.
    #[error("bad character")]
    BadCharacter(Place),
    /// A token where no program goes on with it, and its text.
    #[error("unexpected {1}")]
    Unexpected(Place, String),
    /// The text, or a block comment, ends too early.
    #[error("end of text")]
    EndOfText(Place),
    /// A numeral above 2^127 - 1.
    #[error("wide literal")]
    WideLiteral(Place),
    /// A token that nests deeper than 200.
    #[error("too deep")]
    TooDeep(Place),
    /// A text of more than 4,194,304 bytes.
    #[error("too long")]
    TooLong,
    /// Member 65,537.
    #[error("too many members")]
    TooManyMembers(Place),
    /// A word or sign of Viper that this language leaves out, where no program goes on with it.
    #[error("unsupported {1}")]
    Unsupported(Place, String),
    /// Memory ran out.
    #[error("want of memory")]
    Want,
}

impl TextFault {
    /// Where the fault stands: 1:1 where it stands nowhere.
    pub fn place(&self) -> Place
        ensures { result ≡ place_of self.now }
    {
        match self {
            TextFault::NotUtf8(place)
            | TextFault::BadCharacter(place)
            | TextFault::Unexpected(place, _)
            | TextFault::EndOfText(place)
            | TextFault::WideLiteral(place)
            | TextFault::TooDeep(place)
            | TextFault::TooManyMembers(place)
            | TextFault::Unsupported(place, _) => *place,
            TextFault::TooLong | TextFault::Want => Place { line: 1, column: 1 },
        }
    }

    /// The code that is printed: `E01` to `E09`. Want of memory has none.
    pub fn code(&self) -> &'static str
        ensures { result.now ≡ code_of self.now }
    {
        match self {
            TextFault::NotUtf8(_) => "E01",
            TextFault::BadCharacter(_) => "E02",
            TextFault::Unexpected(_, _) => "E03",
            TextFault::EndOfText(_) => "E04",
            TextFault::WideLiteral(_) => "E05",
            TextFault::TooDeep(_) => "E06",
            TextFault::TooLong => "E07",
            TextFault::TooManyMembers(_) => "E08",
            TextFault::Unsupported(_, _) => "E09",
            TextFault::Want => "",
        }
    }

    /// The name that is printed behind the code.
    pub fn name(&self) -> &'static str
        ensures { result.now ≡ name_of self.now }
    {
        match self {
            TextFault::NotUtf8(_) => "NotUtf8",
            TextFault::BadCharacter(_) => "BadCharacter",
            TextFault::Unexpected(_, _) => "Unexpected",
            TextFault::EndOfText(_) => "EndOfText",
            TextFault::WideLiteral(_) => "WideLiteral",
            TextFault::TooDeep(_) => "TooDeep",
            TextFault::TooLong => "TooLong",
            TextFault::TooManyMembers(_) => "TooManyMembers",
            TextFault::Unsupported(_, _) => "Unsupported",
            TextFault::Want => "Want",
        }
    }

    /// The token's text, which is printed behind the name.
    pub fn argument(&self) -> Option<&str>
        ensures { option_copied result ≡ argument_of self.now }
    {
        match self {
            TextFault::Unexpected(_, text) | TextFault::Unsupported(_, text) => Some(text.as_str()),
            _ => None,
        }
    }
}

impl From<AllocError> for TextFault {
    ghost from_gives = { λ _ e. e ≡ Want };

    fn from(_e: AllocError) -> TextFault {
        TextFault::Want
    }
}

impl<T: Drop> From<AllocFailed<T>> for TextFault {
    ghost from_gives = { λ _ e. e ≡ Want };

    fn from(_e: AllocFailed<T>) -> TextFault {
        TextFault::Want
    }
}
