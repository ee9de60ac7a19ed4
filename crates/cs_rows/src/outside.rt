//! What a row says of the outside: replies of a child, calls of its link, turns of a dialogue, and texts by their names.

use crate::reading::term_of;
use std::alloc::{AllocError, Global};
use std::rc::Rc;
use vx_ends::{Bytes, Script};
use vx_segments::Entry;
use vx_smt_meaning::Declared;
use vx_terms::Term;

/// A call of a link.
#[derive(Drop)]
pub enum Call {
    Send(Bytes),
    Receive(usize),
}

/// A turn of a dialogue: a question, with its path and its condition, or the end of a member.
#[derive(Drop)]
pub enum Turn {
    Ask(Vec<Entry>, Rc<Term>),
    Leave,
}

/// A text, and its name where it has one.
#[derive(Drop)]
pub struct Named {
    pub name: Option<Bytes>,
    pub text: Bytes,
}

/// What the lines of a row say of the outside.
#[derive(Drop)]
pub struct Outside {
    pub replies: Vec<Bytes>,
    /// The numbers of the calls that fail.
    pub fails: Vec<u64>,
    pub calls: Vec<Call>,
    pub turns: Vec<Turn>,
    /// The path of the next question, and the segment in which its next term stands.
    pub path: Vec<Entry>,
    pub segment: u64,
    pub texts: Vec<Named>,
}

fn bytes(alloc: Global, text: &str) -> Result<Bytes, AllocError> {
    Bytes::copy(alloc, text.as_bytes())
}

impl Outside {
    /// Nothing is said yet.
    pub fn new(alloc: Global) -> Outside {
        Outside {
            replies: Vec::new(alloc),
            fails: Vec::new(alloc),
            calls: Vec::new(alloc),
            turns: Vec::new(alloc),
            path: Vec::new(alloc),
            segment: 0,
            texts: Vec::new(alloc),
        }
    }

    /// The script of a child: the replies, and the calls that fail.
    ///
    /// # Errors
    /// Want of memory.
    pub fn script(&self, alloc: Global) -> Result<Script, AllocError> {
        let mut replies = Vec::new(alloc);
        for reply in &self.replies {
            replies.push(Bytes::copy(alloc, reply.as_slice())?)?;
        }
        Ok(Script {
            replies,
            fails: self.fails.clone()?,
        })
    }

    // So many replies, each a line.
    fn add_replies(&mut self, alloc: Global, count: usize, line: &str) -> Result<(), AllocError> {
        for _ in 0..count {
            let reply = format!(in alloc; "{line}\n")?;
            self.replies.push(bytes(alloc, &reply)?)?;
        }
        Ok(())
    }

    // So many replies of one line; false: there is no number.
    fn replies(&mut self, alloc: Global, rest: &str) -> Result<bool, AllocError> {
        let Some((count, line)) = rest.split_once(' ') else {
            return Ok(false);
        };
        let Ok(count) = count.parse() else {
            return Ok(false);
        };
        self.add_replies(alloc, count, line)?;
        Ok(true)
    }

    // A call that fails; false: it is no number.
    fn fail(&mut self, rest: &str) -> Result<bool, AllocError> {
        let Ok(number) = rest.parse() else {
            return Ok(false);
        };
        self.fails.push(number)?;
        Ok(true)
    }

    // A call of the link that gets at most so many bytes.
    fn receive(&mut self, rest: &str) -> Result<bool, AllocError> {
        let Ok(max) = rest.parse() else {
            return Ok(false);
        };
        self.calls.push(Call::Receive(max))?;
        Ok(true)
    }

    // A term more in the path of the next question.
    fn follow(
        &mut self,
        alloc: Global,
        known: &[Declared],
        rest: &str,
    ) -> Result<bool, AllocError> {
        let Some(term) = term_of(alloc, known, rest)? else {
            return Ok(false);
        };
        self.path.push(Entry {
            segment: self.segment,
            term,
        })?;
        Ok(true)
    }

    // The segment of the terms that follow; false: it is no number.
    fn open(&mut self, rest: &str) -> bool {
        match rest.parse() {
            Ok(number) => {
                self.segment = number;
                true
            }
            Err(_) => false,
        }
    }

    // A question with the path so far; the next one's path begins in the first segment.
    fn ask(&mut self, alloc: Global, known: &[Declared], rest: &str) -> Result<bool, AllocError> {
        let Some(term) = term_of(alloc, known, rest)? else {
            return Ok(false);
        };
        let path = std::mem::replace(&mut self.path, Vec::new(alloc));
        self.segment = 0;
        self.turns.push(Turn::Ask(path, term))?;
        Ok(true)
    }

    // A text with a name; false: there is none.
    fn name(&mut self, alloc: Global, rest: &str) -> Result<bool, AllocError> {
        let Some((name, text)) = rest.split_once(' ') else {
            return Ok(false);
        };
        self.texts.push(Named {
            name: Some(bytes(alloc, name)?),
            text: bytes(alloc, text)?,
        })?;
        Ok(true)
    }

    // A text without a name.
    fn add_text(&mut self, alloc: Global, rest: &str) -> Result<bool, AllocError> {
        self.texts.push(Named {
            name: None,
            text: bytes(alloc, rest)?,
        })?;
        Ok(true)
    }

    // Takes a line of a child; false: it is none.
    fn take_child(&mut self, alloc: Global, word: &str, rest: &str) -> Result<bool, AllocError> {
        match word {
            "reply" => self.add_replies(alloc, 1, rest)?,
            "part" => self.replies.push(bytes(alloc, rest)?)?,
            "send" => self.calls.push(Call::Send(bytes(alloc, rest)?))?,
            "replies" => return self.replies(alloc, rest),
            "receive" => return self.receive(rest),
            "fails" => return self.fail(rest),
            _ => return Ok(false),
        }
        Ok(true)
    }

    /// Takes a line of the outside; false: it is none.
    ///
    /// # Errors
    /// Want of memory.
    pub fn take(
        &mut self,
        alloc: Global,
        known: &[Declared],
        word: &str,
        rest: &str,
    ) -> Result<bool, AllocError> {
        match word {
            "path" => self.follow(alloc, known, rest),
            "segment" => Ok(self.open(rest)),
            "ask" => self.ask(alloc, known, rest),
            "leave" => {
                self.turns.push(Turn::Leave)?;
                Ok(true)
            }
            "named" => self.name(alloc, rest),
            "unnamed" => self.add_text(alloc, rest),
            _ => self.take_child(alloc, word, rest),
        }
    }
}
