//! A row: what is asked, and of which text.

use std::alloc::{AllocError, Global};
use std::mem;
use vx_ends::{Bytes, Parts, Script};
use vx_rules::Reply;

/// What a row asks.
#[derive(Clone, Copy)]
pub enum Asks {
    /// What the program puts, and how it ends.
    Run,
    /// How many questions the program asks.
    Checks,
    /// In which lane each member is verified, which of the lane's checks are its own, and its verdict.
    Runs,
    /// The same where the row says whose turn it is, and how many lanes waited each time.
    Turns,
    /// How the text is read.
    Parse,
    /// The lengths at which the beginning of the text is a program.
    Beginnings,
    /// What two machines on a member of the program ask, and how they end.
    Machines,
    /// What the words mean.
    Order,
    /// What the words stand for as names of the program's members.
    Names,
    /// How much the file holds that the words name.
    File,
    /// What a child process, started by the words, answers to the text.
    Child,
    /// What the companion answers to the text.
    Companion,
    /// What the solver's child is sent behind the preamble.
    Sent,
    /// Which members of the graph lead to which that the text tells.
    Graph,
    /// The fraction of the text, or what is reckoned with two.
    Fraction,
    /// How the text's first s-expression is read.
    Sexp,
}

/// By whom questions are answered.
#[derive(Clone, Copy)]
pub enum Solver {
    /// By the row's replies.
    Script,
    /// By a child process.
    Process,
}

/// A step of one of two machines that execute the same member, with the reply to its open question, if it has one.
#[derive(Clone, Copy)]
pub struct Step {
    pub other: bool,
    pub reply: Reply,
}

// A script of its own with these replies and failing calls.
fn copied(alloc: Global, replies: &[Bytes], fails: &[u64]) -> Result<Script, AllocError> {
    let mut own = Vec::new(alloc);
    for reply in replies {
        own.push(Bytes::copy(alloc, reply.as_slice())?)?;
    }
    Ok(Script {
        replies: own,
        fails: fails.to_vec(alloc)?,
    })
}

/// A row of the table.
#[derive(Drop)]
pub struct Row {
    pub asks: Asks,
    /// The words of the command line behind the program's name; there may be no name.
    pub words: Parts,
    pub has_name: bool,
    /// What standard input holds, or a file, if it is named; a row may have none.
    pub text: Vec<u8>,
    pub has_input: bool,
    pub file: Parts,
    /// How many bytes standard output takes.
    pub room: usize,
    /// Who answers; the replies of the script's last child, and the numbers of its calls that fail; and so of those before it.
    pub solver: Solver,
    pub replies: Vec<Bytes>,
    pub fails: Vec<u64>,
    pub earlier: Vec<Script>,
    /// Whose turn it is among those that wait.
    pub turns: Vec<usize>,
    /// The number of the machines' member, the most questions of a machine, and their steps.
    pub member: u32,
    pub limit: u32,
    pub steps: Vec<Step>,
}

impl Row {
    /// A row in which nothing is said yet.
    pub fn new(alloc: Global) -> Row {
        Row {
            asks: Asks::Run,
            words: Parts::new(alloc),
            has_name: true,
            text: Vec::new(alloc),
            has_input: true,
            file: Parts::new(alloc),
            room: 65536,
            solver: Solver::Script,
            replies: Vec::new(alloc),
            fails: Vec::new(alloc),
            earlier: Vec::new(alloc),
            turns: Vec::new(alloc),
            member: 0,
            limit: 100_000,
            steps: Vec::new(alloc),
        }
    }

    /// The words of the command line, the program's name first.
    ///
    /// # Errors
    /// Want of memory.
    pub fn command(&self, alloc: Global) -> Result<Parts, AllocError> {
        let mut words = Parts::new(alloc);
        if self.has_name {
            words.push(alloc, "vsil")?;
        }
        for word in self.words.texts() {
            words.push(alloc, word)?;
        }
        Ok(words)
    }

    /// What is said from now on of the script's child is said of a further one.
    ///
    /// # Errors
    /// Want of memory.
    pub fn add_child(&mut self, alloc: Global) -> Result<(), AllocError> {
        let replies = mem::replace(&mut self.replies, Vec::new(alloc));
        let fails = mem::replace(&mut self.fails, Vec::new(alloc));
        self.earlier.push(Script { replies, fails })?;
        Ok(())
    }

    /// The scripts of its children, in the order in which they are started.
    ///
    /// # Errors
    /// Want of memory.
    pub fn scripts(&self, alloc: Global) -> Result<Vec<Script>, AllocError> {
        let mut scripts = Vec::new(alloc);
        for script in &self.earlier {
            scripts.push(copied(alloc, &script.replies, &script.fails)?)?;
        }
        scripts.push(copied(alloc, &self.replies, &self.fails)?)?;
        Ok(scripts)
    }

    /// A row that asks this of a text.
    pub fn of(alloc: Global, asks: Asks, text: &str) -> Result<Row, AllocError> {
        let mut row = Row::new(alloc);
        row.asks = asks;
        row.text.extend_from_slice(text.as_bytes())?;
        Ok(row)
    }
}
