// Child processes behind pipes.
ghost use Rattle.std.specs.Prelude.{◌≡◌, ℕ, ◌+◌, ◌≤◌, ◌==◌, [], vec_len, vec_capacity, count_by, false, length, IfOk};
ghost use Rattle.vx_edge.specs.Ahead.{Grows};

use crate::ahead::Ahead;
use libc::net::{POLLIN, POLLOUT, poll};
use libc::types::pollfd;
use os::set_nonblocking;
use std::alloc::{AllocError, Global};
use std::cell::Cell;
use std::io;
use std::io::{ErrorKind, Read, Write};
use std::os::fd::{AsRawFd, RawFd};
use std::process::{Child, Command, OpenProcess, Processes, Stdio};
use std::rc::Rc;
use vx_ends::{Ending, Link, LinkFault, Parts, Record, Spawner, Start, StartFault, remove_once};

// A child process of the system.
type Process = <HostRuntime as Processes>::Started;

type Input = <Process as OpenProcess>::Stdin;

type Output = <Process as OpenProcess>::Stdout;

/// The pipes to one child. Its record is what it gave to the child's `write` and got from its `read`; a piece takes no
/// more room than its bytes. What was read ahead is recorded where it is got.
pub struct ChildLink {
    child: Child<Process>,
    // a write to it doesn't wait
    input: Input,
    output: Output,
    ahead: Ahead,
    pieces: Record,
    faults: u64,
}

impl ChildLink {
    // Writes some of a piece. As long as the child takes none, what it writes is read ahead. None is written where a pipe fails,
    // and where the child takes none and its output ends, or as much is read ahead as may be.
    #[tactic(auto, using(crate::proofs::Aheads::grows_none, crate::proofs::Aheads::grows_on))]
    fn put(&mut self, piece: &[u8]) -> Result<usize, AllocError>
        ensures within { IfOk result (λ count. count ≤ length piece.now) }
        ensures ahead { Grows self.old.ahead self.new.ahead }
        ensures pieces { self.new.pieces ≡ self.old.pieces }
        ensures faults { self.new.faults ≡ self.old.faults }
    {
        for _ in 0..u64::MAX {
            match self.input.write(piece) {
                Ok(count) => return Ok(count),
                Err(error) if error.kind() == ErrorKind::WouldBlock => {}
                Err(_) => break,
            }
            if !self.wait_for_input()? {
                break;
            }
        }
        Ok(0)
    }

    // Waits until the child's input may take some, or some of its output is there, which is read ahead. Whether either can be.
    #[tactic(auto, using(crate::proofs::Aheads::grows_none))]
    fn wait_for_input(&mut self) -> Result<bool, AllocError>
        ensures ahead { Grows self.old.ahead self.new.ahead }
        ensures pieces { self.new.pieces ≡ self.old.pieces }
        ensures faults { self.new.faults ≡ self.old.faults }
    {
        if !is_output_first(&self.input, &self.output) {
            return Ok(true);
        }
        self.ahead.make_room()?;
        Ok(self.ahead.read(&mut self.output, usize::MAX) > 0)
    }

    // Reads, at most so many bytes, where none are there. None are then at the end of the output, or where reading fails.
    #[tactic(auto, using(crate::proofs::Aheads::grows_none))]
    fn fill(&mut self, max: usize) -> Result<(), AllocError>
        ensures ahead { Grows self.old.ahead self.new.ahead }
        ensures pieces { self.new.pieces ≡ self.old.pieces }
        ensures faults { self.new.faults ≡ self.old.faults }
    {
        if self.ahead.bytes().is_empty() {
            self.ahead.make_room()?;
            self.ahead.read(&mut self.output, max);
        }
        Ok(())
    }
}

impl Link for ChildLink {
    ghost dialogue = { λ l. l.pieces };

    ghost faults = { λ l. l.faults };

    ghost steady = { λ _. false };

    fn send(&mut self, _alloc: Global, piece: &[u8]) -> Result<usize, LinkFault> {
        if self.faults > 0 {
            self.faults = self.faults.saturating_add(1);
            return Err(LinkFault::Failed);
        }
        self.pieces.push_sent(piece)?;
        let put = self.put(piece);
        self.pieces.cut_last(put.unwrap_or(0));
        let Ok(count) = put else {
            return Err(LinkFault::Want);
        };
        if count > 0 {
            return Ok(count);
        }
        self.faults = self.faults.saturating_add(1);
        Err(LinkFault::Failed)
    }

    fn receive(&mut self, alloc: Global, max: usize) -> Result<Vec<u8>, LinkFault> {
        if self.faults == 0 {
            self.fill(max)?;
            let bytes = self.ahead.bytes();
            let count = bytes.len().min(max);
            if count > 0 {
                let piece = bytes[..count].to_vec(alloc)?;
                self.pieces.push_got(&piece)?;
                self.ahead.take(count);
                return Ok(piece);
            }
        }
        self.faults = self.faults.saturating_add(1);
        Err(LinkFault::Failed)
    }
}

// A link that is out: its lane, the output of its child, and whether bytes of that are read ahead.
#[derive(Drop)]
struct Out {
    lane: u32,
    fd: RawFd,
    is_ahead: Rc<Cell<bool>>,
}

// So many outputs are looked at, at once.
const MOST: usize = 16;

// So many milliseconds are waited, at most.
const LONGEST: i32 = 1_000;

// A descriptor that is asked whether this can be done with it.
fn asked(fd: RawFd, events: i16) -> pollfd {
    pollfd {
        fd,
        events,
        revents: 0,
    }
}

// Waits, but not for ever, until one of both pipes is ready, or has failed. Whether that is the output and not the input.
fn is_output_first(input: &Input, output: &Output) -> bool {
    let mut both = [
        asked(input.as_raw_fd(), POLLOUT),
        asked(output.as_raw_fd(), POLLIN),
    ];
    let _ = poll(&mut both, LONGEST);
    both[0].revents == 0 && both[1].revents != 0
}

/// Starts child processes, with piped standard input and output.
#[derive(Drop)]
pub struct ChildSpawner<'a> {
    processes: &'a HostRuntime,
    starts: Vec<Start>,
    // the lane of each link that is out
    lanes_out: Vec<u32>,
    out: Vec<Out>,
    ended: Vec<Ending>,
    faults: u64,
    ghost room: { vec_len ended + vec_len lanes_out ≤ vec_capacity ended },
}

impl<'a> ChildSpawner<'a> {
    /// Nothing is started yet. No memory.
    pub fn new(alloc: Global, processes: &'a HostRuntime) -> ChildSpawner<'a>
        ensures starts { result.starts.items ≡ [] }
        ensures out { result.lanes_out.items ≡ [] }
        ensures ended { result.ended.items ≡ [] }
        ensures faults { result.faults ≡ 0 }
    {
        ChildSpawner {
            processes,
            starts: Vec::new(alloc),
            lanes_out: Vec::new(alloc),
            out: Vec::new(alloc),
            ended: Vec::new(alloc),
            faults: 0,
        }
    }
}

// A child and both its pipes. A write to its input doesn't wait.
#[derive(Drop)]
struct Piped {
    child: Child<Process>,
    input: Input,
    output: Output,
}

// Starts a child that runs this command.
fn spawn(alloc: Global, processes: &HostRuntime, command: &Parts) -> io::Result<Child<Process>> {
    if command.len() == 0 {
        return Err(io::Error::from(ErrorKind::InvalidInput));
    }
    let mut started = Command::new(alloc, command.part(0))?;
    for i in 1..command.len() {
        started.arg(command.part(i))?;
    }
    started
        .stdin(Stdio::piped())
        .stdout(Stdio::piped())
        .stderr(Stdio::null())
        .spawn(processes)
}

// Starts a child that runs this command, and takes its pipes. Where they can't be had the child is ended.
fn spawn_piped(alloc: Global, processes: &HostRuntime, command: &Parts) -> io::Result<Piped> {
    let mut child = spawn(alloc, processes, command)?;
    if let Some(input) = child.stdin.take()
        && let Some(output) = child.stdout.take()
        && set_nonblocking(input.as_raw_fd(), true) == 0
    {
        return Ok(Piped {
            child,
            input,
            output,
        });
    }
    let _ = child.kill();
    let _ = child.wait();
    Err(io::Error::from(ErrorKind::Other))
}

impl Spawner for ChildSpawner<'_> {
    type Link = ChildLink;

    ghost starts = { λ s. s.starts.items };

    ghost owed = { λ s lane. count_by (λ other. other == lane) s.lanes_out.items };

    ghost ended = { λ s. s.ended.items };

    ghost faults = { λ s. s.faults };

    ghost steady = { λ _. false };

    fn start(
        &mut self,
        alloc: Global,
        lane: u32,
        command: &Parts,
    ) -> Result<ChildLink, StartFault> {
        let kept = command.copy(alloc)?;
        self.lanes_out.reserve(1)?;
        let room = self.lanes_out.len() + 1;
        self.ended.reserve(room)?;
        self.starts.reserve(1)?;
        self.out.reserve(1)?;
        let ahead = Ahead::new(alloc)?;
        let is_ahead = ahead.watch()?;
        let piped = spawn_piped(alloc, self.processes, command);
        if let Err(error) = &piped
            && error.kind() == ErrorKind::OutOfMemory
        {
            return Err(StartFault::Want);
        }
        match self.starts.push(Start {
            lane,
            command: kept,
        }) {
            Ok(()) => {}
            Err(_) => unreachable!(),
        }
        let Ok(
            Piped {
                child,
                input,
                output,
            },
        ) = piped
        else {
            self.faults = self.faults.saturating_add(1);
            return Err(StartFault::Failed);
        };
        let fd = output.as_raw_fd();
        match self.out.push(Out { lane, fd, is_ahead }) {
            Ok(()) => {}
            Err(_) => unreachable!(),
        }
        match self.lanes_out.push(lane) {
            Ok(()) => Ok(ChildLink {
                child,
                input,
                output,
                ahead,
                pieces: Record::new(alloc),
                faults: 0,
            }),
            Err(_) => unreachable!(),
        }
    }

    fn finish(&mut self, lane: u32, link: ChildLink) {
        remove_once(&mut self.lanes_out, lane);
        let ChildLink {
            mut child,
            input,
            output,
            ahead: _,
            pieces,
            faults,
        } = link;
        let fd = output.as_raw_fd();
        self.out.retain(|it| it.fd != fd);
        drop(input);
        let _ = child.kill();
        drop(output);
        let _ = child.wait();
        let ending = Ending {
            lane,
            dialogue: pieces,
            faults,
        };
        match self.ended.push(ending) {
            Ok(()) => {}
            Err(_) => unreachable!(),
        }
    }

    fn is_ready(&self, lane: u32) -> bool {
        let Some(out) = self.out.iter().find(|it| it.lane == lane) else {
            return false;
        };
        out.is_ahead.get() || poll(&mut [asked(out.fd, POLLIN)], 0) > 0
    }

    fn wait(&self) {
        let is_ahead = self.out.iter().any(|it| it.is_ahead.get());
        if is_ahead || self.out.is_empty() || self.out.len() > MOST {
            return;
        }
        let mut all = [asked(-1, POLLIN); MOST];
        for (place, out) in all.iter_mut().zip(&self.out) {
            place.fd = out.fd;
        }
        let _ = poll(&mut all, LONGEST);
    }
}
