//! The program: it hands the real ends to the verifier, and ends with its status.
#![tactic(auto)]

use std::alloc::Global;
use std::io::{self, ErrorKind};
use std::process::ExitCode;
use vx_commands::run;
use vx_companion::Builtin;
use vx_edge::{ChildSpawner, DiskFiles, StdSink, command_line};
use vx_ends::Parts;
use vx_words::no_command;

// The words of the command line; where one is no UTF-8, they mean nothing.
fn words_of(rt: &HostRuntime, alloc: Global) -> io::Result<Parts> {
    match command_line(rt, alloc) {
        Err(error) if error.kind() == ErrorKind::InvalidData => Ok(no_command(alloc)?),
        read => read,
    }
}

fn main(rt: HostRuntime) -> ExitCode {
    let alloc = rt.alloc();
    let Ok(words) = words_of(&rt, alloc) else {
        return ExitCode::from(7);
    };
    let mut files = DiskFiles::new(alloc, &rt);
    let mut out = StdSink::new(rt.stdout());
    let mut spawner = ChildSpawner::new(alloc, &rt);
    let mut builtin = Builtin::new(alloc);
    let ended = run(
        alloc,
        &words,
        &mut files,
        &mut out,
        &mut spawner,
        &mut builtin,
    );
    ExitCode::from(ended.status.number())
}
