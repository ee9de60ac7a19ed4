//! The companion solver as a program: it serves standard input, and ends with the status. Its words are not looked at.
#![tactic(auto)]

use cs_serve::serve_both;
use std::process::ExitCode;
use vx_edge::{StdSink, StdSource};
use vx_ends::Pair;

fn main(rt: HostRuntime) -> ExitCode {
    let mut ends = Pair {
        input: &mut StdSource::new(rt.stdin()),
        out: &mut StdSink::new(rt.stdout()),
    };
    ExitCode::from(serve_both(rt.alloc(), &mut ends))
}
