//! Runs the rows of the whole program and of its parts in a table, and then those of certificates and the script behind them, which are read from standard
//! input, and writes what came of each. `docs/ROWS.md` tells what tables and a script are made of.
#![tactic(auto)]

use std::io::Read;
use std::process::ExitCode;
use vx_edge::StdSink;
use vx_ends::put_all;
use vx_run_rows::answers_of;

fn main(rt: HostRuntime) -> ExitCode {
    let alloc = rt.alloc();
    let mut text = String::new(alloc);
    if rt.stdin().read_to_string(&mut text).is_err() {
        return ExitCode::from(1);
    }
    let Ok(out) = answers_of(&rt, alloc, &text) else {
        return ExitCode::from(1);
    };
    match put_all(&mut StdSink::new(rt.stdout()), &out) {
        Ok(()) => ExitCode::from(0),
        Err(_) => ExitCode::from(1),
    }
}
