// The words of the command line.

use std::alloc::Global;
use std::{env, io};
use vx_ends::Parts;

/// The words of the command line, the program's name first.
///
/// # Errors
/// `InvalidData` where a word is no UTF-8, and want of memory.
pub fn command_line(rt: &HostRuntime, alloc: Global) -> io::Result<Parts> {
    let mut words = Parts::new(alloc);
    for word in env::args(rt)? {
        words.push(alloc, &word)?;
    }
    Ok(words)
}
