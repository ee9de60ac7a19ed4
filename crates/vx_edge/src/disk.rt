// Files by name, and standard input.
ghost use Rattle.std.specs.Prelude.{◌≡◌, ◌≤◌, [], None, length, IfOk, option_copied};

use std::alloc::{AllocError, Global};
use std::io::{ErrorKind, Input, Read};
use std::{fs, io};
use vx_ends::{Bytes, Files, LoadFault};

/// The longest text that is loaded.
const MAX_TEXT: usize = 4_194_304;

/// The system's files. No name means standard input.
#[derive(Drop)]
pub struct DiskFiles<'a> {
    system: &'a HostRuntime,
    asked: Vec<Option<Bytes>>,
    faults: u64,
}

impl<'a> DiskFiles<'a> {
    /// Nothing is asked for yet. No memory.
    pub fn new(alloc: Global, system: &'a HostRuntime) -> DiskFiles<'a>
        ensures { (result.asked.items ≡ []) × (result.faults ≡ 0) }
    {
        DiskFiles {
            system,
            asked: Vec::new(alloc),
            faults: 0,
        }
    }
}

fn copy_name(alloc: Global, name: Option<&str>) -> Result<Option<Bytes>, AllocError>
    ensures { IfOk result (λ copy. copy ≡ option_copied name.entry) }
{
    match name {
        None => Ok(None),
        Some(text) => Ok(Some(Bytes::copy(alloc, text.as_bytes())?)),
    }
}

// What a fault of the system is here.
fn fault_of(error: &io::Error) -> LoadFault {
    match error.kind() {
        ErrorKind::OutOfMemory => LoadFault::Want,
        _ => LoadFault::Failed,
    }
}

// All that a reader gives.
fn read_text<T: Read + Drop>(alloc: Global, input: T) -> Result<Vec<u8>, LoadFault>
    ensures { IfOk result (λ bytes. length bytes.items ≤ MAX_TEXT) }
{
    let mut bytes = Vec::new(alloc);
    let mut short = input.take(MAX_TEXT as u64 + 1);
    if let Err(error) = short.read_to_end(&mut bytes) {
        return Err(fault_of(&error));
    }
    if bytes.len() > MAX_TEXT {
        return Err(LoadFault::TooLong);
    }
    Ok(bytes)
}

fn read_named(alloc: Global, system: &HostRuntime, name: Option<&str>) -> Result<Vec<u8>, LoadFault>
    ensures { IfOk result (λ bytes. length bytes.items ≤ MAX_TEXT) }
{
    match name {
        None => read_text(alloc, system.reader()),
        Some(path) => match fs::open(system, path) {
            Ok(file) => read_text(alloc, file),
            Err(error) => Err(fault_of(&error)),
        },
    }
}

impl Files for DiskFiles<'_> {
    ghost holds = { λ _ _. None };

    ghost asked = { λ f. f.asked.items };

    ghost faults = { λ f. f.faults };

    fn load(&mut self, alloc: Global, name: Option<&str>) -> Result<Vec<u8>, LoadFault> {
        let kept = copy_name(alloc, name)?;
        self.asked.reserve(1)?;
        let loaded = read_named(alloc, self.system, name);
        match &loaded {
            Err(LoadFault::Want) => return loaded,
            Err(LoadFault::Failed) => self.faults = self.faults.saturating_add(1),
            _ => {}
        }
        match self.asked.push(kept) {
            Ok(()) => loaded,
            Err(_) => unreachable!(),
        }
    }
}
