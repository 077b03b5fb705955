//! The include-exclude list by which the paths of the clients' files are bound to management classes.
use choosers::{Rule, read_rules};
use kinds::Refusal;
use std::alloc::Global;
use std::fs::File;
use std::io;
use std::io::Read;
use std::rt::Files;

// The file with the list, in the folder that the program is run in.
const LIST: &str = "inclexcl";

// A list has fewer bytes than this.
const MOST: u64 = (1 << 32) - 1;

/// Why there is no list.
#[derive(Clone, Copy)]
pub enum NoRules {
    /// Its file can't be read, or has 2^32 - 1 bytes or more.
    Fault,
    /// A line of it is no rule.
    Refused,
    /// Memory was wanted.
    Memory,
}

// The bytes of the file, at the most so many as no list has; none where there is no such file.
fn bytes_of<R: Files<File = File>>(system: &R, alloc: Global) -> io::Result<Vec<u8>> {
    let mut bytes = Vec::new(alloc);
    match File::open(system, LIST) {
        Ok(file) => {
            file.take(MOST).read_to_end(&mut bytes)?;
        }
        Err(error) if error.kind() == io::ErrorKind::NotFound => {}
        Err(error) => return Err(error),
    }
    Ok(bytes)
}

// The rules of a list with these bytes.
fn rules_of(alloc: Global, bytes: &[u8]) -> Result<Vec<Rule>, NoRules> {
    if bytes.len() as u64 >= MOST {
        return Err(NoRules::Fault);
    }
    match read_rules(alloc, bytes) {
        Ok(rules) => Ok(rules),
        Err(Refusal::Memory) => Err(NoRules::Memory),
        Err(_) => Err(NoRules::Refused),
    }
}

/// The rules of the list's file, where there is one; else none.
pub fn read_list<R: Files<File = File>>(system: &R, alloc: Global) -> Result<Vec<Rule>, NoRules> {
    match bytes_of(system, alloc) {
        Ok(bytes) => rules_of(alloc, &bytes),
        Err(error) if error.kind() == io::ErrorKind::OutOfMemory => Err(NoRules::Memory),
        Err(_) => Err(NoRules::Fault),
    }
}
