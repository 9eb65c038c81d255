//! The words of the command line.

use std::alloc::Global;
use std::env::{self, Env};
use std::io;

/// The words behind the program's name. Where one of them is no text they are none, which is no command.
pub fn words<R: Env>(rt: &R, alloc: Global) -> io::Result<Vec<String>> {
    let mut words = Vec::new(alloc);
    let args = match env::args(&(rt, alloc)) {
        Ok(args) => args,
        Err(error) if error.kind() == io::ErrorKind::InvalidData => return Ok(words),
        Err(error) => return Err(error),
    };
    for word in args.skip(1) {
        words.push(word)?;
    }
    Ok(words)
}
