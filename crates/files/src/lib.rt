// Reading for the programs: into a slice, as far as a file or standard input goes. No Vec: nothing here takes memory from a heap. hex
// prints what is read.
#![tactic(auto)]

pub mod hex;

ghost use Rattle.std.specs.Prelude.{◌≤◌, length, IfOk};

use std::io::Read;
use std::rt::Files;
use std::{fs, io};

// Reads until the slice is full or the input ends, and answers how many bytes came.
pub fn read_full(input: &mut impl Read, bytes: &mut [u8]) -> io::Result<usize>
    ensures { IfOk result (λ n. n ≤ length bytes.new) }
{
    let mut done = 0;
    // A read may bring less than there is room for: how many reads there are is not known before.
    while done < bytes.len() {
        let n = input.read(&mut bytes[done..])?;
        if n == 0 {
            break;
        }
        done += n;
    }
    Ok(done)
}

// Nothing where the file cannot be opened, which is told.
pub fn open<R: Files + Eprint>(rt: &R, path: &str) -> io::Result<Option<R::File>> {
    match fs::open(rt, path) {
        Ok(file) => Ok(Some(file)),
        Err(error) => {
            eprintln!(rt; "{path}: {error}")?;
            Ok(None)
        }
    }
}

// How many bytes of the file stand in the slice then: none where it cannot be opened, which is told.
pub fn load<R: Files + Eprint>(rt: &R, path: &str, bytes: &mut [u8]) -> io::Result<usize>
    ensures { IfOk result (λ n. n ≤ length bytes.new) }
{
    match open(rt, path)? {
        Some(mut file) => read_full(&mut file, bytes),
        None => Ok(0),
    }
}
