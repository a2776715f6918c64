// Files as the programs read them: the first bytes, as many as a buffer holds.
// A missing file counts as empty, and so does one whose name is no UTF-8 text. A read that fails ends what is read.
#![tactic(auto)]

ghost use Rattle.files.specs.Counts.{IsPrefixLen};

use std::io::Read;
use std::rt::Files;
use std::{fs, io, str};

// What a file holds, to be read: None where it is missing.
#[derive(Drop)]
pub struct Contents<F>(Option<F>);

impl<F: Read> Read for Contents<F> {
    fn read(&mut self, buf: &mut [u8]) -> io::Result<usize> {
        match &mut self.0 {
            Some(file) => file.read(buf),
            None => Ok(0),
        }
    }
}

// None where the file is missing.
pub fn open<R: Files>(rt: &R, path: &[u8]) -> Option<R::File> {
    match str::from_utf8(path) {
        Ok(name) => fs::open(rt, name).ok(),
        Err(_) => None,
    }
}

pub fn opened<R: Files>(rt: &R, path: &[u8]) -> Contents<R::File> {
    Contents(open(rt, path))
}

// The answer is how many bytes were read: all that the buffer holds, or fewer where the input ends or a read fails.
pub fn read_full<R: Read>(input: &mut R, out: &mut [u8]) -> usize
    ensures { IsPrefixLen result out.new }
{
    let mut done = 0;
    // no count: a turn goes on by what a read gave
    while done < out.len() {
        match input.read(&mut out[done..]) {
            Ok(n) if 0 < n => done += n,
            _ => break,
        }
    }
    done
}

// The answer is how many bytes were read.
pub fn load<R: Files>(rt: &R, path: &[u8], out: &mut [u8]) -> usize
    ensures { IsPrefixLen result out.new }
{
    read_full(&mut opened(rt, path), out)
}
