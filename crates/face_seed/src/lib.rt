// A seed and a number of records, and the listing of that load, for the programs face_load and face_cases.
// Of the input 43 bytes are read: two right lines have at most 42, and longer input is refused by its first bytes as the whole is.
#![tactic(auto)]

use files::read_full;
use loc_load::listing::load_text;
use std::io;
use std::io::Read;

// Room for the longest listing: 53 + 1,024 × 126 bytes.
pub fn load_from<P: Print, R: Read>(rt: &P, file: &mut R) -> io::Result<()> {
    let mut input = [0u8; 43];
    let mut text = [0u8; 129077];
    let read = read_full(file, &mut input);
    let n = load_text(&input[..read], &mut text);
    rt.write_all(&text[..n])
}

// What standard input asks for.
pub fn print_load<R: Input + Print>(rt: &R) -> io::Result<()> {
    load_from(rt, &mut rt.reader())
}
