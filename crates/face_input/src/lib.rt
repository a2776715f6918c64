// A listing appended to a fresh index, and the listing of that index, for the programs face_import and face_cases.
// Of the input 129,078 bytes are read: no listing is longer than 129,077, and longer input is refused by its first bytes as the whole is.
#![tactic(auto)]

use files::read_full;
use loc_calls::AreasMut;
use loc_print::calls::import_text;
use std::io;
use std::io::Read;

// Room for 1,024 records, each with a row, and for the longest listing of them: 53 + 1,024 × 126 bytes.
pub fn import_from<P: Print, R: Read>(rt: &P, file: &mut R) -> io::Result<()> {
    let mut input = [0u8; 129078];
    let mut slots = [0u8; 2064];
    let mut rows = [0u8; 16400];
    let mut checkpoints = [0u8; 32];
    let mut text = [0u8; 129077];
    let read = read_full(file, &mut input);
    let mut areas = AreasMut {
        slots: &mut slots,
        rows: &mut rows,
        checkpoints: &mut checkpoints,
    };
    let n = import_text(&input[..read], &mut areas, &mut text);
    rt.write_all(&text[..n])
}

// The listing from standard input.
pub fn import_face<R: Input + Print>(rt: &R) -> io::Result<()> {
    import_from(rt, &mut rt.reader())
}
