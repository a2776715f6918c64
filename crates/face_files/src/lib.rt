// The listing of a face: its three files read, opened in memory and printed, for the programs face_list and face_cases.
// A missing file counts as empty; bytes past 16,384 are not read.
#![tactic(auto)]

use files::load;
use loc_calls::AreasMut;
use loc_print::calls::open_text;
use std::io;
use std::rt::Files;

fn print_text<R: Print>(rt: &R, areas: &mut AreasMut, text: &mut [u8]) -> io::Result<()> {
    let n = open_text(areas, text);
    rt.write_all(&text[..n])
}

// The text's room as an array, whose length is in its type: 16,384 bytes hold 8,184 slots, whose listing has at most 53 + 126 × 8,184 bytes.
// Tried: made and lent in one function, the proof did not close (the check ran out of stack).
fn print_face<R: Print>(rt: &R, areas: &mut AreasMut, text: &mut [u8; 1031237]) -> io::Result<()> {
    print_text(rt, areas, text)
}

// The listing of the files at three paths.
pub fn list_files<R: Files + Print>(
    rt: &R,
    slot_path: &[u8],
    row_path: &[u8],
    checkpoint_path: &[u8],
) -> io::Result<()> {
    let mut slots = [0u8; 16384];
    let mut rows = [0u8; 16384];
    let mut checkpoints = [0u8; 16384];
    let mut text = [0u8; 1031237];
    let a = load(rt, slot_path, &mut slots);
    let b = load(rt, row_path, &mut rows);
    let c = load(rt, checkpoint_path, &mut checkpoints);
    let mut areas = AreasMut {
        slots: &mut slots[..a],
        rows: &mut rows[..b],
        checkpoints: &mut checkpoints[..c],
    };
    print_face(rt, &mut areas, &mut text)
}

pub fn list_face<R: Files + Print>(rt: &R) -> io::Result<()> {
    list_files(rt, b"face.loc", b"face.loc.ovf", b"face.off")
}
