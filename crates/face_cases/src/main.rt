// What the programs print of files and inputs of every sort: the name of each, then its text.
// The files are in data/, what is printed in stdout; docs/face_data.py writes both.
#![tactic(auto)]

use std::io;
use std::rt::Files;

fn listings<R: Files + Print>(rt: &R) -> io::Result<()> {
    for (slots, rows, checkpoints) in [
        // document 01's example; more than one window, with rows; no records
        ("two.loc", "two.loc.ovf", "two.off"),
        ("windows.loc", "windows.loc.ovf", "windows.off"),
        ("empty.loc", "empty.loc.ovf", "empty.off"),
        // 1: a file under 16 bytes; 2: slot data odd; 3, 4: checkpoint and row data not whole; 5: two rows of one number
        ("small.loc", "small.loc.ovf", "small.off"),
        ("odd_slots.loc", "odd_slots.loc.ovf", "odd_slots.off"),
        (
            "ragged_checkpoints.loc",
            "ragged_checkpoints.loc.ovf",
            "ragged_checkpoints.off",
        ),
        ("ragged_rows.loc", "ragged_rows.loc.ovf", "ragged_rows.off"),
        ("row_order.loc", "row_order.loc.ovf", "row_order.off"),
        // a row missing in window 1: 17 after the lines of window 0; a row past byte 16,384, which is not read
        ("row_missing.loc", "row_missing.loc.ovf", "row_missing.off"),
        ("long.loc", "long.loc.ovf", "long.off"),
        // no files, and one of three
        ("missing.loc", "missing.loc.ovf", "missing.off"),
        ("one_file.loc", "one_file.loc.ovf", "one_file.off"),
    ] {
        println!(rt; "{slots}")?;
        face_files::list_files(
            rt,
            slots.as_bytes(),
            rows.as_bytes(),
            checkpoints.as_bytes(),
        )?;
    }
    Ok(())
}

fn imports<R: Files + Print>(rt: &R) -> io::Result<()> {
    for path in [
        // 1,024 lines, as many as a listing may have; one more; more bytes than the program reads
        "full.listing",
        "over.listing",
        "long.listing",
        // the line of names alone, and no input
        "names.listing",
        "empty.listing",
        // 18: a zero in front, 2^64, no last line feed
        "zero.listing",
        "wide.listing",
        "unended.listing",
        // 19 before 20, 20 before append's 11, append's 11, and an empty body: 22 before 11
        "number.listing",
        "length.listing",
        "break.listing",
        "blank.listing",
    ] {
        println!(rt; "{path}")?;
        face_input::import_from(rt, &mut files::opened(rt, path.as_bytes()))?;
    }
    Ok(())
}

fn loads<R: Files + Print>(rt: &R) -> io::Result<()> {
    for path in [
        // 1,024 records, none, and one too many: 26
        "full.seed",
        "none.seed",
        "over.seed",
        // seed 0 before the number of records: 25; the largest seed
        "zero.seed",
        "last.seed",
        // 18: 2^64, a zero in front, no last line feed (before seed 0), a third line feed
        "wide.seed",
        "front.seed",
        "unended.seed",
        "more.seed",
    ] {
        println!(rt; "{path}")?;
        face_seed::load_from(rt, &mut files::opened(rt, path.as_bytes()))?;
    }
    Ok(())
}

fn main(rt: HostRuntime) -> io::Result<()> {
    listings(&rt)?;
    imports(&rt)?;
    loads(&rt)
}
