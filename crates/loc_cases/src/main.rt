// Runs the public calls of both kinds as the script on standard input says, and prints a line for each case.
// What it must print, the file stdout, is worked out from document 01.
#![tactic(auto)]

mod areas;
mod batch;
mod call;
mod cases;
mod listing;
mod pairs;
mod print;
mod script;

use files::read_full;
use std::io;

fn main(rt: HostRuntime) -> io::Result<()> {
    let mut text = [0u8; 32768];
    let n = read_full(&mut rt.reader(), &mut text);
    cases::run(&rt, &text[..n])
}
