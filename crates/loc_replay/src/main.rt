// Replays a sample of the original's answers, the file `answers`, which compare/sample.sh writes with the original itself, and prints how many differ.
// What the original does not have, audits and append's 17, 23 and 24, is worked out there from its readings.
#![tactic(auto)]

mod areas;
mod call;
mod replay;
mod tape;

use files::load;
use std::io;

fn main(rt: HostRuntime) -> io::Result<()> {
    let mut data = [0u8; 200000];
    let n = load(&rt, b"answers", &mut data);
    let end = replay::replayed(&data[..n]);
    println!(rt;
        "{} answers of the original replayed, {} differ",
        end.answers, end.differ
    )
}
