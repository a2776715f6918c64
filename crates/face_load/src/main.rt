// 40 records of seed 88172645463325252.
// The input is in stdin, what is printed in stdout.
#![tactic(auto)]

use std::io;

fn main(rt: HostRuntime) -> io::Result<()> {
    face_seed::print_load(&rt)
}
