// Two records of document 01 and two with rows, to the largest strides and span count.
// The input is in stdin, what is printed in stdout.
#![tactic(auto)]

use std::io;

fn main(rt: HostRuntime) -> io::Result<()> {
    face_input::import_face(&rt)
}
