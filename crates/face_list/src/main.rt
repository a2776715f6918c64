// Lists a small corpus: document 01's two records, values on either side of a byte's limit, and rows.
// The files are in data/, what is printed in stdout.
#![tactic(auto)]

use std::io;

fn main(rt: HostRuntime) -> io::Result<()> {
    face_files::list_face(&rt)
}
