// Document 01's "Run and compared" list, with the limit of document 02, wish 4, over the build and the single attempt, at both widths: each
// line printed is held to the file `stdout`. Every border is tried from both sides, and each line says what is left of the lent memory.
// `cases` has the other calls.
#![tactic(auto)]

mod attempts;
mod builds;

use std::io;

fn main(rt: HostRuntime) -> io::Result<()> {
    builds::run(&rt)?;
    attempts::run(&rt)
}
