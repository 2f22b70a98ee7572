// Document 01's "Run and compared" list over the descriptor, the flush key (with document 02's wish 3) and the queries: each line printed is
// held to the file `stdout`, and every border is tried from both sides. `build_cases` has the builds. What is proved of the definitions is in specs/.
#![tactic(auto)]

mod descriptors;
mod flushes;
mod queries;

use std::io;

fn main(rt: HostRuntime) -> io::Result<()> {
    descriptors::run(&rt)?;
    flushes::run(&rt)?;
    queries::run(&rt)
}
