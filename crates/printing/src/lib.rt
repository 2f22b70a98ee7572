// Runs of numbers and of bytes printed, for the programs whose output is compared. No contract can say what is written, so these
// functions are only proved safe; what a program prints is held to its file `stdout`.
#![tactic(auto)]

use std::io;

// Numbers, each after a space.
pub fn numbers(rt: &impl Print, all: &[u64]) -> io::Result<()> {
    for x in all {
        print!(rt; " {x}")?;
    }
    Ok(())
}

// Bytes in hexadecimal, each after a space, and the line's end.
pub fn bytes(rt: &impl Print, all: &[u8]) -> io::Result<()> {
    for x in all {
        print!(rt; " {x:02x}")?;
    }
    println!(rt)
}
