// One attempt by its number: free and stuck, in the plain and the halved layout.
use marked::buffers::Lent;
use marked::call::attempt;
use std::io;

fn numbers(rt: &impl Print) -> io::Result<()> {
    for number in [0, 1, 1000, 1001] {
        attempt(rt, &[5], number, Lent::longer(12, 1, 2))?;
    }
    Ok(())
}

fn stuck_and_free(rt: &impl Print) -> io::Result<()> {
    let lent = Lent::longer(12, 2, 2);
    attempt(rt, &[2, 4], 1, lent)?;
    attempt(rt, &[2, 4], 2, lent)?;
    attempt(rt, &[9, 9], 1, lent)
}

// Halved on attempts 2 and 6, and not once more on 6; four keys are never halved.
fn layouts(rt: &impl Print) -> io::Result<()> {
    for number in [1, 2, 3, 6] {
        attempt(rt, &[7, 13, 0, 1, 2], number, Lent::longer(24, 5, 4))?;
    }
    attempt(rt, &[1, 2, 3, 4], 2, Lent::longer(24, 4, 2))
}

pub fn run(rt: &impl Print) -> io::Result<()> {
    numbers(rt)?;
    stuck_and_free(rt)?;
    layouts(rt)
}
