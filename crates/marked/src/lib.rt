// A build or an attempt on buffers filled with a mark, told in one line for each width: what it answers, and what it leaves of the
// lent memory. These functions are proved safe; what they print is compared, not promised.
#![tactic(auto)]

pub mod buffers;
pub mod call;
mod left;
mod lines;
