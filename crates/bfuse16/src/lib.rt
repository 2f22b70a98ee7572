// `BinaryFuse16` of the Rust: a list of keys is packed into fingerprints of 16 bits, and asked, on lent buffers.
#![tactic(auto)]

mod lists;
mod queries;

pub use lists::{attempt, build};
pub use plan::Built;
pub use queries::{contains, contains_bytes, contains_told};
