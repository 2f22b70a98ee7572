// The text of due flushes: one to a line, `unit valve seconds` or a plain key, in decimal. `#` begins a comment, and lines with
// no words are passed over.
#![tactic(auto)]

mod clock;
pub mod decimal;
pub mod keys;
pub mod line;
