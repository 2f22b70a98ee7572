// What the filters of every width share: checks 1 to 4, one attempt by its number, and the search over attempts.
#![tactic(auto)]

pub mod attempts;
pub mod check;
pub mod search;
