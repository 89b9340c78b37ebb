// Whether records fit a ring (check 21): their ages, and the pairs that they name. It reads, and writes to a table that it is lent.
#![tactic(auto)]

pub mod ages;
pub mod pairs;
