// What the start and a move do to the records: one edge against the ring, several of them, and the removal of all records of some edges.
#![tactic(auto)]

pub mod candidate;
pub mod edges;
pub mod pair;
pub mod query;
pub mod segment;
pub mod sweep;
