// A tree of bounding boxes over the ring's positions, in a lent buffer: built, refreshed where edges changed, and asked which edges are near a box.
#![tactic(auto)]

pub mod bounds;
pub mod query;
pub mod tree;
