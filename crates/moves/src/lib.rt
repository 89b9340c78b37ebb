// Which move a recorded crossing calls for: the part of two_opt.rs that reads points and ring, and no records.
#![tactic(auto)]

pub mod extremes;
pub mod kink;
pub mod plan;
pub mod search;
pub mod vertex;
