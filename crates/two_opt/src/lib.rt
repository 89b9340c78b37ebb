#![tactic(auto)]

pub mod entries;
pub mod workspace;
