// One move: what it removes and inserts, the ring after it, and all of it on what is lent (two_opt.rs, `untangle`).
#![tactic(auto)]

pub mod change;
pub mod untangle;
