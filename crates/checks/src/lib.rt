// The checks of a call, in order, and what they ask of points and ring. None of them writes.
#![tactic(auto)]

pub mod accept;
pub mod start;
