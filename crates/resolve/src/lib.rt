#![tactic(auto)]

pub mod resolve;
pub mod run;
