// The ring: positions, reversal, joining and the position index.
#![tactic(auto)]

pub mod polygon;
pub mod position;
