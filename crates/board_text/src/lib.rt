// The lines of a board as a text, and the numbers in them: what the programs that read such a text have in common. Which forms of a line a program
// takes, and what it makes of them, is its own.
#![tactic(auto)]

pub mod fault;
pub mod line;
pub mod lines;
pub mod number;
