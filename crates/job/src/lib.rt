// The job file and what is printed of it: read, write, tell.
#![tactic(auto)]

pub mod encoder;
pub mod feed;
pub mod reader;
pub mod report;
pub mod tangled;
pub mod word;
pub mod writer;
