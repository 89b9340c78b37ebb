// What a host program links: the entries as C functions, with answers of plain numbers (hosts/tour.h).
// Every function checks for itself what it is given, in the order of the refusal numbers (a job: 9 to 13, then 2); none has a `requires`.
#![tactic(auto)]

pub mod contacts;
pub mod drawn;
pub mod job_file;
pub mod loop_feed;
pub mod loops;
pub mod meeting;
pub mod ring_fault;
pub mod stopped;
