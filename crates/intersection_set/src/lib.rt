// The pool of crossing records: slots that grow and are freed, their dense order, and a list for each edge.
#![tactic(auto)]

pub mod intersection_set;
pub mod refill;
pub mod sparse_index;
pub mod utils;
