// Call files: records of 16 bytes, run one by one on an index, and the line that each prints.
#![tactic(auto)]

pub mod call;
pub mod fault;
pub mod line;
pub mod reading;
pub mod running;
