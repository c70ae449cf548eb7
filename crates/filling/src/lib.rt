// The places of a book's tables, and how a build fills them.
#![tactic(auto)]

pub mod balls;
pub mod places;
pub mod rows;
pub mod tables;
