// Shortest distances from a site, found over memory that the user lends.
#![tactic(auto)]

pub mod finding;
mod queue;
mod search;
mod sifting;
mod steps;
pub mod waiting;
