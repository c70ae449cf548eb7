// Figures from the tables of a standing build.
#![tactic(auto)]

pub mod figure;
mod hubs;
mod lookup;
mod meeting;
