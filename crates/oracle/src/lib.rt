// The oracle: radius, ball and figure, and what holds of every figure.
#![tactic(auto)]

pub mod figures;
pub mod rule;
