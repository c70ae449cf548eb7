// The index: a network and its book, and the calls on them.
#![tactic(auto)]

pub mod book;
pub mod calls;
pub mod fault;
