// A job: a netlist, a line of `%`, and vector lines.

#![tactic(auto)]

pub mod fault;
pub mod split;
pub mod summary;
