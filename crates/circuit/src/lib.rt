// Gate netlists by their rows, the bridges between their lines, and the one evaluation.

#![tactic(auto)]

pub mod bridge;
pub mod circuit;
pub mod detection;
mod evaluation;
mod gate;
pub mod kind;
pub mod limit;
pub mod refusal;
pub mod row;
pub mod vector;
