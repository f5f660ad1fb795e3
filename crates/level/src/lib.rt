// What a line reads, and the kinds of value that stand for it.

#![tactic(auto)]

pub mod level;
pub mod line_value;
pub mod three_way;
pub mod two_way;
