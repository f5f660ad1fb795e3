// What answers a measurement: heads, and adaptors over any head.

#![tactic(auto)]

pub mod binary;
pub mod fault;
pub mod head;
pub mod pin_map;
pub mod planted;
pub mod reading;
pub mod reverser;
pub mod sheet;
