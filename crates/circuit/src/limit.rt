// The limits of a circuit.

pub const MAX_LINES: usize = 1024;

pub const MAX_INPUTS: usize = 256;
