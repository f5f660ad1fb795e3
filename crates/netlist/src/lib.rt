// Reads the text of a gate netlist into rows, one for each line of the circuit, or says why it does not.
//
// A text line ends at byte 10 or at the text's end. It is empty, `INPUT(word)`, `OUTPUT(word)` or
// `word = KIND(word, .., word)`. A word is a run of letters, digits and underscores, of at most 16 bytes.
// Spaces, tabs and carriage returns stand between tokens, and `#` hides the rest of its text line.
// INPUT and gates define lines, numbered from 0; a gate's pins are defined on earlier text lines, while
// OUTPUT marks a line that is defined anywhere.
//
// The first fault is told, in this order: the text's length; text line by text line each token's form
// and then its length, and of the whole statement its keyword, pin count, name and pins, then the
// limits on inputs, lines and rows; after all text lines the words of OUTPUT, and a text without inputs.

#![tactic(auto)]

pub mod byte;
mod define;
pub mod fault;
mod keyword;
mod lines;
mod mark;
pub mod name;
mod pins;
pub mod read;
mod state;
mod statement;
mod statements;
mod text;
mod token;
mod tokens;
