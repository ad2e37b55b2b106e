// A program at a terminal: its arguments, the words of a call read, the files that it names, and the rows of its answer. Nothing here
// knows a packet.
#![tactic(auto)]

pub mod answers;
pub mod arguments;
pub mod fields;
pub mod files;
