// Text at a terminal: what programs of this repository print, and files read by lines.
#![tactic(auto)]

pub mod lines;
pub mod print;

pub use print::Page;
