// Public vectors: each line of the file stdin is a label and a call, and what it answers is written behind the label. The file
// stdout has the papers' values, and ours on either side of a boundary.
#![tactic(auto)]

mod cipher;
mod counts;
mod fields;
mod hash;
mod headers;
mod lines;
mod making;
mod opening;
mod print;
mod retrying;
mod sealing;

use std::io;
use terminal::Page;

fn main(rt: HostRuntime) -> io::Result<()> {
    let mut page = Page::blank(rt.stdout());
    lines::run(&rt, &mut page);
    page.written
}
