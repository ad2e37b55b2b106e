// wicket: the library at a terminal.
#![tactic(auto)]

mod commands;
mod headers;
mod making;
mod opening;
mod receiving;
mod retrying;
mod scripts;
mod sealing;

use std::io;
use terminal::Page;

fn main(rt: HostRuntime) -> io::Result<()> {
    let manual = b"wicket keys VERSION ID client|server
wicket install VERSION LEVEL client|server SECRET
wicket seal VERSION ID|LEVEL:SECRET client|server NUMBER ACKNOWLEDGED LENGTH DESTINATION SOURCE TOKEN PAYLOAD
wicket seal-long VERSION ID|LEVEL:SECRET client|server NUMBER ACKNOWLEDGED LENGTH DESTINATION SOURCE PAYLOAD
wicket open VERSION ID|LEVEL:SECRET client|server EXPECTED DATAGRAM
wicket header DATAGRAM
wicket retry VERSION ORIGINAL DESTINATION SOURCE TOKEN LOW-BITS
wicket check-retry ORIGINAL DATAGRAM
wicket receive VERSION ID|LEVEL:SECRET client|server EXPECTED FILE
wicket script FILE
";
    let mut page = Page::blank(rt.stdout());
    scripts::program(&rt, &mut page, manual);
    page.written
}
