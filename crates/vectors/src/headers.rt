// RFC 9000 section 17.2: headers read.
ghost use Rattle.terminal.specs.Pages.{FailureStays};

use crate::{fields, print};
use header_fields::Place;
use header_parts::{header_destination, header_source, header_token};
use header_reading::{Header, read_header};
use terminal::Page;

// How long a part is, and where it stands.
fn place(page: &mut Page, names: &[u8], index: usize, found: Place)
    ensures { FailureStays page.old page.new }
{
    print::more(page, names, index, found.len as u64);
    page.show(format_args!(" at {}", found.at));
}

// The fields of a header that was read.
fn read(page: &mut Page, names: &[u8], header: Header)
    ensures { FailureStays page.old page.new }
{
    page.say(b"read");
    print::more(page, names, 0, header.version as u64);
    print::more(page, names, 1, header.level as u64);
    place(page, names, 2, header.destination);
    place(page, names, 3, header.source);
    place(page, names, 4, header.token);
    print::more(page, names, 5, header.length as u64);
    print::more(page, names, 6, header.number_at as u64);
}

// The answer on a datagram, and the parts handed out of it.
fn answered(page: &mut Page, datagram: &[u8])
    ensures { FailureStays page.old page.new }
{
    let names = b"version,level,destination,source,token,Length,number at";
    match read_header(datagram) {
        Err(why) => print::refusal(page, why),
        Ok(header) => read(page, names, header),
    }
    print::part(page, names, 2, header_destination(datagram));
    print::part(page, names, 3, header_source(datagram));
    print::part(page, names, 4, header_token(datagram));
    print::end(page);
}

// header DATAGRAM [PLACE BYTE SIZE]
pub fn header(page: &mut Page, line: &[u8])
    ensures { FailureStays page.old page.new }
{
    let mut datagram = [0u8; 4096];
    answered(page, fields::packet(line, 1, &mut datagram));
}
