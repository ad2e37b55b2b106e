// wicket header.
ghost use Rattle.terminal.specs.Pages.{FailureStays};

use console::{answers, fields};
use header_fields::{Part, Place};
use header_parts::header_part;
use header_reading::{Header, read_header};
use terminal::Page;

// A part of a datagram that was read, where it stands.
pub fn part(page: &mut Page, label: &[u8], place: Place, value: &[u8])
    ensures { FailureStays page.old page.new }
{
    answers::part(page, label, place.len, place.at, value);
}

// The fields of a header that was read from a datagram.
fn read(page: &mut Page, header: Header, datagram: &[u8])
    ensures { FailureStays page.old page.new }
{
    answers::hex_word(page, b"version", header.version);
    answers::level(page, b"level", header.level);
    let destination = header_part(datagram, Part::Destination);
    part(page, b"destination", header.destination, destination);
    part(
        page,
        b"source",
        header.source,
        header_part(datagram, Part::Source),
    );
    part(
        page,
        b"token",
        header.token,
        header_part(datagram, Part::Token),
    );
    answers::number(page, b"Length", header.length as u64);
    answers::number(page, b"number at", header.number_at as u64);
}

// wicket header DATAGRAM
pub fn header(page: &mut Page, line: &[u8])
    ensures { FailureStays page.old page.new }
{
    let mut datagram = [0u8; 4096];
    let datagram = fields::spelled(line, 1, &mut datagram);
    match read_header(datagram) {
        Err(why) => answers::refused(page, why.number()),
        Ok(header) => read(page, header, datagram),
    }
}
