// RFC 9000 sections 17.2.2 to 17.2.4: the parts of a header, handed out as they stand in the datagram.
#![tactic(auto)]

ghost use Rattle.header_parts.specs.Answers.{HeaderPart, HeaderDestination, HeaderSource, HeaderToken};

use header_fields::{Part, part_at};
use header_reading::read_header;

// The part that reading the header finds, and nothing where reading refuses, nor for the token of a level that has none.
pub fn header_part(datagram: &[u8], part: Part) -> &[u8]
    ensures { HeaderPart part datagram.now result.now }
{
    match read_header(datagram) {
        Ok(header) => part_at(datagram, header.place(part)),
        Err(_) => &datagram[..0],
    }
}

// The destination ID of the header, likewise.
// Kept: each part has an operation of its own, as docs/SCOPE.md, "Answers", asks; here and in the two below it is one call.
pub fn header_destination(datagram: &[u8]) -> &[u8]
    ensures { HeaderDestination datagram.now result.now }
{
    header_part(datagram, Part::Destination)
}

// The source ID of the header, likewise.
pub fn header_source(datagram: &[u8]) -> &[u8]
    ensures { HeaderSource datagram.now result.now }
{
    header_part(datagram, Part::Source)
}

// The token of the header, likewise.
pub fn header_token(datagram: &[u8]) -> &[u8]
    ensures { HeaderToken datagram.now result.now }
{
    header_part(datagram, Part::Token)
}
