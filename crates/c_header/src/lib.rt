// RFC 9000 sections 17.2.2 to 17.2.4 for C: the header of a packet with a number.
#![tactic(auto)]

ghost use Rattle.std.specs.Prelude.{◌≡◌};
ghost use Rattle.header_reading.specs.Answers.{header_of};
ghost use Rattle.c_header.specs.Promises.{header_numbers, DwReadHeader};

use header_reading::Header;

// What is reported of a header.
fn header_numbers(header: Header) -> [u64; 10]
    ensures { result ≡ header_numbers (header_of header) }
{
    [
        header.version as u64,
        header.destination.at as u64,
        header.destination.len as u64,
        header.source.at as u64,
        header.source.len as u64,
        header.token.at as u64,
        header.token.len as u64,
        header.length as u64,
        header.number_at as u64,
        header.level as u64,
    ]
}

// Reports the version, place and length of both IDs and of the token, Length, the number's place, and the level.
pub fn read_header(datagram: &[u8], report: &mut [u64; 10]) -> u32
    ensures { DwReadHeader datagram.now report.old result report.new }
{
    let read = header_reading::read_header(datagram);
    c_forms::report(read.map(header_numbers), report)
}
