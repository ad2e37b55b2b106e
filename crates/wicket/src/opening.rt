// wicket open.
ghost use Rattle.terminal.specs.Pages.{FailureStays};

use console::{answers, fields};
use octets::refusal::Refusal;
use open_writing::Opened;
use terminal::Page;
use wicket_words::keys_of;

// What was opened into a buffer, and the number expected then.
fn opened(page: &mut Page, found: Opened, buffer: &[u8], expected: u64)
    ensures { FailureStays page.old page.new }
{
    let header = found.header_length;
    answers::number(page, b"number", found.number.0);
    answers::number(page, b"number length", found.number_length as u64);
    answers::sized(page, b"header", answers::within(buffer, 0, header));
    answers::sized(
        page,
        b"payload",
        answers::within(buffer, header, found.payload_length),
    );
    answers::number(page, b"used", found.used as u64);
    answers::number(page, b"expected then", expected);
}

// The datagram of a call, opened with its keys into a buffer.
fn open_into(line: &[u8], expected: &mut u64, out: &mut [u8]) -> Result<Opened, Refusal> {
    let keys = keys_of(line)?;
    let mut datagram = [0u8; 4096];
    open::open(keys, expected, fields::spelled(line, 5, &mut datagram), out)
}

// wicket open VERSION ID|LEVEL:SECRET client|server EXPECTED DATAGRAM
pub fn open(page: &mut Page, line: &[u8])
    ensures { FailureStays page.old page.new }
{
    let mut expected = fields::number(line, 4);
    let mut out = [0u8; 4096];
    match open_into(line, &mut expected, &mut out) {
        Err(why) => answers::refused(page, why.number()),
        Ok(found) => opened(page, found, &out, expected),
    }
}
