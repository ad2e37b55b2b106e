// RFC 9001 sections 5.3 and 5.4: packets opened.
ghost use Rattle.terminal.specs.Pages.{FailureStays};

use crate::making::record_of;
use crate::{fields, print};
use octets::refusal::Refusal;
use open_writing::Opened;
use terminal::Page;

// The numbers of what was opened; how many bytes were written.
fn opened(page: &mut Page, found: Opened) -> usize
    ensures { FailureStays page.old page.new }
{
    let header = found.header_length;
    let payload = found.payload_length;
    let names = b"number,length,header,payload,used";
    page.say(b"opened");
    print::more(page, names, 0, found.number.0);
    print::more(page, names, 1, found.number_length as u64);
    print::more(page, names, 2, header as u64);
    print::more(page, names, 3, payload as u64);
    print::more(page, names, 4, found.used as u64);
    header.saturating_add(payload)
}

// What opening answered; how many bytes were written.
fn answered(page: &mut Page, opening: Result<Opened, Refusal>) -> usize
    ensures { FailureStays page.old page.new }
{
    match opening {
        Err(why) => {
            print::refusal(page, why);
            0
        }
        Ok(found) => opened(page, found),
    }
}

// The number expected then, and the output: what was written, and one byte behind it.
fn after(page: &mut Page, expected: u64, out: &[u8], written: usize)
    ensures { FailureStays page.old page.new }
{
    let names = b"expected,output";
    let end = written.saturating_add(1).min(out.len());
    print::more(page, names, 0, expected);
    print::part(page, names, 1, &out[..end]);
    print::end(page);
}

// A packet opened into a buffer, which is as long as the call says.
fn open_into(page: &mut Page, line: &[u8], out: &mut [u8])
    ensures { FailureStays page.old page.new }
{
    let mut expected = console::fields::number(line, 4);
    let mut page_of = [0u8; 4096];
    let datagram = fields::packet(line, 6, &mut page_of);
    let opening = open::open(record_of(line), &mut expected, datagram, out);
    let written = answered(page, opening);
    after(page, expected, out, written);
}

// open VERSION ID|LEVEL:SECRET client|server EXPECTED ROOM DATAGRAM [PLACE BYTE SIZE], into a buffer of bytes 0xaa
pub fn open(page: &mut Page, line: &[u8])
    ensures { FailureStays page.old page.new }
{
    let mut out = [0xaau8; 4096];
    open_into(page, line, fields::within(line, 5, &mut out));
}
