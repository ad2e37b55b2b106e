// RFC 9001 section 5.8: Retry packets written and checked.
ghost use Rattle.terminal.specs.Pages.{FailureStays};

use crate::{fields, print};
use console::fields::number;
use octets::refusal::Refusal;
use retry_checking::check_retry;
use retry_parts::{retry_destination, retry_source, retry_token};
use retry_writing::{Retry, write_retry};
use terminal::Page;

// A Retry written into a buffer, which is as long as the call says.
fn retry_into(line: &[u8], out: &mut [u8]) -> Result<usize, Refusal> {
    let mut original = [0u8; 4096];
    let mut destination = [0u8; 4096];
    let mut source = [0u8; 4096];
    let mut token = [0u8; 4096];
    let retry = Retry {
        version: wicket_words::version(line, 1),
        original: fields::bytes(line, 2, &mut original),
        destination: fields::bytes(line, 3, &mut destination),
        source: fields::bytes(line, 4, &mut source),
        token: fields::bytes(line, 5, &mut token),
        low_bits: number(line, 6),
    };
    write_retry(retry, out)
}

// retry VERSION ORIGINAL DESTINATION SOURCE TOKEN LOW-BITS ROOM
pub fn retry(page: &mut Page, line: &[u8])
    ensures { FailureStays page.old page.new }
{
    let mut page_of = [0u8; 4096];
    let out = fields::within(line, 7, &mut page_of);
    let written = retry_into(line, out);
    print::written(page, written, out);
}

// The answer on a Retry, and the parts handed out of it.
fn checked(page: &mut Page, original: &[u8], datagram: &[u8])
    ensures { FailureStays page.old page.new }
{
    let names = b"version,destination,source,token";
    match check_retry(original, datagram) {
        Err(why) => print::refusal(page, why),
        Ok(fields) => {
            page.say(b"checked");
            print::more(page, names, 0, fields.version as u64);
        }
    }
    print::part(page, names, 1, retry_destination(original, datagram));
    print::part(page, names, 2, retry_source(original, datagram));
    print::part(page, names, 3, retry_token(original, datagram));
    print::end(page);
}

// check-retry ORIGINAL DATAGRAM [PLACE BYTE SIZE]
pub fn check(page: &mut Page, line: &[u8])
    ensures { FailureStays page.old page.new }
{
    let mut original = [0u8; 4096];
    let mut datagram = [0u8; 4096];
    checked(
        page,
        fields::bytes(line, 1, &mut original),
        fields::packet(line, 2, &mut datagram),
    );
}
