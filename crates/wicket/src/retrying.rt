// wicket retry, wicket check-retry.
ghost use Rattle.terminal.specs.Pages.{FailureStays};

use crate::headers::part;
use crate::sealing::written;
use console::{answers, fields};
use header_fields::Part;
use octets::refusal::Refusal;
use retry_checking::{RetryFields, check_retry};
use retry_parts::retry_part;
use retry_writing::{Retry, write_retry};
use terminal::Page;

// The Retry of a call, written into a buffer.
fn retry_into(line: &[u8], out: &mut [u8]) -> Result<usize, Refusal> {
    let mut original = [0u8; 4096];
    let mut destination = [0u8; 4096];
    let mut source = [0u8; 4096];
    let mut token = [0u8; 4096];
    let retry = Retry {
        version: wicket_words::version(line, 1),
        original: fields::spelled(line, 2, &mut original),
        destination: fields::spelled(line, 3, &mut destination),
        source: fields::spelled(line, 4, &mut source),
        token: fields::spelled(line, 5, &mut token),
        low_bits: fields::number(line, 6),
    };
    write_retry(retry, out)
}

// wicket retry VERSION ORIGINAL DESTINATION SOURCE TOKEN LOW-BITS
pub fn retry(page: &mut Page, line: &[u8])
    ensures { FailureStays page.old page.new }
{
    let mut out = [0u8; 4096];
    let writing = retry_into(line, &mut out);
    written(page, writing, &out);
}

// The fields of a Retry that was accepted.
fn checked(page: &mut Page, found: RetryFields, original: &[u8], datagram: &[u8])
    ensures { FailureStays page.old page.new }
{
    let destination = retry_part(original, datagram, Part::Destination);
    let source = retry_part(original, datagram, Part::Source);
    let token = retry_part(original, datagram, Part::Token);
    answers::hex_word(page, b"version", found.version);
    part(page, b"destination", found.destination, destination);
    part(page, b"source", found.source, source);
    part(page, b"token", found.token, token);
}

// wicket check-retry ORIGINAL DATAGRAM
pub fn check(page: &mut Page, line: &[u8])
    ensures { FailureStays page.old page.new }
{
    let mut original = [0u8; 4096];
    let original = fields::spelled(line, 1, &mut original);
    let mut datagram = [0u8; 4096];
    let datagram = fields::spelled(line, 2, &mut datagram);
    match check_retry(original, datagram) {
        Err(why) => answers::refused(page, why.number()),
        Ok(found) => checked(page, found, original, datagram),
    }
}
