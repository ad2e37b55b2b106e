// RFC 9001 section 5.3: packets sealed.
ghost use Rattle.terminal.specs.Pages.{FailureStays};

use crate::making::record_of;
use crate::{fields, print};
use console::fields::number;
use header_writing::Plain;
use numbers::FullPn;
use octets::refusal::Refusal;
use terminal::Page;
use wicket_words::acknowledged;

// A packet sealed into a buffer, with or without a field for a token.
// Kept: apart from wicket's, and so is a Retry's, for the words are other ones (55:3:7 is bytes), and so are the keys (any version and level).
fn seal_into(
    line: &[u8],
    token: Option<&[u8]>,
    payload: &[u8],
    out: &mut [u8],
) -> Result<usize, Refusal> {
    let mut destination = [0u8; 4096];
    let mut source = [0u8; 4096];
    let plain = Plain {
        number: FullPn(number(line, 4)),
        number_length: number(line, 6) as usize,
        destination: fields::bytes(line, 7, &mut destination),
        source: fields::bytes(line, 8, &mut source),
        token,
        payload,
    };
    seal::seal(record_of(line), acknowledged(line, 5), plain, out)
}

// seal VERSION ID|LEVEL:SECRET client|server NUMBER ACKNOWLEDGED LENGTH DESTINATION SOURCE TOKEN PAYLOAD ROOM
pub fn seal(page: &mut Page, line: &[u8])
    ensures { FailureStays page.old page.new }
{
    let mut token = [0u8; 4096];
    let token = fields::bytes(line, 9, &mut token);
    let mut payload = [0u8; 4096];
    let payload = fields::bytes(line, 10, &mut payload);
    let mut out = [0u8; 4096];
    let out = fields::within(line, 11, &mut out);
    let sealing = seal_into(line, Some(token), payload, out);
    print::written(page, sealing, out);
}

// seal-long VERSION ID|LEVEL:SECRET client|server NUMBER ACKNOWLEDGED LENGTH DESTINATION SOURCE PAYLOAD ROOM
pub fn seal_long(page: &mut Page, line: &[u8])
    ensures { FailureStays page.old page.new }
{
    let mut payload = [0u8; 4096];
    let payload = fields::bytes(line, 9, &mut payload);
    let mut out = [0u8; 4096];
    let out = fields::within(line, 10, &mut out);
    let sealing = seal_into(line, None, payload, out);
    print::written(page, sealing, out);
}
