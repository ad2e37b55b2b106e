// wicket seal, wicket seal-long.
ghost use Rattle.terminal.specs.Pages.{FailureStays};

use console::{answers, fields};
use header_writing::Plain;
use numbers::FullPn;
use octets::refusal::Refusal;
use terminal::Page;
use wicket_words::{acknowledged, keys_of};

// A packet that was written at a buffer's start, or why there is none.
// Kept: a length beside the buffer, as `seal::seal` and `retry_writing::write_retry` answer one (`Seal`, `WriteRetry`).
pub fn written(page: &mut Page, size: Result<usize, Refusal>, buffer: &[u8])
    ensures { FailureStays page.old page.new }
{
    match size {
        Err(why) => answers::refused(page, why.number()),
        Ok(size) => {
            answers::number(page, b"length", size as u64);
            answers::bytes(page, b"packet", answers::within(buffer, 0, size));
        }
    }
}

// A packet sealed into a buffer, with or without a field for a token.
fn seal_into(
    line: &[u8],
    token: Option<&[u8]>,
    payload: &[u8],
    out: &mut [u8],
) -> Result<usize, Refusal> {
    let keys = keys_of(line)?;
    let mut destination = [0u8; 4096];
    let mut source = [0u8; 4096];
    let plain = Plain {
        number: FullPn(fields::number(line, 4)),
        number_length: fields::number(line, 6) as usize,
        destination: fields::spelled(line, 7, &mut destination),
        source: fields::spelled(line, 8, &mut source),
        token,
        payload,
    };
    seal::seal(keys, acknowledged(line, 5), plain, out)
}

// wicket seal VERSION ID|LEVEL:SECRET client|server NUMBER ACKNOWLEDGED LENGTH DESTINATION SOURCE TOKEN PAYLOAD
pub fn seal(page: &mut Page, line: &[u8])
    ensures { FailureStays page.old page.new }
{
    let mut token = [0u8; 4096];
    let token = fields::spelled(line, 9, &mut token);
    let mut payload = [0u8; 4096];
    let payload = fields::spelled(line, 10, &mut payload);
    let mut out = [0u8; 4096];
    let sealing = seal_into(line, Some(token), payload, &mut out);
    written(page, sealing, &out);
}

// wicket seal-long VERSION ID|LEVEL:SECRET client|server NUMBER ACKNOWLEDGED LENGTH DESTINATION SOURCE PAYLOAD
pub fn seal_long(page: &mut Page, line: &[u8])
    ensures { FailureStays page.old page.new }
{
    let mut payload = [0u8; 4096];
    let payload = fields::spelled(line, 9, &mut payload);
    let mut out = [0u8; 4096];
    let sealing = seal_into(line, None, payload, &mut out);
    written(page, sealing, &out);
}
