// Retry packets, written: RFC 9000 section 17.2.5.
#![tactic(auto)]

ghost use Rattle.octets.specs.Octets.{Begins};
ghost use Rattle.retry_tag.specs.Tag.{tagged};
ghost use Rattle.retry_writing.specs.Written.{untagged};
ghost use Rattle.retry_writing.specs.Answers.{WriteRetry, Writable};

use header_fields::{LONGEST_ID, TAG_LENGTH};
use header_forms::LIMIT;
use octets::refusal::Refusal;
use retry_tag::tag_of;

// A Retry that answers the original connection ID, by its parts; of the low bits the last four are written.
#[derive(Clone, Copy)]
pub struct Retry<'a> {
    pub version: u32,
    pub original: &'a [u8],
    pub destination: &'a [u8],
    pub source: &'a [u8],
    pub token: &'a [u8],
    pub low_bits: u64,
}

// RFC 9000 section 17.2.5: a Retry with its tag at the buffer's start; where it ends.
fn write_packet(retry: Retry, buffer: &mut [u8]) -> usize
    requires { Writable retry.original.now retry.destination.now retry.source.now retry.token.now buffer.old }
    ensures { Begins (tagged retry.entry.version retry.entry.original.now (untagged retry.entry.version retry.entry.destination.now retry.entry.source.now retry.entry.token.now retry.entry.low_bits)) buffer.old buffer.new result }
{
    let version = retry.version;
    let first = 0xc0 + versions::retry_type(version) * 16 + (retry.low_bits % 16) as u8;
    let token_at = header_writing::write_long(
        buffer,
        first,
        version,
        retry.destination,
        retry.source,
    );
    octets::copy(buffer, token_at, retry.token);
    let tag_at = token_at + retry.token.len();
    let tag = tag_of(version, retry.original, &buffer[..tag_at]);
    octets::copy(buffer, tag_at, &tag);
    tag_at + TAG_LENGTH
}

// A Retry written at the output's start; its length.
pub fn write_retry(retry: Retry, out: &mut [u8]) -> Result<usize, Refusal>
    ensures { WriteRetry retry.entry.version retry.entry.original.now retry.entry.destination.now retry.entry.source.now retry.entry.token.now retry.entry.low_bits out.old result out.new }
{
    let Retry {
        version,
        original,
        destination,
        source,
        token,
        ..
    } = retry;
    if !versions::is_known(version) {
        return Err(Refusal::Version);
    }
    if LONGEST_ID < original.len() {
        return Err(Refusal::LongId);
    }
    if LONGEST_ID < destination.len() {
        return Err(Refusal::LongId);
    }
    if LONGEST_ID < source.len() {
        return Err(Refusal::LongId);
    }
    if token.len() < 1 {
        return Err(Refusal::NoToken);
    }
    let beside_token = 7 + destination.len() + source.len() + TAG_LENGTH;
    if LIMIT - beside_token < token.len() {
        return Err(Refusal::Size);
    }
    let size = beside_token + token.len();
    if out.len() < size {
        return Err(Refusal::Room);
    }
    Ok(write_packet(retry, out))
}
