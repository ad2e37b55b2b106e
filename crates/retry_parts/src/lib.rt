// RFC 9000 section 17.2.5: the parts of a Retry that is accepted, handed out as they stand in the datagram.
#![tactic(auto)]

ghost use Rattle.retry_parts.specs.Answers.{RetryPart, RetryDestination, RetrySource, RetryToken};

use header_fields::{Part, part_at};
use retry_checking::check_retry;

// The part of a Retry that is accepted, and nothing where checking refuses.
pub fn retry_part<'a>(original: &[u8], datagram: &'a [u8], part: Part) -> &'a [u8]
    ensures { RetryPart part original.now datagram.now result.now }
{
    match check_retry(original, datagram) {
        Ok(fields) => part_at(datagram, fields.place(part)),
        Err(_) => &datagram[..0],
    }
}

// The destination ID of a Retry, likewise.
// Kept: each part has an operation of its own, as docs/SCOPE.md, "Answers", asks; here and in the two below it is one call.
pub fn retry_destination<'a>(original: &[u8], datagram: &'a [u8]) -> &'a [u8]
    ensures { RetryDestination original.now datagram.now result.now }
{
    retry_part(original, datagram, Part::Destination)
}

// The source ID of a Retry, likewise.
pub fn retry_source<'a>(original: &[u8], datagram: &'a [u8]) -> &'a [u8]
    ensures { RetrySource original.now datagram.now result.now }
{
    retry_part(original, datagram, Part::Source)
}

// The token of a Retry, likewise.
pub fn retry_token<'a>(original: &[u8], datagram: &'a [u8]) -> &'a [u8]
    ensures { RetryToken original.now datagram.now result.now }
{
    retry_part(original, datagram, Part::Token)
}
