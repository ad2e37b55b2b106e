// RFC 9001 section 5.8 for C: a Retry written and checked.
#![tactic(auto)]

ghost use Rattle.std.specs.Prelude.{◌≡◌, [], ◌∷◌};
ghost use Rattle.retry_checking.specs.Answers.{fields_of};
ghost use Rattle.c_retry.specs.Promises.{retry_numbers, DwWriteRetry, DwCheckRetry};

use retry_checking::RetryFields;
use retry_writing::Retry;

// Writes a Retry at the output's start, and reports its length.
// Kept: the parameters of the function for C, as in `c_seal::seal`.
pub fn write_retry(
    version: u32,
    original: &[u8],
    destination: &[u8],
    source: &[u8],
    token: &[u8],
    low_bits: u64,
    out: &mut [u8],
    report: &mut [u64; 1],
) -> u32
    ensures { DwWriteRetry version original.now destination.now source.now token.now low_bits report.old result report.new out.old out.new }
{
    let retry = Retry {
        version,
        original,
        destination,
        source,
        token,
        low_bits,
    };
    let written = retry_writing::write_retry(retry, out);
    let numbers = written.map(
        |size|
            ensures { result ≡ size ∷ [] }
        { [size as u64] },
    );
    c_forms::report(numbers, report)
}

// What is reported of a Retry that was checked.
fn retry_numbers(fields: RetryFields) -> [u64; 7]
    ensures { result ≡ retry_numbers (fields_of fields) }
{
    [
        fields.version as u64,
        fields.destination.at as u64,
        fields.destination.len as u64,
        fields.source.at as u64,
        fields.source.len as u64,
        fields.token.at as u64,
        fields.token.len as u64,
    ]
}

// Checks a Retry, and reports the version, and place and length of both IDs and of the token.
pub fn check_retry(original: &[u8], datagram: &[u8], report: &mut [u64; 7]) -> u32
    ensures { DwCheckRetry original.now datagram.now report.old result report.new }
{
    let checked = retry_checking::check_retry(original, datagram);
    c_forms::report(checked.map(retry_numbers), report)
}
