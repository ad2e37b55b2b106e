// RFC 9000 sections 16 and 17.1 for C: integers of variable length, and packet numbers short and full.
#![tactic(auto)]

ghost use Rattle.std.specs.Prelude.{◌≡◌, [], ◌∷◌};
ghost use Rattle.c_numbers.specs.Promises.{DwReadInteger, DwSmallestLength, DwShorten, DwRecover};

use c_forms::acknowledged_by;
use numbers::{FullPn, TruncatedPn};

// Section 16: reports the value of the integer at the start, and the bytes it took.
pub fn read_integer(bytes: &[u8], report: &mut [u64; 2]) -> u32
    ensures { DwReadInteger bytes.now report.old result report.new }
{
    let read = integers::read_integer(bytes);
    let numbers = read.map(
        |integer|
            ensures { result ≡ integer.value ∷ integer.taken ∷ [] }
        { [integer.value, integer.taken as u64] },
    );
    c_forms::report(numbers, report)
}

// Section 17.1: reports the fewest bytes that tell the number apart.
pub fn smallest_length(
    number: u64,
    any_acknowledged: u32,
    acknowledged: u64,
    report: &mut [u64; 1],
) -> u32
    ensures { DwSmallestLength number any_acknowledged acknowledged report.old result report.new }
{
    let acknowledged = acknowledged_by(any_acknowledged, acknowledged);
    let smallest = numbers_shortening::smallest_length(FullPn(number), acknowledged);
    let numbers = smallest.map(
        |count|
            ensures { result ≡ count ∷ [] }
        { [count as u64] },
    );
    c_forms::report(numbers, report)
}

// Section 17.1: reports the number in `length` bytes.
pub fn shorten(
    number: u64,
    any_acknowledged: u32,
    acknowledged: u64,
    length: usize,
    report: &mut [u64; 1],
) -> u32
    ensures { DwShorten number any_acknowledged acknowledged length report.old result report.new }
{
    let acknowledged = acknowledged_by(any_acknowledged, acknowledged);
    let shortened = numbers_shortening::shorten(FullPn(number), acknowledged, length);
    let numbers = shortened.map(
        |short|
            ensures { result ≡ short.0 ∷ [] }
        { [short.0] },
    );
    c_forms::report(numbers, report)
}

// Appendix A.3: reports the full number that a short one stands for.
pub fn recover(expected: u64, truncated: u64, length: usize, report: &mut [u64; 1]) -> u32
    ensures { DwRecover expected truncated length report.old result report.new }
{
    let recovered = numbers_recovery::recover(expected, TruncatedPn(truncated), length);
    let numbers = recovered.map(
        |full|
            ensures { result ≡ full.0 ∷ [] }
        { [full.0] },
    );
    c_forms::report(numbers, report)
}
