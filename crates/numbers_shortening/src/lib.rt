// RFC 9000 section 17.1: the number that is sent, in the fewest bytes that tell it apart.
#![tactic(auto)]

ghost use Rattle.std.specs.Prelude.{◌≡◌};
ghost use Rattle.numbers_shortening.specs.Shortening.{coverable, gap};
ghost use Rattle.numbers_shortening.specs.Answers.{acknowledged_of, gap_answer, SmallestLength, Shorten};

use numbers::{FullPn, NUMBERS, TruncatedPn};
use octets::refusal::Refusal;

// The smallest gap that no length covers.
const UNCOVERED: u64 = 1 << 31;

// The gap, where some length covers it.
fn covered(distance: u64) -> Result<u64, Refusal>
    ensures { gap_answer result ≡ coverable distance }
{
    if UNCOVERED <= distance {
        return Err(Refusal::Gap);
    }
    Ok(distance)
}

// How far the number stands above the greatest that the other side has acknowledged, or the number plus one if none is.
fn gap_above(number: FullPn, acknowledged: Option<FullPn>) -> Result<u64, Refusal>
    ensures { gap_answer result ≡ gap number.0 (acknowledged_of acknowledged) }
{
    if NUMBERS <= number.0 {
        return Err(Refusal::Range);
    }
    match acknowledged {
        None => covered(number.0 + 1),
        Some(greatest) => {
            if number.0 <= greatest.0 {
                return Err(Refusal::Gap);
            }
            covered(number.0 - greatest.0)
        }
    }
}

// Section 17.1: the fewest bytes that tell the number apart, from the bits of its gap.
pub fn smallest_length(number: FullPn, acknowledged: Option<FullPn>) -> Result<usize, Refusal>
    ensures { SmallestLength number acknowledged result }
{
    let distance = gap_above(number, acknowledged)?;
    let bits = 64 - u64::leading_zeros(distance);
    Ok(((bits + 1 + 7) / 8) as usize)
}

// Section 17.1: the number in `length` bytes, where so many tell it apart.
pub fn shorten(
    number: FullPn,
    acknowledged: Option<FullPn>,
    length: usize,
) -> Result<TruncatedPn, Refusal>
    ensures { Shorten number acknowledged length result }
{
    let distance = gap_above(number, acknowledged)?;
    if length < 1 {
        return Err(Refusal::Length);
    }
    if 4 < length {
        return Err(Refusal::Length);
    }
    if octets::power(8 * length - 1) <= distance {
        return Err(Refusal::Length);
    }
    Ok(TruncatedPn(number.0 % octets::power(8 * length)))
}
