// RFC 9000 appendix A.3: the full number that a short one stands for.
#![tactic(auto)]

ghost use Rattle.std.specs.Prelude.{◌≡◌, ◌≤◌, ◌<◌};
ghost use Rattle.numbers.specs.Numbers.{numbers, window};
ghost use Rattle.numbers_recovery.specs.Recovery.{decoded};
ghost use Rattle.numbers_recovery.specs.Answers.{Recover};

use numbers::{FullPn, NUMBERS, TruncatedPn};
use octets::refusal::Refusal;

// Appendix A.3: the number nearest the expected one that ends in the short one, kept within 0 and 2^62.
fn decode(expected: u64, truncated: u64, length: usize) -> u64
    requires { (expected ≤ numbers) × (1 ≤ length) × (length ≤ 4) × (truncated < window length) }
    ensures { result ≡ decoded expected truncated length }
{
    let window = octets::power(8 * length);
    let half = octets::power(8 * length - 1);
    let candidate = expected / window * window + truncated;
    if candidate + half <= expected && candidate + window < NUMBERS {
        return candidate + window;
    }
    if expected + half < candidate && window <= candidate {
        return candidate - window;
    }
    candidate
}

// Appendix A.3: the full number that a short one of `length` bytes stands for, where `expected` is one above the greatest opened.
pub fn recover(expected: u64, truncated: TruncatedPn, length: usize) -> Result<FullPn, Refusal>
    ensures { Recover expected truncated length result }
{
    if NUMBERS < expected {
        return Err(Refusal::Range);
    }
    if length < 1 {
        return Err(Refusal::Length);
    }
    if 4 < length {
        return Err(Refusal::Length);
    }
    if octets::power(8 * length) <= truncated.0 {
        return Err(Refusal::Length);
    }
    let full = decode(expected, truncated.0, length);
    if NUMBERS <= full {
        return Err(Refusal::Range);
    }
    Ok(FullPn(full))
}
