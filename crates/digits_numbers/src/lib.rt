// Numbers read: what digits spell in a base, and what a text spells.
#![tactic(auto)]

ghost use Rattle.std.specs.Prelude.{◌≡◌, ◌≤◌};
ghost use Rattle.digits_numbers.specs.Numbers.{fitting, number_in, marked, number_of};

use digits_reading::{digits, value};

// Why a text spells no number that is read: it is empty or has a character that is no digit; or the number has more than 64 bits.
#[derive(Clone, Copy, Debug, PartialEq, Eq)]
pub enum NumberError {
    NoNumber,
    TooLarge,
}

// The number that a text of digits spells in the base, where it fits 64 bits.
fn spell(text: &[u8], base: u64) -> Result<u64, NumberError>
    requires { 1 ≤ base }
    ensures { result ≡ fitting base text.now }
{
    let mut number: u64 = 0;
    for character in text {
        let digit = u64::from(value(*character));
        let shifted = number.checked_mul(base).ok_or(NumberError::TooLarge)?;
        number = shifted.checked_add(digit).ok_or(NumberError::TooLarge)?;
    }
    Ok(number)
}

// The number that a text spells in the base.
fn number_in(text: &[u8], base: u8) -> Result<u64, NumberError>
    requires { 1 ≤ base }
    ensures { result ≡ number_in base text.now }
{
    if text.is_empty() || digits(text, base) < text.len() {
        return Err(NumberError::NoNumber);
    }
    spell(text, u64::from(base))
}

// Whether a text is marked as hex: by 0x, with something behind it.
fn is_marked(text: &[u8]) -> bool
    ensures { result ≡ marked text.now }
{
    2 < text.len() && text.starts_with(b"0x")
}

// The number that a text spells: in hex behind 0x, and else in decimal.
pub fn read_number(text: &[u8]) -> Result<u64, NumberError>
    ensures { result ≡ number_of text.now }
{
    if is_marked(text) {
        return number_in(&text[2..], 16);
    }
    number_in(text, 10)
}
