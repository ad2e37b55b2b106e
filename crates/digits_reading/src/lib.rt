// Digits read: the value of each, how many stand at a text's start, and the bytes that pairs of hex digits spell.
#![tactic(auto)]

ghost use Rattle.std.specs.Prelude.{◌≡◌, ◌≤◌, min, length};
ghost use Rattle.std.specs.Counts.{IsPrefixLen};
ghost use Rattle.digits_reading.specs.Digits.{value_of, run, Decoded};

// The value of a digit, in either case; 16 for any other character.
// Kept: 16 and no Option, as `value_of` has it: whoever asks for a digit below a base asks one question, and not two.
pub fn value(character: u8) -> u8
    ensures { (result ≡ value_of character) × (result ≤ 16) }
{
    match character {
        b'0'..=b'9' => character - b'0',
        b'A'..=b'F' => character - b'A' + 10,
        b'a'..=b'f' => character - b'a' + 10,
        _ => 16,
    }
}

// How many characters stand before the first that is no digit in the base.
pub fn digits(text: &[u8], base: u8) -> usize
    ensures { (result ≡ run base text.now) × (result ≤ length text.now) }
{
    text.iter()
        .position(|character| base <= value(*character))
        .unwrap_or(text.len())
}

// The bytes that pairs of hex digits spell, put at the buffer's start as far as there is room; how many there are. A character that
// is no digit counts as 0.
pub fn decode(text: &[u8], buffer: &mut [u8]) -> usize
    ensures prefix_len { IsPrefixLen result buffer.new }
    ensures decoded { Decoded text.now buffer.old buffer.new result }
{
    let count = (text.len() / 2).min(buffer.len());
    for i in 0..count {
        buffer[i] = value(text[2 * i]) % 16 * 16 + value(text[2 * i + 1]) % 16;
    }
    count
}
