// Digits written: the hex digits of bytes.
#![tactic(auto)]

ghost use Rattle.std.specs.Prelude.{◌≡◌, ◌<◌};
ghost use Rattle.std.specs.Counts.{IsPrefixLen};
ghost use Rattle.digits_writing.specs.Hex.{digit_of, Encoded};

// The hex digit of a number below 16, in lower case.
fn digit(value: u8) -> u8
    requires { value < 16 }
    ensures { result ≡ digit_of value }
{
    match value {
        0..=9 => b'0' + value,
        _ => b'a' - 10 + value,
    }
}

// Two hex digits for each byte, put at the buffer's start as far as there is room; how many characters there are.
pub fn encode(bytes: &[u8], buffer: &mut [u8]) -> usize
    ensures prefix_len { IsPrefixLen result buffer.new }
    ensures encoded { Encoded bytes.now buffer.old buffer.new result }
{
    let count = bytes.len().min(buffer.len() / 2);
    for (i, byte) in bytes[..count].iter().enumerate() {
        buffer[2 * i] = digit(*byte / 16);
        buffer[2 * i + 1] = digit(*byte % 16);
    }
    2 * count
}
