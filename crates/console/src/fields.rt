// The words of a call, read.
ghost use Rattle.std.specs.Prelude.{◌≡◌, length, take};
ghost use Rattle.std.specs.Counts.{IsPrefixLen};
ghost use Rattle.digits_numbers.specs.Numbers.{number_of};
ghost use Rattle.digits_reading.specs.Digits.{pairs, Decoded};
ghost use Rattle.terminal_words.specs.Words.{word_of};
ghost use Rattle.console.specs.Fields.{value_or0};

use digits_numbers::read_number;
use digits_reading::decode;
use terminal_words::word;

// What ends a word of a call.
pub const END: u8 = 0;

// The number that a text spells, and 0 where it spells none.
pub fn value(text: &[u8]) -> u64
    ensures { result ≡ value_or0 (number_of text.now) }
{
    read_number(text).unwrap_or(0)
}

// The number that a word of a call spells, and 0 where it spells none.
pub fn number(line: &[u8], index: usize) -> u64
    ensures { result ≡ value_or0 (number_of (word_of 0 line.now index)) }
{
    value(word(line, index, END))
}

// The bytes that a word of a call spells, put at the buffer's start; how many there are. A page holds more than any field may have,
// so that a longer word is refused as it would be whole.
// Kept: a length beside the buffer, for the contract says what the whole buffer holds.
pub fn bytes(line: &[u8], index: usize, buffer: &mut [u8]) -> usize
    ensures prefix_len { IsPrefixLen result buffer.new }
    ensures decoded { Decoded (word_of 0 line.now index) buffer.old buffer.new result }
{
    decode(word(line, index, END), buffer)
}

// The same bytes, handed out. What the buffer holds behind them `bytes` says, for nothing can be said here of a buffer that is lent on.
pub fn spelled<'a>(line: &[u8], index: usize, buffer: &'a mut [u8]) -> &'a [u8]
    ensures { result.now ≡ take (length buffer.old) (pairs (word_of 0 line.now index)) }
{
    let length = bytes(line, index, buffer);
    &buffer[..length]
}
