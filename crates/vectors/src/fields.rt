// The words of a call that stand for bytes. They are hex, and - is no bytes; 55:3:7 is 55 bytes, the first of them 3 and each 7
// above the one before it, modulo 256.
ghost use Rattle.std.specs.Prelude.{◌≡◌, ◌≤◌, length};
ghost use Rattle.std.specs.Counts.{IsPrefixLen};
ghost use Rattle.vectors.specs.Records.{byte_spelt};

use console::fields::{END, number, value};
use digits_reading::decode;
use terminal_words::{count, word};

// The last byte of the number that a text spells.
pub fn byte(text: &[u8]) -> u8
    ensures { result ≡ byte_spelt text.now }
{
    (value(text) % 256) as u8
}

// The number of bytes that a word spells, as far as a buffer reaches.
fn room(line: &[u8], index: usize, buffer: &[u8]) -> usize
    ensures { IsPrefixLen result buffer.now }
{
    buffer.len().min(number(line, index) as usize)
}

// As much of a buffer as a word says, as far as it reaches.
pub fn within<'a>(line: &[u8], index: usize, buffer: &'a mut [u8]) -> &'a mut [u8]
    ensures { length result.now ≤ length buffer.old }
{
    let size = room(line, index, buffer);
    &mut buffer[..size]
}

// Bytes that go up by a step, modulo 256: so many, as far as there is room; how many there are.
fn fill(out: &mut [u8], count: usize, first: u8, step: u8) -> usize
    ensures { IsPrefixLen result out.new }
{
    let end = out.len().min(count);
    let mut byte = first;
    for place in &mut out[..end] {
        *place = byte;
        byte = byte.wrapping_add(step);
    }
    end
}

// The bytes that a word names, put at the buffer's start as far as there is room; how many there are.
fn spell(line: &[u8], index: usize, buffer: &mut [u8]) -> usize
    ensures { IsPrefixLen result buffer.new }
{
    let text = word(line, index, END);
    if count(text, b':') != 3 {
        return decode(text, buffer);
    }
    let length = value(word(text, 0, b':')) as usize;
    let first = byte(word(text, 1, b':'));
    let step = byte(word(text, 2, b':'));
    fill(buffer, length, first, step)
}

// The bytes that a word names, as many as there is room for in a buffer.
pub fn bytes<'a>(line: &[u8], index: usize, buffer: &'a mut [u8]) -> &'a [u8]
    ensures { length result.now ≤ length buffer.old }
{
    let size = spell(line, index, buffer);
    &buffer[..size]
}

// The bytes that a word names, as many as there are in an array of zeros.
pub fn array<const N: usize>(line: &[u8], index: usize) -> [u8; N]
    ensures { length result ≡ N }
{
    let mut bytes = [0u8; N];
    spell(line, index, &mut bytes);
    bytes
}

// A packet in a buffer of zeros; and where PLACE, BYTE and SIZE stand behind it, the packet with the byte of a place changed, and so
// many bytes of it.
pub fn packet<'a>(line: &[u8], index: usize, buffer: &'a mut [u8]) -> &'a [u8]
    requires { index ≤ 16 }
    ensures { length result.now ≤ length buffer.old }
{
    let size = spell(line, index, buffer);
    if count(line, END) <= index + 3 {
        return &buffer[..size];
    }
    if let Some(changed) = buffer.get_mut(number(line, index + 1) as usize) {
        *changed = byte(word(line, index + 2, END));
    }
    let size = room(line, index + 3, buffer);
    &buffer[..size]
}
