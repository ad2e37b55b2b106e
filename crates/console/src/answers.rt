// What is answered: a row for each value, and a refusal by its number and its words.
ghost use Rattle.std.specs.Prelude.{◌≡◌};
ghost use Rattle.terminal.specs.Pages.{FailureStays};
ghost use Rattle.console.specs.Answers.{inside};

use octets::refusal::Refusal;
use terminal::Page;

// The width of a row's label.
const LABEL: usize = 15;

// A refusal by its number, as a line: no words where no refusal has it, and of 0 that it is none.
// Kept: a number, and no Refusal, which would ask more of callers.
pub fn refused(page: &mut Page, number: u8)
    ensures { FailureStays page.old page.new }
{
    match Refusal::numbered(number) {
        Some(why) => page.show(format_args!("refused {number}: {why}\n")),
        None if number == 0 => page.say(b"refused 0: no refusal\n"),
        None => page.show(format_args!("refused {number}: \n")),
    }
}

// A row of bytes.
pub fn bytes(page: &mut Page, label: &[u8], value: &[u8])
    ensures { FailureStays page.old page.new }
{
    page.left(label, LABEL);
    page.hex(value);
    page.say(b"\n");
}

// A row of a number.
pub fn number(page: &mut Page, label: &[u8], value: u64)
    ensures { FailureStays page.old page.new }
{
    page.left(label, LABEL);
    page.show(format_args!("{value}\n"));
}

// A row of a word of 32 bits, in hex.
pub fn hex_word(page: &mut Page, label: &[u8], value: u32)
    ensures { FailureStays page.old page.new }
{
    page.left(label, LABEL);
    page.show(format_args!("0x{value:08x}\n"));
}

// A row of a level, by its name (RFC 9001 section 4), and by nothing where it has none.
pub fn level(page: &mut Page, label: &[u8], value: u8)
    ensures { FailureStays page.old page.new }
{
    let name = match value {
        0 => "initial",
        1 => "0-rtt",
        2 => "handshake",
        _ => "",
    };
    page.left(label, LABEL);
    page.show(format_args!("{name}\n"));
}

// A count of bytes.
fn counted(page: &mut Page, count: usize)
    ensures { FailureStays page.old page.new }
{
    let unit = if count == 1 { "byte" } else { "bytes" };
    page.show(format_args!("{count} {unit}"));
}

// The rest of a row: bytes, if there are any.
fn listed(page: &mut Page, value: &[u8])
    ensures { FailureStays page.old page.new }
{
    if !value.is_empty() {
        page.say(b": ");
        page.hex(value);
    }
    page.say(b"\n");
}

// A row of a part of something: how long it is, where it stands, its bytes.
pub fn part(page: &mut Page, label: &[u8], length: usize, at: usize, value: &[u8])
    ensures { FailureStays page.old page.new }
{
    page.left(label, LABEL);
    counted(page, length);
    page.show(format_args!(" at {at}"));
    listed(page, value);
}

// A row of bytes with their count in front.
pub fn sized(page: &mut Page, label: &[u8], value: &[u8])
    ensures { FailureStays page.old page.new }
{
    page.left(label, LABEL);
    counted(page, value.len());
    listed(page, value);
}

// The bytes of a buffer from a place on, and nothing where they are not all there.
pub fn within(buffer: &[u8], start: usize, length: usize) -> &[u8]
    ensures { result.now ≡ inside buffer.now start length }
{
    if buffer.len() < start {
        return &buffer[..0];
    }
    if buffer.len() - start < length {
        return &buffer[..0];
    }
    let end = start + length;
    &buffer[start..end]
}
