// Files that a call names.
ghost use Rattle.std.specs.Prelude.{true, ◌≡◌, ◌+◌, ◌-◌, ◌^◌, min};
ghost use Rattle.octets.specs.Octets as Octets;
ghost use Rattle.terminal.specs.Pages.{FailureStays};
ghost use Rattle.console.specs.Fields.{dash};
ghost use Rattle.console.specs.Files.{is_comment, IsStandardInput};

use std::io::{Input, Read};
use std::rt::Files;
use std::{fs, io, str};
use terminal::Page;
use terminal_words::{count, same};

// What a call names to be read: standard input, or a file.
#[derive(Drop)]
pub enum Readable<S, F> {
    StandardInput(S),
    File(F),
}

impl<S: Read, F: Read> Read for Readable<S, F> {
    fn read(&mut self, buffer: &mut [u8]) -> io::Result<usize> {
        match self {
            Readable::StandardInput(input) => input.read(buffer),
            Readable::File(file) => file.read(buffer),
        }
    }
}

// The file of a name, where there is one that can be opened: a name is text.
fn file_of<R: Files>(rt: &R, path: &[u8]) -> Option<R::File> {
    let name = str::from_utf8(path).ok()?;
    fs::open(rt, name).ok()
}

// What is to be read, - being standard input; nothing where it cannot be opened, which is said.
pub fn open<R: Files + Input>(
    rt: &R,
    page: &mut Page,
    path: &[u8],
) -> Option<Readable<R::Reader, R::File>>
    ensures { Octets.same path.now dash ≡ true → IsStandardInput result }
{
    if same(path, b"-") {
        return Some(Readable::StandardInput(rt.reader()));
    }
    if let Some(file) = file_of(rt, path) {
        return Some(Readable::File(file));
    }
    page.say(b"cannot open ");
    page.say(path);
    page.say(b"\n");
    None
}

// Whether a line is a comment, or has no word.
pub fn is_comment(text: &[u8]) -> bool
    ensures { result ≡ is_comment text.now }
{
    if count(text, b' ') == 0 {
        return true;
    }
    text[0] == b'#'
}

// A line that is too long is passed over.
pub fn too_long(page: &mut Page, line: u64)
    ensures { FailureStays page.old page.new }
{
    page.show(format_args!("line {line} is too long\n"));
}

// A line cannot be read.
pub fn unread(page: &mut Page, line: u64)
    ensures { FailureStays page.old page.new }
{
    page.show(format_args!("line {line} cannot be read\n"));
}

// The number behind one that counts lines or datagrams; the largest stays.
pub fn next(number: u64) -> u64
    ensures { result ≡ min (number + 1) (2 ^ 64 - 1) }
{
    number.saturating_add(1)
}
