// A file read by lines, however long it is, through a chunk that the caller lends.
ghost use Rattle.std.specs.Prelude.{◌≡◌, ◌<◌, IfErr, IfOk, IfSome};
ghost use Rattle.std.specs.Counts.{IsPrefixLen};
ghost use Rattle.terminal.specs.Blanks.{unblanked, zeroed};

use std::io;
use std::io::Read;

// A file that is being read, and the part of the chunk that is still to be taken.
#[derive(Drop)]
struct Source<R> {
    file: R,
    at: usize,
    end: usize,
}

// Why a line is not given: it does not fit, or it cannot be read.
#[derive(Clone, Copy, Debug, PartialEq, Eq)]
enum LineError {
    TooLong,
    Unread,
}

impl<R: Read> Source<R> {
    // A file from its start on.
    fn from_start(file: R) -> Source<R>
        ensures { (result.file ≡ file) × (result.at ≡ 0) × (result.end ≡ 0) }
    {
        Source {
            file,
            at: 0,
            end: 0,
        }
    }

    // The next chunk is read, and its first character taken; nothing at the file's end.
    fn refill(&mut self, chunk: &mut [u8]) -> io::Result<Option<u8>> {
        let end = self.file.read(chunk)?;
        if end == 0 {
            return Ok(None);
        }
        self.at = 1;
        self.end = end;
        Ok(Some(chunk[0]))
    }

    // The next character of a file, and nothing at its end.
    fn next(&mut self, chunk: &mut [u8]) -> io::Result<Option<u8>> {
        let at = self.at;
        if at < self.end && at < chunk.len() {
            self.at = at + 1;
            return Ok(Some(chunk[at]));
        }
        self.refill(chunk)
    }

    // The rest of a line is passed over.
    fn skip_line(&mut self, chunk: &mut [u8]) {
        for _turn in 0..u64::MAX {
            match self.next(chunk) {
                Ok(Some(byte)) if byte != b'\n' => {}
                _ => return,
            }
        }
    }

    // The next line, without its end, put at the start of a buffer: how long it is, and nothing at the file's end. A line that does
    // not fit is passed over.
    fn read_line(&mut self, chunk: &mut [u8], line: &mut [u8]) -> Result<Option<usize>, LineError>
        ensures { IfOk result (λ found. IfSome found (λ length. IsPrefixLen length line.new)) }
    {
        for taken in 0..line.len() {
            match self.next(chunk) {
                Ok(Some(b'\n')) => return Ok(Some(taken)),
                Ok(Some(byte)) => line[taken] = byte,
                Ok(None) => return Ok(if taken == 0 { None } else { Some(taken) }),
                Err(_) => return Err(LineError::Unread),
            }
        }
        self.skip_line(chunk);
        Err(LineError::TooLong)
    }
}

// What is done with the lines of a file, each with its number, counted from 1.
pub trait Lines {
    fn take(&mut self, number: u64, text: &mut [u8]);

    fn too_long(&mut self, number: u64);
}

// Each line of a file is taken, until it ends; or the number of the line that cannot be read.
// Kept: a length from `read_line` beside `text`; `Lines` gets the slice, which it may write into.
pub fn each_line<R: Read + Drop>(
    file: R,
    chunk: &mut [u8],
    text: &mut [u8],
    lines: &mut impl Lines,
) -> Result<(), u64>
    ensures { IfErr result (λ number. 0 < number) }
{
    let mut source = Source::from_start(file);
    for passed in 0..u64::MAX {
        let number = passed + 1;
        match source.read_line(chunk, text) {
            Ok(Some(length)) => lines.take(number, &mut text[..length]),
            Ok(None) => return Ok(()),
            Err(LineError::TooLong) => lines.too_long(number),
            Err(LineError::Unread) => return Err(number),
        }
    }
    Ok(())
}

// Each character of a text that is a blank, a tab or a carriage return becomes a zero.
pub fn blanks_to_zeros(text: &mut [u8])
    ensures { text.new ≡ zeroed text.old }
{
    for character in text.iter_mut() {
        *character = without_blank(*character);
    }
}

// A zero for a blank, a tab or a carriage return, and any other character as it is.
fn without_blank(character: u8) -> u8
    ensures { result ≡ unblanked character }
{
    match character {
        b' ' | b'\t' | b'\r' => 0,
        other => other,
    }
}
