// What is printed: text, bytes in hex, and whatever can be displayed.
ghost use Rattle.std.specs.Prelude.{IsOk};
ghost use Rattle.terminal.specs.Pages.{FailureStays};

use digits_writing::encode;
use std::fmt::Display;
use std::io;
use std::io::Stdout;

// What is printed on, and how that went: behind a failure nothing more is written.
#[derive(Drop)]
pub struct Page {
    pub out: Stdout,
    pub written: io::Result<()>,
}

// How many characters of hex are written at once.
const ROW: usize = 128;

impl Page {
    // A page on which nothing stands yet.
    pub fn blank(out: Stdout) -> Page
        ensures { IsOk result.written }
    {
        Page {
            out,
            written: Ok(()),
        }
    }

    // The text, as it is.
    pub fn say(&mut self, text: &[u8])
        ensures { FailureStays self.old self.new }
    {
        if self.written.is_err() {
            return;
        }
        self.written = self.out.write_all(text);
    }

    // A value, as it displays itself: a number, a refusal's words, or what `format_args!` makes of several.
    pub fn show(&mut self, value: impl Display + Drop)
        ensures { FailureStays self.old self.new }
    {
        if self.written.is_ok() {
            self.written = self.out.print(value);
        }
    }

    // Two hex digits for each byte.
    pub fn hex(&mut self, bytes: &[u8])
        ensures { FailureStays self.old self.new }
    {
        let mut row = [0u8; ROW];
        for part in bytes.chunks(ROW / 2) {
            let count = encode(part, &mut row);
            self.say(&row[..count]);
        }
    }

    // The text in a cell of a width, at its left.
    pub fn left(&mut self, text: &[u8], width: usize)
        ensures { FailureStays self.old self.new }
    {
        self.say(text);
        for _blank in text.len()..width {
            self.say(b" ");
        }
    }
}
