// wicket receive: the datagrams of a file, one after the other, through one receiver.
ghost use Rattle.terminal.specs.Pages.{FailureStays};

use console::fields::END;
use console::{answers, fields, files};
use open_writing::Opened;
use protection::Keys;
use std::io::Input;
use std::rt::Files;
use terminal::Page;
use terminal::lines::{Lines, blanks_to_zeros, each_line};
use terminal_words::{count, word};
use wicket_words::keys_of;

// How many bytes of a payload are shown.
const SHOWN: usize = 16;

// A receiver, the page that its rows are written on, and what has come so far: datagrams that were opened and refused, and lines that
// could not be read.
#[derive(Drop)]
struct Receiver<'a> {
    page: &'a mut Page,
    keys: Keys,
    expected: u64,
    opened: u64,
    refused: u64,
    unread: u64,
}

// A packet that was opened, as a row: number, payload's length, its first bytes, and what stands behind the packet.
fn opened(page: &mut Page, found: Opened, buffer: &[u8], length: usize)
    ensures { FailureStays page.old page.new }
{
    let payload = answers::within(buffer, found.header_length, found.payload_length);
    page.show(format_args!("{:>6}{:>9}  ", found.number.0, found.payload_length));
    page.hex(&payload[..payload.len().min(SHOWN)]);
    if SHOWN < payload.len() {
        page.say(b"..");
    }
    if found.used < length {
        page.show(format_args!("  ({} bytes behind it)", length - found.used));
    }
    page.say(b"\n");
}

impl Receiver<'_> {
    // One datagram comes: a row of the answer.
    fn arrive(&mut self, text: &[u8]) {
        let mut datagram = [0u8; 4096];
        let length = digits_reading::decode(text, &mut datagram);
        let mut out = [0u8; 4096];
        match open::open(self.keys, &mut self.expected, &datagram[..length], &mut out) {
            Err(why) => {
                answers::refused(self.page, why.number());
                self.refused = files::next(self.refused);
            }
            Ok(found) => {
                opened(self.page, found, &out, length);
                self.opened = files::next(self.opened);
            }
        }
    }

    // One more line could not be read.
    fn miss(&mut self) {
        self.unread = files::next(self.unread);
    }

    // What came of all.
    fn summary(&mut self) {
        answers::number(self.page, b"opened", self.opened);
        answers::number(self.page, b"refused", self.refused);
        answers::number(self.page, b"not read", self.unread);
        answers::number(self.page, b"expected then", self.expected);
    }
}

impl Lines for Receiver<'_> {
    // A datagram, or a comment or nothing, which is shown.
    fn take(&mut self, number: u64, text: &mut [u8]) {
        if files::is_comment(text) {
            self.page.say(text);
            self.page.say(b"\n");
            return;
        }
        blanks_to_zeros(text);
        let words = count(text, END);
        if words == 0 {
            return;
        }
        self.page.show(format_args!("{number:>5}  "));
        if words != 1 {
            console_words::wrong(self.page, b"line");
            self.page.say(b"more than one word\n");
            return self.miss();
        }
        let datagram = word(text, 0, END);
        if !console_words::is_hex(self.page, datagram, b"datagram") {
            return self.miss();
        }
        self.arrive(datagram);
    }

    fn too_long(&mut self, number: u64) {
        files::too_long(self.page, number);
        self.miss();
    }
}

// All lines of a file that a call names, with the keys that it names.
fn receive_with(rt: &(impl Files + Input), page: &mut Page, keys: Keys, line: &[u8]) {
    let Some(mut file) = files::open(rt, page, word(line, 5, END)) else {
        return;
    };
    let mut chunk = [0u8; 4096];
    let mut text = [0u8; 65536];
    page.say(b" line  number  payload  its first bytes\n");
    let mut receiver = Receiver {
        page,
        keys,
        expected: fields::number(line, 4),
        opened: 0,
        refused: 0,
        unread: 0,
    };
    if let Err(number) = each_line(&mut file, &mut chunk, &mut text, &mut receiver) {
        files::unread(receiver.page, number);
    }
    receiver.summary();
}

// wicket receive VERSION ID|LEVEL:SECRET client|server EXPECTED FILE
pub fn receive(rt: &(impl Files + Input), page: &mut Page, line: &[u8]) {
    match keys_of(line) {
        Err(why) => answers::refused(page, why.number()),
        Ok(keys) => receive_with(rt, page, keys, line),
    }
}
