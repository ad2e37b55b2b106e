// The input, line by line: a label, = and a call. A line without = is a comment.
use crate::{cipher, counts, hash, headers, making, opening, print, retrying, sealing};
use console::fields::END;
use std::io::Input;
use terminal::Page;
use terminal::lines::{Lines, blanks_to_zeros, each_line};
use terminal_words::{next_separator, word};

// A call, by its command.
fn call(page: &mut Page, line: &[u8]) {
    match word(line, 0, END) {
        b"integer" => counts::integer(page, line),
        b"length" => counts::length(page, line),
        b"shorten" => counts::short(page, line),
        b"recover" => counts::full(page, line),
        b"sha256" => hash::sha256(page, line),
        b"sha256-blocks" => hash::sha256_blocks(page, line),
        b"hmac" => hash::hmac(page, line),
        b"extract" => hash::extract(page, line),
        b"expand" => hash::expand(page, line),
        b"expand-label" => hash::expand_label(page, line),
        b"aes" => cipher::aes(page, line),
        b"aes-words" => cipher::aes_words(page, line),
        b"aes-mask" => cipher::aes_mask(page, line),
        b"aes-schedule" => cipher::aes_schedule(page, line),
        b"aes-s-box" => cipher::aes_s_box(page),
        b"gcm" => cipher::gcm(page, line),
        b"keys" => making::keys(page, line),
        b"install" => making::install(page, line),
        b"seal" => sealing::seal(page, line),
        b"seal-long" => sealing::seal_long(page, line),
        b"open" => opening::open(page, line),
        b"retry" => retrying::retry(page, line),
        b"check-retry" => retrying::check(page, line),
        b"header" => headers::header(page, line),
        _ => print::no_command(page),
    }
}

// The lines of the input, and the page that they are answered on.
#[derive(Drop)]
struct Vectors<'a> {
    page: &'a mut Page,
}

impl Lines for Vectors<'_> {
    // A line's label is shown, and then its answer.
    fn take(&mut self, _number: u64, text: &mut [u8]) {
        let end = next_separator(text, 0, b'=');
        if end == text.len() {
            return;
        }
        self.page.say(&text[..end]);
        self.page.say(b"= ");
        blanks_to_zeros(text);
        call(self.page, &text[end + 1..]);
    }

    fn too_long(&mut self, _number: u64) {
        print::too_long(self.page);
    }
}

// The standard input, until it ends or cannot be read.
pub fn run(rt: &impl Input, page: &mut Page) {
    let mut chunk = [0u8; 4096];
    let mut text = [0u8; 65536];
    let mut input = rt.reader();
    let mut vectors = Vectors { page };
    let _ = each_line(&mut input, &mut chunk, &mut text, &mut vectors);
}
