// wicket script: the calls of a file, one after the other; and the program's own call.
use crate::commands;
use console::arguments::{TooLong, gather};
use console::fields::END;
use console::files;
use console_calls::is_well_made;
use console_words::wrong;
use std::env::Env;
use std::io::Input;
use std::rt::Files;
use terminal::Page;
use terminal::lines::{Lines, blanks_to_zeros, each_line};
use terminal_words::word;

// The calls of a script, and the page that they are answered on.
#[derive(Drop)]
struct Calls<'a, R> {
    rt: &'a R,
    page: &'a mut Page,
    manual: &'a [u8],
}

impl<R: Files + Input> Lines for Calls<'_, R> {
    // A call, which is shown before its answer, or a comment or nothing, which is shown.
    fn take(&mut self, _number: u64, text: &mut [u8]) {
        if files::is_comment(text) {
            self.page.say(text);
            self.page.say(b"\n");
            return;
        }
        self.page.say(b"$ wicket ");
        self.page.say(text);
        self.page.say(b"\n");
        blanks_to_zeros(text);
        commands::call(self.rt, self.page, text, self.manual);
    }

    fn too_long(&mut self, number: u64) {
        files::too_long(self.page, number);
    }
}

// wicket script FILE
fn script(rt: &(impl Files + Input), page: &mut Page, path: &[u8], manual: &[u8]) {
    let Some(mut file) = files::open(rt, page, path) else {
        return;
    };
    let mut chunk = [0u8; 4096];
    let mut text = [0u8; 65536];
    let mut calls = Calls { rt, page, manual };
    if let Err(number) = each_line(&mut file, &mut chunk, &mut text, &mut calls) {
        files::unread(calls.page, number);
    }
}

// A call that is a script, or any other command.
fn start(rt: &(impl Files + Input), page: &mut Page, line: &[u8], manual: &[u8]) {
    if word(line, 0, END) == b"script".as_slice() {
        if is_well_made(page, line, manual) {
            script(rt, page, word(line, 1, END), manual);
        }
        return;
    }
    commands::call(rt, page, line, manual);
}

// The program's own call, by its arguments.
pub fn program(rt: &(impl Env + Files + Input), page: &mut Page, manual: &[u8]) {
    let mut line = [0u8; 65536];
    match gather(rt, &mut line) {
        Ok(length) => start(rt, page, &line[..length], manual),
        Err(TooLong(argument)) => {
            wrong(page, b"call");
            page.show(format_args!("no room for argument {argument}\n"));
        }
    }
}
