// A call that is well made, by its command.
use console::fields::END;
use console_calls::is_well_made;
use console_words::wrong;
use std::io::Input;
use std::rt::Files;
use terminal::Page;
use terminal_words::word;

// A call of any command but script.
fn make(rt: &(impl Files + Input), page: &mut Page, line: &[u8]) {
    match word(line, 0, END) {
        b"keys" => crate::making::keys(page, line),
        b"install" => crate::making::install(page, line),
        b"seal" => crate::sealing::seal(page, line),
        b"seal-long" => crate::sealing::seal_long(page, line),
        b"open" => crate::opening::open(page, line),
        b"header" => crate::headers::header(page, line),
        b"retry" => crate::retrying::retry(page, line),
        b"check-retry" => crate::retrying::check(page, line),
        b"receive" => crate::receiving::receive(rt, page, line),
        _ => {
            wrong(page, b"call");
            page.say(b"a script calls no script\n");
        }
    }
}

// A call of any command but script, if it is as the manual has it.
pub fn call(rt: &(impl Files + Input), page: &mut Page, line: &[u8], manual: &[u8]) {
    if is_well_made(page, line, manual) {
        make(rt, page, line);
    }
}
