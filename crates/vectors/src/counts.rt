// RFC 9000 section 16, section 17.1 and appendix A: integers, and packet numbers short and full.
ghost use Rattle.terminal.specs.Pages.{FailureStays};

use crate::{fields, print};
use console::fields::number;
use integers::{Integer, read_integer};
use numbers::{FullPn, TruncatedPn};
use numbers_recovery::recover;
use numbers_shortening::{shorten, smallest_length};
use terminal::Page;
use wicket_words::acknowledged;

// integer BYTES
pub fn integer(page: &mut Page, line: &[u8])
    ensures { FailureStays page.old page.new }
{
    let mut bytes = [0u8; 16];
    match read_integer(fields::bytes(line, 1, &mut bytes)) {
        Err(why) => print::refusal(page, why),
        Ok(Integer { value, taken }) => page.show(format_args!("{value} in {taken}")),
    }
    print::end(page);
}

// length NUMBER ACKNOWLEDGED
pub fn length(page: &mut Page, line: &[u8])
    ensures { FailureStays page.old page.new }
{
    let count = smallest_length(FullPn(number(line, 1)), acknowledged(line, 2));
    print::answer(page, count.map(|bytes| bytes as u64));
}

// shorten NUMBER ACKNOWLEDGED LENGTH
pub fn short(page: &mut Page, line: &[u8])
    ensures { FailureStays page.old page.new }
{
    let length = number(line, 3) as usize;
    let truncated = shorten(FullPn(number(line, 1)), acknowledged(line, 2), length);
    print::answer(page, truncated.map(|number| number.0));
}

// recover EXPECTED TRUNCATED LENGTH
pub fn full(page: &mut Page, line: &[u8])
    ensures { FailureStays page.old page.new }
{
    let length = number(line, 3) as usize;
    let full = recover(number(line, 1), TruncatedPn(number(line, 2)), length);
    print::answer(page, full.map(|number| number.0));
}
