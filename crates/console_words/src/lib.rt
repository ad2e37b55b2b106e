// A word of a call, judged by the name that the manual has for it.
#![tactic(auto)]

ghost use Rattle.std.specs.Prelude.{◌≡◌};
ghost use Rattle.console_words.specs.Words.{is_hex, is_number, is_side, is_count, is_right};
ghost use Rattle.terminal.specs.Pages.{FailureStays};

use digits_numbers::{NumberError, read_number};
use digits_reading::digits;
use terminal::Page;
use terminal_words::same;

// The largest version.
pub const VERSIONS: u64 = 0xffffffff;

// What is wrong with something of a name follows.
pub fn wrong(page: &mut Page, name: &[u8])
    ensures { FailureStays page.old page.new }
{
    page.say(b"wrong ");
    page.say(name);
    page.say(b": ");
}

// Whether a word is hex, or the mark for nothing; where not, it is said why.
pub fn is_hex(page: &mut Page, text: &[u8], name: &[u8]) -> bool
    ensures { result ≡ is_hex text.now }
{
    if same(text, b"-") {
        return true;
    }
    let good = digits(text, 16);
    if good < text.len() {
        let (place, all) = (good as u64 + 1, text.len());
        wrong(page, name);
        page.show(format_args!("character {place} of {all} is no hex digit\n"));
        return false;
    }
    if text.len() % 2 != 0 {
        let all = text.len();
        wrong(page, name);
        page.show(format_args!("{all} hex digits, an odd count\n"));
        return false;
    }
    true
}

// Whether a word is a number up to some largest one; where not, it is said why.
fn is_number(page: &mut Page, text: &[u8], name: &[u8], largest: u64) -> bool
    ensures { result ≡ is_number largest text.now }
{
    match read_number(text) {
        Ok(value) if value <= largest => return true,
        Err(NumberError::NoNumber) => {
            wrong(page, name);
            page.say(b"no number, which is decimal digits, or 0x and hex digits\n");
            return false;
        }
        _ => {}
    }
    wrong(page, name);
    page.show(format_args!("too large, at most {largest}\n"));
    false
}

// Whether a word names a side; where not, it is said why.
fn is_side(page: &mut Page, text: &[u8], name: &[u8]) -> bool
    ensures { result ≡ is_side text.now }
{
    // Kept: tried as a match on byte strings, whose proof didn't close (a goal for each character that may differ, over a dozen here).
    if same(text, b"client") {
        return true;
    }
    if same(text, b"server") {
        return true;
    }
    wrong(page, name);
    page.say(b"neither client nor server\n");
    false
}

// Whether a name of the manual asks for a number.
// Kept: as is_side, and so is is_right.
fn is_count(name: &[u8]) -> bool
    ensures { result ≡ is_count name.now }
{
    if same(name, b"NUMBER") {
        return true;
    }
    if same(name, b"LENGTH") {
        return true;
    }
    if same(name, b"EXPECTED") {
        return true;
    }
    same(name, b"LOW-BITS")
}

// Whether a word is what the manual's name for it asks; where not, it is said why.
pub fn is_right(page: &mut Page, text: &[u8], name: &[u8]) -> bool
    ensures { result ≡ is_right text.now name.now }
{
    if same(name, b"VERSION") {
        return is_number(page, text, name, VERSIONS);
    }
    if same(name, b"client|server") {
        return is_side(page, text, name);
    }
    if same(name, b"ACKNOWLEDGED") {
        if same(text, b"-") {
            return true;
        }
        return is_number(page, text, name, u64::MAX);
    }
    if is_count(name) {
        return is_number(page, text, name, u64::MAX);
    }
    if same(name, b"FILE") {
        return true;
    }
    is_hex(page, text, name)
}
