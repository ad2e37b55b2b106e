// wicket keys, wicket install.
ghost use Rattle.terminal.specs.Pages.{FailureStays};

use console::answers;
use octets::refusal::Refusal;
use protection::Keys;
use terminal::Page;
use wicket_words::{initial_of, installed_of};

// Keys, or why there are none.
fn show(page: &mut Page, made: Result<Keys, Refusal>)
    ensures { FailureStays page.old page.new }
{
    match made {
        Err(why) => answers::refused(page, why.number()),
        Ok(keys) => {
            answers::hex_word(page, b"version", keys.version);
            answers::level(page, b"level", keys.level);
            answers::bytes(page, b"key", &keys.key);
            answers::bytes(page, b"iv", &keys.iv);
            answers::bytes(page, b"hp", &keys.hp);
        }
    }
}

// wicket keys VERSION ID client|server
pub fn keys(page: &mut Page, line: &[u8])
    ensures { FailureStays page.old page.new }
{
    show(page, initial_of(line));
}

// wicket install VERSION LEVEL client|server SECRET
pub fn install(page: &mut Page, line: &[u8])
    ensures { FailureStays page.old page.new }
{
    show(page, installed_of(line));
}
