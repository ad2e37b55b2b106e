// RFC 9001 sections 5.1 and 5.2: keys made of a connection ID, and of a secret.
ghost use Rattle.std.specs.Prelude.{◌≡◌};
ghost use Rattle.protection.specs.KeyRecord.{keys_of};
ghost use Rattle.keys.specs.Answers.{blank_keys};
ghost use Rattle.vectors.specs.Records.{record_named};
ghost use Rattle.terminal.specs.Pages.{FailureStays};

use crate::{fields, print};
use console::fields::{END, number};
use keys::install_keys;
use keys_expansion::keys_from;
use octets::refusal::Refusal;
use protection::Keys;
use terminal::Page;
use terminal_words::{count, word};
use wicket_words::{initial_of, side, version};

// Keys, or why there are none.
fn show(page: &mut Page, made: Result<Keys, Refusal>)
    ensures { FailureStays page.old page.new }
{
    let names = b"level,key,iv,hp";
    match made {
        Err(why) => print::refusal(page, why),
        Ok(keys) => {
            page.say(b"made");
            print::more(page, names, 0, keys.level as u64);
            print::part(page, names, 1, &keys.key);
            print::part(page, names, 2, &keys.iv);
            print::part(page, names, 3, &keys.hp);
        }
    }
    print::end(page);
}

// keys VERSION ID client|server
pub fn keys(page: &mut Page, line: &[u8])
    ensures { FailureStays page.old page.new }
{
    show(page, initial_of(line));
}

// install VERSION LEVEL client|server SECRET: the level is a number, up to 32 bits
pub fn install(page: &mut Page, line: &[u8])
    ensures { FailureStays page.old page.new }
{
    let level = number(line, 2) % 0x100000000;
    let secret = fields::array(line, 4);
    show(
        page,
        install_keys(version(line, 1), level as u32, side(line, 3), &secret),
    );
}

// The record that stands for keys that are refused.
fn blank() -> Keys
    ensures { keys_of result ≡ blank_keys }
{
    Keys {
        version: 0,
        level: 0,
        key: [0; 16],
        iv: [0; 12],
        hp: [0; 16],
    }
}

// The keys of a call on packets: VERSION ID client|server, and blank ones where they are refused; or VERSION LEVEL:SECRET, a record
// whose version and level byte may be any, as a caller in C may hand it over.
pub fn record_of(line: &[u8]) -> Keys
    ensures { keys_of result ≡ record_named line.now }
{
    let origin = word(line, 2, END);
    if count(origin, b':') != 2 {
        return initial_of(line).unwrap_or(blank());
    }
    let level = fields::byte(word(origin, 0, b':'));
    let mut secret = [0u8; 32];
    digits_reading::decode(word(origin, 1, b':'), &mut secret);
    keys_from(version(line, 1), level, &secret)
}
