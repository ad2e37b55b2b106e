// The words of a call that name something of a packet: a version, a side, a level, the greatest number acknowledged, keys.
#![tactic(auto)]

ghost use Rattle.std.specs.Prelude.{◌≡◌};
ghost use Rattle.numbers_shortening.specs.Answers.{acknowledged_of};
ghost use Rattle.keys.specs.Answers.{Made};
ghost use Rattle.wicket_words.specs.Named.{version_at, side_at, level_named, acknowledged_at, initial_named, installed_by, installed_named, keys_named};

use console::fields;
use console::fields::END;
use digits_reading::decode;
use keys::{Side, initial_keys, install_keys};
use numbers::FullPn;
use octets::refusal::Refusal;
use protection::Keys;
use terminal_words::{count, same, word};

// The levels, as the numbers that installing takes: RFC 9001 section 4.
const INITIAL: u32 = versions::level::INITIAL as u32;

const ZERO_RTT: u32 = versions::level::ZERO_RTT as u32;

const HANDSHAKE: u32 = versions::level::HANDSHAKE as u32;

// The version that a word of a call spells, and 0, which is none, where it spells none.
pub fn version(line: &[u8], index: usize) -> u32
    ensures { result ≡ version_at line.now index }
{
    u32::try_from(fields::number(line, index)).unwrap_or(0)
}

// The side that a word of a call names.
pub fn side(line: &[u8], index: usize) -> Side
    ensures { result ≡ side_at line.now index }
{
    if same(word(line, index, END), b"server") {
        Side::Server
    } else {
        Side::Client
    }
}

// The level that a word names: Initial, where it names no other.
fn level(text: &[u8]) -> u32
    ensures { result ≡ level_named text.now }
{
    // Kept: tried as a match on byte strings, whose proof didn't close (a goal for each character that may differ, over a dozen here).
    if same(text, b"0-rtt") {
        return ZERO_RTT;
    }
    if same(text, b"handshake") {
        return HANDSHAKE;
    }
    INITIAL
}

// The greatest number acknowledged, by a word of a call; - is none.
pub fn acknowledged(line: &[u8], index: usize) -> Option<FullPn>
    ensures { acknowledged_of result ≡ acknowledged_at line.now index }
{
    if same(word(line, index, END), b"-") {
        return None;
    }
    Some(FullPn(fields::number(line, index)))
}

// The Initial keys that the first three words behind a command name: VERSION ID client|server.
pub fn initial_of(line: &[u8]) -> Result<Keys, Refusal>
    ensures { Made (initial_named line.now) result }
{
    let mut id = [0u8; 4096];
    let length = fields::bytes(line, 2, &mut id);
    initial_keys(version(line, 1), &id[..length], side(line, 3))
}

// The keys of a level and a secret, for the version and the side that the first and the third word behind a command name.
fn install(line: &[u8], name: &[u8], digits: &[u8]) -> Result<Keys, Refusal>
    ensures { Made (installed_by line.now name.now digits.now) result }
{
    let mut secret = [0u8; 32];
    decode(digits, &mut secret);
    install_keys(version(line, 1), level(name), side(line, 3), &secret)
}

// The keys that the four words of an installing call name: VERSION LEVEL client|server SECRET.
pub fn installed_of(line: &[u8]) -> Result<Keys, Refusal>
    ensures { Made (installed_named line.now) result }
{
    install(line, word(line, 2, END), word(line, 4, END))
}

// The keys that the first three words behind a command name: VERSION ID|LEVEL:SECRET client|server.
pub fn keys_of(line: &[u8]) -> Result<Keys, Refusal>
    ensures { Made (keys_named line.now) result }
{
    let origin = word(line, 2, END);
    if count(origin, b':') == 2 {
        return install(line, word(origin, 0, b':'), word(origin, 1, b':'));
    }
    initial_of(line)
}
