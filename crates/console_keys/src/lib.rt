// The words of a call that keys come of, judged: a connection ID for Initial keys, and for other levels a level and a secret there
// (RFC 9001 sections 5.1 and 5.2).
#![tactic(auto)]

ghost use Rattle.std.specs.Prelude.{◌≡◌};
ghost use Rattle.console_keys.specs.Words.{is_level, is_secret, is_origin, is_asked};

use console_words::{is_hex, is_right, wrong};
use terminal::Page;
use terminal_words::{count, same, word};

// The hex digits of a secret: AES-128-GCM goes with SHA-256, which has 32 bytes.
const SECRET: usize = 64;

// Whether a word names a level; where not, it is said why.
fn is_level(page: &mut Page, text: &[u8]) -> bool
    ensures { result ≡ is_level text.now }
{
    // Kept: as is_side of console_words.
    if same(text, b"initial") {
        return true;
    }
    if same(text, b"0-rtt") {
        return true;
    }
    if same(text, b"handshake") {
        return true;
    }
    wrong(page, b"LEVEL");
    page.say(b"neither initial nor 0-rtt nor handshake\n");
    false
}

// Whether a word is a secret; where not, it is said why.
fn is_secret(page: &mut Page, text: &[u8]) -> bool
    ensures { result ≡ is_secret text.now }
{
    if text.len() == SECRET {
        return is_hex(page, text, b"SECRET");
    }
    let all = text.len();
    wrong(page, b"SECRET");
    page.show(format_args!("{all} characters, where 64 hex digits are 32 bytes\n"));
    false
}

// Whether keys come of a word: of a level and a secret with a colon between them, or else of a connection ID; where not, it is said why.
fn is_origin(page: &mut Page, text: &[u8]) -> bool
    ensures { result ≡ is_origin text.now }
{
    if count(text, b':') != 2 {
        return is_hex(page, text, b"ID");
    }
    if !is_level(page, word(text, 0, b':')) {
        return false;
    }
    is_secret(page, word(text, 1, b':'))
}

// Whether a word is what the manual's name for it asks; where not, it is said why.
// Kept: as is_side of console_words.
pub fn is_asked(page: &mut Page, text: &[u8], name: &[u8]) -> bool
    ensures { result ≡ is_asked text.now name.now }
{
    if same(name, b"LEVEL") {
        return is_level(page, text);
    }
    if same(name, b"SECRET") {
        return is_secret(page, text);
    }
    if same(name, b"ID|LEVEL:SECRET") {
        return is_origin(page, text);
    }
    is_right(page, text, name)
}
