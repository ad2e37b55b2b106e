// A call, as a line of words, judged by the manual: a line for each command, with a name for each word behind it.
#![tactic(auto)]

ghost use Rattle.std.specs.Prelude.{true, ◌≡◌};
ghost use Rattle.terminal_words.specs.Words.{words_from};
ghost use Rattle.console_calls.specs.Calls.{are_right, usage_of, enough, well_made};
ghost use Rattle.terminal.specs.Pages.{FailureStays};

use console::fields::END;
use console_keys::is_asked;
use console_words::wrong;
use terminal::Page;
use terminal_words::{count, same, word};

// What the manual's names mean.
const NOTES: [u8; 559] =
    *b"VERSION is 1, or 0x709a50c4 for the version 2 draft; a number is decimal, or hex behind 0x\n\
ID, for Initial keys, is the Destination Connection ID of the client's first Initial, or after a Retry the Retry's source\n\
LEVEL is initial, 0-rtt or handshake; SECRET is the secret of TLS for it and for who sealed, 32 bytes of hex\n\
client|server is who sealed; ACKNOWLEDGED is the greatest number acknowledged, or -\n\
IDs, TOKEN, PAYLOAD and DATAGRAM are hex, or - for nothing\n\
FILE has a datagram, or a call for a script, on each line; # starts a comment; - is the input\n";

// The manual's line on a command, and nothing where there is none.
fn usage_of<'a>(manual: &'a [u8], command: &[u8]) -> &'a [u8]
    ensures { result.now ≡ usage_of manual.now command.now }
{
    for i in 0..count(manual, b'\n') {
        let usage = word(manual, i, b'\n');
        if same(word(usage, 1, b' '), command) {
            return usage;
        }
    }
    &manual[..0]
}

// The whole manual, and what its names mean.
fn show(page: &mut Page, manual: &[u8])
    ensures { FailureStays page.old page.new }
{
    page.say(b"usage:\n");
    page.say(manual);
    page.say(&NOTES);
}

// Whether there are as many words behind a command as the manual's line has; where not, it is said how many.
fn are_enough(page: &mut Page, line: &[u8], usage: &[u8]) -> bool
    ensures { result ≡ enough line.now usage.now }
{
    let given = count(line, END).saturating_sub(1);
    let wanted = count(usage, b' ').saturating_sub(2);
    if given == wanted {
        return true;
    }
    wrong(page, b"call");
    page.show(format_args!("{given} words behind the command, which takes {wanted}\n"));
    false
}

// Whether each word behind the command is what the manual's name for it asks.
fn are_right(page: &mut Page, line: &[u8], usage: &[u8]) -> bool
    requires { enough line.now usage.now ≡ true }
    ensures { result ≡ are_right (words_from 0 line.now 1) (words_from 32 usage.now 2) }
{
    for i in 1..count(line, END) {
        if !is_asked(page, word(line, i, END), word(usage, i + 1, b' ')) {
            return false;
        }
    }
    true
}

// A word that is no command; where there is none, nothing is wrong with it.
fn unknown(page: &mut Page, command: &[u8])
    ensures { FailureStays page.old page.new }
{
    if !command.is_empty() {
        wrong(page, b"call");
        page.say(command);
        page.say(b" is no command\n");
    }
}

// Whether a call is as the manual has it; where not, it is said what is wrong, and how it is made.
pub fn is_well_made(page: &mut Page, line: &[u8], manual: &[u8]) -> bool
    ensures { result ≡ well_made line.now manual.now }
{
    let command = word(line, 0, END);
    let usage = usage_of(manual, command);
    if usage.is_empty() {
        unknown(page, command);
        show(page, manual);
        return false;
    }
    if are_enough(page, line, usage) {
        if are_right(page, line, usage) {
            return true;
        }
    }
    page.say(b"usage: ");
    page.say(usage);
    page.say(b"\n");
    false
}
