// Words of a text: the runs of characters between separators.
#![tactic(auto)]

ghost use Rattle.std.specs.Prelude.{◌≡◌, ◌≤◌, length};
ghost use Rattle.octets.specs.Octets as Octets;
ghost use Rattle.terminal_words.specs.Words.{end_at, past_at, word_at, word_of, starts_at, word_count};

// Whether two texts are the same.
// Kept: docs/TRACE.md names it, and text_compared_with_itself.edit stands in it.
pub fn same(a: &[u8], b: &[u8]) -> bool
    ensures { result ≡ Octets.same a.now b.now }
{
    a == b
}

// From a place on, where a character stands that is no separator, or the end.
// Kept: apart from next_separator, since one function over a test would be the same call of position, with clauses on the test besides.
fn past_separators(text: &[u8], start: usize, separator: u8) -> usize
    requires { start ≤ length text.now }
    ensures { (start ≤ result) × (result ≤ length text.now) × (result ≡ past_at separator text.now start) }
{
    start
        + text[start..]
            .iter()
            .position(|character| *character != separator)
            .unwrap_or(text.len() - start)
}

// From a place on, where a separator stands, or the end.
pub fn next_separator(text: &[u8], start: usize, separator: u8) -> usize
    requires { start ≤ length text.now }
    ensures { (start ≤ result) × (result ≤ length text.now) × (result ≡ end_at separator text.now start) }
{
    start
        + text[start..]
            .iter()
            .position(|character| *character == separator)
            .unwrap_or(text.len() - start)
}

// Where the word of an index starts, counted from 0, or the end where there are fewer.
fn word_start(text: &[u8], index: usize, separator: u8) -> usize
    ensures { (result ≤ length text.now) × (result ≡ word_at separator text.now index) }
{
    let mut at = past_separators(text, 0, separator);
    for _i in 0..index {
        at = past_separators(text, next_separator(text, at, separator), separator);
    }
    at
}

// The word of an index, counted from 0, and nothing where there are fewer.
pub fn word(text: &[u8], index: usize, separator: u8) -> &[u8]
    ensures { result.now ≡ word_of separator text.now index }
{
    let start = word_start(text, index, separator);
    let end = next_separator(text, start, separator);
    &text[start..end]
}

// Whether a word starts at a place.
fn starts(text: &[u8], at: usize, separator: u8) -> bool
    ensures { result ≡ starts_at separator text.now at }
{
    if text.len() <= at {
        return false;
    }
    if text[at] == separator {
        return false;
    }
    at == 0 || text[at - 1] == separator
}

// How many words there are.
pub fn count(text: &[u8], separator: u8) -> usize
    ensures { result ≡ word_count separator text.now }
{
    let mut words: usize = 0;
    for at in 0..text.len() {
        if starts(text, at, separator) {
            words += 1;
        }
    }
    words
}
