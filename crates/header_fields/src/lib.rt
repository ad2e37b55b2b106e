// RFC 9000 sections 16 and 17.2: where a field of a long header stands, in the order of docs/SCOPE.md, "Order of refusals".
#![tactic(auto)]

ghost use Rattle.std.specs.Prelude.{◌≡◌, ◌+◌, ◌≤◌, length};
ghost use Rattle.octets.specs.Octets.{part};
ghost use Rattle.header_fields.specs.Fields.{id_at, integer_at, field_at, rest_at};
ghost use Rattle.header_fields.specs.Answers.{found_answer};

use integers::read_integer;
use octets::refusal::Refusal;

// The longest connection ID.
pub const LONGEST_ID: usize = 20;

// RFC 9001 section 5.3: the tag's length.
pub const TAG_LENGTH: usize = 16;

// The smallest Length: a number and payload that reach the sample's end.
const LEAST_LENGTH: usize = 20;

// Where something stands in the datagram.
#[derive(Clone, Copy, Debug, PartialEq, Eq)]
pub struct Place {
    pub at: usize,
    pub len: usize,
}

// The parts of a header that are handed out.
#[derive(Clone, Copy, Debug, PartialEq, Eq)]
pub enum Part {
    Destination,
    Source,
    Token,
}

// A length byte and as many bytes: the length is judged before the bytes.
pub fn id_at(datagram: &[u8], at: usize) -> Result<Place, Refusal>
    ensures { found_answer result ≡ id_at datagram.now at }
{
    if datagram.len() <= at {
        return Err(Refusal::NotWhole);
    }
    let len = datagram[at] as usize;
    if LONGEST_ID < len {
        return Err(Refusal::LongId);
    }
    if datagram.len() - (at + 1) < len {
        return Err(Refusal::NotWhole);
    }
    Ok(Place { at: at + 1, len })
}

// An integer from a place on: where it ends, and its value.
// Kept: a place beside its datagram, here and in `field_at`, `rest_at` and the two `token_at`. docs/SCOPE.md, "Forms", names a struct
// of both, the reader, for a later request alone, and the laws of Fields.antt speak of the two.
fn integer_at(datagram: &[u8], at: usize) -> Result<Place, Refusal>
    requires { at ≤ length datagram.now }
    ensures { found_answer result ≡ integer_at datagram.now at }
{
    let integer = read_integer(&datagram[at..])?;
    Ok(Place {
        at: at + integer.taken,
        len: integer.value as usize,
    })
}

// A length and as many bytes.
pub fn field_at(datagram: &[u8], at: usize) -> Result<Place, Refusal>
    requires { at ≤ length datagram.now }
    ensures { found_answer result ≡ field_at datagram.now at }
{
    let field = integer_at(datagram, at)?;
    if datagram.len() - field.at < field.len {
        return Err(Refusal::NotWhole);
    }
    Ok(field)
}

// The rest of the packet, behind its Length: a Length that is too small is judged before its end.
// Kept: apart from `field_at`; one function with the least length as a parameter would judge a token by 0, which no rule says.
pub fn rest_at(datagram: &[u8], at: usize) -> Result<Place, Refusal>
    requires { at ≤ length datagram.now }
    ensures { found_answer result ≡ rest_at datagram.now at }
{
    let rest = integer_at(datagram, at)?;
    if rest.len < LEAST_LENGTH {
        return Err(Refusal::Short);
    }
    if datagram.len() - rest.at < rest.len {
        return Err(Refusal::NotWhole);
    }
    Ok(rest)
}

// The bytes at a place.
pub fn part_at(datagram: &[u8], place: Place) -> &[u8]
    requires { place.at + place.len ≤ length datagram.now }
    ensures { result.now ≡ part datagram.now place.at place.len }
{
    let start = place.at;
    let end = place.at + place.len;
    &datagram[start..end]
}
