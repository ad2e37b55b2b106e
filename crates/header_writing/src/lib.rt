// RFC 9000 section 17.2: long headers, written at the start of a lent buffer.
#![tactic(auto)]

ghost use Rattle.std.specs.Prelude.{◌≡◌, ◌∷◌, ◌+◌, ◌^◌, ◌≤◌, ◌<◌, length};
ghost use Rattle.octets.specs.Octets.{laid, Begins};
ghost use Rattle.header_forms.specs.Rules.{in_force};
ghost use Rattle.header_writing.specs.Written.{with_length, long_fields, token_bytes, packet_fields, FieldsFit};
ghost use Rattle.header_writing.specs.Answers.{token_of, WrittenBy};

use integers_writing::{smallest_form, write_smallest, write_two};
use numbers::FullPn;
use versions::level;

// What a packet with a long header is made of. An Initial has a field for a token, and no other packet with a number has one.
#[derive(Clone, Copy)]
pub struct Plain<'a> {
    pub number: FullPn,
    pub number_length: usize,
    pub destination: &'a [u8],
    pub source: &'a [u8],
    pub token: Option<&'a [u8]>,
    pub payload: &'a [u8],
}

// How many bytes the rules in force write Length in: two, whatever it counts.
pub fn length_form(_counted: usize) -> usize
    ensures { result ≡ length (in_force.length_form _counted) }
{
    2
}

// Length, as the rules in force write it.
fn write_length(buffer: &mut [u8], at: usize, counted: usize)
    requires { (counted ≤ in_force.limit) × (at + length (in_force.length_form counted) ≤ length buffer.old) }
    ensures { buffer.new ≡ laid buffer.old at (in_force.length_form counted) }
{
    write_two(buffer, at, counted);
}

// A connection ID behind its length byte.
fn write_id(buffer: &mut [u8], at: usize, id: &[u8])
    requires { (length id.now ≤ 255) × (at + 1 + length id.now ≤ length buffer.old) }
    ensures { buffer.new ≡ laid buffer.old at (with_length id.now) }
{
    octets::put(buffer, at, id.len() as u8);
    octets::copy(buffer, at + 1, id);
}

// Section 17.2: what every long header begins with; where it ends.
pub fn write_long(
    buffer: &mut [u8],
    first: u8,
    version: u32,
    destination: &[u8],
    source: &[u8],
) -> usize
    requires { (length destination.now ≤ 255) × (length source.now ≤ 255) × (7 + length destination.now + length source.now ≤ length buffer.old) }
    ensures { Begins (first ∷ long_fields version destination.now source.now) buffer.old buffer.new result }
{
    octets::put(buffer, 0, first);
    octets::store(buffer, 1, 4, version as u64);
    write_id(buffer, 5, destination);
    let source_at = 6 + destination.len();
    write_id(buffer, source_at, source);
    source_at + 1 + source.len()
}

// Whether keys of a level write packets with that token's field, or with none.
pub fn is_written_by(token: Option<&[u8]>, level: u8) -> bool
    ensures { WrittenBy token.entry level result }
{
    match token {
        Some(_) => level == level::INITIAL,
        None => level == level::ZERO_RTT || level == level::HANDSHAKE,
    }
}

// How many bytes a token takes with its length.
pub fn token_form(token: Option<&[u8]>) -> usize
    requires { length (token_bytes (token_of token)) < 2 ^ 30 }
    ensures { result ≡ length (token_bytes (token_of token.entry)) }
{
    match token {
        Some(token) => smallest_form(token.len()) + token.len(),
        None => 0,
    }
}

// Section 17.2.2: the token behind its length, where the packet has a field for it.
fn write_token(buffer: &mut [u8], at: usize, token: Option<&[u8]>)
    requires { (length (token_bytes (token_of token)) < 2 ^ 30) × (at + length (token_bytes (token_of token)) ≤ length buffer.old) }
    ensures { buffer.new ≡ laid buffer.old at (token_bytes (token_of token.entry)) }
{
    if let Some(token) = token {
        write_smallest(buffer, at, token.len());
        octets::copy(buffer, at + smallest_form(token.len()), token);
    }
}

// Sections 17.2.2 to 17.2.4: the fields before the number; where they end.
pub fn write_fields(
    buffer: &mut [u8],
    first: u8,
    version: u32,
    plain: Plain,
    counted: usize,
) -> usize
    requires { FieldsFit plain.destination.now plain.source.now (token_of plain.token) counted buffer.old }
    ensures { Begins (first ∷ packet_fields in_force version plain.entry.destination.now plain.entry.source.now (token_of plain.entry.token) counted) buffer.old buffer.new result }
{
    let token_at = write_long(buffer, first, version, plain.destination, plain.source);
    write_token(buffer, token_at, plain.token);
    let length_at = token_at + token_form(plain.token);
    write_length(buffer, length_at, counted);
    length_at + length_form(counted)
}
