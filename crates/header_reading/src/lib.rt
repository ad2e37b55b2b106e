// RFC 9000 sections 17.2.2 to 17.2.4: the header of a packet with a number, read up to it in the order of docs/SCOPE.md, "Order of refusals".
#![tactic(auto)]

ghost use Rattle.std.specs.Prelude.{◌≡◌, ◌≤◌, length};
ghost use Rattle.header_fields.specs.Answers.{place_of};
ghost use Rattle.header_long.specs.Answers.{judge_of};
ghost use Rattle.header_reading.specs.PacketHeader.{token_at, header};
ghost use Rattle.header_reading.specs.Answers.{token_answer, header_of, header_place, reading_answer, ReadHeader};

use header_fields::{Part, Place, field_at, rest_at};
use header_forms::{Form, judge_form};
use header_long::{Judge, Types, read_long};
use octets::refusal::Refusal;
use versions::level;

// Where a token stands, and where the fields go on behind it.
#[derive(Clone, Copy)]
struct Token {
    place: Place,
    end: usize,
}

// The header of a packet with a number, up to it.
#[derive(Clone, Copy, Debug, PartialEq, Eq)]
pub struct Header {
    pub version: u32,
    pub level: u8,
    pub destination: Place,
    pub source: Place,
    pub token: Place,
    pub length: usize,
    pub number_at: usize,
}

impl Header {
    // Where a part stands.
    pub fn place(self, part: Part) -> Place
        ensures { place_of result ≡ header_place part (header_of self) }
    {
        match part {
            Part::Destination => self.destination,
            Part::Source => self.source,
            Part::Token => self.token,
        }
    }
}

// Section 17.2.2: the token of an Initial packet. Packets of another level have no field for it, and 0 stands for its place and length.
fn token_at(datagram: &[u8], level: u8, at: usize) -> Result<Token, Refusal>
    requires { at ≤ length datagram.now }
    ensures { token_answer result ≡ token_at level datagram.now at }
{
    if level != level::INITIAL {
        return Ok(Token {
            place: Place { at: 0, len: 0 },
            end: at,
        });
    }
    let place = field_at(datagram, at)?;
    Ok(Token {
        place,
        end: place.at + place.len,
    })
}

// Sections 17.2.2 to 17.2.4: the header behind a first byte that was judged, as far as the reader takes it.
pub fn read_fields(datagram: &[u8], judge: Judge) -> Result<Header, Refusal>
    ensures { reading_answer result ≡ header (judge_of judge) datagram.now }
{
    let long = read_long(datagram, judge)?;
    let token = token_at(datagram, long.kind, long.source.at + long.source.len)?;
    let rest = rest_at(datagram, token.end)?;
    Ok(Header {
        version: long.version,
        level: long.kind,
        destination: long.destination,
        source: long.source,
        token: token.place,
        length: rest.len,
        number_at: rest.at,
    })
}

// The header of a packet with a number, of either version and any level.
pub fn read_header(datagram: &[u8]) -> Result<Header, Refusal>
    ensures { ReadHeader datagram.now result }
{
    judge_form(datagram, Form::Long)?;
    let judge = Judge {
        only: None,
        types: Types::Leveled,
    };
    read_fields(datagram, judge)
}
