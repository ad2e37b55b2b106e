// Retry packets, checked: RFC 9000 section 17.2.5 and RFC 9001 section 5.8.
#![tactic(auto)]

ghost use Rattle.std.specs.Prelude.{◌≡◌, ◌≤◌, length};
ghost use Rattle.header_forms.specs.Rules.{in_force};
ghost use Rattle.header_fields.specs.Answers.{place_of, found_answer};
ghost use Rattle.header_long.specs.Answers.{long_answer};
ghost use Rattle.retry_checking.specs.Retry.{token_at, retry_header};
ghost use Rattle.retry_checking.specs.Answers.{fields_of, retry_place, CheckRetry};

use header_fields::{LONGEST_ID, Part, Place, TAG_LENGTH};
use header_forms::{Form, judge_form};
use header_long::{Judge, Long, Types, read_long};
use octets::refusal::Refusal;
use retry_tag::tag_of;

// The version of a Retry that was checked, and where its parts stand.
#[derive(Clone, Copy, Debug, PartialEq, Eq)]
pub struct RetryFields {
    pub version: u32,
    pub destination: Place,
    pub source: Place,
    pub token: Place,
}

impl RetryFields {
    // Where a part stands.
    pub fn place(self, part: Part) -> Place
        ensures { place_of result ≡ retry_place part (fields_of self) }
    {
        match part {
            Part::Destination => self.destination,
            Part::Source => self.source,
            Part::Token => self.token,
        }
    }
}

// RFC 9000 section 17.2: what a Retry begins with, as every long header does.
fn read_retry(datagram: &[u8]) -> Result<Long, Refusal>
    ensures { long_answer result ≡ retry_header in_force datagram.now }
{
    judge_form(datagram, Form::Long)?;
    let judge = Judge {
        only: None,
        types: Types::Retry,
    };
    read_long(datagram, judge)
}

// The token: all between a place and the tag that ends the datagram.
fn token_at(datagram: &[u8], at: usize) -> Result<Place, Refusal>
    requires { at ≤ length datagram.now }
    ensures { found_answer result ≡ token_at datagram.now at }
{
    let behind = datagram.len() - at;
    if behind < TAG_LENGTH {
        return Err(Refusal::NotWhole);
    }
    let len = behind - TAG_LENGTH;
    if len < 1 {
        return Err(Refusal::NoToken);
    }
    Ok(Place { at, len })
}

// RFC 9001 section 5.8: a Retry that answers the original connection ID, its tag compared.
pub fn check_retry(original: &[u8], datagram: &[u8]) -> Result<RetryFields, Refusal>
    ensures { CheckRetry original.now datagram.now result }
{
    if LONGEST_ID < original.len() {
        return Err(Refusal::LongId);
    }
    let long = read_retry(datagram)?;
    let token = token_at(datagram, long.source.at + long.source.len)?;
    let tag_at = token.at + token.len;
    let tag = tag_of(long.version, original, &datagram[..tag_at]);
    if !gcm::same_tag(&datagram[tag_at..], &tag) {
        return Err(Refusal::Tag);
    }
    Ok(RetryFields {
        version: long.version,
        destination: long.destination,
        source: long.source,
        token,
    })
}
