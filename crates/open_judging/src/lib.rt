// Opening, as far as the tag: the long header is read and what stands under the mask is found, each judged in the order of docs/SCOPE.md, "Order of refusals".
#![tactic(auto)]

ghost use Rattle.protection.specs.KeyRecord.{keys_of};
ghost use Rattle.open_judging.specs.Found.{Finds};

use header_fields::TAG_LENGTH;
use header_forms::{Form, judge_form};
use header_long::{Judge, Types};
use header_reading::read_fields;
use numbers::NUMBERS;
use octets::refusal::Refusal;
use open_revealing::reveal;
use open_unmasking::located::Located;
use protection::Keys;

// All that opening judges before the tag; no buffer is at hand to be written.
pub fn find<'a>(
    keys: Keys,
    expected: u64,
    datagram: &'a [u8],
    room: usize,
) -> Result<Located<'a>, Refusal>
    ensures { Finds (keys_of keys) expected datagram.now room result }
{
    if NUMBERS < expected {
        return Err(Refusal::Range);
    }
    if !versions::is_known(keys.version) {
        return Err(Refusal::Version);
    }
    judge_form(datagram, Form::Long)?;
    let judge = Judge {
        only: Some(keys.version),
        types: Types::Level(keys.level),
    };
    let header = read_fields(datagram, judge)?;
    let place = header.number_at;
    let length = header.length;
    if room < place + length - TAG_LENGTH {
        return Err(Refusal::Room);
    }
    let packet = reveal(Form::Long, keys, expected, datagram, place, length)?;
    Ok(Located { datagram, packet })
}
