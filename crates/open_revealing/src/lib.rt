// Opening, RFC 9001 section 5.4 undone: what stands under the mask, judged as far as the tag, for any form of header.
#![tactic(auto)]

ghost use Rattle.header_forms.specs.Answers.{form_of};
ghost use Rattle.protection.specs.KeyRecord.{keys_of};
ghost use Rattle.open_revealing.specs.Revealing.{Placed, Reveals};

use header_forms::{Form, reserved_bits};
use numbers_recovery::recover;
use octets::refusal::Refusal;
use open_unmasking::{Bare, Packet, unmask};
use protection::Keys;

// The packet whose number stands at a place, and that has `length` bytes from there on; its tag is still to be judged.
pub fn reveal(
    form: Form,
    keys: Keys,
    expected: u64,
    datagram: &[u8],
    place: usize,
    length: usize,
) -> Result<Packet, Refusal>
    requires { Placed expected datagram.now place length }
    ensures { Reveals (form_of form) (keys_of keys) expected datagram.now place length result }
{
    let Bare {
        first,
        count,
        truncated,
    } = unmask(form, keys, datagram, place);
    if reserved_bits(form, first) != 0 {
        return Err(Refusal::Reserved);
    }
    let number = recover(expected, truncated, count)?;
    Ok(Packet {
        first,
        count,
        truncated,
        number,
        place,
        length,
    })
}
