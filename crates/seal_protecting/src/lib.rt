// Sealing, RFC 9001 sections 5.3 and 5.4: a packet whose header stands in the clear, protected, for any form of header.
#![tactic(auto)]

ghost use Rattle.header_forms.specs.Answers.{form_of};
ghost use Rattle.protection.specs.KeyRecord.{keys_of};
ghost use Rattle.seal_protecting.specs.Protecting.{Room, Protects};

use header_forms::Form;
use header_writing::Plain;
use protection::Keys;
use seal_body::write_body;
use seal_masking::protect;

// The packet at the buffer's start, its header there up to its number, which stands at a place: the payload encrypted behind it, then the
// header masked.
pub fn protect_packet(form: Form, keys: Keys, plain: Plain, place: usize, buffer: &mut [u8])
    requires { Room plain.number_length plain.payload.now place buffer.old }
    ensures { Protects (form_of form) (keys_of keys) plain.entry.number.0 plain.entry.number_length plain.entry.payload.now place buffer.old buffer.new }
{
    let key = keys.key;
    let iv = keys.iv;
    let hp = keys.hp;
    let count = plain.number_length;
    let nonce = protection::nonce_of(&iv, plain.number.0);
    write_body(&key, &nonce, plain.payload, buffer, place + count);
    let mask = protection::mask_of(&hp, buffer, place);
    protect(form, mask, place, count, buffer);
}
