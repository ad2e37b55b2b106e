// Sealing, RFC 9001 section 5.3: the payload encrypted behind its header, and the tag over both.
#![tactic(auto)]

ghost use Rattle.std.specs.Prelude.{◌≡◌, ◌+◌, ◌-◌, ◌≤◌, length, take};
ghost use Rattle.octets.specs.Octets.{laid, part};
ghost use Rattle.gcm.specs.Gcm.{tag_by, hash_key};
ghost use Rattle.header_forms.specs.Rules.{in_force};
ghost use Rattle.protection.specs.Clear.{body_with};
ghost use Rattle.protection.specs.AesGcm.{aes_gcm};

// Section 5.3: the tag over a header that ends at a place, and the ciphertext from there to an end.
fn tag_over(
    schedule: &[u8; 176],
    nonce: &[u8; 12],
    packet: &[u8],
    at: usize,
    end: usize,
) -> [u8; 16]
    requires { (at ≤ end) × (end ≤ length packet.now) × (end ≤ in_force.limit) }
    ensures { result ≡ tag_by schedule.now (hash_key schedule.now) nonce.now (take at packet.now) (part packet.now at (end - at)) }
{
    let hash_key = gcm::hash_key(schedule);
    gcm::make_tag(
        schedule,
        hash_key,
        nonce,
        &packet[..at],
        b"",
        b"",
        &packet[at..end],
    )
}

// Section 5.3: the payload encrypted behind a header that stands at the buffer's start up to `at`, and the tag over both.
pub fn write_body(key: &[u8; 16], nonce: &[u8; 12], payload: &[u8], buffer: &mut [u8], at: usize)
    requires { (at + length payload.now + 16 ≤ length buffer.old) × (at + length payload.now ≤ in_force.limit) }
    ensures { buffer.new ≡ laid buffer.old at (body_with aes_gcm key.now nonce.now (take at buffer.old) payload.now) }
{
    let schedule = aes_schedule::expand_key(key);
    gcm_counter::crypt(&schedule, nonce, payload, buffer, at);
    let end = at + payload.len();
    let tag = tag_over(&schedule, nonce, buffer, at, end);
    octets::copy(buffer, end, &tag);
}
