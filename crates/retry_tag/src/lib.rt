// The tag of a Retry: RFC 9001 section 5.8.
#![tactic(auto)]

ghost use Rattle.std.specs.Prelude.{◌≡◌, ◌≤◌, length};
ghost use Rattle.header_forms.specs.Rules.{in_force};
ghost use Rattle.header_fields.specs.Fields.{longest_id};
ghost use Rattle.retry_tag.specs.Tag.{retry_tag};

// RFC 9001 section 5.8: the tag of a Retry, from its bytes up to it and the original connection ID.
pub fn tag_of(number: u32, original: &[u8], packet: &[u8]) -> [u8; 16]
    requires { (length original.now ≤ longest_id) × (length packet.now ≤ in_force.limit) }
    ensures { result ≡ retry_tag number original.now packet.now }
{
    let key = versions::retry_key(number);
    let nonce = versions::retry_nonce(number);
    let schedule = aes_schedule::expand_key(&key);
    let hash_key = gcm::hash_key(&schedule);
    let count = original.len() as u8;
    let length = [count];
    gcm::make_tag(&schedule, hash_key, &nonce, &length, original, packet, b"")
}
