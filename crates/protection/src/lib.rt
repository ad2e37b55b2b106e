// RFC 9001 sections 5.3 and 5.4: one sender's keys, and the parts of protection that sealing and opening share.
#![tactic(auto)]

ghost use Rattle.std.specs.Prelude.{◌≡◌, ◌+◌, ◌≤◌, length};
ghost use Rattle.aes_byte_rounds.specs.Cipher.{cipher};
ghost use Rattle.protection.specs.Protection.{nonce, sample_of};

// One sender's keys, of one version and level.
// Kept: version and level are numbers, not enums: a record from the C interface (dw_open, dw_seal) may hold any, which opening refuses.
#[derive(Clone, Copy)]
pub struct Keys {
    pub version: u32,
    pub level: u8,
    pub key: [u8; 16],
    pub iv: [u8; 12],
    pub hp: [u8; 16],
}

// Section 5.3: the iv combined with the full number, left-padded with zeros to twelve bytes.
pub fn nonce_of(iv: &[u8; 12], number: u64) -> [u8; 12]
    ensures { result ≡ nonce iv.now number }
{
    let mut padded = [0u8; 12];
    octets::store(&mut padded, 4, 8, number);
    let mut combined = [0u8; 12];
    octets::copy_masked(&mut combined, 0, iv, &padded);
    combined
}

// Section 5.4.2: the sixteen bytes that start four bytes after the number's first byte.
fn sample_at(packet: &[u8], place: usize) -> [u8; 16]
    requires { place + 20 ≤ length packet.now }
    ensures { result ≡ sample_of packet.now place }
{
    let start = place + 4;
    let end = place + 20;
    let mut sample = [0u8; 16];
    sample.copy_from_slice(&packet[start..end]);
    sample
}

// Section 5.4.3: the mask of a packet whose number stands at a place.
pub fn mask_of(hp: &[u8; 16], packet: &[u8], place: usize) -> [u8; 16]
    requires { place + 20 ≤ length packet.now }
    ensures { result ≡ cipher hp.now (sample_of packet.now place) }
{
    let schedule = aes_schedule::expand_key(hp);
    let sample = sample_at(packet, place);
    aes_word_rounds::encrypt(&schedule, &sample)
}
