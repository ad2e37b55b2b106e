// The padding of a message (FIPS 180-4 section 5.1.1).
#![tactic(auto)]

ghost use Rattle.std.specs.Prelude.{◌≡◌, ◌++◌, ◌+◌, ◌*◌, ◌%◌, ◌^◌, ◌≤◌, ◌<◌, length, replicate};
ghost use Rattle.octets.specs.Octets.{Begins};
ghost use Rattle.sha256_padding.specs.Padding.{padding};

// How long a tail is when it is padded: the fewest blocks that hold it, 0x80 and the length's eight bytes.
fn padded_length(tail: usize) -> usize
    requires { tail < 64 }
    ensures { (result % 64 ≡ 0) × (tail + 9 ≤ result) × (result < tail + 9 + 64) }
{
    (tail + 72) / 64 * 64
}

// The tail of a message of so many bytes, and the padding behind it, laid over two blocks of zeros. It answers how long they are.
pub fn pad(blocks: &mut [u8], tail: &[u8], total: u64) -> usize
    requires { (blocks.old ≡ replicate 128 0) × (length tail.now < 64) × (total % 64 ≡ length tail.now) × (8 * total < 2 ^ 64) }
    ensures { (result ≤ 128) × Begins (tail.now ++ padding total) blocks.old blocks.new result }
{
    let end = padded_length(tail.len());
    octets::copy(blocks, 0, tail);
    octets::put(blocks, tail.len(), 0x80);
    octets::store(blocks, end - 8, 8, 8 * total);
    end
}
