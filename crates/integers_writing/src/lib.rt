// RFC 9000 section 16: integers, written into a lent buffer.
#![tactic(auto)]

ghost use Rattle.std.specs.Prelude.{◌≡◌, ◌+◌, ◌^◌, ◌≤◌, ◌<◌, length};
ghost use Rattle.octets.specs.Octets.{laid};
ghost use Rattle.integers_writing.specs.Written.{smallest, two};

// How many bytes the smallest form of an integer below 2^30 takes.
pub fn smallest_form(value: usize) -> usize
    ensures { result ≡ length (smallest value) }
{
    if value < 64 {
        return 1;
    }
    if value < 16384 {
        return 2;
    }
    4
}

// An integer below 2^14 in two bytes.
pub fn write_two(buffer: &mut [u8], at: usize, value: usize)
    requires { (value < 2 ^ 14) × (at + 2 ≤ length buffer.old) }
    ensures { buffer.new ≡ laid buffer.old at (two value) }
{
    octets::store(buffer, at, 2, 16384 + value as u64);
}

// An integer below 2^30 in its smallest form.
pub fn write_smallest(buffer: &mut [u8], at: usize, value: usize)
    requires { (value < 2 ^ 30) × (at + length (smallest value) ≤ length buffer.old) }
    ensures { buffer.new ≡ laid buffer.old at (smallest value) }
{
    if value < 64 {
        octets::store(buffer, at, 1, value as u64);
        return;
    }
    if value < 16384 {
        write_two(buffer, at, value);
        return;
    }
    octets::store(buffer, at, 4, 2147483648 + value as u64);
}
